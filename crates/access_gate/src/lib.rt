//! Whether a read is admitted, or which error of which conit it waits for.
#![tactic(auto)]

mod gate;

pub use gate::{Facts, Verdict, admit};

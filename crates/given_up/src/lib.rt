//! A list that only proofs read: what was held, and isn't any more.
#![tactic(auto)]

mod list;

pub use list::GivenUp;

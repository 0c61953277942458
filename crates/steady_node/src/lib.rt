//! Calls on nodes that go on where journals fail: the node is begun anew from its journal, and what came of the call is
//! found out.
#![tactic(auto)]

mod asking;
mod ending;
mod mending;
mod settling;
mod taking;

pub use asking::{call, release, reserve, write_held};
pub use ending::Ending;
pub use mending::{mend, moment, no_memory, restart};
pub use taking::take;

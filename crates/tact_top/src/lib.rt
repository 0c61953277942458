//! The commands on records, and what all commands have in common: an input is read to its end, something is
//! made of it, and a text is written.
#![tactic(auto)]

mod checking;
mod counting;
mod drilling;
mod job;
mod ordering;
mod packing;
mod playing;
mod reading;
mod roaming;
mod run_words;
mod running;
mod selling;
mod top;
mod words;

pub use checking::check;
pub use drilling::drill;
pub use ordering::primary;
pub use packing::{pack, unpack};
pub use roaming::roam;
pub use selling::sales;
pub use top::tact;

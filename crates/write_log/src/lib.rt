//! The logs of the writes that a replica has, one by origin.
#![tactic(auto)]

mod log;
mod logs;
mod taken;

pub use logs::Logs;
pub use taken::Taken;

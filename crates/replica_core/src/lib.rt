//! A replica: what it has of each origin, in order and committed, what it knows of its peers, and the
//! entries that it makes.
#![tactic(auto)]

mod fault;
mod last_one;
mod replica;
mod seen;
mod told_logs;

pub use fault::{CoreFault, LoanFault};
pub use last_one::LastOne;
pub use replica::Replica;

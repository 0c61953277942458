//! The value behind a node's lock: a replica with its clerk, and each entry kept in a journal before it is made.
#![tactic(auto)]

mod fault;
mod keeping;
mod lending;
mod loan;
mod locked;
mod parcel;
mod recalling;
mod restarting;
mod sending;
mod taking;

pub use fault::{NodeFault, NodeLoanFault, RestartFault, TakeFault};
pub use loan::Loan;
pub use locked::Locked;
pub use parcel::Parcel;
pub use restarting::{Found, conit_of, given_up};

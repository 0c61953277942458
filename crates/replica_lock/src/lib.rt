//! Nodes: clients that share a replica under a lock, every reply in one lawful history.
#![tactic(auto)]

mod allowance;
mod asking;
mod counts;
mod ended;
mod fault;
mod label;
mod ledger;
mod lending;
mod locked_box;
mod marking;
mod node;
mod owe;
mod reserving;
mod restarting;
mod resuming;
mod roster;
mod sending;
mod session;
mod taking;
mod turn;

pub use allowance::Allowance;
pub use ended::{Ended, Stored};
pub use fault::{NewFault, SessionFault};
pub use locked_replica::{NodeFault, NodeLoanFault, Parcel, RestartFault, TakeFault};
pub use node::Node;
pub use reserving::{Accepted, Reserving};
pub use resuming::Resumed;
pub use roster::Roster;
pub use session::Session;
pub use turn::Turn;

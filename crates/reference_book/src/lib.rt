//! The true values over all writes that the replicas of a setup accepted, and how far a replica is from them.
#![tactic(auto)]

mod book;
mod errors;

pub use book::Book;
pub use errors::Errors;

//! All writes that a replica has seen, in the order of stamps, origins and indices; a front of them is
//! committed.
#![tactic(auto)]

mod merging;
mod ordered;

pub use ordered::Ordered;

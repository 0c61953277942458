//! The replicas of a setup side by side, which stand for a history of all of them.
#![tactic(auto)]

mod set;

pub use set::ReplicaSet;

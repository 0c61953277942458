//! The replicas of a setup with all that they did: whatever they do, the entries are a run, for whose part each stands.
#![tactic(auto)]

mod copies;
mod network;

pub use copies::{copied_reply, copied_request};
pub use network::Network;

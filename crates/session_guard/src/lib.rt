//! Roaming clients: they move between replicas and keep four session guarantees (after Terry and others, 1994), read your
//! writes, monotonic reads, monotonic writes and writes follow reads.
#![tactic(auto)]

mod client;
mod counts;
mod journey;
mod pass;
mod roam;
mod steps;
mod visiting;

pub use pass::Pass;
pub use roam::{Roam, STEPS_MAX};
pub use steps::{Handed, Outcome, Step, Visit};
pub use visiting::visit;

//! Workloads on threads: a worker for each client, over links that lose, double and turn what is sent.
#![tactic(auto)]

mod closing;
mod leading;
mod leaving;
mod merge;
mod room;
mod run;
mod seat;
mod settling;
mod site;
mod tending;
mod trying;
mod worker;
mod working;

pub use run::{Run, RunFault, run_plan};

//! What every run keeps, proved once of all histories, and what a user concludes of it.
#![tactic(auto)]

mod conclusions;
mod laws;

pub use conclusions::{
    committed_stays_committed, free_reads_never_wait, same_writes_same_state,
    strict_reads_tell_the_truth, writes_wait_for_their_budget_alone,
};
pub use laws::{each_part_can_be, runs_keep_their_promises};

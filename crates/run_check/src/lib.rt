//! The checker of records: it accepts exactly those of runs, and says of every other which entry is the first
//! that may not stand, and why.
#![tactic(auto)]

mod check;
mod judging;
mod kept;
mod laws;
mod outboxes;
mod printing;
mod refusal;
mod summary;
mod verdict;

pub use check::check_record;
pub use laws::{lawful_entries_fail_no_test, lawful_records_are_those_of_runs, one_verdict_is_due};
pub use printing::put_verdict;
pub use verdict::{Summary, Verdict};

//! The end of a link that loses, repeats and reorders what is sent over it, by a plan.
#![tactic(auto)]

mod inbox;
mod laws;
mod plan;
mod twin;

pub use inbox::{Counts, Inbox, PutFault};
pub use laws::{counts_add_up, first_in_first_out};
pub use plan::{Fate, INBOX_MAX, LinkPlan};
pub use twin::Twin;

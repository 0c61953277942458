//! The history table: threads draw entries at ticks, and all that they draw is one lawful history.
#![tactic(auto)]

mod clerk;
mod desk;
mod history;
mod laws;
mod note;
mod plays;
mod steps;
mod view;

pub use clerk::Clerk;
pub use desk::Desk;
pub use history::History;
pub use laws::rule_of_history;
pub use note::Note;

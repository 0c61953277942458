//! The journal of a replica's entries: the piece of each is appended as the entry is made, and where that fails the
//! journal is halted with the entry in doubt.
#![tactic(auto)]

mod keeping;

pub use journal_reread::RereadFault;
pub use keeping::{EntryJournal, Restarted};

//! Journals of replicas: entries as pieces of bytes, and the replica that a journal gives back.
#![tactic(auto)]

mod fault;
mod get_piece;
mod laws;
mod parts;
mod put_piece;
mod recovered;
mod recovering;

pub use fault::RecoverFault;
pub use laws::{due_can_be_put, one_entry_of_piece, put_is_read};
pub use put_piece::{call_piece, put_entry};
pub use recovered::{EntryList, Recovered};
pub use recovering::recover;

//! What a journal gives back, compared with the entries that were stored: the replica is made again, and the entry in
//! doubt is found to be there or not.
#![tactic(auto)]

mod answer;
mod comparing;
mod fault;
mod rereading;
mod spelling;

pub use answer::Reread;
pub use fault::RereadFault;
pub use rereading::reread;

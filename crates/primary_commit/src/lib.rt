//! A second order of commitment: one replica, the primary, numbers all operations, and the others learn its order.
#![tactic(auto)]

mod fitting;
mod items;
mod logs;
mod peer;
mod posting;
mod primary;
mod settling;
mod taking;

pub use items::{Item, ItemList, Notice, Pick, PickList};
pub use peer::{Peer, PeerFault};
pub use primary::{EVENTS_MAX, Event, Primary};

//! What peers accept, and what they tell each other.

use tact_base::{Items, Numbers, Op};

/// An operation that a peer accepted: the peer, how many it had accepted before, and what it does.
#[derive(Clone, Copy, Debug, PartialEq, Eq)]
pub struct Item {
    pub origin: u32,
    pub index: u64,
    pub op: Op,
}

/// An item by its origin and its index alone.
#[derive(Clone, Copy, Debug, PartialEq, Eq)]
pub struct Pick {
    pub origin: u32,
    pub index: u64,
}

/// Items, in order.
pub type ItemList = Items<Item>;

/// Picks, in order.
pub type PickList = Items<Pick>;

/// What a peer tells another: by origin the index of the first item told, the items from there on, origin by origin, as
/// many as there is room for; and of the order that it was told the picks from a place on. Postings of a peer are numbered
/// from 0.
#[derive(Debug, Drop)]
pub struct Notice {
    pub from: u32,
    pub to: u32,
    pub number: u64,
    pub firsts: Numbers,
    pub items: ItemList,
    pub place: u64,
    pub picks: PickList,
}

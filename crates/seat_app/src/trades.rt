//! The trades of a booking, and what they come to.

use crate::Sale;

/// How many trades a booking may make.
pub const TRADES_MAX: u64 = 10_000;

/// The key whose value the trades change, and the client that asks for them.
pub const KEY: u64 = 0;

pub const CLIENT: u32 = 0;

/// A trade: places are sold or cancelled at a replica, a replica sends to another, or the message of a number is taken
/// by its receiver, counted from 0 over all sendings.
#[derive(Clone, Copy, Debug, PartialEq, Eq)]
pub enum Trade {
    Sell { replica: u32, amount: u64 },
    Cancel { replica: u32, amount: u64 },
    Send { from: u32, to: u32 },
    Take { message: u64 },
}

/// A trade, with the moment that was handed to it.
#[derive(Clone, Copy, Debug, PartialEq, Eq)]
pub struct Handed {
    pub moment: u64,
    pub trade: Trade,
}

/// What a trade comes to: what its sale or cancellation does, or that a message was moved.
#[derive(Debug, Drop, PartialEq, Eq)]
pub enum Outcome {
    Traded(Sale),
    Moved,
}

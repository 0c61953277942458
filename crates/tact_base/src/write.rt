ghost use Rattle.std.specs.Prelude.{◌≡◌};
ghost use Rattle.tact_base.specs.Covers.{later_cover};
ghost use Rattle.tact_base.specs.WriteOrder.{comes_before, write_place};

use crate::{Items, SharedList, ShortItems, Weights};
use std::alloc::AllocError;

/// What a replica is known to have of one origin: a state that this origin was in.
#[derive(Clone, Copy, Debug, Default, PartialEq, Eq)]
pub struct Cover {
    /// How many writes the origin had accepted.
    pub count: u64,
    /// The origin's clock.
    pub stamp: u64,
    /// The moment of that state.
    pub moment: u64,
}

impl Cover {
    /// This cover after a told one: the told one where none of its three numbers is less, else this one.
    /// Takes no memory.
    pub fn later(self, told: Cover) -> Cover
        ensures { result ≡ later_cover self told }
    {
        let is_later = self.count <= told.count
            && self.stamp <= told.stamp
            && self.moment <= told.moment;
        if is_later { told } else { self }
    }
}

/// What a write does to the values of keys. An absent key has the value 0.
#[derive(Clone, Copy, Debug, PartialEq, Eq)]
pub enum Op {
    /// Sets the value of a key.
    Put { key: u64, value: i64 },
    /// Adds to the value of a key, and stops at 10^15 and -10^15.
    Add { key: u64, delta: i64 },
    /// Takes the amount from one key and adds it to the other, stopping at 10^15, where the first key has
    /// at least the amount and the keys differ. Otherwise it does nothing.
    Shift { from: u64, to: u64, amount: u64 },
}

/// A write that a replica accepted.
#[derive(Copy, Debug, PartialEq, Eq)]
pub struct Write {
    /// The replica that accepted it.
    pub origin: u32,
    /// How many writes its origin had accepted before.
    pub index: u64,
    /// Its origin's clock with it: what it is ordered by first.
    pub stamp: u64,
    /// When it was accepted.
    pub moment: u64,
    /// What it weighs on conits.
    pub weights: Weights,
    /// What it does.
    pub op: Op,
}

impl Clone for Write {
    ghost is_clone = { λ old new. new ≡ old };

    ghost is_infallible = { λ _. Unit {0} };

    fn clone(&self) -> Result<Self, AllocError> {
        Ok(*self)
    }
}

/// A place in the order of all writes: by stamp, then origin, then index (Golding's timestamped
/// anti-entropy, made total). No two writes of a run have the same one.
#[derive(Clone, Copy, Debug, PartialEq, Eq, PartialOrd, Ord)]
pub struct Place {
    /// The stamp of the write that has it.
    pub stamp: u64,
    /// Its origin.
    pub origin: u32,
    /// Its index.
    pub index: u64,
}

impl Write {
    /// Its place in the order of all writes.
    pub fn place(&self) -> Place
        ensures { result ≡ write_place self.now }
    {
        Place {
            stamp: self.stamp,
            origin: self.origin,
            index: self.index,
        }
    }

    /// Whether it comes before another in the order of all writes.
    pub fn comes_before(&self, other: &Write) -> bool
        ensures { result ≡ comes_before self.now other.now }
    {
        self.place() < other.place()
    }
}

/// The least peer that is late, and the moment of its cover.
#[derive(Clone, Copy, Debug, PartialEq, Eq)]
pub struct Late {
    /// The peer.
    pub replica: u32,
    /// The moment of its cover.
    pub moment: u64,
}

/// A list of writes.
pub type WriteList = Items<Write>;

/// A list of writes that several messages share.
pub type SharedWrites = SharedList<Write>;

/// A list of covers, by origin.
pub type Covers = ShortItems<Cover>;

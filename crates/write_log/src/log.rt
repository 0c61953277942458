//! The log of one origin, of which the first writes may be given up.
ghost use Rattle.std.specs.Prelude.{◌≡◌, ◌+◌, ◌-◌, ◌≤◌, [], max, OnOk, OnErr, IsOk, length, slice_range};
ghost use Rattle.write_log.specs.OneLog.{have_of, TakesTold};

use crate::Taken;
use given_up::GivenUp;
use std::alloc::Global;
use std::marker::Model;
use tact_base::{NoMemory, RoomyList, Write};

/// The writes of an origin, of which the first may be given up. Their memory is that of others once they are as many
/// as those behind them, which then move to the front. Contracts see all of them, how many were given up, and the room:
/// how many more can surely be held without taking memory, and still be counted.
#[derive(Debug, Drop)]
pub(crate) struct Log {
    base: u64,
    dropped: u64,
    gone: GivenUp<Write>,
    held: RoomyList<Write>,
}

impl Model for Log {
    ghost use Rattle.std.specs.Prelude.{◌+◌, ◌-◌, ◌^◌, ◌++◌, min, length};
    ghost use Rattle.write_log.specs.OneLog.{OneLog, KeepsLog};

    ghost Value = { OneLog };

    ghost view = { λ s. record {
      all = s.gone.items ++ s.held.items;
      base = s.base;
      room = min s.held.room (2 ^ 64 - 1 - (s.dropped + length s.held.items));
    } };

    ghost invariant = { λ s. KeepsLog s.gone.items s.held.items s.dropped s.base };
}

impl Log {
    /// The empty log, whose writes will lie in memory of `alloc`. Takes no memory.
    pub(crate) fn new(alloc: Global) -> Log
        ensures base { result.base ≡ 0 }
        ensures all { result.all ≡ [] }
    {
        Log {
            base: 0,
            dropped: 0,
            gone: GivenUp::new(),
            held: RoomyList::new(alloc),
        }
    }

    /// Makes room for at least `k` more writes, without memory where there is so much. `NoMemory` leaves
    /// everything as it was.
    pub(crate) fn reserve(&mut self, k: u64) -> Result<(), NoMemory>
        ensures base { self.new.base ≡ self.old.base }
        ensures all { self.new.all ≡ self.old.all }
        ensures room { OnOk result (k ≤ self.new.room) }
        ensures enough { k ≤ self.old.room → IsOk result }
        ensures kept { self.old.room ≤ self.new.room }
        ensures err { OnErr result (self.new ≡ self.old) }
    {
        if k > u64::MAX - self.count() {
            return Err(NoMemory);
        }
        self.held.reserve(k)
    }

    /// Takes told writes, which begin at the index `first`: adds those that the log lacks, unless they begin
    /// past its end. Takes no memory.
    pub(crate) fn extend(&mut self, first: u64, writes: &[Write]) -> Taken
        requires { length writes.now ≤ self.old.room }
        ensures { TakesTold self.old self.new first writes.now result }
    {
        let have = self.count();
        if first > have {
            return Taken::Gap { have, first };
        }
        let held = ((have - first) as usize).min(writes.len());
        self.held.append(&writes[held..]);
        Taken::Added((writes.len() - held) as u64)
    }

    /// Gives up the writes below the index `upto`. Takes no memory.
    pub(crate) fn trim(&mut self, upto: u64)
        requires { upto ≤ have_of self.old }
        ensures base { self.new.base ≡ max self.old.base upto }
        ensures all { self.new.all ≡ self.old.all }
        ensures room { self.old.room ≤ self.new.room }
    {
        if upto > self.base {
            self.base = upto;
            let spare = (upto - self.dropped) as usize;
            if spare >= self.held.items().len() - spare {
                self.gone.extend(&self.held.items()[..spare]);
                self.held.drop_front(spare);
                self.dropped = upto;
            }
        }
    }

    /// How many writes there are, those that were given up among them. Takes no memory.
    pub(crate) fn count(&self) -> u64
        ensures { result ≡ have_of self.now }
    {
        self.dropped + self.held.items().len() as u64
    }

    /// How many writes were given up. Takes no memory.
    pub(crate) fn base(&self) -> u64
        ensures base { result ≡ self.now.base }
        ensures within { result ≤ have_of self.now }
    {
        self.base
    }

    /// The `k` writes from the index `first` on, which are held. Takes no memory.
    pub(crate) fn slice(&self, first: u64, k: u64) -> &[Write]
        requires base { self.now.base ≤ first }
        requires held { first + k ≤ have_of self.now }
        ensures { result.now ≡ slice_range self.now.all first (first + k) }
    {
        let start = (first - self.dropped) as usize;
        &self.held.items()[start..start + k as usize]
    }
}

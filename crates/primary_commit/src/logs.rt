//! The items that a peer has, by origin.
ghost use Rattle.std.specs.Prelude.{◌≡◌, ℕ, ◌+◌, ◌<◌, ◌≤◌, List, [], ◌∷◌, ◌++◌, All, IfOk, OnOk, OnErr, Some, None, if◌then◌else◌, length, map, replicate, get_or, set};
ghost use Rattle.std.specs.List.{range_with_len};
ghost use Rattle.primary_commit.specs.Kept.{peer_with};
ghost use Rattle.primary_commit.specs.Peers.{has, op_of};

use crate::{Item, Pick};
use std::alloc::Global;
use std::marker::Model;
use tact_base::{NoMemory, Op, RoomyList};

/// The items of each origin, by origin. Contracts see these, and the room: how many more of each origin can surely be
/// put in without taking memory.
#[derive(Debug, Drop)]
pub(crate) struct Logs {
    logs: Vec<RoomyList<Item>>,
    room: u64,
}

impl Model for Logs {
    ghost use Rattle.std.specs.Prelude.{◌≤◌, All, map};
    ghost use Rattle.primary_commit.specs.Kept.{LogsState};

    ghost Value = { LogsState };

    ghost view = { λ s. record {
      logs = map (λ log. log.items) s.logs.items;
      room = s.room;
    } };

    ghost invariant = { λ s. All (λ log. s.room ≤ log.room) s.logs.items };
}

impl Logs {
    /// The empty logs of `n` origins, without room; their items will lie in memory of `alloc`.
    pub(crate) fn new(alloc: Global, n: u32) -> Result<Logs, NoMemory>
        ensures { IfOk result (λ made. made.logs ≡ map (λ origin. []) (range_with_len 0 n)) }
    {
        let mut logs = Vec::with_capacity(alloc, n as usize)?;
        for _origin in 0..n {
            logs.push(RoomyList::new(alloc))?;
        }
        Ok(Logs { logs, room: 0 })
    }

    /// Makes room for at least `k` more items of each origin, without memory where there is so much. `NoMemory` leaves
    /// everything as it was.
    pub(crate) fn reserve(&mut self, k: u64) -> Result<(), NoMemory>
        ensures logs { self.new.logs ≡ self.old.logs }
        ensures room { OnOk result (k ≤ self.new.room) }
        ensures err { OnErr result (self.new ≡ self.old) }
    {
        if k > self.room {
            reserve_each(&mut self.logs, k)?;
            self.room = k;
        }
        Ok(())
    }

    /// Puts an item at the end of the log of the origin `i`. All other logs stay. Takes no memory.
    pub(crate) fn push(&mut self, i: u32, item: Item)
        requires origin { i < length self.old.logs }
        requires room { 0 < self.old.room }
        ensures logs { self.new.logs ≡ set self.old.logs i (get_or self.old.logs i [] ++ item ∷ []) }
        ensures room { self.old.room ≡ self.new.room + 1 }
    {
        let log = &mut self.logs[i as usize];
        log.push(item);
        self.room -= 1;
    }

    /// The items of the origin `i`, in order. Takes no memory.
    pub(crate) fn log(&self, i: u32) -> &[Item]
        requires { i < length self.now.logs }
        ensures { result.now ≡ get_or self.now.logs i [] }
    {
        self.logs[i as usize].items()
    }

    /// How many origins there are. Takes no memory.
    pub(crate) fn count(&self) -> usize
        ensures { result ≡ length self.now.logs }
    {
        self.logs.len()
    }

    /// The operation of a pick, where its item is there. Takes no memory.
    pub(crate) fn op(&self, pick: Pick) -> Option<Op>
        ensures { (told : List Pick) → let peer = peer_with self.now.logs told in
            result ≡ (if has peer pick then Some (op_of peer pick) else None) }
    {
        let log = self.logs.get(pick.origin as usize)?;
        let item = log.items().get(pick.index as usize)?;
        Some(item.op)
    }
}

// Makes room for `k` more items in each list. Nothing of what they hold changes.
fn reserve_each(logs: &mut Vec<RoomyList<Item>>, k: u64) -> Result<(), NoMemory>
    ensures items { map (λ log. log.items) logs.new.items ≡ map (λ log. log.items) logs.old.items }
    ensures kept { (room : ℕ) → All (λ log. room ≤ log.room) logs.old.items → All (λ log. room ≤ log.room) logs.new.items }
    ensures room { OnOk result (All (λ log. k ≤ log.room) logs.new.items) }
{
    for place in 0..logs.len() {
        let log = &mut logs[place];
        log.reserve(k)?;
    }
    Ok(())
}

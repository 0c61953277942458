ghost use Rattle.std.specs.Prelude.{◌≡◌, ◌+◌, ◌<◌, ◌≤◌, [], ◌∷◌, ◌++◌, OnOk, OnErr, IsOk, length, drop};

use crate::{NoMemory, RoomyList};
use std::alloc::Global;
use std::marker::Model;

/// A list that items are put at the end of, in memory that can be taken ahead, and dropped from the front of. The
/// memory of those that were dropped is that of others once they are as many as those behind them, which then move to
/// the front: so an item moves once for each that is dropped, on average. Contracts see the items that weren't
/// dropped, and the room, the number of items that can surely still be put in.
#[derive(Debug, Drop)]
pub struct RoomyQueue<T> {
    list: RoomyList<T>,
    // How many at the front were dropped.
    front: usize,
}

impl<T> Model for RoomyQueue<T> {
    ghost use Rattle.std.specs.Prelude.{◌≤◌, length, drop};
    ghost use Rattle.tact_base.specs.Roomy.{Roomy};

    ghost Value = { Roomy T };

    ghost view = { λ queue. record {
      items = drop queue.front queue.list.items;
      room = queue.list.room;
    } };

    ghost invariant = { λ queue. queue.front ≤ length queue.list.items };
}

impl<T> RoomyQueue<T> {
    /// The empty queue without room, whose items will lie in memory of `alloc`. Takes no memory.
    pub fn new(alloc: Global) -> Self
        ensures { result.items ≡ [] }
    {
        RoomyQueue {
            list: RoomyList::new(alloc),
            front: 0,
        }
    }

    /// The items, in order.
    pub fn items(&self) -> &[T]
        ensures { result.now ≡ self.now.items }
    {
        &self.list.items()[self.front..]
    }

    /// Makes room for at least `count` more items, without memory where there is so much. `NoMemory`
    /// leaves the queue as it was.
    pub fn reserve(&mut self, count: u64) -> Result<(), NoMemory>
        ensures items { self.new.items ≡ self.old.items }
        ensures kept { self.old.room ≤ self.new.room }
        ensures ok { OnOk result (count ≤ self.new.room) }
        ensures enough { count ≤ self.old.room → IsOk result }
        ensures err { OnErr result (self.new ≡ self.old) }
    {
        self.list.reserve(count)
    }
}

impl<T: Drop> RoomyQueue<T> {
    /// Appends an item. Takes no memory.
    pub fn push(&mut self, item: T)
        requires { 0 < self.old.room }
        ensures items { self.new.items ≡ self.old.items ++ item ∷ [] }
        ensures room { self.old.room ≤ self.new.room + 1 }
    {
        self.list.push(item);
    }
}

impl<T: Copy> RoomyQueue<T> {
    /// Drops the first `count` items. Takes no memory.
    pub fn drop_front(&mut self, count: usize)
        requires { count ≤ length self.old.items }
        ensures items { self.new.items ≡ drop count self.old.items }
        ensures room { self.old.room ≤ self.new.room }
    {
        let left = self.items().len() - count;
        self.front = self.list.items().len() - left;
        if self.front >= left {
            self.list.drop_front(self.front);
            self.front = 0;
        }
    }
}

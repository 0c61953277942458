ghost use Rattle.std.specs.Prelude.{◌≡◌, ◌+◌, ◌<◌, ◌≤◌, [], ◌∷◌, ◌++◌, OnOk, OnErr, IsOk, length, vec_len, insert, drop};
ghost use Rattle.std.specs.Borrow.{sem};
ghost use Rattle.std.specs.Vec.{vec_capacity};
ghost use Rattle.tact_base.specs.RoomyLends.{lends_items};

use crate::NoMemory;
use crate::pieces::append;
use std::alloc::Global;
use std::marker::Model;

// For how many items a list takes memory at least, if it can.
const LEAST: usize = 2_048;

/// A list whose memory can be taken ahead: while there is room, an item is put in without any. Contracts
/// see the items and the room, the number of items that can surely still be put in.
#[derive(Debug, Drop)]
pub struct RoomyList<T> {
    items: Vec<T>,
}

impl<T> Model for RoomyList<T> {
    ghost use Rattle.std.specs.Prelude.{◌-◌, vec_len};
    ghost use Rattle.std.specs.Vec.{vec_capacity};
    ghost use Rattle.tact_base.specs.Roomy.{Roomy};

    ghost Value = { Roomy T };

    ghost view = { λ list. record {
      items = list.items.items;
      room = vec_capacity list.items - vec_len list.items;
    } };
}

impl<T> RoomyList<T> {
    /// The empty list without room, whose items will lie in memory of `alloc`. Takes no memory.
    pub fn new(alloc: Global) -> Self
        ensures { result.items ≡ [] }
    {
        RoomyList {
            items: Vec::new(alloc),
        }
    }

    /// The items, in order.
    pub fn items(&self) -> &[T]
        ensures { result.now ≡ self.now.items }
    {
        &self.items
    }

    /// The items, in order, to be changed in place.
    pub fn items_mut(&mut self) -> &mut [T]
        ensures* writes_back { sem 𝓛 (lends_items T.row self.entry result) }
        ensures items { result.now ≡ self.old.items }
    {
        &mut self.items
    }

    /// Makes room for at least `count` more items, without memory where there is so much. A list that takes memory
    /// takes it for four times its items, and for 2,048 at least, if it can, so that what it holds is seldom moved: a
    /// list of large items then has pages of its own, which the system moves without a copy and lends only where they
    /// are written to. `NoMemory` leaves the list as it was.
    pub fn reserve(&mut self, count: u64) -> Result<(), NoMemory>
        ensures items { self.new.items ≡ self.old.items }
        ensures kept { self.old.room ≤ self.new.room }
        ensures ok { OnOk result (count ≤ self.new.room) }
        ensures enough { count ≤ self.old.room → IsOk result }
        ensures err { OnErr result (self.new ≡ self.old) }
    {
        let count = count as usize;
        if count <= self.items.capacity() - self.items.len() {
            return Ok(());
        }
        let ample = self.items.len().saturating_mul(3).max(count).max(LEAST);
        if self.items.reserve(ample).is_err() {
            self.items.reserve(count)?;
        }
        Ok(())
    }
}

impl<T: Drop> RoomyList<T> {
    /// Appends an item. Takes no memory.
    pub fn push(&mut self, item: T)
        requires { 0 < self.old.room }
        ensures items { self.new.items ≡ self.old.items ++ item ∷ [] }
        ensures room { self.old.room ≤ self.new.room + 1 }
    {
        self.items.push_reserved(item);
    }

    /// Puts an item before the one at `place`. Takes no memory.
    pub fn insert(&mut self, place: usize, item: T)
        requires place { place ≤ length self.old.items }
        requires room { 0 < self.old.room }
        ensures items { self.new.items ≡ insert self.old.items place item }
        ensures room { self.old.room ≤ self.new.room + 1 }
    {
        if self.items.insert(place, item).is_err() {
            unreachable!();
        }
    }
}

impl<T: Copy> RoomyList<T> {
    /// Appends all of `items`, in order. Takes no memory.
    pub fn append(&mut self, items: &[T])
        requires { length items.now ≤ self.old.room }
        ensures items { self.new.items ≡ self.old.items ++ items.now }
        ensures room { self.old.room ≤ self.new.room + length items.now }
    {
        // (one alone is put in with fewer steps)
        if let [item] = items {
            return self.push(*item);
        }
        if append(&mut self.items, items).is_err() {
            unreachable!();
        }
    }

    /// Drops the first `count` items. Takes no memory.
    pub fn drop_front(&mut self, count: usize)
        requires { count ≤ length self.old.items }
        ensures items { self.new.items ≡ drop count self.old.items }
        ensures room { self.old.room ≤ self.new.room }
    {
        drop_front(&mut self.items, count);
    }
}

/// Drops the first `count` items of a list; the memory stays. Takes no memory.
pub fn drop_front<T: Copy>(list: &mut Vec<T>, count: usize)
    requires { count ≤ vec_len list.old }
    ensures items { list.new.items ≡ drop count list.old.items }
    ensures len { vec_len list.new + count ≡ vec_len list.old }
    ensures capacity { vec_capacity list.new ≡ vec_capacity list.old }
{
    let left = list.len() - count;
    if count < left {
        list.copy_within(count.., 0);
    } else {
        let (front, rest) = list.split_at_mut(count);
        front[..left].copy_from_slice(rest);
    }
    list.truncate(left);
}

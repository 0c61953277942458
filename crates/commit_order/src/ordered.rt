ghost use Rattle.std.specs.Prelude.{◌≡◌, ◌≢◌, ◌+◌, ◌-◌, ◌<◌, ◌≤◌, [], ◌∷◌, ◌++◌, All, OnOk, OnErr, IsOk, length, insert, take, drop};
ghost use Rattle.std.specs.declared.cmp.Ordering.TheVariants.{Equal};
ghost use Rattle.std.specs.List.Sorted.{IsStrictlySortedBy};
ghost use Rattle.tact_base.specs.WriteOrder.{write_cmp, write_place, with_write, in_order, committed_to, tentative_past};
ghost use Rattle.tact_base.specs.declared.write.Write.{Write};
ghost use Rattle.commit_order.specs.Batches.{with_writes, first_place};
ghost use Rattle.commit_order.specs.Places.{place_in};

use crate::merging::merge_back;
use given_up::GivenUp;
use std::alloc::Global;
use std::marker::Model;
use std::slice;
use tact_base::{NoMemory, Place, RoomyList, Write};

/// Writes in order of stamp, then origin, then index, of which those up to the last point are committed. The first
/// of these can be given up: they aren't lent any more, and are still counted. Their memory is that of others once they
/// are as many as those behind them, which then move to the front. Contracts see all writes, how many of them were
/// given up, the last point and the room: how many more writes can surely be put in without taking memory.
#[derive(Debug, Drop)]
pub struct Ordered {
    gone: GivenUp<Write>,
    writes: RoomyList<Write>,
    dropped: u64,
    front: usize,
    committed: usize,
    point: u64,
}

impl Model for Ordered {
    ghost use Rattle.std.specs.Prelude.{◌+◌, ◌-◌, ◌^◌, ◌++◌, min, length};
    ghost use Rattle.commit_order.specs.Order.{OrderState, KeepsOrder};

    ghost Value = { OrderState };

    ghost view = { λ s. record {
      writes = s.gone.items ++ s.writes.items;
      dropped = s.dropped + s.front;
      point = s.point;
      room = min s.writes.room (2 ^ 64 - 1 - (s.dropped + length s.writes.items));
    } };

    ghost invariant = { λ s. KeepsOrder s.gone.items s.writes.items s.dropped s.front s.committed s.point };
}

impl Ordered {
    /// No writes, with the last point 0; they will lie in memory of `alloc`. Takes no memory.
    pub fn new(alloc: Global) -> Ordered
        ensures writes { result.writes ≡ [] }
        ensures dropped { result.dropped ≡ 0 }
        ensures point { result.point ≡ 0 }
    {
        Ordered {
            gone: GivenUp::new(),
            writes: RoomyList::new(alloc),
            dropped: 0,
            front: 0,
            committed: 0,
            point: 0,
        }
    }

    /// Makes room for at least `k` more writes, without memory where there is so much. `NoMemory` leaves
    /// everything as it was.
    pub fn reserve(&mut self, k: u64) -> Result<(), NoMemory>
        ensures writes { self.new.writes ≡ self.old.writes }
        ensures dropped { self.new.dropped ≡ self.old.dropped }
        ensures point { self.new.point ≡ self.old.point }
        ensures room { OnOk result (k ≤ self.new.room) }
        ensures enough { k ≤ self.old.room → IsOk result }
        ensures kept { self.old.room ≤ self.new.room }
        ensures err { OnErr result (self.new ≡ self.old) }
    {
        if k > u64::MAX - self.count() {
            return Err(NoMemory);
        }
        self.writes.reserve(k)
    }

    // How many writes there are, those that were given up among them.
    fn count(&self) -> u64
        ensures { result ≡ length self.now.writes }
    {
        self.dropped + self.writes.items().len() as u64
    }

    /// How many of the writes come before one of this stamp, origin and index, which isn't up to the last point.
    /// Takes no memory.
    pub fn place(&self, stamp: u64, origin: u32, index: u64) -> u64
        requires { self.now.point < stamp }
        ensures { result ≡ place_in self.now.writes (record { stamp = stamp; origin = origin; index = index }) }
    {
        let place = Place {
            stamp,
            origin,
            index,
        };
        self.dropped + place_among(self.writes.items(), place) as u64
    }

    /// Puts a write in its place, which is answered. Takes no memory.
    pub fn insert(&mut self, write: &Write) -> u64
        requires room { 0 < self.old.room }
        requires new { All (λ held. write_cmp held write.now ≢ Equal) self.old.writes }
        requires tentative { self.old.point < write.now.stamp }
        ensures place { result ≡ place_in self.old.writes (write_place write.now) }
        ensures writes { self.new.writes ≡ with_write write.now self.old.writes }
        ensures dropped { self.new.dropped ≡ self.old.dropped }
        ensures point { self.new.point ≡ self.old.point }
        ensures room { self.old.room ≤ self.new.room + 1 }
    {
        self.insert_all(slice::from_ref(write))
    }

    // Where the first of the writes belongs: at the end where there is none.
    fn place_of_first(&self, writes: &[Write]) -> u64
        requires { All (λ write. self.now.point < write.stamp) writes.now }
        ensures { result ≡ first_place self.now.writes writes.now }
    {
        match writes.first() {
            Some(first) => self.place(first.stamp, first.origin, first.index),
            None => self.count(),
        }
    }

    /// Puts writes, which are in order, in their places, and answers the place of the first of them, before
    /// which nothing moves: how many there are, where none is put in. What is held after that place moves once.
    /// Takes no memory.
    pub fn insert_all(&mut self, writes: &[Write]) -> u64
        requires room { length writes.now ≤ self.old.room }
        requires sorted { IsStrictlySortedBy write_cmp writes.now }
        requires new { All (λ write. All (λ held. write_cmp held write ≢ Equal) self.old.writes) writes.now }
        requires tentative { All (λ write. self.old.point < write.stamp) writes.now }
        ensures place { result ≡ first_place self.old.writes writes.now }
        ensures writes { self.new.writes ≡ with_writes writes.now self.old.writes }
        ensures in_order { self.new.writes ≡ in_order (self.old.writes ++ writes.now) }
        ensures alone { (write : Write) → writes.now ≡ write ∷ [] → self.new.writes ≡ insert self.old.writes result write }
        ensures stays { take result self.new.writes ≡ take result self.old.writes }
        ensures past { length (committed_to self.old.point self.old.writes) ≤ result }
        ensures within { result ≤ length self.old.writes }
        ensures dropped { self.new.dropped ≡ self.old.dropped }
        ensures point { self.new.point ≡ self.old.point }
        ensures room { self.old.room ≤ self.new.room + length writes.now }
    {
        let place = self.place_of_first(writes);
        insert_copies(&mut self.writes, (place - self.dropped) as usize, writes);
        place
    }

    /// Commits the writes with a stamp of at most `stamp`, and answers how many writes are committed now.
    /// Takes no memory.
    pub fn commit_to(&mut self, stamp: u64) -> u64
        requires { self.old.point ≤ stamp }
        ensures count { result ≡ length (committed_to stamp self.old.writes) }
        ensures writes { self.new.writes ≡ self.old.writes }
        ensures dropped { self.new.dropped ≡ self.old.dropped }
        ensures point { self.new.point ≡ stamp }
        ensures room { self.new.room ≡ self.old.room }
    {
        let committed = self
            .writes
            .items()
            .partition_point(|write| write.stamp <= stamp);
        self.committed = committed;
        self.point = stamp;
        self.dropped + committed as u64
    }

    /// Gives up the first `k` of the committed writes that are held. Takes no memory.
    pub fn drop_front(&mut self, k: u64)
        requires { self.old.dropped + k ≤ length (committed_to self.old.point self.old.writes) }
        ensures writes { self.new.writes ≡ self.old.writes }
        ensures dropped { self.new.dropped ≡ self.old.dropped + k }
        ensures point { self.new.point ≡ self.old.point }
        ensures room { self.old.room ≤ self.new.room }
    {
        self.front += k as usize;
        if self.front >= self.writes.items().len() - self.front {
            self.move_up();
        }
    }

    // Moves those behind the writes that were given up to the front. Takes no memory.
    fn move_up(&mut self)
        ensures same { self.new ≡ record self.old { room = self.new.room } }
        ensures room { self.old.room ≤ self.new.room }
    {
        self.gone.extend(&self.writes.items()[..self.front]);
        self.writes.drop_front(self.front);
        self.committed -= self.front;
        self.dropped += self.front as u64;
        self.front = 0;
    }

    /// How many writes were given up, all of them committed. Takes no memory.
    pub fn dropped(&self) -> u64
        ensures dropped { result ≡ self.now.dropped }
        ensures within { result ≤ length (committed_to self.now.point self.now.writes) }
    {
        self.dropped + self.front as u64
    }

    /// The last point. Takes no memory.
    pub fn point(&self) -> u64
        ensures { result ≡ self.now.point }
    {
        self.point
    }

    /// The committed writes that are held, in order: all but those that were given up.
    pub fn committed(&self) -> &[Write]
        ensures committed { result.now ≡ drop self.now.dropped (committed_to self.now.point self.now.writes) }
        ensures within { self.now.dropped ≤ length (committed_to self.now.point self.now.writes) }
        ensures sorted { IsStrictlySortedBy write_cmp self.now.writes }
    {
        self.parts().0
    }

    /// The other writes, in order.
    pub fn tentative(&self) -> &[Write]
        ensures tentative { result.now ≡ tentative_past self.now.point self.now.writes }
        ensures sorted { IsStrictlySortedBy write_cmp self.now.writes }
    {
        self.parts().1
    }

    // The committed writes, and the others.
    fn parts(&self) -> (&[Write], &[Write])
        ensures committed { result.0.now ≡ drop self.now.dropped (committed_to self.now.point self.now.writes) }
        ensures within { self.now.dropped ≤ length (committed_to self.now.point self.now.writes) }
        ensures tentative { result.1.now ≡ tentative_past self.now.point self.now.writes }
        ensures sorted { IsStrictlySortedBy write_cmp self.now.writes }
    {
        let (committed, tentative) = self.writes.items().split_at(self.committed);
        let (_given_up, others) = committed.split_at(self.front);
        (others, tentative)
    }
}

// How many of writes in order come before a place, which most often is behind all of them.
fn place_among(writes: &[Write], place: Place) -> usize
    requires { IsStrictlySortedBy write_cmp writes.now }
    ensures { result ≡ place_in writes.now place }
{
    let all = writes.len();
    if all > 0 && writes[all - 1].place() < place {
        return all;
    }
    let before = |write: &Write| write.place() < place;
    writes.partition_point(before)
}

// Puts copies of writes in order into a list in order, in which the first of them belongs at `place`. Takes
// no memory.
fn insert_copies(list: &mut RoomyList<Write>, place: usize, writes: &[Write])
    requires held { IsStrictlySortedBy write_cmp list.old.items }
    requires sorted { IsStrictlySortedBy write_cmp writes.now }
    requires place { place ≡ first_place list.old.items writes.now }
    requires room { length writes.now ≤ list.old.room }
    ensures items { list.new.items ≡ with_writes writes.now list.old.items }
    ensures room { list.old.room ≤ list.new.room + length writes.now }
{
    let held = list.items().len();
    list.append(writes);
    if place < held {
        merge_back(list.items_mut(), held, writes);
    }
}

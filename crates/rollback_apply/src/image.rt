ghost use Rattle.std.specs.Prelude.{◌≡◌, ℕ, pos, ◌+◌, ◌-◌, ◌<◌, ◌≤◌, [], ◌++◌, length, insert, take, drop, OnOk, OnErr, IsOk};
ghost use Rattle.tact_base.specs.Images.{image_from, ops_of};
ghost use Rattle.rollback_apply.specs.Image.{base_of, value_in, value_before, AreJoined};

use crate::layers::Layers;
use std::alloc::Global;
use std::marker::Model;
use tact_base::{NoMemory, Op, Write};

/// What keys hold after operations in order, of which a front is committed and never moves. Tentative ones are applied
/// late, at most `LAG` behind: each that is applied is kept with an undo, what its keys held before it, and those behind
/// wait until they are committed, or `catch_up` is called, or too many wait. So an operation that is put in among the
/// last ones undoes nothing. Of the committed ones the values alone are left. Contracts see how many are committed,
/// these, the tentative operations, and the room: how many more can surely be put in without taking memory; which are
/// applied they don't see. Places are counted from the first committed operation.
#[derive(Debug, Drop)]
pub struct Image {
    layers: Layers,
    applied: usize,
    committed: u64,
    room: usize,
}

impl Model for Image {
    ghost use Rattle.rollback_apply.specs.Image.{ImageState};
    ghost use Rattle.rollback_apply.specs.Layers.{ops_in, IsKept};

    ghost Value = { ImageState };

    ghost view = { λ image. record {
      committed = image.committed;
      settled = ops_in image.layers.settled.items;
      ops = ops_in image.layers.tentative.items;
      room = image.room;
    } };

    ghost invariant = { λ image. IsKept image.layers image.applied image.committed image.room };
}

impl Image {
    /// The image of no operations, without room; they will lie in memory of `alloc`. Takes no memory.
    pub fn new(alloc: Global) -> Image
        ensures committed { result.committed ≡ 0 }
        ensures base { (key : ℕ) → base_of result key ≡ pos 0 }
        ensures ops { result.ops ≡ [] }
        ensures room { result.room ≡ 0 }
    {
        Image {
            layers: Layers::new(alloc),
            applied: 0,
            committed: 0,
            room: 0,
        }
    }

    /// Makes room for at least `k` more operations, without memory where there is so much. `NoMemory` leaves
    /// everything as it was.
    pub fn reserve(&mut self, k: u64) -> Result<(), NoMemory>
        ensures committed { self.new.committed ≡ self.old.committed }
        ensures base { (key : ℕ) → base_of self.new key ≡ base_of self.old key }
        ensures ops { self.new.ops ≡ self.old.ops }
        ensures room { OnOk result (k ≤ self.new.room) }
        ensures enough { k ≤ self.old.room → IsOk result }
        ensures kept { self.old.room ≤ self.new.room }
        ensures err { OnErr result (self.new ≡ self.old) }
    {
        let k = k as usize;
        if k <= self.room {
            return Ok(());
        }
        self.room = self.layers.reserve(self.applied, k)?;
        Ok(())
    }

    /// The value of a key after all operations, which is 0 for an absent one. It costs a look where all are applied, as
    /// they are after `catch_up`; else steps as the square of how many wait, at most `LAG`. Takes no memory.
    pub fn get(&self, key: u64) -> i64
        ensures { result ≡ value_in self.now key }
    {
        let count = self.layers.tentative.len();
        self.layers.value_in(self.applied, count, key)
    }

    /// The value of a key before the operation at `place`: `None` exactly where that one isn't tentative, or
    /// doesn't name the key. It costs a look where that one is applied; else steps as the square of how many before it
    /// wait, at most `LAG`. Takes no memory.
    pub fn before(&self, place: u64, key: u64) -> Option<i64>
        ensures { result ≡ value_before self.now place key }
    {
        if place < self.committed {
            return None;
        }
        let index = (place - self.committed) as usize;
        let layer = *self.layers.tentative.get(index)?;
        self.layers
            .held_before(self.applied, index)
            .among(layer.op, key)
    }

    /// Puts an operation before the tentative one at `place`, or at the end. Those from `place` on that are applied are
    /// undone, from the last to the first, and applied late, as it is. Takes no memory.
    pub fn insert_at(&mut self, place: u64, op: Op)
        requires room { 0 < self.old.room }
        requires tentative { self.old.committed ≤ place }
        requires within { place ≤ self.old.committed + length self.old.ops }
        ensures committed { self.new.committed ≡ self.old.committed }
        ensures base { (key : ℕ) → base_of self.new key ≡ base_of self.old key }
        ensures ops { self.new.ops ≡ insert self.old.ops (place - self.old.committed) op }
        ensures room { self.old.room ≡ self.new.room + 1 }
    {
        let index = (place - self.committed) as usize;
        let applied = self.layers.undo_back(index, self.applied);
        self.layers.insert(index, op);
        self.applied = self.layers.limit_lag(applied);
        self.room -= 1;
    }

    /// Puts the operations of `new` among the tentative ones: those from `place` on that are applied are undone, from the
    /// last to the first, and those of `rest`, which are these with the new ones among them, applied late. It costs what
    /// it undoes and moves. Takes no memory.
    pub fn insert_all(&mut self, place: u64, new: &[Write], rest: &[Write])
        requires tentative { self.old.committed ≤ place }
        requires within { place ≤ self.old.committed + length self.old.ops }
        requires joined { AreJoined self.old.ops (ops_of new.now)
            (take (place - self.old.committed) self.old.ops ++ ops_of rest.now) }
        requires room { length new.now ≤ self.old.room }
        ensures committed { self.new.committed ≡ self.old.committed }
        ensures base { (key : ℕ) → base_of self.new key ≡ base_of self.old key }
        ensures ops { self.new.ops ≡ take (place - self.old.committed) self.old.ops ++ ops_of rest.now }
        ensures room { self.old.room ≡ self.new.room + length new.now }
    {
        let index = (place - self.committed) as usize;
        let applied = self.layers.undo_back(index, self.applied);
        self.layers.replace_from(index, rest);
        self.applied = self.layers.limit_lag(applied);
        self.room -= new.len();
    }

    /// Commits the operations before `count`: they are kept as values alone, and nothing is put between them any
    /// more. It costs what of them waits to be applied, and what tentative operations stay. Takes no memory.
    pub fn commit(&mut self, count: u64)
        requires more { self.old.committed ≤ count }
        requires within { count ≤ self.old.committed + length self.old.ops }
        ensures committed { self.new.committed ≡ count }
        ensures base { (key : ℕ)
            → base_of self.new key ≡ image_from (base_of self.old) (take (count - self.old.committed) self.old.ops) key }
        ensures ops { self.new.ops ≡ drop (count - self.old.committed) self.old.ops }
        ensures room { self.new.room ≡ self.old.room }
    {
        let going = (count - self.committed) as usize;
        if going == 0 {
            return;
        }
        let applied = self.layers.apply_to(self.applied, going);
        self.layers.settle(going);
        self.applied = applied - going;
        self.committed = count;
    }

    /// Applies the operations that wait, so that `get` and `before` cost a look until others are put in. Nothing that
    /// contracts see changes. It costs what it applies. Takes no memory.
    pub fn catch_up(&mut self)
        ensures { self.new ≡ self.old }
    {
        let count = self.layers.tentative.len();
        self.applied = self.layers.apply_to(self.applied, count);
    }
}

ghost use Rattle.std.specs.Prelude.{◌≡◌, ℕ, ◌+◌, ◌-◌, ◌<◌, ◌≤◌, [], ◌∷◌, ◌++◌, vec_len, length, insert, take, drop, get_or, IsTrue, OnOk, IfOk};
ghost use Rattle.std.specs.Vec.{vec_capacity};
ghost use Rattle.tact_base.specs.Images.{image_from, image_of, ops_of};
ghost use Rattle.tact_base.specs.declared.write.Op as operation;
ghost use Rattle.rollback_apply.specs.Current.{holds, IsPlace, Extends};
ghost use Rattle.rollback_apply.specs.Keys as keys;
ghost use Rattle.rollback_apply.specs.declared.lagging.TheConstants.{LAG};
ghost use Rattle.rollback_apply.specs.declared.layers.Layer.{Layer};
ghost use Rattle.rollback_apply.specs.Layers.{ops_in, wanted, Applies, HasMemory, HasPlaces, SetsKeys};

use crate::current::Current;
use crate::keys::{KeyValues, first_key, second_key, values_after};
use crate::lagging::{LAG, value_late, values_late};
use crate::values::entries_for;
use given_up::GivenUp;
use std::alloc::Global;
use tact_base::{NoMemory, Op, Write, drop_front};

// For so many operations more than is asked for memory is taken, where there is so much.
const AHEAD: usize = 64;

/// The places of the keys of an operation.
#[derive(Clone, Copy, Debug)]
pub struct Places {
    /// Of the key that it changes first.
    pub first: usize,
    /// Of the key that it changes last.
    pub second: usize,
}

/// An operation, with what it takes to undo it once it is applied.
#[derive(Clone, Copy, Debug)]
pub struct Layer {
    /// The operation.
    pub op: Op,
    /// Where it is applied, the places of its keys.
    pub places: Places,
    /// Where it is applied, what its keys held before it.
    pub held: KeyValues,
}

/// The tentative operations, and what keys hold after the first ones, which are applied; the caller knows how many. The
/// keys of an operation are looked up when it is applied. Those that are committed are seen by contracts alone.
#[derive(Debug, Drop)]
pub struct Layers {
    pub settled: GivenUp<Layer>,
    pub current: Current,
    pub tentative: Vec<Layer>,
}

impl Layers {
    /// No operations. Takes no memory.
    pub fn new(alloc: Global) -> Layers
        ensures settled { result.settled.items ≡ [] }
        ensures applies { Applies result (length result.tentative.items) }
        ensures tentative { result.tentative.items ≡ [] }
    {
        Layers {
            settled: GivenUp::new(),
            current: Current::new(alloc),
            tentative: Vec::new(alloc),
        }
    }

    /// Takes memory for `more` operations at least, beside those that are there, of which the first `applied` are applied;
    /// for some more if it can, so that it is seldom asked. The answer is for how many. `NoMemory` leaves these and what
    /// keys hold as they were.
    pub fn reserve(&mut self, applied: usize, more: usize) -> Result<usize, NoMemory>
        requires { applied ≤ vec_len self.old.tentative }
        ensures settled { self.new.settled ≡ self.old.settled }
        ensures tentative { self.new.tentative.items ≡ self.old.tentative.items }
        ensures applies { (count : ℕ) → Applies self.old count → Applies self.new count }
        ensures kept { (count : ℕ) → HasMemory self.old applied count → HasMemory self.new applied count }
        ensures more { IfOk result (λ many. more ≤ many) }
        ensures ok { IfOk result (λ many. HasMemory self.new applied many) }
    {
        let ample = more.saturating_add(AHEAD);
        if self.take_memory(applied, ample).is_ok() {
            return Ok(ample);
        }
        self.take_memory(applied, more)?;
        Ok(more)
    }

    /// Undoes the operations from `from` on, from the last that is applied back, where the first `applied` are. The
    /// answer is how many are applied then. Takes no memory.
    pub fn undo_back(&mut self, from: usize, applied: usize) -> usize
        requires within { applied ≤ vec_len self.old.tentative }
        requires applies { Applies self.old applied }
        ensures above { result ≤ from }
        ensures fewer { result ≤ applied }
        ensures settled { self.new.settled ≡ self.old.settled }
        ensures tentative { self.new.tentative ≡ self.old.tentative }
        ensures applies { Applies self.new result }
        ensures memory { (more : ℕ) → HasMemory self.old applied more → HasMemory self.new result more }
    {
        let mut at = applied;
        while at > from {
            at -= 1;
            self.undo(at);
        }
        at
    }

    /// Applies operations in order up to the first `count`, where the first `applied` are applied. The answer is how many
    /// are applied then. Takes no memory.
    pub fn apply_to(&mut self, applied: usize, count: usize) -> usize
        requires applied { applied ≤ vec_len self.old.tentative }
        requires within { count ≤ vec_len self.old.tentative }
        requires applies { Applies self.old applied }
        requires memory { HasMemory self.old applied 0 }
        ensures kept { applied ≤ result }
        ensures above { count ≤ result }
        ensures within { result ≤ vec_len self.new.tentative }
        ensures settled { self.new.settled ≡ self.old.settled }
        ensures applies { Applies self.new result }
        ensures ops { ops_in self.new.tentative.items ≡ ops_in self.old.tentative.items }
        ensures count { vec_len self.new.tentative ≡ vec_len self.old.tentative }
        ensures memory { (more : ℕ) → HasMemory self.old applied more → HasMemory self.new result more }
    {
        let mut at = applied;
        while at < count {
            self.apply(at);
            at += 1;
        }
        at
    }

    /// Applies operations in order until at most `LAG` aren't, where the first `applied` are. The answer is how many are
    /// applied then. Takes no memory.
    pub fn limit_lag(&mut self, applied: usize) -> usize
        requires within { applied ≤ vec_len self.old.tentative }
        requires applies { Applies self.old applied }
        requires memory { HasMemory self.old applied 0 }
        ensures within { result ≤ vec_len self.new.tentative }
        ensures few { vec_len self.new.tentative ≤ result + LAG }
        ensures settled { self.new.settled ≡ self.old.settled }
        ensures applies { Applies self.new result }
        ensures ops { ops_in self.new.tentative.items ≡ ops_in self.old.tentative.items }
        ensures count { vec_len self.new.tentative ≡ vec_len self.old.tentative }
        ensures memory { (more : ℕ) → HasMemory self.old applied more → HasMemory self.new result more }
    {
        let count = self.tentative.len().saturating_sub(LAG);
        self.apply_to(applied, count)
    }

    /// What a key holds after the first `count` operations, of which the first `applied` are applied, and at most `LAG`
    /// aren't. It costs a look where all are, and else what `value_late` does. Takes no memory.
    pub fn value_in(&self, applied: usize, count: usize, key: u64) -> i64
        requires applied { applied ≤ count }
        requires within { count ≤ vec_len self.now.tentative }
        requires few { count ≤ applied + LAG }
        requires applies { Applies self.now applied }
        ensures { result ≡ image_from (image_of (ops_in self.now.settled.items)) (ops_in (take count self.now.tentative.items)) key }
    {
        if applied == count {
            return self.current.get(key);
        }
        value_late(&self.current, &self.tentative[applied..count], key)
    }

    /// What the keys of the operation at a place held before it, where the first `applied` operations are applied, and at
    /// most `LAG` before the place aren't. It costs a look where it is applied, and else what `values_late` does. Takes
    /// no memory.
    pub fn held_before(&self, applied: usize, at: usize) -> KeyValues
        requires within { at < vec_len self.now.tentative }
        requires few { at ≤ applied + LAG }
        requires applies { Applies self.now applied }
        ensures { (d : Layer)
            → result
            ≡ keys.key_values
            (image_from (image_of (ops_in self.now.settled.items)) (ops_in (take at self.now.tentative.items)))
            (get_or self.now.tentative.items at d).op }
    {
        let Layer { op, held, .. } = self.tentative[at];
        if at < applied {
            return held;
        }
        values_late(&self.current, &self.tentative[applied..at], op)
    }

    /// Puts an operation before the one at `at`, where this one and those behind it aren't applied. Takes no memory.
    pub fn insert(&mut self, at: usize, op: Op)
        requires within { at ≤ vec_len self.old.tentative }
        requires capacity { vec_len self.old.tentative < vec_capacity self.old.tentative }
        ensures settled { self.new.settled ≡ self.old.settled }
        ensures applies { (count : ℕ) → count ≤ at → Applies self.old count → Applies self.new count }
        ensures ops { ops_in self.new.tentative.items ≡ insert (ops_in self.old.tentative.items) at op }
        ensures memory { (applied more : ℕ) → applied ≤ at → HasMemory self.old applied (more + 1) → HasMemory self.new applied more }
    {
        insert_layer(&mut self.tentative, at, waiting(op));
    }

    /// Puts the operations of writes in place of those from `from` on, where these aren't applied. Takes no memory.
    pub fn replace_from(&mut self, from: usize, writes: &[Write])
        requires within { from ≤ vec_len self.old.tentative }
        requires capacity { from + length writes.now ≤ vec_capacity self.old.tentative }
        ensures settled { self.new.settled ≡ self.old.settled }
        ensures current { self.new.current ≡ self.old.current }
        ensures applies { (count : ℕ) → count ≤ from → Applies self.old count → Applies self.new count }
        ensures ops { ops_in self.new.tentative.items ≡ ops_in (take from self.old.tentative.items) ++ ops_of writes.now }
        ensures capacity { vec_capacity self.old.tentative ≤ vec_capacity self.new.tentative }
    {
        self.tentative.truncate(from);
        push_all(&mut self.tentative, writes);
    }

    /// Commits the first `count` operations, which are applied: nothing undoes them any more. Takes no memory.
    pub fn settle(&mut self, count: usize)
        requires within { count ≤ vec_len self.old.tentative }
        ensures settled { self.new.settled.items ≡ self.old.settled.items ++ take count self.old.tentative.items }
        ensures tentative { self.new.tentative.items ≡ drop count self.old.tentative.items }
        ensures applies { (applied : ℕ) → count ≤ applied → Applies self.old applied → Applies self.new (applied - count) }
        ensures memory { (applied more : ℕ) → count ≤ applied → HasMemory self.old applied more → HasMemory self.new (applied - count) more }
    {
        self.settled.extend(&self.tentative[..count]);
        drop_front(&mut self.tentative, count);
    }

    // Takes memory for `more` operations, beside those that are there, of which the first `applied` are applied.
    fn take_memory(&mut self, applied: usize, more: usize) -> Result<(), NoMemory>
        requires { applied ≤ vec_len self.old.tentative }
        ensures settled { self.new.settled ≡ self.old.settled }
        ensures tentative { self.new.tentative.items ≡ self.old.tentative.items }
        ensures applies { (count : ℕ) → Applies self.old count → Applies self.new count }
        ensures kept { (count : ℕ) → HasMemory self.old applied count → HasMemory self.new applied count }
        ensures ok { OnOk result (HasMemory self.new applied more) }
    {
        let waiting = self.tentative.len() - applied;
        let keys = entries_for(more.saturating_add(waiting))?;
        reserve_layers(&mut self.tentative, more)?;
        self.current.reserve(keys)?;
        Ok(())
    }

    // Undoes the operation at `at`, which is the last that is applied.
    fn undo(&mut self, at: usize)
        requires within { at < vec_len self.old.tentative }
        requires applies { Applies self.old (at + 1) }
        ensures settled { self.new.settled ≡ self.old.settled }
        ensures tentative { self.new.tentative ≡ self.old.tentative }
        ensures applies { Applies self.new at }
        ensures memory { (more : ℕ) → HasMemory self.old (at + 1) more → HasMemory self.new at more }
    {
        let Layer { places, held, .. } = self.tentative[at];
        set_places(&mut self.current, places, held);
    }

    // Applies the operation at `at`, where just those before it are applied.
    fn apply(&mut self, at: usize)
        requires within { at < vec_len self.old.tentative }
        requires applies { Applies self.old at }
        requires memory { HasMemory self.old at 0 }
        ensures settled { self.new.settled ≡ self.old.settled }
        ensures applies { Applies self.new (at + 1) }
        ensures ops { ops_in self.new.tentative.items ≡ ops_in self.old.tentative.items }
        ensures count { vec_len self.new.tentative ≡ vec_len self.old.tentative }
        ensures memory { (more : ℕ) → HasMemory self.old at more → HasMemory self.new (at + 1) more }
    {
        let op = self.tentative[at].op;
        let places = look_up(&mut self.current, op);
        let held = held_at(&self.current, places);
        self.tentative[at] = Layer { op, places, held };
        set_places(&mut self.current, places, values_after(op, held));
    }
}

// Takes memory for so many layers beside those that are there, where there is less: for four times these and for 2,048
// at least, if it can, so that they are seldom moved. So many lie in memory of their own, which most systems move without
// copying, and of which only what is used is there.
fn reserve_layers(layers: &mut Vec<Layer>, more: usize) -> Result<(), NoMemory>
    ensures items { layers.new.items ≡ layers.old.items }
    ensures kept { vec_capacity layers.old ≤ vec_capacity layers.new }
    ensures ok { OnOk result (vec_len layers.old + more ≤ vec_capacity layers.new) }
{
    if more <= layers.capacity() - layers.len() {
        return Ok(());
    }
    let ample = layers.len().saturating_mul(3).max(more).max(2048);
    if layers.reserve(ample).is_err() {
        layers.reserve(more)?;
    }
    Ok(())
}

// Puts a layer before the one at a place, in memory that is there.
fn insert_layer(layers: &mut Vec<Layer>, at: usize, layer: Layer)
    requires within { at ≤ vec_len layers.old }
    requires capacity { vec_len layers.old < vec_capacity layers.old }
    ensures items { layers.new.items ≡ insert layers.old.items at layer }
    ensures capacity { vec_capacity layers.old ≤ vec_capacity layers.new }
{
    if at == layers.len() {
        push_layer(layers, layer);
    } else if layers.insert(at, layer).is_err() {
        unreachable!();
    }
}

// Puts a layer at the end, in memory that is there.
fn push_layer(layers: &mut Vec<Layer>, layer: Layer)
    requires { vec_len layers.old < vec_capacity layers.old }
    ensures items { layers.new.items ≡ layers.old.items ++ layer ∷ [] }
    ensures capacity { vec_capacity layers.old ≤ vec_capacity layers.new }
{
    if layers.push(layer).is_err() {
        unreachable!();
    }
}

// Puts the operations of writes at the end, none of them applied, in memory that is there.
fn push_all(layers: &mut Vec<Layer>, writes: &[Write])
    requires { vec_len layers.old + length writes.now ≤ vec_capacity layers.old }
    ensures front { take (length layers.old.items) layers.new.items ≡ layers.old.items }
    ensures ops { ops_in layers.new.items ≡ ops_in layers.old.items ++ ops_of writes.now }
    ensures capacity { vec_capacity layers.old ≤ vec_capacity layers.new }
{
    for write in writes {
        push_layer(layers, waiting(write.op));
    }
}

// The layer of an operation that isn't applied.
fn waiting(op: Op) -> Layer
    ensures { result.op ≡ op }
{
    let places = Places {
        first: 0,
        second: 0,
    };
    let held = KeyValues {
        first: 0,
        second: 0,
    };
    Layer { op, places, held }
}

// What the keys with these places hold.
fn held_at(current: &Current, places: Places) -> KeyValues
    requires first { IsPlace current.now places.first }
    requires second { IsPlace current.now places.second }
    ensures { (op : operation.Op) → HasPlaces current.now places op → result ≡ keys.key_values (holds current.now) op }
{
    KeyValues {
        first: current.at(places.first),
        second: current.at(places.second),
    }
}

// The places of the keys of an operation, which get some where they have none.
fn look_up(current: &mut Current, op: Op) -> Places
    requires { wanted current.old op ≤ current.old.spare }
    ensures extends { Extends current.old current.new }
    ensures places { HasPlaces current.new result op }
    ensures spare { current.old.spare ≤ current.new.spare + wanted current.old op }
{
    let first = current.place_of(first_key(op));
    let second = if second_key(op) == first_key(op) {
        first
    } else {
        current.place_of(second_key(op))
    };
    Places { first, second }
}

// Gives the keys at places other values.
fn set_places(current: &mut Current, places: Places, values: KeyValues)
    requires first { IsPlace current.old places.first }
    requires second { IsPlace current.old places.second }
    ensures places { current.new.places ≡ current.old.places }
    ensures values { (op : operation.Op) → HasPlaces current.old places op → SetsKeys current.old current.new op values }
    ensures spare { current.new.spare ≡ current.old.spare }
{
    current.set(places.first, values.first);
    current.set(places.second, values.second);
}

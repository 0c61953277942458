ghost use Rattle.std.specs.Prelude.{◌≡◌, ℕ, ◌+◌, ◌==◌, ◌<◌, ◌≤◌, [], Some, None, OnOk, if◌then◌else◌};
ghost use Rattle.rollback_apply.specs.Current.{place_of, holds, lacking, IsPlace, Extends};

use std::alloc::Global;
use std::collections::HashMap;
use std::marker::Model;
use tact_base::NoMemory;

/// The values of keys. A key that was once named has a place of its own from then on, so that its value is read and
/// written there without looking the key up. Contracts see the places, the values, and how many keys more can get a
/// place without taking memory.
#[derive(Debug, Drop)]
pub struct Current {
    places: HashMap<u64, usize>,
    values: Vec<i64>,
}

impl Model for Current {
    ghost use Rattle.std.specs.Prelude.{◌-◌, min, vec_len};
    ghost use Rattle.std.specs.HashMap.{spare};
    ghost use Rattle.std.specs.Vec.{vec_capacity};
    ghost use Rattle.rollback_apply.specs.Current.{CurrentState, IsPlaced};

    ghost Value = { CurrentState };

    ghost view = { λ current. record {
      places = current.places.entries;
      values = current.values.items;
      spare = min (spare current.places) (vec_capacity current.values - vec_len current.values);
    } };

    ghost invariant = { λ current. IsPlaced current.places.entries current.values.items };
}

impl Current {
    /// No key has a place. Takes no memory.
    pub fn new(alloc: Global) -> Current
        ensures { result.places ≡ [] }
    {
        Current {
            places: HashMap::new(alloc),
            values: Vec::new(alloc),
        }
    }

    /// Takes memory for places of `more` keys, beside those that have one. `NoMemory` leaves what each key holds as it
    /// was.
    pub fn reserve(&mut self, more: usize) -> Result<(), NoMemory>
        ensures extends { Extends self.old self.new }
        ensures kept { self.old.spare ≤ self.new.spare }
        ensures ok { OnOk result (more ≤ self.new.spare) }
    {
        self.places.reserve(more)?;
        self.values.reserve(more)?;
        Ok(())
    }

    /// What a key holds. Takes no memory.
    pub fn get(&self, key: u64) -> i64
        ensures { result ≡ holds self.now key }
    {
        match self.places.get(&key) {
            Some(place) => self.values[*place],
            None => 0,
        }
    }

    /// What the key holds that has the place. Takes no memory.
    pub fn at(&self, place: usize) -> i64
        requires { IsPlace self.now place }
        ensures { (key : ℕ) → place_of self.now key ≡ Some place → result ≡ holds self.now key }
    {
        self.values[place]
    }

    /// Gives the key that has the place another value; all others keep theirs. Takes no memory.
    pub fn set(&mut self, place: usize, value: i64)
        requires { IsPlace self.old place }
        ensures places { self.new.places ≡ self.old.places }
        ensures values { (key : ℕ)
            → place_of self.old key ≡ Some place
            → (other : ℕ)
            → holds self.new other ≡ (if other == key then value else holds self.old other) }
        ensures spare { self.new.spare ≡ self.old.spare }
    {
        self.values[place] = value;
    }

    /// The place of a key, which gets one where it has none. What keys hold stays. Takes no memory.
    pub fn place_of(&mut self, key: u64) -> usize
        requires { lacking self.old key ≤ self.old.spare }
        ensures place { place_of self.new key ≡ Some result }
        ensures extends { Extends self.old self.new }
        ensures spare { self.old.spare ≤ self.new.spare + lacking self.old key }
    {
        match self.places.get(&key) {
            Some(place) => *place,
            None => self.add(key),
        }
    }

    // Gives a key that has no place one, where it holds 0 as before.
    fn add(&mut self, key: u64) -> usize
        requires absent { place_of self.old key ≡ None }
        requires spare { 0 < self.old.spare }
        ensures place { place_of self.new key ≡ Some result }
        ensures extends { Extends self.old self.new }
        ensures spare { self.old.spare ≤ self.new.spare + 1 }
    {
        let place = self.values.len();
        if self.values.push(0).is_err() || self.places.insert(key, place).is_err() {
            unreachable!();
        }
        place
    }
}

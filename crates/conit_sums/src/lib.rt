//! A number of weights, summed by conit over a changing collection of the weights of writes.
#![tactic(auto)]

ghost use Rattle.std.specs.Prelude.{◌≡◌, ℕ, ◌+◌, ◌-◌, ◌*◌, ◌<◌, ◌≤◌, ◌^◌, List, [], ◌∷◌, ◌++◌, All, IfOk, length, replicate, slice_index};
ghost use Rattle.tact_base.specs.declared.conit_list.Weight.{Weight};
ghost use Rattle.tact_base.specs.declared.limits.TheConstants.{SUMMED_WRITES, WEIGHT_MAX};
ghost use Rattle.conit_sums.specs.ConitSums.{number_of, write_sum, AreSumsOf, Holds, sum_of};

use std::alloc::Global;
use std::marker::Model;
use tact_base::{NoMemory, Weight, Weights};

/// Which number of a weight is summed.
#[derive(Clone, Copy, Debug, PartialEq, Eq)]
pub enum Summed {
    /// How far its nweight is above 0.
    Plus,
    /// How far its nweight is below 0.
    Minus,
    /// Its oweight.
    Order,
}

/// The sums of a number of weights, by conit. Contracts see what is summed, the sums, and over the weights of
/// how many writes; `AreSumsOf` says over which.
#[derive(Debug, Drop)]
pub struct ConitSums {
    summed: Summed,
    sums: Vec<u64>,
    held: u64,
}

impl Model for ConitSums {
    ghost use Rattle.conit_sums.specs.ConitSums.{SumsState, AreSmall};

    ghost Value = { SumsState };

    ghost view = { λ s. record { summed = s.summed; sums = s.sums.items; held = s.held } };

    ghost invariant = { λ s. AreSmall s.held s.sums.items };
}

impl ConitSums {
    /// The sums over nothing, on so many conits, in memory of `alloc`.
    pub fn new(alloc: Global, summed: Summed, conits: u32) -> Result<ConitSums, NoMemory>
        ensures summed { IfOk result (λ made. made.summed ≡ summed) }
        ensures conits { IfOk result (λ made. length made.sums ≡ conits) }
        ensures none { IfOk result (λ made. AreSumsOf made []) }
    {
        Ok(ConitSums {
            summed,
            sums: vec![in alloc; 0; conits as usize]?,
            held: 0,
        })
    }

    /// Adds the weights of a write. Takes no memory.
    pub fn add(&mut self, weights: &Weights)
        requires conits { All (λ weight. weight.conit < length self.old.sums) weights.now }
        requires few { self.old.held < SUMMED_WRITES }
        ensures summed { self.new.summed ≡ self.old.summed }
        ensures conits { length self.new.sums ≡ length self.old.sums }
        ensures held { self.new.held ≡ self.old.held + 1 }
        ensures sums { (conit : ℕ) →
            slice_index self.new.sums conit ≡ slice_index self.old.sums conit + write_sum self.old.summed weights.now conit }
        ensures added { (front rest : List (List Weight)) →
            AreSumsOf self.old (front ++ rest) → AreSumsOf self.new (front ++ weights.now ∷ rest) }
    {
        add_each(&mut self.sums, weights.items(), self.summed);
        self.held += 1;
    }

    /// Takes off the weights of a write that were added. Takes no memory.
    pub fn remove(&mut self, weights: &Weights)
        requires conits { All (λ weight. weight.conit < length self.old.sums) weights.now }
        requires held { Holds self.old weights.now }
        ensures summed { self.new.summed ≡ self.old.summed }
        ensures conits { length self.new.sums ≡ length self.old.sums }
        ensures held { self.new.held ≡ self.old.held - 1 }
        ensures sums { (conit : ℕ) →
            slice_index self.new.sums conit + write_sum self.old.summed weights.now conit ≡ slice_index self.old.sums conit }
        ensures removed { (front rest : List (List Weight)) →
            AreSumsOf self.old (front ++ weights.now ∷ rest) → AreSumsOf self.new (front ++ rest) }
    {
        remove_each(&mut self.sums, weights.items(), self.summed);
        self.held -= 1;
    }

    /// The sum on the conit. Takes no memory.
    pub fn sum(&self, conit: u32) -> u64
        requires { conit < length self.now.sums }
        ensures sum { result ≡ slice_index self.now.sums conit }
        ensures bound { result ≤ self.now.held * WEIGHT_MAX }
        ensures few { self.now.held ≤ SUMMED_WRITES }
        ensures of { (writes : List (List Weight)) →
            AreSumsOf self.now writes → result ≡ sum_of self.now.summed writes conit }
    {
        self.sums[conit as usize]
    }
}

fn number(summed: Summed, weight: &Weight) -> u64
    ensures { result ≡ number_of summed weight.now }
{
    match summed {
        Summed::Plus => weight.nweight.max(0).unsigned_abs(),
        Summed::Minus => weight.nweight.min(0).unsigned_abs(),
        Summed::Order => weight.oweight,
    }
}

/// Adds a number of each weight to the sum on its conit. Takes no memory.
pub fn add_each(sums: &mut Vec<u64>, weights: &[Weight], summed: Summed)
    requires conits { All (λ weight. weight.conit < length sums.old.items) weights.now }
    requires room { (conit : ℕ) → slice_index sums.old.items conit + write_sum summed weights.now conit < 2 ^ 64 }
    ensures conits { length sums.new.items ≡ length sums.old.items }
    ensures sums { (conit : ℕ) →
        slice_index sums.new.items conit ≡ slice_index sums.old.items conit + write_sum summed weights.now conit }
{
    for weight in weights {
        sums[weight.conit as usize] += number(summed, weight);
    }
}

/// Takes a number of each weight off the sum on its conit. Takes no memory.
pub fn remove_each(sums: &mut Vec<u64>, weights: &[Weight], summed: Summed)
    requires conits { All (λ weight. weight.conit < length sums.old.items) weights.now }
    requires held { (conit : ℕ) → write_sum summed weights.now conit ≤ slice_index sums.old.items conit }
    ensures conits { length sums.new.items ≡ length sums.old.items }
    ensures sums { (conit : ℕ) →
        slice_index sums.new.items conit + write_sum summed weights.now conit ≡ slice_index sums.old.items conit }
{
    for weight in weights {
        sums[weight.conit as usize] -= number(summed, weight);
    }
}

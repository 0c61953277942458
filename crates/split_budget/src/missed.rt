ghost use Rattle.std.specs.Prelude.{◌≡◌, ℕ, ◌+◌, ◌<◌, ◌≤◌, ◌^◌, [], All, IfOk, length, slice_index};
ghost use Rattle.tact_base.specs.Sums.{above_zero, below_zero};
ghost use Rattle.conit_sums.specs.ConitSums.{sum_of};
ghost use Rattle.split_budget.specs.Budgets.{part_sum, part_on};
ghost use Rattle.split_budget.specs.Missed.{conits_of, AreMissed};
ghost use Rattle.split_budget.specs.OwnWrites.{OnConits};

use conit_sums::{Summed, add_each, remove_each};
use std::alloc::Global;
use std::marker::Model;
use tact_base::{Few, LIST_MAX, NoMemory, Weight};

/// The weights of one write.
pub(crate) type Row = Few<Weight, LIST_MAX>;

/// What a peer may miss: by conit, the sum of the positive nweights and that of the sizes of the negative
/// ones.
#[derive(Debug, Drop)]
pub(crate) struct Missed {
    plus: Vec<u64>,
    minus: Vec<u64>,
}

impl Model for Missed {
    ghost use Rattle.std.specs.Prelude.{◌≡◌, length};
    ghost use Rattle.split_budget.specs.Missed.{MissedState};

    ghost Value = { MissedState };

    ghost view = { λ m. record { plus = m.plus.items; minus = m.minus.items } };

    ghost invariant = { λ m. length m.minus.items ≡ length m.plus.items };
}

impl Missed {
    /// The sums of no write, on so many conits.
    pub(crate) fn new(alloc: Global, conits: u32) -> Result<Missed, NoMemory>
        ensures { IfOk result (λ made. AreMissed conits [] made) }
    {
        Ok(Missed {
            plus: vec![in alloc; 0; conits as usize]?,
            minus: vec![in alloc; 0; conits as usize]?,
        })
    }

    /// Adds the weights of a write. Takes no memory.
    pub(crate) fn add(&mut self, weights: &[Weight])
        requires conits { All (λ weight. weight.conit < conits_of self.old) weights.now }
        requires plus { (conit : ℕ) → conit < conits_of self.old →
            slice_index self.old.plus conit + part_sum above_zero conit weights.now < 2 ^ 64 }
        requires minus { (conit : ℕ) → conit < conits_of self.old →
            slice_index self.old.minus conit + part_sum below_zero conit weights.now < 2 ^ 64 }
        ensures conits { conits_of self.new ≡ conits_of self.old }
        ensures plus { (conit : ℕ) →
            slice_index self.new.plus conit ≡ slice_index self.old.plus conit + part_sum above_zero conit weights.now }
        ensures minus { (conit : ℕ) →
            slice_index self.new.minus conit ≡ slice_index self.old.minus conit + part_sum below_zero conit weights.now }
    {
        add_each(&mut self.plus, weights, Summed::Plus);
        add_each(&mut self.minus, weights, Summed::Minus);
    }

    /// Takes off the weights of writes that were added. Takes no memory.
    pub(crate) fn take_off(&mut self, writes: &[Row])
        requires conits { OnConits (conits_of self.old) writes.now }
        requires plus { (conit : ℕ) → part_on above_zero conit writes.now ≤ slice_index self.old.plus conit }
        requires minus { (conit : ℕ) → part_on below_zero conit writes.now ≤ slice_index self.old.minus conit }
        ensures conits { conits_of self.new ≡ conits_of self.old }
        ensures plus { (conit : ℕ) →
            slice_index self.new.plus conit + part_on above_zero conit writes.now ≡ slice_index self.old.plus conit }
        ensures minus { (conit : ℕ) →
            slice_index self.new.minus conit + part_on below_zero conit writes.now ≡ slice_index self.old.minus conit }
    {
        take_each(&mut self.plus, writes, Summed::Plus);
        take_each(&mut self.minus, writes, Summed::Minus);
    }

    /// The sum of the positive nweights on the conit. Takes no memory.
    pub(crate) fn plus(&self, conit: u32) -> u64
        requires { conit < conits_of self.now }
        ensures { result ≡ slice_index self.now.plus conit }
    {
        self.plus[conit as usize]
    }

    /// The sum of the sizes of the negative nweights on the conit. Takes no memory.
    pub(crate) fn minus(&self, conit: u32) -> u64
        requires { conit < conits_of self.now }
        ensures { result ≡ slice_index self.now.minus conit }
    {
        self.minus[conit as usize]
    }
}

// Takes a number of each weight of these writes off the sum on its conit.
fn take_each(sums: &mut Vec<u64>, writes: &[Row], summed: Summed)
    requires conits { OnConits (length sums.old.items) writes.now }
    requires held { (conit : ℕ) → sum_of summed writes.now conit ≤ slice_index sums.old.items conit }
    ensures conits { length sums.new.items ≡ length sums.old.items }
    ensures sums { (conit : ℕ) →
        slice_index sums.new.items conit + sum_of summed writes.now conit ≡ slice_index sums.old.items conit }
{
    for write in writes {
        remove_each(sums, write.items(), summed);
    }
}

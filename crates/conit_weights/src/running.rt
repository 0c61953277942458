ghost use Rattle.std.specs.Prelude.{◌≡◌, ℕ, ◌+◌, ◌-◌, ◌*◌, ◌<◌, ◌≤◌, ◌^◌, List, [], ◌∷◌, ◌++◌, All, IfOk, length, map, slice_index};
ghost use Rattle.tact_base.specs.Sums.{above_zero, below_zero};
ghost use Rattle.tact_base.specs.declared.conit_list.Weight.{Weight};
ghost use Rattle.tact_base.specs.declared.limits.TheConstants.{SUMMED_WRITES, WEIGHT_MAX};
ghost use Rattle.conit_sums.specs.declared.Summed.{Summed};
ghost use Rattle.conit_sums.specs.declared.Summed.TheVariants.{Plus, Minus, Order};
ghost use Rattle.conit_sums.specs.ConitSums.{sum_of, write_sum};
ghost use Rattle.conit_weights.specs.Running.{HoldsAll, WasAdded, conits_of, held_of, net_of, part_of};

use std::alloc::Global;
use std::marker::Model;
use tact_base::{NoMemory, Weight, Weights};

/// The sums on one conit.
#[derive(Clone, Copy, Debug)]
struct OnConit {
    plus: u64,
    minus: u64,
    order: u64,
}

/// The sums of a changing collection of the weights of writes. Contracts see the sums; `HoldsAll` says of
/// which writes they are.
#[derive(Debug, Drop)]
pub struct Running {
    sums: Vec<OnConit>,
    held: u64,
}

impl Model for Running {
    ghost use Rattle.conit_sums.specs.declared.Summed.TheVariants.{Plus, Minus, Order};
    ghost use Rattle.conit_weights.specs.Running.{RunningState, AreAllSmall, seen_of};

    ghost Value = { RunningState };

    ghost view = { λ r. record {
      plus = seen_of Plus r.sums.items r.held;
      minus = seen_of Minus r.sums.items r.held;
      order = seen_of Order r.sums.items r.held;
    } };

    ghost invariant = { λ r. AreAllSmall r.held r.sums.items };
}

impl Running {
    /// The sums over nothing, on so many conits, in memory of `alloc`.
    pub fn new(alloc: Global, conits: u32) -> Result<Running, NoMemory>
        ensures conits { IfOk result (λ made. conits_of made ≡ conits) }
        ensures held { IfOk result (λ made. held_of made ≡ 0) }
        ensures none { IfOk result (λ made. HoldsAll made []) }
    {
        let none = OnConit {
            plus: 0,
            minus: 0,
            order: 0,
        };
        Ok(Running {
            sums: vec![in alloc; none; conits as usize]?,
            held: 0,
        })
    }

    /// Adds the weights of a write, to those of fewer than 200,000. Takes no memory.
    pub fn add(&mut self, weights: &Weights)
        requires conits { All (λ weight. weight.conit < conits_of self.old) weights.now }
        requires few { held_of self.old < SUMMED_WRITES }
        ensures conits { conits_of self.new ≡ conits_of self.old }
        ensures held { held_of self.new ≡ held_of self.old + 1 }
        ensures added { (front rest : List (List Weight)) →
            HoldsAll self.old (front ++ rest) → HoldsAll self.new (front ++ weights.now ∷ rest) }
    {
        add_each(&mut self.sums, weights.items());
        self.held += 1;
    }

    /// Takes off the weights of a write that were added and not removed. Takes no memory.
    pub fn remove(&mut self, weights: &Weights)
        requires conits { All (λ weight. weight.conit < conits_of self.old) weights.now }
        requires held { WasAdded self.old weights.now }
        ensures conits { conits_of self.new ≡ conits_of self.old }
        ensures held { held_of self.new ≡ held_of self.old - 1 }
        ensures removed { (front rest : List (List Weight)) →
            HoldsAll self.old (front ++ weights.now ∷ rest) → HoldsAll self.new (front ++ rest) }
    {
        remove_each(&mut self.sums, weights.items());
        self.held -= 1;
    }

    // The sums on the conit.
    fn on(&self, conit: u32) -> OnConit
        requires { conit < conits_of self.now }
        ensures plus { result.plus ≤ SUMMED_WRITES * WEIGHT_MAX }
        ensures minus { result.minus ≤ SUMMED_WRITES * WEIGHT_MAX }
        ensures of { (writes : List (List Weight)) → HoldsAll self.now writes →
            (summed : Summed) → part_of summed result ≡ sum_of summed writes conit }
    {
        self.sums[conit as usize]
    }

    /// The sum of the positive nweights on the conit. Takes no memory.
    pub fn plus(&self, conit: u32) -> u64
        requires { conit < conits_of self.now }
        ensures { (writes : List (List Weight)) → HoldsAll self.now writes → result ≡ sum_of Plus writes conit }
    {
        self.on(conit).plus
    }

    /// The sum of the sizes of the negative nweights on the conit. Takes no memory.
    pub fn minus(&self, conit: u32) -> u64
        requires { conit < conits_of self.now }
        ensures { (writes : List (List Weight)) → HoldsAll self.now writes → result ≡ sum_of Minus writes conit }
    {
        self.on(conit).minus
    }

    /// The sum of the nweights on the conit. Takes no memory.
    pub fn net(&self, conit: u32) -> i64
        requires { conit < conits_of self.now }
        ensures { (writes : List (List Weight)) → HoldsAll self.now writes → result ≡ net_of writes conit }
    {
        let on = self.on(conit);
        on.plus as i64 - on.minus as i64
    }

    /// The sum of the oweights on the conit. Takes no memory.
    pub fn order(&self, conit: u32) -> u64
        requires { conit < conits_of self.now }
        ensures { (writes : List (List Weight)) → HoldsAll self.now writes → result ≡ sum_of Order writes conit }
    {
        self.on(conit).order
    }
}

// With one more weight.
fn with_weight(on: OnConit, weight: &Weight) -> OnConit
    requires plus { on.plus + above_zero weight.now.nweight < 2 ^ 64 }
    requires minus { on.minus + below_zero weight.now.nweight < 2 ^ 64 }
    requires order { on.order + weight.now.oweight < 2 ^ 64 }
    ensures plus { result.plus ≡ on.plus + above_zero weight.now.nweight }
    ensures minus { result.minus ≡ on.minus + below_zero weight.now.nweight }
    ensures order { result.order ≡ on.order + weight.now.oweight }
{
    OnConit {
        plus: on.plus + weight.nweight.max(0).unsigned_abs(),
        minus: on.minus + weight.nweight.min(0).unsigned_abs(),
        order: on.order + weight.oweight,
    }
}

// Without one of the weights.
fn without_weight(on: OnConit, weight: &Weight) -> OnConit
    requires plus { above_zero weight.now.nweight ≤ on.plus }
    requires minus { below_zero weight.now.nweight ≤ on.minus }
    requires order { weight.now.oweight ≤ on.order }
    ensures plus { result.plus ≡ on.plus - above_zero weight.now.nweight }
    ensures minus { result.minus ≡ on.minus - below_zero weight.now.nweight }
    ensures order { result.order ≡ on.order - weight.now.oweight }
{
    OnConit {
        plus: on.plus - weight.nweight.max(0).unsigned_abs(),
        minus: on.minus - weight.nweight.min(0).unsigned_abs(),
        order: on.order - weight.oweight,
    }
}

// Adds each of the weights to the sums on its conit.
fn add_each(sums: &mut Vec<OnConit>, weights: &[Weight])
    requires conits { All (λ weight. weight.conit < length sums.old.items) weights.now }
    requires room { (summed : Summed) (conit : ℕ) →
        slice_index (map (part_of summed) sums.old.items) conit + write_sum summed weights.now conit < 2 ^ 64 }
    ensures conits { length sums.new.items ≡ length sums.old.items }
    ensures sums { (summed : Summed) (conit : ℕ) → slice_index (map (part_of summed) sums.new.items) conit
        ≡ slice_index (map (part_of summed) sums.old.items) conit + write_sum summed weights.now conit }
{
    for weight in weights {
        let conit = weight.conit as usize;
        sums[conit] = with_weight(sums[conit], weight);
    }
}

// Takes each of the weights off the sums on its conit.
fn remove_each(sums: &mut Vec<OnConit>, weights: &[Weight])
    requires conits { All (λ weight. weight.conit < length sums.old.items) weights.now }
    requires held { (summed : Summed) (conit : ℕ) →
        write_sum summed weights.now conit ≤ slice_index (map (part_of summed) sums.old.items) conit }
    ensures conits { length sums.new.items ≡ length sums.old.items }
    ensures sums { (summed : Summed) (conit : ℕ) →
        slice_index (map (part_of summed) sums.new.items) conit + write_sum summed weights.now conit
        ≡ slice_index (map (part_of summed) sums.old.items) conit }
{
    for weight in weights {
        let conit = weight.conit as usize;
        sums[conit] = without_weight(sums[conit], weight);
    }
}

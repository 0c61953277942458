ghost use Rattle.std.specs.Prelude.{◌≡◌, ◌+◌, ◌-◌, ◌<◌, List, [], ◌∷◌, ◌++◌, All, IfOk, length};
ghost use Rattle.tact_base.specs.declared.conit_list.Weight.{Weight};
ghost use Rattle.tact_base.specs.declared.limits.TheConstants.{SUMMED_WRITES};
ghost use Rattle.conit_sums.specs.declared.Summed.TheVariants.{Order};
ghost use Rattle.conit_sums.specs.ConitSums.{AreSumsOf, Holds, sum_of};

use conit_sums::{ConitSums, Summed};
use std::alloc::Global;
use std::marker::Model;
use tact_base::{NoMemory, Weights};

/// How much a changing collection of tentative writes weighs on each conit. Contracts see the sums of the
/// oweights; `AreSumsOf` says of which writes they are.
#[derive(Debug, Drop)]
pub struct Totals {
    order: ConitSums,
}

impl Model for Totals {
    ghost use Rattle.std.specs.Prelude.{◌≡◌};
    ghost use Rattle.conit_sums.specs.declared.Summed.TheVariants.{Order};
    ghost use Rattle.conit_sums.specs.ConitSums.{SumsState};

    ghost Value = { SumsState };

    ghost view = { λ t. t.order };

    ghost invariant = { λ t. t.order.summed ≡ Order };
}

impl Totals {
    /// The totals of nothing, on so many conits, in memory of `alloc`.
    pub fn new(alloc: Global, conits: u32) -> Result<Totals, NoMemory>
        ensures conits { IfOk result (λ made. length made.sums ≡ conits) }
        ensures held { IfOk result (λ made. made.held ≡ 0) }
        ensures none { IfOk result (λ made. AreSumsOf made []) }
    {
        Ok(Totals {
            order: ConitSums::new(alloc, Summed::Order, conits)?,
        })
    }

    /// Adds the weights of a write, to those of fewer than 200,000. Takes no memory.
    pub fn add(&mut self, weights: &Weights)
        requires conits { All (λ weight. weight.conit < length self.old.sums) weights.now }
        requires few { self.old.held < SUMMED_WRITES }
        ensures conits { length self.new.sums ≡ length self.old.sums }
        ensures held { self.new.held ≡ self.old.held + 1 }
        ensures added { (front rest : List (List Weight)) →
            AreSumsOf self.old (front ++ rest) → AreSumsOf self.new (front ++ weights.now ∷ rest) }
    {
        self.order.add(weights);
    }

    /// Takes off the weights of a write that were added and not removed. Takes no memory.
    pub fn remove(&mut self, weights: &Weights)
        requires conits { All (λ weight. weight.conit < length self.old.sums) weights.now }
        requires held { Holds self.old weights.now }
        ensures conits { length self.new.sums ≡ length self.old.sums }
        ensures held { self.new.held ≡ self.old.held - 1 }
        ensures removed { (front rest : List (List Weight)) →
            AreSumsOf self.old (front ++ weights.now ∷ rest) → AreSumsOf self.new (front ++ rest) }
    {
        self.order.remove(weights);
    }

    /// The sum of the oweights on the conit. Takes no memory.
    pub fn weight(&self, conit: u32) -> u64
        requires { conit < length self.now.sums }
        ensures { (writes : List (List Weight)) → AreSumsOf self.now writes → result ≡ sum_of Order writes conit }
    {
        self.order.sum(conit)
    }
}

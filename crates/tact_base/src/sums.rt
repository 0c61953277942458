ghost use Rattle.std.specs.Prelude.{◌≡◌, ◌≤◌, ◌*◌, ℕ, length, sum_by, true};
ghost use Rattle.std.specs.Fn.{FnReturnsAt};
ghost use Rattle.tact_base.specs.Sums.{weights_on, on_conit};
ghost use Rattle.tact_base.specs.declared.conit_list.Weight.{Weight};
ghost use Rattle.tact_base.specs.declared.limits.TheConstants.{SUMMED_WRITES, WEIGHT_MAX};

use crate::{OnConit, Weight, Weights, Write};

/// The sum of a number of each weight that these writes have on the conit. `number` gives it, and is at
/// most 10^6 where the weight is within its limits. Takes no memory.
pub fn sum_on<F: Fn(&Weight) -> u64>(writes: &[Write], conit: u32, number: F) -> u64
    ghost amount: { Weight → ℕ }
    requires few { length writes.now ≤ SUMMED_WRITES }
    requires callable { F.IsAlwaysCallable number }
    requires gives { (w : Weight) (r : ℕ) → FnReturnsAt F.Fn number w r → r ≡ amount w }
    requires small { (w : Weight) → ⟦<Weight as OnConit>⟧.in_limits w ≡ true → amount w ≤ WEIGHT_MAX }
    ensures sum { result ≡ sum_by amount (weights_on writes.now conit) }
    ensures bound { result ≤ length writes.now * WEIGHT_MAX }
{
    let mut sum = 0;
    for write in writes {
        sum += sum_of(&write.weights, conit, &number);
    }
    sum
}

// The sum over one write's weights.
fn sum_of<F: Fn(&Weight) -> u64>(weights: &Weights, conit: u32, number: &F) -> u64
    ghost amount: { Weight → ℕ }
    requires callable { F.IsAlwaysCallable number.now }
    requires gives { (w : Weight) (r : ℕ) → FnReturnsAt F.Fn number.now w r → r ≡ amount w }
    requires small { (w : Weight) → ⟦<Weight as OnConit>⟧.in_limits w ≡ true → amount w ≤ WEIGHT_MAX }
    ensures sum { result ≡ sum_by amount (on_conit conit weights.now) }
    ensures bound { result ≤ WEIGHT_MAX }
{
    let mut sum = 0;
    for weight in weights.items() {
        if weight.conit == conit {
            sum += number(weight);
        }
    }
    sum
}

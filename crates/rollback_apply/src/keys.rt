ghost use Rattle.std.specs.Prelude.{◌≡◌, ℕ, ℤ, pos, ◌+ℤ◌, ◌-ℤ◌, int_le, true};
ghost use Rattle.tact_base.specs.Images.{capped, shift_acts, after_op};
ghost use Rattle.rollback_apply.specs.Keys as keys;

use tact_base::{Op, VALUE_MAX};

/// The values of the keys that an operation names, in its order: twice the same one where it names a single key.
#[derive(Clone, Copy, Debug)]
pub struct KeyValues {
    /// Of the key that it changes first.
    pub first: i64,
    /// Of the key that it changes last.
    pub second: i64,
}

impl KeyValues {
    /// The value of a key of the operation `op`; `None` where the operation doesn't name it. Takes no memory.
    pub fn among(self, op: Op, key: u64) -> Option<i64>
        ensures { result ≡ keys.value_among self op key }
    {
        if key == first_key(op) {
            Some(self.first)
        } else if key == second_key(op) {
            Some(self.second)
        } else {
            None
        }
    }
}

/// The key that an operation changes first. Takes no memory.
pub fn first_key(op: Op) -> u64
    ensures { result ≡ keys.first_key op }
{
    match op {
        Op::Put { key, .. } => key,
        Op::Add { key, .. } => key,
        Op::Shift { from, .. } => from,
    }
}

/// The key that it changes last, the same one but for a shift. Takes no memory.
pub fn second_key(op: Op) -> u64
    ensures { result ≡ keys.second_key op }
{
    match op {
        Op::Put { key, .. } => key,
        Op::Add { key, .. } => key,
        Op::Shift { to, .. } => to,
    }
}

/// What the keys of an operation hold after it, whatever else does, where they held `held`. Takes no memory.
pub fn values_after(op: Op, held: KeyValues) -> KeyValues
    ensures { (image : ℕ → ℤ)
        → keys.key_values image op ≡ held
        → keys.key_values (after_op image op) op ≡ result }
{
    match op {
        Op::Put { value, .. } => twice(value),
        Op::Add { delta, .. } => twice(capped_sum(held.first, delta)),
        Op::Shift { from, to, amount } => {
            if acts(from, to, amount, held.first) {
                shifted(held, amount)
            } else {
                held
            }
        }
    }
}

// The values of a single key.
fn twice(value: i64) -> KeyValues
    ensures first { result.first ≡ value }
    ensures second { result.second ≡ value }
{
    KeyValues {
        first: value,
        second: value,
    }
}

// What the keys of a shift hold after it, where it acts.
fn shifted(held: KeyValues, amount: u64) -> KeyValues
    requires { int_le (pos amount) held.first ≡ true }
    ensures first { result.first ≡ held.first -ℤ pos amount }
    ensures second { result.second ≡ capped (held.second +ℤ pos amount) }
{
    let amount = amount as i64;
    KeyValues {
        first: held.first - amount,
        second: capped_sum(held.second, amount),
    }
}

// Whether a shift acts where the first key holds `held`.
fn acts(from: u64, to: u64, amount: u64, held: i64) -> bool
    ensures { result ≡ shift_acts (λ _. held) from to amount }
{
    from != to && held >= 0 && amount <= held as u64
}

// The sum, stopping at 10^15 and -10^15. The sign of what is added tells which of them it may pass, and it is made only
// where it doesn't, so that it fits.
fn capped_sum(value: i64, delta: i64) -> i64
    ensures { result ≡ capped (value +ℤ delta) }
{
    let most = VALUE_MAX as i64;
    if delta < 0 {
        if value <= -most - delta {
            -most
        } else {
            (value + delta).min(most)
        }
    } else if value >= most - delta {
        most
    } else {
        (value + delta).max(-most)
    }
}

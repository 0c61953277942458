ghost use Rattle.std.specs.Prelude.{◌≡◌, ℕ, ◌+◌, ◌*◌, ◌==◌, ◌≤◌, ◌<◌, ◌^◌, Some, nat_eq, length, IfOk, OnErr, if◌then◌else◌};
ghost use Rattle.std.specs.HashMap.{get, spare};
ghost use Rattle.tact_base.specs.Images.{after_op, image_from, image_of};
ghost use Rattle.rollback_apply.specs.Keys as keys;
ghost use Rattle.rollback_apply.specs.Values.{value_at};

use crate::keys::{KeyValues, first_key, second_key, values_after};
use std::alloc::Global;
use std::collections::HashMap;
use tact_base::{NoMemory, Op};

/// The values of keys. A key that is absent has the value 0, or what a map below this one has.
pub type Values = HashMap<u64, i64>;

/// The value of a key after operations in order: their fold from scratch. It wants memory for twice as many keys as
/// there are operations, and answers `NoMemory` where there isn't so much.
pub fn value_after(alloc: Global, ops: &[Op], key: u64) -> Result<i64, NoMemory>
    ensures { IfOk result (λ value. value ≡ image_of ops.now key) }
{
    let mut values = HashMap::new(alloc);
    values.reserve(entries_for(ops.len())?)?;
    apply_all(&mut values, ops);
    Ok(value_of(&values, key))
}

/// The value of a key. Takes no memory.
pub fn value_of(values: &Values, key: u64) -> i64
    ensures { result ≡ value_at values.now key }
{
    values.get(&key).copied().unwrap_or(0)
}

/// The greatest number of entries that so many operations make: two for each. `NoMemory` where it is past the
/// greatest usize.
pub fn entries_for(count: usize) -> Result<usize, NoMemory>
    ensures ok { IfOk result (λ entries. entries ≡ 2 * count) }
    ensures err { OnErr result (2 ^ 64 ≤ 2 * count) }
{
    count.checked_mul(2).ok_or(NoMemory)
}

/// Changes the values as operations say, in order. Takes no memory.
pub fn apply_all(values: &mut Values, ops: &[Op])
    requires { 2 * length ops.now ≤ spare values.old }
    ensures values { (key : ℕ) → value_at values.new key ≡ image_from (value_at values.old) ops.now key }
    ensures spare { spare values.old ≤ spare values.new + 2 * length ops.now }
{
    for op in ops {
        apply(values, *op);
    }
}

fn apply(values: &mut Values, op: Op)
    requires { 2 ≤ spare values.old }
    ensures values { (key : ℕ) → value_at values.new key ≡ after_op (value_at values.old) op key }
    ensures spare { spare values.old ≤ spare values.new + 2 }
{
    let first = value_of(values, first_key(op));
    let second = if second_key(op) == first_key(op) {
        first
    } else {
        value_of(values, second_key(op))
    };
    let held = KeyValues { first, second };
    set_keys(values, op, values_after(op, held));
}

// Gives the keys of an operation other values, in memory that is there.
fn set_keys(values: &mut Values, op: Op, new: KeyValues)
    requires { 2 ≤ spare values.old }
    ensures updates { (key : ℕ)
        → get nat_eq values.new key
        ≡ (if key == keys.second_key op
        then Some new.second
        else (if key == keys.first_key op then Some new.first else get nat_eq values.old key)) }
    ensures spare { spare values.old ≤ spare values.new + 2 }
{
    if first_key(op) != second_key(op) {
        set_value(values, first_key(op), new.first);
    }
    set_value(values, second_key(op), new.second);
}

// Gives a key a value, in memory that is there. A key that is present keeps its entry, so that nothing but its
// value changes.
fn set_value(values: &mut Values, key: u64, value: i64)
    requires { 0 < spare values.old }
    ensures updates { (other : ℕ)
        → get nat_eq values.new other ≡ (if other == key then Some value else get nat_eq values.old other) }
    ensures spare { spare values.old ≤ spare values.new + 1 }
{
    match values.get_mut(&key) {
        Some(held) => *held = value,
        None => {
            if values.insert(key, value).is_err() {
                unreachable!();
            }
        }
    }
}

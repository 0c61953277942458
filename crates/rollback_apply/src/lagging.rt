//! What keys hold after operations that aren't applied.
ghost use Rattle.std.specs.Prelude.{◌≡◌, ◌≤◌, length, take};
ghost use Rattle.tact_base.specs.Images.{image_from};
ghost use Rattle.rollback_apply.specs.Current.{holds};
ghost use Rattle.rollback_apply.specs.Keys as keys;
ghost use Rattle.rollback_apply.specs.Lagging.{afters_of};
ghost use Rattle.rollback_apply.specs.Layers.{ops_in};
ghost use Rattle.rollback_apply.specs.declared.lagging.TheConstants.{LAG};

use crate::current::Current;
use crate::keys::{KeyValues, first_key, second_key, values_after};
use crate::layers::Layer;
use tact_base::Op;

/// At most so many operations aren't applied between calls. What keys hold after these is told without memory, by going
/// over them for each of them.
pub const LAG: usize = 512;

/// What a key holds after operations that aren't applied. It costs steps as the square of their number. Takes no
/// memory.
#[cold]
#[inline(never)]
pub fn value_late(current: &Current, late: &[Layer], key: u64) -> i64
    requires few { length late.now ≤ LAG }
    ensures { result ≡ image_from (holds current.now) (ops_in late.now) key }
{
    value_by(current, late, &all_after(current, late), key)
}

/// What the keys of an operation hold after operations that aren't applied. It costs steps as the square of their
/// number. Takes no memory.
#[cold]
#[inline(never)]
pub fn values_late(current: &Current, late: &[Layer], op: Op) -> KeyValues
    requires few { length late.now ≤ LAG }
    ensures { result ≡ keys.key_values (image_from (holds current.now) (ops_in late.now)) op }
{
    values_by(current, late, &all_after(current, late), op)
}

// What the keys of each operation hold after it.
fn all_after(current: &Current, late: &[Layer]) -> [KeyValues; LAG]
    requires few { length late.now ≤ LAG }
    ensures { take (length late.now) result ≡ afters_of (holds current.now) (ops_in late.now) }
{
    let nothing = KeyValues {
        first: 0,
        second: 0,
    };
    let mut after = [nothing; LAG];
    for at in 0..late.len() {
        let op = late[at].op;
        after[at] = values_after(op, values_by(current, &late[..at], &after, op));
    }
    after
}

// What the keys of an operation hold after others, where it is told what the keys of each hold after it.
fn values_by(current: &Current, late: &[Layer], after: &[KeyValues], op: Op) -> KeyValues
    requires places { length late.now ≤ length after.now }
    requires told { take (length late.now) after.now ≡ afters_of (holds current.now) (ops_in late.now) }
    ensures { result ≡ keys.key_values (image_from (holds current.now) (ops_in late.now)) op }
{
    let first = value_by(current, late, after, first_key(op));
    let second = if second_key(op) == first_key(op) {
        first
    } else {
        value_by(current, late, after, second_key(op))
    };
    KeyValues { first, second }
}

// What a key holds after operations, where it is told what the keys of each hold after it: the last one that names the
// key tells it.
fn value_by(current: &Current, late: &[Layer], after: &[KeyValues], key: u64) -> i64
    requires places { length late.now ≤ length after.now }
    requires told { take (length late.now) after.now ≡ afters_of (holds current.now) (ops_in late.now) }
    ensures { result ≡ image_from (holds current.now) (ops_in late.now) key }
{
    let mut value = current.get(key);
    for at in 0..late.len() {
        value = after[at].among(late[at].op, key).unwrap_or(value);
    }
    value
}

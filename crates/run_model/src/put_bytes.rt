//! Weights and operations as bytes. Each is put together in place, field by field, and appended at once.

ghost use Rattle.std.specs.Prelude.{◌≡◌, ◌<◌, ◌≤◌, ◌+◌, ◌*◌, ◌∷◌, ◌++◌, All, OnOk, OnErr, length};
ghost use Rattle.std.specs.List.{flat_map};
ghost use Rattle.tact_base.specs.declared.limits.TheConstants.{CONITS_MAX};
ghost use Rattle.run_model.specs.Bytes.{number_bytes, signed_bytes, weight_bytes, weights_bytes, op_bytes};

use crate::ShortBytes;
use tact_base::{Bytes, NoMemory, Op, Weight, Weights};

/// Appends weights: their number in one byte, then for each its conit in one byte, its nweight and its oweight
/// in eight. Numbers are big-endian, signed ones two's complement. `NoMemory` leaves `out` as it was.
pub fn put_weights(weights: &Weights, out: &mut Bytes) -> Result<(), NoMemory>
    requires { All (λ weight. weight.conit < CONITS_MAX) weights.now }
    ensures ok { OnOk result (out.new ≡ out.old ++ weights_bytes weights.now) }
    ensures err { OnErr result (out.new ≡ out.old) }
{
    let mut short = ShortBytes::new();
    fill_weights(weights, &mut short);
    out.append(short.bytes())
}

/// Appends an operation: a tag in one byte, 1 for a put, 2 for an add and 3 for a shift, and its fields in
/// eight bytes each. Numbers are big-endian, signed ones two's complement. `NoMemory` leaves `out` as it was.
pub fn put_op(op: &Op, out: &mut Bytes) -> Result<(), NoMemory>
    ensures ok { OnOk result (out.new ≡ out.old ++ op_bytes op.now) }
    ensures err { OnErr result (out.new ≡ out.old) }
{
    let mut short = ShortBytes::new();
    fill_op(op, &mut short);
    out.append(short.bytes())
}

/// Puts weights, which have at most 69 bytes.
pub(crate) fn fill_weights(weights: &Weights, out: &mut ShortBytes)
    requires conits { All (λ weight. weight.conit < CONITS_MAX) weights.now }
    requires room { 69 ≤ out.old.room }
    ensures items { out.new.items ≡ out.old.items ++ weights_bytes weights.now }
    ensures room { out.old.room ≤ out.new.room + 69 }
{
    let items = weights.items();
    out.put_byte(items.len() as u32);
    fill_each(items, out);
}

fn fill_each(items: &[Weight], out: &mut ShortBytes)
    requires conits { All (λ weight. weight.conit < CONITS_MAX) items.now }
    requires room { 17 * length items.now ≤ out.old.room }
    ensures items { out.new.items ≡ out.old.items ++ flat_map weight_bytes items.now }
    ensures room { out.old.room ≡ out.new.room + 17 * length items.now }
{
    for item in items {
        fill_weight(item, out);
    }
}

/// Puts a weight, which has 17 bytes.
pub(crate) fn fill_weight(weight: &Weight, out: &mut ShortBytes)
    requires conit { weight.now.conit < CONITS_MAX }
    requires room { 17 ≤ out.old.room }
    ensures items { out.new.items ≡ out.old.items ++ weight_bytes weight.now }
    ensures room { out.old.room ≡ out.new.room + 17 }
{
    out.put_byte(weight.conit);
    out.put_signed(weight.nweight);
    out.put_number(weight.oweight);
}

/// Puts an operation, which has at most 25 bytes.
pub(crate) fn fill_op(op: &Op, out: &mut ShortBytes)
    requires { 25 ≤ out.old.room }
    ensures items { out.new.items ≡ out.old.items ++ op_bytes op.now }
    ensures room { out.old.room ≤ out.new.room + 25 }
{
    match op {
        Op::Put { key, value } => fill_pair(1, *key, *value, out),
        Op::Add { key, delta } => fill_pair(2, *key, *delta, out),
        Op::Shift { from, to, amount } => {
            out.put_byte(3);
            out.put_number(*from);
            out.put_number(*to);
            out.put_number(*amount);
        }
    }
}

// A tag, a key and a signed number.
fn fill_pair(tag: u32, key: u64, number: i64, out: &mut ShortBytes)
    requires tag { tag < 256 }
    requires room { 17 ≤ out.old.room }
    ensures items { out.new.items ≡ out.old.items ++ tag ∷ number_bytes key ++ signed_bytes number }
    ensures room { out.old.room ≡ out.new.room + 17 }
{
    out.put_byte(tag);
    out.put_number(key);
    out.put_signed(number);
}

//! Weights, needs and operations, read from bytes field by field: each reader is given the bytes and a place, and
//! answers its value and the place after it, or the first fault.

ghost use Rattle.std.specs.Prelude.{◌≡◌, ◌≤◌, ◌<◌, ◌+◌, ◌^◌, ℕ, suc, List, Result, IfErr, IfOk, Err, Ok, length};
ghost use Rattle.tact_base.specs.declared.conit_list.Weight.{Weight};
ghost use Rattle.tact_base.specs.declared.write.Op.{Op};
ghost use Rattle.run_model.specs.declared.fields.FieldFault.{FieldFault};
ghost use Rattle.run_model.specs.Ranges.{IsOpInRange};
ghost use Rattle.run_model.specs.Bytes.{StandsAt, Reads, AreWeightsOf, weights_bytes, op_bytes, any_signed_at, list_at, weight_at, weights_at, need_at, needs_at, put_at, add_at, shift_at, op_at};

use crate::FieldFault;
use crate::fields::{any_signed_at, byte_at, number_at, signed_at};
use tact_base::{
    AMOUNT_MAX, KEY_MAX, LIST_MAX, MOMENT_MAX, Need, Needs, Op, VALUE_MAX, WEIGHT_MAX, Weight,
    Weights,
};

/// Reads weights of a setup with so many conits from `place` on, and moves `place` past them: their number in
/// one byte, then for each its conit in one byte, above that of the one before, its nweight and its oweight in
/// eight. A refusal leaves `place`. Takes no memory.
pub fn get_weights(conits: u32, bytes: &[u8], place: &mut usize) -> Result<Weights, FieldFault>
    requires { place.old ≤ length bytes.now }
    // What is read stands there, and the place is after it.
    ensures found { IfOk result (λ weights. AreWeightsOf conits weights
        × StandsAt (weights_bytes weights) bytes.now place.old
        × (place.new ≡ place.old + length (weights_bytes weights))) }
    // What stands there is read.
    ensures only { (weights : List Weight) → AreWeightsOf conits weights
        → StandsAt (weights_bytes weights) bytes.now place.old → result ≡ Ok weights }
    // Which fault it is, and that it leaves the place.
    ensures exact { Reads result place.old place.new (weights_at conits bytes.now place.old) }
{
    let (weights, next) = weights_at(conits, bytes, *place)?;
    *place = next;
    Ok(weights)
}

/// Reads an operation from `place` on, and moves `place` past it: a tag in one byte, 1 for a put, 2 for an add
/// and 3 for a shift, and its fields in eight bytes each. A refusal leaves `place`. Takes no memory.
pub fn get_op(bytes: &[u8], place: &mut usize) -> Result<Op, FieldFault>
    requires { place.old ≤ length bytes.now }
    // What is read stands there, and the place is after it.
    ensures found { IfOk result (λ op. IsOpInRange op
        × StandsAt (op_bytes op) bytes.now place.old
        × (place.new ≡ place.old + length (op_bytes op))) }
    // What stands there is read.
    ensures only { (op : Op) → IsOpInRange op
        → StandsAt (op_bytes op) bytes.now place.old → result ≡ Ok op }
    // Which fault it is, and that it leaves the place.
    ensures exact { Reads result place.old place.new (op_at bytes.now place.old) }
{
    let (op, next) = op_at(bytes, *place)?;
    *place = next;
    Ok(op)
}

#[tactic(auto, unfolding(crate::specs::Bytes::put_at))]
fn put_at(bytes: &[u8], place: usize) -> Result<(Op, usize), FieldFault>
    requires { place ≤ length bytes.now }
    ensures within { IfOk result (λ read. read.1 ≤ length bytes.now) }
    ensures exact { result ≡ put_at bytes.now place }
{
    let (key, place) = number_at(bytes, place, 0, KEY_MAX + 1)?;
    let (value, place) = signed_at(bytes, place, VALUE_MAX)?;
    Ok((Op::Put { key, value }, place))
}

#[tactic(auto, unfolding(crate::specs::Bytes::add_at))]
fn add_at(bytes: &[u8], place: usize) -> Result<(Op, usize), FieldFault>
    requires { place ≤ length bytes.now }
    ensures within { IfOk result (λ read. read.1 ≤ length bytes.now) }
    ensures exact { result ≡ add_at bytes.now place }
{
    let (key, place) = number_at(bytes, place, 0, KEY_MAX + 1)?;
    let (delta, place) = signed_at(bytes, place, VALUE_MAX)?;
    Ok((Op::Add { key, delta }, place))
}

#[tactic(auto, unfolding(crate::specs::Bytes::shift_at))]
fn shift_at(bytes: &[u8], place: usize) -> Result<(Op, usize), FieldFault>
    requires { place ≤ length bytes.now }
    ensures within { IfOk result (λ read. read.1 ≤ length bytes.now) }
    ensures exact { result ≡ shift_at bytes.now place }
{
    let (from, place) = number_at(bytes, place, 0, KEY_MAX + 1)?;
    let (to, place) = number_at(bytes, place, 0, KEY_MAX + 1)?;
    let (amount, place) = number_at(bytes, place, 0, VALUE_MAX + 1)?;
    Ok((Op::Shift { from, to, amount }, place))
}

/// Reads an operation from `place` on, as `get_op` does, and answers the place after it beside it. Takes no
/// memory.
#[tactic(auto, unfolding(crate::specs::Bytes::op_at))]
pub fn op_at(bytes: &[u8], place: usize) -> Result<(Op, usize), FieldFault>
    requires { place ≤ length bytes.now }
    ensures within { IfOk result (λ read. read.1 ≤ length bytes.now) }
    ensures exact { result ≡ op_at bytes.now place }
{
    let (tag, place) = byte_at(bytes, place, 1, 4)?;
    if tag == 1 {
        put_at(bytes, place)
    } else if tag == 2 {
        add_at(bytes, place)
    } else {
        shift_at(bytes, place)
    }
}

// A weight with a conit of at least `least`.
#[tactic(auto, unfolding(crate::specs::Bytes::weight_at))]
pub(crate) fn weight_at(
    conits: u32,
    least: u32,
    bytes: &[u8],
    place: usize,
) -> Result<(Weight, usize), FieldFault>
    requires { place ≤ length bytes.now }
    ensures within { IfOk result (λ read. (read.0.conit < conits) × (read.1 ≤ length bytes.now)) }
    ensures exact { result ≡ weight_at conits least bytes.now place }
{
    let (conit, place) = byte_at(bytes, place, least, conits)?;
    let (nweight, place) = signed_at(bytes, place, WEIGHT_MAX)?;
    let (oweight, place) = number_at(bytes, place, 0, WEIGHT_MAX + 1)?;
    Ok((
        Weight {
            conit,
            nweight,
            oweight,
        },
        place,
    ))
}

#[tactic(auto, unfolding(crate::specs::Bytes::need_at))]
fn need_at(conits: u32, least: u32, bytes: &[u8], place: usize) -> Result<(Need, usize), FieldFault>
    requires { place ≤ length bytes.now }
    ensures within { IfOk result (λ read. (read.0.conit < conits) × (read.1 ≤ length bytes.now)) }
    ensures exact { result ≡ need_at conits least bytes.now place }
{
    let (conit, place) = byte_at(bytes, place, least, conits)?;
    let (num, place) = number_at(bytes, place, 0, AMOUNT_MAX + 1)?;
    let (order, place) = number_at(bytes, place, 0, AMOUNT_MAX + 1)?;
    let (stale, place) = number_at(bytes, place, 0, MOMENT_MAX + 1)?;
    Ok((
        Need {
            conit,
            num,
            order,
            stale,
        },
        place,
    ))
}

/// Reads weights of a setup with so many conits from `place` on, as `get_weights` does, and answers the place
/// after them beside them. Takes no memory.
#[tactic(auto, unfolding(crate::specs::Bytes::weights_at))]
pub fn weights_at(conits: u32, bytes: &[u8], place: usize) -> Result<(Weights, usize), FieldFault>
    requires { place ≤ length bytes.now }
    ensures within { IfOk result (λ read. read.1 ≤ length bytes.now) }
    ensures exact { result ≡ weights_at conits bytes.now place }
{
    let (count, place) = byte_at(bytes, place, 0, LIST_MAX as u32 + 1)?;
    let mut items = [Weight::default(); LIST_MAX];
    let items = &mut items[..count as usize];
    let place = fill(items, conits, bytes, place)?;
    match Weights::new(items) {
        Ok(weights) => Ok((weights, place)),
        Err(_) => Err(FieldFault::Short),
    }
}

#[tactic(auto, unfolding(crate::specs::Bytes::needs_at))]
pub(crate) fn needs_at(
    conits: u32,
    bytes: &[u8],
    place: usize,
) -> Result<(Needs, usize), FieldFault>
    requires { place ≤ length bytes.now }
    ensures within { IfOk result (λ read. read.1 ≤ length bytes.now) }
    ensures exact { result ≡ needs_at conits bytes.now place }
{
    let (count, place) = byte_at(bytes, place, 0, LIST_MAX as u32 + 1)?;
    let mut items = [Need::default(); LIST_MAX];
    let items = &mut items[..count as usize];
    let place = fill(items, conits, bytes, place)?;
    match Needs::new(items) {
        Ok(needs) => Ok((needs, place)),
        Err(_) => Err(FieldFault::Short),
    }
}

// What stands in a list in bytes.
pub(crate) trait Listed: Copy {
    // How one is read that begins with at least some number.
    ghost item_at: { ℕ → ℕ → List ℕ → ℕ → Result (Self × ℕ) FieldFault };

    // What the next one begins with at least.
    ghost after: { Self → ℕ };

    // Reads one at a place, and answers the place after it.
    fn read_at(
        conits: u32,
        least: u32,
        bytes: &[u8],
        place: usize,
    ) -> Result<(Self, usize), FieldFault>
        requires { place ≤ length bytes.now }
        ensures within { IfOk result (λ read. (after read.0 < 2 ^ 32) × (read.1 ≤ length bytes.now)) }
        ensures exact { result ≡ item_at conits least bytes.now place };

    // What the next one begins with at least.
    fn least_after(&self) -> u32
        requires { after self.now < 2 ^ 32 }
        ensures { result ≡ after self.now };
}

impl Listed for Weight {
    ghost item_at = { weight_at };

    ghost after = { λ weight. suc weight.conit };

    fn read_at(
        conits: u32,
        least: u32,
        bytes: &[u8],
        place: usize,
    ) -> Result<(Self, usize), FieldFault> {
        weight_at(conits, least, bytes, place)
    }

    fn least_after(&self) -> u32 {
        self.conit + 1
    }
}

impl Listed for Need {
    ghost item_at = { need_at };

    ghost after = { λ need. suc need.conit };

    fn read_at(
        conits: u32,
        least: u32,
        bytes: &[u8],
        place: usize,
    ) -> Result<(Self, usize), FieldFault> {
        need_at(conits, least, bytes, place)
    }

    fn least_after(&self) -> u32 {
        self.conit + 1
    }
}

// A sum, which follows from none before.
impl Listed for i64 {
    ghost item_at = { λ conits least. any_signed_at };

    ghost after = { λ sum. 0 };

    fn read_at(
        _conits: u32,
        _least: u32,
        bytes: &[u8],
        place: usize,
    ) -> Result<(Self, usize), FieldFault> {
        any_signed_at(bytes, place)
    }

    fn least_after(&self) -> u32 {
        0
    }
}

// Reads as many as there are items, and answers the place after them.
pub(crate) fn fill<T: Listed>(
    items: &mut [T],
    conits: u32,
    bytes: &[u8],
    start: usize,
) -> Result<usize, FieldFault>
    requires { start ≤ length bytes.now }
    ensures within { IfOk result (λ next. next ≤ length bytes.now) }
    ensures ok { IfOk result
        (λ next. list_at (T.item_at conits) T.after (length items.old) 0 bytes.now start
        ≡ Ok (items.new, next)) }
    ensures err { IfErr result
        (λ fault. list_at (T.item_at conits) T.after (length items.old) 0 bytes.now start ≡ Err fault) }
{
    let mut place = start;
    let mut least = 0;
    for item in items.iter_mut() {
        let (read, next) = T::read_at(conits, least, bytes, place)?;
        least = read.least_after();
        place = next;
        *item = read;
    }
    Ok(place)
}

//! Weights and operations in bytes.

use run_model::{FieldFault, get_op, get_weights, put_op, put_weights};
use std::alloc::Global;
use std::process::Abort;
use tact_base::{Bytes, Op, Weight, Weights};

pub(crate) const ADD: Op = Op::Add { key: 7, delta: 1 };

// From the key 10^9 to the key 258, 10^15.
const SHIFT: Op = Op::Shift {
    from: 1_000_000_000,
    to: 258,
    amount: 1_000_000_000_000_000,
};

// -10^15 is put.
const PUT: Op = Op::Put {
    key: 0,
    value: -1_000_000_000_000_000,
};

static OPS: [(Op, &[u8]); 3] = [
    (ADD, b"\x02\0\0\0\0\0\0\0\x07\0\0\0\0\0\0\0\x01"),
    (
        SHIFT,
        b"\x03\0\0\0\0\x3b\x9a\xca\0\0\0\0\0\0\0\x01\x02\0\x03\x8d\x7e\xa4\xc6\x80\0",
    ),
    (PUT, b"\x01\0\0\0\0\0\0\0\0\xff\xfc\x72\x81\x5b\x39\x80\0"),
];

pub(crate) const LIGHT: Weight = Weight {
    conit: 0,
    nweight: 5,
    oweight: 1,
};

const HEAVY: Weight = Weight {
    conit: 15,
    nweight: -1_000_000,
    oweight: 1_000_000,
};

const TWO_BYTES: &[u8] = b"\x02\0\0\0\0\0\0\0\0\x05\0\0\0\0\0\0\0\x01\
    \x0f\xff\xff\xff\xff\xff\xf0\xbd\xc0\0\0\0\0\0\x0f\x42\x40";

static WEIGHTS: [(&[Weight], &[u8]); 3] = [
    (&[], b"\0"),
    (&[LIGHT], b"\x01\0\0\0\0\0\0\0\0\x05\0\0\0\0\0\0\0\x01"),
    (&[LIGHT, HEAVY], TWO_BYTES),
];

// The bytes of an operation, behind a byte that stood there before.
fn op_bytes(rt: &impl Abort, alloc: Global, op: &Op) -> Bytes {
    let mut out = Bytes::from_slice(alloc, &[9]).expect(rt, "a byte");
    put_op(op, &mut out).expect(rt, "room for an operation");
    out
}

// The operation at a place of bytes, and the place after it.
fn op_at(bytes: &[u8], at: usize) -> (Result<Op, FieldFault>, usize) {
    let mut place = at.min(bytes.len());
    let op = get_op(bytes, &mut place);
    (op, place)
}

// These are the bytes of the operation behind a byte, and each part of them is too short.
fn assert_op(rt: &impl Abort, op: Op, due: &[u8], bytes: &[u8]) {
    assert!(rt; bytes.get(1..) == Some(due));
    assert!(rt; op_at(bytes, 1) == (Ok(op), bytes.len()));
    for end in 0..due.len() {
        assert!(rt; op_at(&due[..end], 0) == (Err(FieldFault::Short), 0));
    }
}

#[test]
fn operations_both_ways(rt: HostRuntime) {
    for &(op, due) in &OPS {
        let bytes = op_bytes(&rt, rt.alloc(), &op);
        assert_op(&rt, op, due, bytes.items());
    }
}

// The key is 10^9 + 1, and the value -10^15 - 1 and 10^15 + 1.
#[rattlefmt::skip]
static OP_FAULTS: [(&[u8], FieldFault, &str); 8] = [
    (b"\0", FieldFault::BadField(0), "no tag"),
    (b"\x04", FieldFault::BadField(0), "a tag too great"),
    (b"\x02\0\0\0\0\x3b\x9a\xca\x01\0\0\0\0\0\0\0\x01", FieldFault::BadField(1), "a key too great"),
    (b"\x02\0\0\0\0\x3b\x9a\xca\x01", FieldFault::BadField(1), "a key is judged once it is whole"),
    (b"\x02\0\0\0\0\x3b\x9a\xca", FieldFault::Short, "and not before"),
    (b"\x01\0\0\0\0\0\0\0\0\xff\xfc\x72\x81\x5b\x39\x7f\xff", FieldFault::BadField(9), "a value too small"),
    (b"\x02\0\0\0\0\0\0\0\0\0\x03\x8d\x7e\xa4\xc6\x80\x01", FieldFault::BadField(9), "a delta too great"),
    (b"\x01\0\0\0\0\0\0\0\0\xff\xfc\x72\x81\x5b\x39\x7f", FieldFault::Short, "a value that isn't whole"),
];

#[test]
fn faults_of_an_operation(rt: HostRuntime) {
    for &(bytes, fault, text) in &OP_FAULTS {
        assert!(rt; op_at(bytes, 0) == (Err(fault), 0), "{text}");
    }
}

// Why no weights of 16 conits are at the front of bytes, and the place where their reader stands then.
fn weights_fault(bytes: &[u8]) -> (Option<FieldFault>, usize) {
    let mut place = 0;
    let fault = get_weights(16, bytes, &mut place).err();
    (fault, place)
}

// Whether all the bytes are these weights of 16 conits.
fn are_weights(bytes: &[u8], items: &[Weight]) -> bool {
    let mut place = 0;
    match get_weights(16, bytes, &mut place) {
        Ok(weights) => weights.items() == items && place == bytes.len(),
        Err(_) => false,
    }
}

// The bytes of weights, if their conits are among 16.
fn weights_bytes(rt: &impl Abort, alloc: Global, items: &[Weight]) -> Bytes {
    let mut out = Bytes::new(alloc);
    let weights = Weights::new(items).expect(rt, "weights");
    if weights.items().iter().all(|weight| weight.conit < 16) {
        put_weights(&weights, &mut out).expect(rt, "room for weights");
    }
    out
}

// The bytes are these weights, and each part of them is too short.
fn assert_weights(rt: &impl Abort, items: &[Weight], bytes: &[u8]) {
    assert!(rt; are_weights(bytes, items));
    for end in 0..bytes.len() {
        assert!(rt; weights_fault(&bytes[..end]) == (Some(FieldFault::Short), 0));
    }
}

#[test]
fn weights_both_ways(rt: HostRuntime) {
    for &(items, due) in &WEIGHTS {
        let bytes = weights_bytes(&rt, rt.alloc(), items);
        assert!(rt; bytes.items() == due);
        assert_weights(&rt, items, due);
    }
}

// The bytes, with another one at a place.
pub(crate) fn changed(
    rt: &impl Abort,
    alloc: Global,
    bytes: &[u8],
    at: usize,
    byte: u8,
) -> Vec<u8> {
    let mut copy = Vec::from_slice(alloc, bytes).expect(rt, "a copy");
    set(&mut copy, at, byte);
    copy
}

fn set(bytes: &mut [u8], at: usize, byte: u8) {
    if at < bytes.len() {
        bytes[at] = byte;
    }
}

#[rattlefmt::skip]
static WEIGHTS_FAULTS: [(usize, u8, FieldFault, &str); 9] = [
    (0, 5, FieldFault::BadField(0), "five weights"),
    (0, 3, FieldFault::Short, "a weight more than there is"),
    (1, 16, FieldFault::BadField(1), "a conit past the last"),
    (2, 255, FieldFault::BadField(2), "an nweight too small"),
    (7, 255, FieldFault::BadField(2), "an nweight too great"),
    (10, 255, FieldFault::BadField(10), "an oweight too great"),
    (1, 15, FieldFault::BadField(18), "the same conit again"),
    (18, 0, FieldFault::BadField(18), "the conit before again"),
    (34, 255, FieldFault::BadField(27), "the last oweight"),
];

#[test]
fn faults_of_weights(rt: HostRuntime) {
    for &(at, byte, fault, text) in &WEIGHTS_FAULTS {
        let bytes = changed(&rt, rt.alloc(), TWO_BYTES, at, byte);
        assert!(rt; weights_fault(&bytes) == (Some(fault), 0), "{text}");
    }
}

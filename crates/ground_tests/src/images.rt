//! Images: what keys hold after operations, late ones and commits among them, against their fold from scratch.

ghost use Rattle.std.specs.Prelude.{◌≡◌, ◌+◌, ◌<◌, ◌≤◌, ◌^◌, [], ◌∷◌, ◌++◌, vec_len, take};
ghost use Rattle.tact_base.specs.Images.{ops_of};

use rollback_apply::{Image, value_after};
use std::alloc::Global;
use std::process::Abort;
use tact_base::{Op, Weights, Write, drop_front};
use test_draws::next;

const MOST: i64 = 1_000_000_000_000_000;

// The image of operations, each put in at the end.
fn folded(rt: &impl Abort, alloc: Global, ops: &[Op]) -> Image {
    let mut image = Image::new(alloc);
    for (place, op) in ops.iter().enumerate() {
        image.reserve(1).expect(rt, "room for one");
        image.insert_at(place as u64, *op);
    }
    image
}

// What a key holds after operations, each put in at the end; and by their fold from scratch.
fn held(rt: &impl Abort, alloc: Global, ops: &[Op], key: u64) -> [i64; 2] {
    let value = value_after(alloc, ops, key).expect(rt, "a value");
    [folded(rt, alloc, ops).get(key), value]
}

#[rattlefmt::skip]
static FOLDED: [(&[Op], u64, i64); 25] = [
    // An absent key, and one that is 0.
    (&[], 7, 0),
    (&[Op::Put { key: 7, value: 0 }], 7, 0),
    (&[Op::Put { key: 7, value: 3 }, Op::Put { key: 7, value: 0 }], 7, 0),
    (&[Op::Put { key: 7, value: 3 }], 8, 0),
    // The caps, which hold for sums alone.
    (&[Op::Put { key: 1, value: MOST }, Op::Add { key: 1, delta: 1 }], 1, MOST),
    (&[Op::Put { key: 1, value: -MOST }, Op::Add { key: 1, delta: -1 }], 1, -MOST),
    (&[Op::Put { key: 1, value: MOST - 1 }, Op::Add { key: 1, delta: 1 }], 1, MOST),
    (&[Op::Put { key: 1, value: i64::MAX }], 1, i64::MAX),
    (&[Op::Put { key: 1, value: i64::MAX }, Op::Add { key: 1, delta: 0 }], 1, MOST),
    (&[Op::Put { key: 1, value: i64::MIN }], 1, i64::MIN),
    (&[Op::Put { key: 1, value: i64::MIN }, Op::Add { key: 1, delta: i64::MIN }], 1, -MOST),
    (&[Op::Add { key: 1, delta: i64::MAX }], 1, MOST),
    // Exactly the amount held, and one more.
    (&[Op::Put { key: 1, value: 5 }, Op::Shift { from: 1, to: 2, amount: 5 }], 1, 0),
    (&[Op::Put { key: 1, value: 5 }, Op::Shift { from: 1, to: 2, amount: 5 }], 2, 5),
    (&[Op::Put { key: 1, value: 5 }, Op::Shift { from: 1, to: 2, amount: 6 }], 1, 5),
    (&[Op::Put { key: 1, value: 5 }, Op::Shift { from: 1, to: 2, amount: 6 }], 2, 0),
    (&[Op::Put { key: 1, value: -1 }, Op::Shift { from: 1, to: 2, amount: 0 }], 1, -1),
    // Between equal keys, and more than any key holds.
    (&[Op::Put { key: 1, value: 5 }, Op::Shift { from: 1, to: 1, amount: 5 }], 1, 5),
    (&[Op::Put { key: 1, value: i64::MAX }, Op::Shift { from: 1, to: 2, amount: u64::MAX }], 1, i64::MAX),
    (&[Op::Put { key: 1, value: i64::MAX }, Op::Shift { from: 1, to: 2, amount: u64::MAX }], 2, 0),
    // The key that receives stops at the cap.
    (&[Op::Put { key: 1, value: 5 }, Op::Put { key: 2, value: MOST - 1 }, Op::Shift { from: 1, to: 2, amount: 5 }], 1, 0),
    (&[Op::Put { key: 1, value: 5 }, Op::Put { key: 2, value: MOST - 1 }, Op::Shift { from: 1, to: 2, amount: 5 }], 2, MOST),
    // The amount 0 acts, also on an absent key.
    (&[Op::Shift { from: 1, to: 2, amount: 0 }], 1, 0),
    (&[Op::Shift { from: 1, to: 2, amount: 0 }], 2, 0),
    (&[Op::Put { key: 2, value: i64::MAX }, Op::Shift { from: 1, to: 2, amount: 0 }], 2, MOST),
];

#[test]
fn folds_operations(rt: HostRuntime) {
    for &(ops, key, value) in &FOLDED {
        assert_eq!(rt; held(&rt, rt.alloc(), ops, key), [value; 2], "of {ops:?}");
    }
}

// What keys 1 and 2 hold.
fn both(image: &Image) -> [i64; 2] {
    [image.get(1), image.get(2)]
}

// What keys held before operations: keys 1 and 2 before that at place 0, keys 1 to 3 before that at place 1, and key 1
// before that at place 2.
fn befores(image: &Image) -> [Option<i64>; 6] {
    [
        image.before(0, 1),
        image.before(0, 2),
        image.before(1, 1),
        image.before(1, 2),
        image.before(1, 3),
        image.before(2, 1),
    ]
}

// A shift, an addition before it that makes it act, and the commit of the addition, before which both are applied: what
// keys 1 and 2 hold after each, and what keys held before operations after each of the last two.
fn acting(rt: &impl Abort, alloc: Global) -> ([[i64; 2]; 3], [[Option<i64>; 6]; 2]) {
    let mut image = Image::new(alloc);
    image.reserve(2).expect(rt, "room for two");
    image.insert_at(
        0,
        Op::Shift {
            from: 1,
            to: 2,
            amount: 5,
        },
    );
    let shifted = both(&image);
    image.insert_at(0, Op::Add { key: 1, delta: 5 });
    let added = both(&image);
    let tentative = befores(&image);
    image.catch_up();
    image.commit(1);
    ([shifted, added, both(&image)], [tentative, befores(&image)])
}

#[test]
fn a_late_operation_makes_a_shift_act(rt: HostRuntime) {
    let (values, befores) = acting(&rt, rt.alloc());
    assert_eq!(rt; values, [[0, 0], [0, 5], [0, 5]]);
    let tentative = [Some(0), None, Some(5), Some(0), None, None];
    let committed = [None, None, Some(5), Some(0), None, None];
    assert_eq!(rt; befores, [tentative, committed]);
}

// A key below 256, mostly below 4, so that keys get places all the time.
fn key_of(number: u64) -> u64 {
    if number % 2 == 0 {
        number / 2 % 4
    } else {
        number / 2 % 256
    }
}

// An operation by a number.
fn op_of(number: u64) -> Op {
    let key = key_of(number >> 48);
    let amount = (number >> 24) % 32;
    match (number >> 60) % 3 {
        0 => Op::Put {
            key,
            value: amount as i64,
        },
        1 => Op::Add {
            key,
            delta: amount as i64 - 16,
        },
        _ => Op::Shift {
            from: key,
            to: key_of(number >> 36),
            amount,
        },
    }
}

// A place of a list of so many, or its end, by a number.
fn place_in(number: u64, count: usize) -> usize
    requires { count < 2 ^ 63 }
    ensures { result ≤ count }
{
    (number >> 33) as usize % (count + 1)
}

fn write(rt: &impl Abort, op: Op) -> Write
    ensures { result.op ≡ op }
{
    Write {
        origin: 0,
        index: 0,
        stamp: 0,
        moment: 0,
        weights: Weights::new(&[]).expect(rt, "no weights"),
        op,
    }
}

// Writes of operations, with one before them and one behind.
fn with_two(rt: &impl Abort, alloc: Global, ops: &[Op], first: Write, last: Write) -> Vec<Write>
    ensures { ops_of result.items ≡ first.op ∷ ops.now ++ last.op ∷ [] }
{
    let mut writes = Vec::new(alloc);
    writes.push(first).expect(rt, "room for the first");
    for op in ops {
        writes.push(write(rt, *op)).expect(rt, "room for a write");
    }
    writes.push(last).expect(rt, "room for the last");
    writes
}

// Puts the operations of writes in place of those from a place on.
fn replace(rt: &impl Abort, ops: &mut Vec<Op>, place: usize, writes: &[Write])
    requires { place ≤ vec_len ops.old }
    ensures { ops.new.items ≡ take place ops.old.items ++ ops_of writes.now }
{
    ops.truncate(place);
    for write in writes {
        ops.push(write.op).expect(rt, "room for an operation");
    }
}

// Puts an operation among tentative ones, before that at a place of these.
fn put_one(
    rt: &impl Abort,
    image: &mut Image,
    late: &mut Vec<Op>,
    committed: u64,
    place: usize,
    op: Op,
)
    requires same { image.old.ops ≡ late.old.items }
    requires committed { committed ≡ image.old.committed }
    requires small { committed < 2 ^ 63 }
    requires within { place ≤ vec_len late.old }
    requires room { 0 < image.old.room }
    ensures same { image.new.ops ≡ late.new.items }
    ensures committed { image.new.committed ≡ image.old.committed }
    ensures room { image.old.room ≡ image.new.room + 1 }
{
    image.insert_at(committed + place as u64, op);
    late.insert(place, op).expect(rt, "room for one");
}

// Commits the first `going` of the tentative operations.
fn commit_some(
    rt: &impl Abort,
    image: &mut Image,
    early: &mut Vec<Op>,
    late: &mut Vec<Op>,
    going: usize,
)
    requires same { image.old.ops ≡ late.old.items }
    requires committed { image.old.committed ≡ vec_len early.old }
    requires within { going ≤ vec_len late.old }
    ensures same { image.new.ops ≡ late.new.items }
    ensures committed { image.new.committed ≡ vec_len early.new }
{
    image.commit(early.len() as u64 + going as u64);
    early
        .extend_from_slice(&late[..going])
        .expect(rt, "room for them");
    drop_front(late, going);
}

// Puts two operations among tentative ones: one before that at a place of these, one at their end.
fn put_two(
    rt: &(impl Abort + AllocGlobal),
    image: &mut Image,
    late: &mut Vec<Op>,
    committed: u64,
    place: usize,
    first: Write,
    last: Write,
)
    requires same { image.old.ops ≡ late.old.items }
    requires committed { committed ≡ image.old.committed }
    requires small { committed < 2 ^ 63 }
    requires within { place ≤ vec_len late.old }
    requires room { 2 ≤ image.old.room }
    ensures same { image.new.ops ≡ late.new.items }
    ensures committed { image.new.committed ≡ image.old.committed }
{
    let new = [first, last];
    let rest = with_two(rt, rt.alloc(), &late[place..], new[0], new[1]);
    image.insert_all(committed + place as u64, &new, &rest);
    replace(rt, late, place, &rest);
}

// The same of two operations and a place that come from a number.
fn put_drawn(
    rt: &(impl Abort + AllocGlobal),
    image: &mut Image,
    late: &mut Vec<Op>,
    committed: u64,
    number: u64,
)
    requires same { image.old.ops ≡ late.old.items }
    requires committed { committed ≡ image.old.committed }
    requires small { committed < 2 ^ 63 }
    requires room { 2 ≤ image.old.room }
    ensures same { image.new.ops ≡ late.new.items }
    ensures committed { image.new.committed ≡ image.old.committed }
{
    let place = place_in(number, late.len());
    let first = write(rt, op_of(number));
    let last = write(rt, op_of(next(number)));
    put_two(rt, image, late, committed, place, first, last);
}

// What keys 0 to 3 hold after committed operations and then tentative ones, from scratch.
fn from_scratch(rt: &impl Abort, alloc: Global, early: &[Op], late: &[Op]) -> [i64; 4] {
    let mut all = Vec::from_slice(alloc, early).expect(rt, "a copy");
    all.extend_from_slice(late)
        .expect(rt, "room for the tentative");
    let mut values = [0; 4];
    for key in 0..4 {
        values[key] = value_after(alloc, &all, key as u64).expect(rt, "a value");
    }
    values
}

// Keys 0 to 3 hold what they do from scratch.
fn assert_same(rt: &(impl Abort + AllocGlobal), image: &Image, early: &[Op], late: &[Op]) {
    let values = [image.get(0), image.get(1), image.get(2), image.get(3)];
    assert_eq!(rt; values, from_scratch(rt, rt.alloc(), early, late));
}

// Puts in one operation and goes over the values, has all applied, puts in two, commits a quarter of the tentative ones
// and goes over the values again. Places and operations come from a number.
fn turn(
    rt: &(impl Abort + AllocGlobal),
    image: &mut Image,
    early: &mut Vec<Op>,
    late: &mut Vec<Op>,
    number: u64,
)
    requires same { image.old.ops ≡ late.old.items }
    requires committed { image.old.committed ≡ vec_len early.old }
    ensures same { image.new.ops ≡ late.new.items }
    ensures committed { image.new.committed ≡ vec_len early.new }
{
    let committed = early.len() as u64;
    let place = place_in(number, late.len());
    image.reserve(3).expect(rt, "room for three");
    put_one(rt, image, late, committed, place, op_of(number));
    assert_same(rt, image, early, late);
    image.catch_up();
    put_drawn(rt, image, late, committed, next(number));
    let going = late.len() / 4;
    commit_some(rt, image, early, late, going);
    assert_same(rt, image, early, late);
}

#[test]
fn late_operations_and_batches_fold_as_in_order(rt: HostRuntime) {
    let mut image = Image::new(rt.alloc());
    let mut early: Vec<Op> = Vec::new(rt.alloc());
    let mut late: Vec<Op> = Vec::new(rt.alloc());
    let mut number = 1;
    for _ in 0..300 {
        number = next(number);
        turn(&rt, &mut image, &mut early, &mut late, number);
    }
}

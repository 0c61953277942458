//! What a sending of anti-entropy begins with, when one is due, and whom a reply waits for.

ghost use Rattle.std.specs.Prelude.{◌≡◌};

use anti_entropy::{answer_due, due, firsts, wish};
use run_model::{Message, Reply, Sums};
use std::alloc::Global;
use std::process::Abort;
use tact_base::{Covers, Numbers, Op, SharedWrites, Weights, Write, WriteList};

// What a sending to a replica begins with, by these counts at hand and known.
fn begun(rt: &impl Abort, alloc: Global, haves: &[u64; 3], known: &[u64; 3], to: u32) -> Numbers {
    let haves = Numbers::from_slice(alloc, haves).expect(rt, "haves");
    let known = Numbers::from_slice(alloc, known).expect(rt, "what is known");
    firsts(alloc, &haves, &known, to).expect(rt, "firsts")
}

static BEGUN: [([u64; 3], [u64; 3], u32, [u64; 3]); 7] = [
    ([5, 3, 4], [0, 0, 0], 0, [5, 0, 0]),
    ([5, 3, 4], [2, 3, 1], 0, [5, 3, 1]),
    ([5, 3, 4], [2, 3, 1], 1, [2, 3, 1]),
    ([5, 3, 4], [9, 9, 1], 2, [5, 3, 4]),
    ([5, 3, 4], [9, 1, 9], 2, [5, 1, 4]),
    ([5, 3, 4], [5, 3, 4], 2, [5, 3, 4]),
    ([0, 0, 0], [0, 0, 1], 1, [0, 0, 0]),
];

#[test]
fn begins_past_what_is_known(rt: HostRuntime) {
    for (haves, known, to, begin) in &BEGUN {
        let firsts = begun(&rt, rt.alloc(), haves, known, *to);
        assert_eq!(rt; firsts.items(), begin.as_slice());
    }
}

// Whether a sending to a replica is due, by these counts at hand and known.
fn is_due(rt: &impl Abort, alloc: Global, haves: &[u64; 3], known: &[u64; 3], to: u32) -> bool {
    let haves = Numbers::from_slice(alloc, haves).expect(rt, "haves");
    let known = Numbers::from_slice(alloc, known).expect(rt, "what is known");
    due(&haves, &known, to)
}

static DUE: [([u64; 3], [u64; 3], u32, bool); 8] = [
    ([5, 3, 4], [5, 3, 4], 0, false),
    ([5, 3, 4], [4, 3, 4], 0, false),
    ([5, 3, 4], [4, 3, 4], 1, true),
    ([5, 3, 4], [5, 3, 3], 1, true),
    ([5, 3, 4], [5, 3, 0], 2, false),
    ([5, 3, 4], [6, 9, 4], 2, false),
    ([5, 3, 4], [6, 2, 4], 2, true),
    ([0, 0, 0], [0, 0, 0], 1, false),
];

#[test]
fn sends_what_others_lack(rt: HostRuntime) {
    for (haves, known, to, due) in &DUE {
        assert!(rt;
            is_due(&rt, rt.alloc(), haves, known, *to) == *due,
            "{known:?} to {to}"
        );
    }
}

fn write(rt: &impl Abort) -> Write {
    Write {
        origin: 1,
        index: 0,
        stamp: 1,
        moment: 0,
        weights: Weights::new(&[]).expect(rt, "no weights"),
        op: Op::Put { key: 1, value: 5 },
    }
}

// So many writes.
fn writes(rt: &impl Abort, alloc: Global, count: usize) -> SharedWrites {
    let mut told = WriteList::new(alloc);
    for _ in 0..count {
        told.push(write(rt)).expect(rt, "room for a write");
    }
    SharedWrites::new(alloc, told).expect(rt, "writes")
}

// A message from replica 1 that tells these counts and has so many writes.
fn message(rt: &impl Abort, alloc: Global, haves: &[u64], count: usize) -> Message
    ensures { result.haves ≡ haves.now }
{
    Message {
        from: 1,
        to: 0,
        number: 0,
        haves: Numbers::from_slice(alloc, haves).expect(rt, "haves"),
        covers: Covers::new(alloc),
        firsts: Numbers::new(alloc),
        writes: writes(rt, alloc, count),
        lent: Numbers::new(alloc),
        returned: Numbers::new(alloc),
    }
}

// Whether an answer is due to a message that tells these counts and has so many writes, by those at hand.
fn is_answer_due(
    rt: &impl Abort,
    alloc: Global,
    told: &[u64; 3],
    count: usize,
    haves: &[u64; 3],
) -> bool {
    let message = message(rt, alloc, told, count);
    let haves = Numbers::from_slice(alloc, haves).expect(rt, "haves");
    answer_due(&message, &haves)
}

static ANSWERS: [([u64; 3], usize, [u64; 3], bool); 7] = [
    ([5, 3, 4], 0, [5, 3, 4], false),
    ([5, 3, 4], 1, [5, 3, 4], true),
    ([5, 3, 4], 1, [0, 0, 0], true),
    ([5, 3, 4], 0, [0, 3, 4], false),
    ([5, 3, 4], 0, [6, 3, 4], true),
    ([5, 3, 4], 0, [0, 0, 5], true),
    ([0, 0, 0], 0, [0, 0, 0], false),
];

#[test]
fn answers_writes_and_lesser_counts(rt: HostRuntime) {
    for (told, writes, haves, due) in &ANSWERS {
        let answer = is_answer_due(&rt, rt.alloc(), told, *writes, haves);
        assert!(rt; answer == *due, "{writes} writes, {haves:?} at hand");
    }
}

// A reply waits for this replica, if for one.
fn assert_wish(rt: &impl Abort, reply: &Reply, wished: Option<u32>) {
    assert!(rt; wish(reply) == wished, "of {reply:?}");
}

#[rattlefmt::skip]
const WISHES: [(Reply, Option<u32>); 10] = [
    (Reply::Done { index: 6, stamp: 7 }, None),
    (Reply::Granted, None),
    (Reply::Released, None),
    (Reply::TooHeavy { conit: 9, peer: 1, weight: 50, share: 40 }, None),
    (Reply::WaitHeld { conit: 9, peer: 1, reserved: 20, weight: 30, share: 40 }, None),
    (Reply::WaitShare { conit: 9, peer: 1, missing: 15, reserved: 20, weight: 10, share: 40 }, Some(1)),
    (Reply::WaitLent { conit: 9, holder: 3, out: 60, total: 70, num: 65 }, Some(3)),
    (Reply::WaitOrder { conit: 9, replica: 2, tentative: 12, order: 11 }, Some(2)),
    (Reply::WaitStale { conit: 9, replica: 2, moment: 100, wanted: 101 }, Some(2)),
    (Reply::NotHeld { conit: 9, held: 13, amount: 14 }, None),
];

#[test]
fn wishes_for_a_replica(rt: HostRuntime) {
    for (reply, wished) in &WISHES {
        assert_wish(&rt, reply, *wished);
    }
    let sums = Sums::new(&[7]);
    assert_wish(&rt, &Reply::Value { value: 6, sums }, None);
}

//! What replicas give up: committed writes that each is known to have, and no other.

use crate::asking::{Ask, Deed, Light};
use crate::member::{Member, tell, three, two};
use crate::readings::{Known, NOTHING, Settled, Values};
use replica_core::LastOne;
use std::alloc::Global;
use std::process::Abort;
use tact_base::Cover;

// What is done next: a replica puts a value at key 1, which weighs as much on conit 0, and 2 in the order; or one tells
// another what it lacks.
#[derive(Clone, Copy)]
enum Step {
    Put(u32, i8),
    Tell(u32, u32),
}

fn play(rt: &impl Abort, alloc: Global, members: &mut [Member], steps: &[Step]) {
    for step in steps {
        match *step {
            Step::Put(replica, value) => put(rt, members, replica, value),
            Step::Tell(from, to) => tell(rt, alloc, members, from, to),
        }
    }
}

fn put(rt: &impl Abort, members: &mut [Member], replica: u32, value: i8) {
    assert!(rt; (replica as usize) < members.len());
    let light = Light {
        conit: 0,
        nweight: value,
        oweight: 2,
    };
    members[replica as usize].answered(rt, 0, Ask::Write(light, Deed::Put(1, value)));
}

// Both wrote at the stamp 1. Replica 1 hears of the other first, and then doesn't know whether its own write came.
static BOTH_HEAR: [Step; 4] = [
    Step::Put(0, 5),
    Step::Put(1, 6),
    Step::Tell(0, 1),
    Step::Tell(1, 0),
];

#[test]
fn gives_up_what_both_have(rt: HostRuntime) {
    let mut pair = two(&rt, rt.alloc());
    play(&rt, rt.alloc(), &mut pair, &BOTH_HEAR);
    assert_both(&rt, &pair);
}

// The cover of one that wrote once, at the stamp 1.
const ONE: Cover = Cover {
    count: 1,
    stamp: 1,
    moment: 0,
};

// What each of the pair knows then.
#[rattlefmt::skip]
fn pair_known() -> [Known; 2] {
    [
        Known { haves: [1, 1, 0], known: [[0; 3], [1, 1, 0], [0; 3]], covers: [ONE, ONE, NOTHING], clock: 1 },
        Known { haves: [1, 1, 0], known: [[1, 0, 0], [0; 3], [0; 3]], covers: [ONE, ONE, NOTHING], clock: 1 },
    ]
}

fn assert_both(rt: &impl Abort, pair: &[Member]) {
    assert!(rt; pair.len() == 2);
    let known = pair_known();
    assert_pair_member(rt, &pair[0], &known[0], 2);
    assert_pair_member(rt, &pair[1], &known[1], 1);
    let held = pair[1].replica.committed();
    assert!(rt; held.len() == 1);
    assert_eq!(rt; (held[0].origin, held[0].index), (1, 0));
}

fn assert_pair_member(rt: &impl Abort, member: &Member, known: &Known, dropped: u64) {
    assert_eq!(rt; &member.known(), known);
    assert_settled(rt, member, 1, dropped);
    assert_values(rt, member);
}

// A member of a pair or a trio that committed both writes: what they put and weigh.
static BOTH: Values = Values {
    conits: [11, 0],
    weights: [0, 0],
    keys: [6, 0],
};

fn assert_values(rt: &impl Abort, member: &Member) {
    assert_eq!(rt; &member.values(), &BOTH);
}

// How it settled them, at the stamp 1.
fn assert_settled(rt: &impl Abort, member: &Member, origin: u32, dropped: u64) {
    assert!(rt; dropped <= 2);
    let settled = Settled {
        point: 1,
        count: 2,
        last: Some(LastOne { origin, index: 0 }),
        dropped,
        held: 2 - dropped as usize,
        tentative: 0,
    };
    assert_eq!(rt; member.settled(), settled);
}

// Of three the last one lacks a write of the first, which the second told only the first of. What it lacks is held
// until it is known to have it.
static ONE_LACKS: [Step; 5] = [
    Step::Put(0, 5),
    Step::Put(2, 6),
    Step::Tell(0, 1),
    Step::Tell(2, 1),
    Step::Tell(1, 0),
];

#[test]
fn keeps_what_one_lacks(rt: HostRuntime) {
    let mut trio = three(&rt, rt.alloc());
    play(&rt, rt.alloc(), &mut trio, &ONE_LACKS);
    assert_one_lacks(&rt, &trio);
    catch_up(&rt, rt.alloc(), &mut trio);
}

// The cover of one that wrote nothing, and was heard of at the stamp 1.
const HEARD: Cover = Cover {
    count: 0,
    stamp: 1,
    moment: 0,
};

// What the first and the second of the trio know then, and how the last one settled its write.
#[rattlefmt::skip]
fn trio_known() -> [Known; 2] {
    [
        Known { haves: [1, 0, 1], known: [[0; 3], [1, 0, 1], [0; 3]], covers: [ONE, HEARD, ONE], clock: 1 },
        Known { haves: [1, 0, 1], known: [[1, 0, 0], [0; 3], [0, 0, 1]], covers: [ONE, HEARD, ONE], clock: 1 },
    ]
}

static LAST: Settled = Settled {
    point: 0,
    count: 0,
    last: None,
    dropped: 0,
    held: 0,
    tentative: 1,
};

// The first and the second committed both writes, and hold them.
fn assert_one_lacks(rt: &impl Abort, trio: &[Member]) {
    assert!(rt; trio.len() == 3);
    let known = trio_known();
    assert_trio_member(rt, &trio[0], &known[0]);
    assert_trio_member(rt, &trio[1], &known[1]);
    assert_eq!(rt; &trio[2].settled(), &LAST);
}

fn assert_trio_member(rt: &impl Abort, member: &Member, known: &Known) {
    assert_eq!(rt; &member.known(), known);
    assert_settled(rt, member, 2, 0);
}

// After each message: who told whom, and how many writes the latter gave up. Nobody's values change.
static CATCHING_UP: [(u32, u32, u64); 6] = [
    (1, 2, 1),
    (2, 0, 2),
    (2, 1, 1),
    (0, 1, 2),
    (0, 2, 2),
    (1, 2, 2),
];

fn catch_up(rt: &impl Abort, alloc: Global, trio: &mut [Member]) {
    for &(from, to, dropped) in &CATCHING_UP {
        tell(rt, alloc, trio, from, to);
        assert_caught_up(rt, trio, to, dropped);
    }
}

fn assert_caught_up(rt: &impl Abort, trio: &[Member], replica: u32, dropped: u64) {
    assert!(rt; (replica as usize) < trio.len());
    let member = &trio[replica as usize];
    assert_settled(rt, member, 2, dropped);
    assert_values(rt, member);
}

//! Messages that a replica can take, and each way in which it can't.

use crate::asking::{Ask, Deed};
use crate::member::Member;
use run_model::{Config, Message};
use std::alloc::Global;
use std::process::Abort;
use tact_base::{Cover, Covers, Numbers, Op, SharedWrites, Weights, Write, WriteList};

// What a message is made of: the index and the stamp are those of its one write, which is replica 0's.
#[derive(Clone, Copy)]
struct Parts<'a> {
    from: u32,
    to: u32,
    haves: &'a [u64],
    index: u64,
    stamp: u64,
    returned: &'a [u64],
}

// Replica 0 tells replica 1 its first write.
const GOOD: Parts<'static> = Parts {
    from: 0,
    to: 1,
    haves: &[6, 2, 1],
    index: 0,
    stamp: 12,
    returned: &[0, 2],
};

// The write of a message whose sender's cover stands at the stamp 12.
fn told(rt: &impl Abort, parts: &Parts) -> Write {
    Write {
        origin: 0,
        index: parts.index,
        stamp: parts.stamp,
        moment: 20,
        weights: Weights::new(&[]).expect(rt, "no weights"),
        op: Op::Add { key: 7, delta: 1 },
    }
}

fn writes_of(rt: &impl Abort, alloc: Global, parts: &Parts) -> SharedWrites {
    let mut writes = WriteList::new(alloc);
    writes.push(told(rt, parts)).expect(rt, "room for a write");
    SharedWrites::new(alloc, writes).expect(rt, "writes")
}

const COVER: Cover = Cover {
    count: 1,
    stamp: 12,
    moment: 30,
};

// Puts the lists into a message that has none.
fn fill(rt: &impl Abort, message: &mut Message, parts: &Parts) {
    put(rt, &mut message.haves, parts.haves);
    message
        .covers
        .append(&[COVER; 3])
        .expect(rt, "room for covers");
    put(rt, &mut message.firsts, &[parts.index, 2, 0]);
    put(rt, &mut message.lent, &[5, 0]);
    put(rt, &mut message.returned, parts.returned);
}

fn put(rt: &impl Abort, numbers: &mut Numbers, more: &[u64]) {
    numbers.append(more).expect(rt, "room for numbers");
}

fn message_of(rt: &impl Abort, alloc: Global, parts: &Parts) -> Message {
    let mut message = Message {
        from: parts.from,
        to: parts.to,
        number: 3,
        haves: Numbers::new(alloc),
        covers: Covers::new(alloc),
        firsts: Numbers::new(alloc),
        writes: writes_of(rt, alloc, parts),
        lent: Numbers::new(alloc),
        returned: Numbers::new(alloc),
    };
    fill(rt, &mut message, parts);
    message
}

// Replica 1 of three, which lends 2 on the second of two conits to replica 0.
fn one_of_three(rt: &impl Abort, alloc: Global) -> Box<Member> {
    let loans = [0, 0, 0, 0, 0, 0, 0, 0, 0, 2, 0, 0, 0, 0, 0, 0, 0, 0];
    let config = Config::new(alloc, 3, 2, &[9; 6], &loans).expect(rt, "a setup");
    Member::new(rt, alloc, &config, 1)
}

fn write_twice(rt: &impl Abort, member: &mut Member) {
    for moment in 5..7 {
        member.answered(rt, moment, 3, Ask::Plain(Deed::Shift(7, 8, 1)));
    }
}

// Whether the replica can take the message.
fn is_fit(rt: &impl Abort, alloc: Global, member: &Member, parts: &Parts) -> bool {
    member.replica.fits(&message_of(rt, alloc, parts))
}

// A message's parts, whether it fits, and what it is.
type Case = (Parts<'static>, bool, &'static str);

fn assert_each(rt: &impl Abort, alloc: Global, member: &Member, cases: &[Case]) {
    for (parts, due, text) in cases {
        assert!(rt; is_fit(rt, alloc, member, parts) == *due, "{text}");
    }
}

// Of a replica that made two writes.
#[rattlefmt::skip]
static CASES: [Case; 11] = [
    (GOOD, true, "a message that fits"),
    (Parts { from: 3, ..GOOD }, false, "a sender past the count"),
    (Parts { from: 1, ..GOOD }, false, "of itself"),
    (Parts { to: 2, ..GOOD }, false, "addressed to another"),
    (Parts { haves: &[6, 2], ..GOOD }, false, "haves too short"),
    (Parts { haves: &[6, 3, 1], ..GOOD }, false, "more own writes than made"),
    (Parts { returned: &[0, 1], ..GOOD }, true, "less returned than lent"),
    (Parts { returned: &[0, 3], ..GOOD }, false, "more returned than lent"),
    (Parts { returned: &[1, 2], ..GOOD }, false, "returned where none was lent"),
    (Parts { index: 0, stamp: 13, ..GOOD }, false, "a stamp past the sender's"),
    (Parts { index: 1, stamp: 13, ..GOOD }, true, "a write that isn't next"),
];

#[test]
fn knows_the_messages_that_fit(rt: HostRuntime) {
    let mut member = one_of_three(&rt, rt.alloc());
    write_twice(&rt, &mut member);
    assert_each(&rt, rt.alloc(), &member, &CASES);
}

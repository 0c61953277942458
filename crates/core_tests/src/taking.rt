//! Messages that a replica takes: what it has and knows then, and what it leaves alone.

use crate::asking::{Ask, Deed};
use crate::member::{Member, Pair};
use run_model::Message;
use std::process::Abort;

// 5 more at the key 1; or the 5 there, if they are, to the key 2.
const ADD: Deed = Deed::Add(1, 5);

const SHIFT: Deed = Deed::Shift(1, 2, 5);

// Has a client write without weights.
fn write(rt: &impl Abort, member: &mut Member, deed: Deed) {
    member.answered(rt, 3, 0, Ask::Plain(deed));
}

// What one sends the other, where the first of each origin's writes is given.
fn sent(rt: &impl Abort, member: &mut Member, to: u32, given: u64) -> Box<Message> {
    member.send(rt, 4, to, &[given; 2])
}

// What the keys 1 and 2 hold there.
fn held(member: &Member) -> (i64, i64) {
    (member.replica.get(1), member.replica.get(2))
}

// Of two writes with the same stamp that of replica 0 acts first, once, however often it comes.
fn assert_both(rt: &impl Abort, one: &Member) {
    let replica = &one.replica;
    assert_eq!(rt; held(one), (0, 5));
    assert_eq!(rt;
        (replica.have(0), replica.have(1), replica.known(0, 0)),
        (1, 1, 1)
    );
    assert_eq!(rt; (replica.point(), replica.committed_count()), (1, 2));
}

// Both write, and replica 1 takes what the other sends, twice.
fn take_twice(rt: &impl Abort, zero: &mut Member, one: &mut Member) {
    write(rt, zero, ADD);
    write(rt, one, SHIFT);
    assert_eq!(rt; held(one), (0, 0));
    let message = sent(rt, zero, 1, 0);
    assert!(rt; one.take(rt, 5, &message));
    assert!(rt; one.take(rt, 5, &message));
    assert_both(rt, one);
}

// Then replica 0 takes what replica 1 sends.
fn answer(rt: &impl Abort, zero: &mut Member, one: &mut Member) {
    let message = sent(rt, one, 0, 0);
    assert!(rt; zero.take(rt, 5, &message));
    assert_eq!(rt; held(zero), (0, 5));
    assert_eq!(rt; (zero.replica.count(), zero.replica.clock()), (3, 1));
}

#[test]
fn takes_what_it_lacks(rt: HostRuntime) {
    let mut pair = Pair::new(&rt, rt.alloc(), [5, 6]);
    take_twice(&rt, &mut pair.zero, &mut pair.one);
    answer(&rt, &mut pair.zero, &mut pair.one);
}

// An old message, and a newer one, which tells no write that the old one tells but the last.
#[derive(Drop)]
struct Mail {
    old: Box<Message>,
    newer: Box<Message>,
}

fn two_messages(rt: &impl Abort, zero: &mut Member) -> Mail {
    write(rt, zero, ADD);
    write(rt, zero, ADD);
    let old = sent(rt, zero, 1, 0);
    write(rt, zero, ADD);
    let newer = sent(rt, zero, 1, 1);
    Mail { old, newer }
}

// Takes a message, and then has so many of replica 0's writes, knows that it has so many, and holds a value.
fn assert_taken(rt: &impl Abort, one: &mut Member, message: &Message, after: (u64, u64, i64)) {
    assert!(rt; one.take(rt, 5, message));
    let replica = &one.replica;
    assert_eq!(rt;
        (replica.have(0), replica.known(0, 0), replica.get(1)),
        after
    );
    assert_eq!(rt; replica.clock(), 3);
}

// The newer message comes first, and leaves a gap; then the old one; then the newer one again.
fn take_out_of_order(rt: &impl Abort, zero: &mut Member, one: &mut Member) {
    let mail = two_messages(rt, zero);
    assert_taken(rt, one, &mail.newer, (0, 3, 0));
    assert_taken(rt, one, &mail.old, (2, 3, 10));
    assert_taken(rt, one, &mail.newer, (3, 3, 15));
}

#[test]
fn leaves_what_would_make_a_gap(rt: HostRuntime) {
    let mut pair = Pair::new(&rt, rt.alloc(), [5, 6]);
    take_out_of_order(&rt, &mut pair.zero, &mut pair.one);
}

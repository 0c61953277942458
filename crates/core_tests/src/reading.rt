//! Reads of a replica: what they wait for, what they are told, and what can be read without a call.

use crate::asking::{Ask, Deed};
use crate::member::{Member, Pair, tell};
use crate::saying::Said;
use replica_core::LastOne;
use std::process::Abort;

// Client 0 adds an amount to key 1, which weighs as much on conit 0.
fn add(rt: &impl Abort, member: &mut Member, amount: i8, oweight: u8) {
    member.answered(rt, 0, 0, Ask::Write(amount, oweight, Deed::Add(1, amount)));
}

// Client 0 reads key 1 at a moment.
fn assert_read(rt: &impl Abort, member: &mut Member, moment: u8, ask: Ask, said: Said) {
    assert_eq!(rt; member.answered(rt, moment, 0, ask), said.reply());
}

const LENT: Said = Said::WaitLent {
    out: 10,
    total: 10,
    num: 9,
};

// A loan is out until it is given back: then the read is answered.
fn read_what_is_lent(rt: &impl Abort, zero: &mut Member, one: &mut Member) {
    assert_read(rt, zero, 0, Ask::Read(9, 0, 0), LENT);
    assert_eq!(rt; one.give_back(rt, 0, 0, 0, 1), Ok(()));
    tell(rt, 0, one, zero);
    let value = Said::Value { value: 0, sum: 0 };
    assert_read(rt, zero, 0, Ask::Read(9, 0, 0), value);
}

#[test]
fn waits_for_what_is_lent(rt: HostRuntime) {
    let mut pair = Pair::new(&rt, rt.alloc(), [10; 2]);
    read_what_is_lent(&rt, &mut pair.zero, &mut pair.one);
}

#[rattlefmt::skip]
static BOUNDS: [(Ask, Said); 4] = [
    (Ask::Read(10, 4, 10), Said::Value { value: 1, sum: 1 }),
    (Ask::Read(10, 3, 10), Said::WaitOrder { tentative: 4, order: 3 }),
    (Ask::Read(10, 4, 9), Said::WaitStale { moment: 100, wanted: 101 }),
    (Ask::Read(10, 4, 111), Said::Value { value: 1, sum: 1 }),
];

// An own write weighs 4 in the order, and the other was last heard of at the moment 100.
fn read_at_the_bounds(rt: &impl Abort, zero: &mut Member, one: &mut Member) {
    tell(rt, 100, one, zero);
    add(rt, zero, 1, 4);
    for &(ask, said) in &BOUNDS {
        assert_read(rt, zero, 110, ask, said);
    }
}

#[test]
fn waits_for_the_order_and_for_who_is_late(rt: HostRuntime) {
    let mut pair = Pair::new(&rt, rt.alloc(), [10; 2]);
    read_at_the_bounds(&rt, &mut pair.zero, &mut pair.one);
}

// What can be read of a replica on one conit: the value of the conit, that of key 1, the weight of tentative
// writes, how many are committed, and the last of these.
fn readings(member: &Member) -> (i64, i64, u64, u64, Option<LastOne>) {
    let replica = &member.replica;
    (
        replica.value(0),
        replica.get(1),
        replica.tentative_weight(0),
        replica.committed_count(),
        replica.last_committed(),
    )
}

// Replica 0 writes once, and replica 1 twice.
fn write_apart(rt: &impl Abort, zero: &mut Member, one: &mut Member) {
    add(rt, zero, 5, 2);
    add(rt, one, -3, 1);
    add(rt, one, 4, 7);
    assert!(rt; readings(zero) == (5, 5, 2, 0, None));
    assert!(rt; readings(one) == (1, 1, 8, 0, None));
}

// Then replica 1 hears of all.
fn write_and_hear(rt: &impl Abort, zero: &mut Member, one: &mut Member) {
    write_apart(rt, zero, one);
    tell(rt, 0, zero, one);
    let last = Some(LastOne {
        origin: 1,
        index: 0,
    });
    assert!(rt; readings(one) == (6, 6, 7, 2, last));
}

#[test]
fn keeps_what_is_read(rt: HostRuntime) {
    let mut pair = Pair::new(&rt, rt.alloc(), [10; 2]);
    write_and_hear(&rt, &mut pair.zero, &mut pair.one);
}

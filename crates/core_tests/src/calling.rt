//! A replica's replies to writes with weights, held writes, reserves and releases.

use crate::asking::{Ask, Deed};
use crate::member::Member;
use crate::saying::Said;
use run_model::Config;
use std::alloc::Global;
use std::process::Abort;

// What each write and each held write does.
const ADD: Deed = Deed::Add(7, 1);

// Client 2 asks for one after another, and each reply is compared.
fn assert_replies(rt: &impl Abort, member: &mut Member, table: &[(Ask, Said)]) {
    for (ask, said) in table {
        assert_eq!(rt; member.answered(rt, 3, 2, *ask), said.reply());
    }
}

// How many calls client 2 made, how many entries there are, and how many own writes; and what replica 1 may miss.
fn assert_counts(rt: &impl Abort, member: &Member, counts: (u64, u64, u64), missed: (u64, u64)) {
    let replica = &member.replica;
    assert_eq!(rt;
        (member.calls(rt, 2), replica.count(), replica.have(0)),
        counts
    );
    assert_eq!(rt; member.missed(rt, 1), missed);
}

// A share of 5 is used up on either side.
#[rattlefmt::skip]
static USED_UP: [(Ask, Said); 8] = [
    (Ask::Write(6, 1, ADD), Said::TooHeavy { weight: 6, share: 5 }),
    (Ask::Write(5, 1, ADD), Said::Done { index: 0, stamp: 1 }),
    (Ask::Write(1, 1, ADD), Said::WaitShare { missing: 5, reserved: 0, weight: 1, share: 5 }),
    (Ask::Write(0, 1, ADD), Said::Done { index: 1, stamp: 2 }),
    (Ask::Write(-6, 1, ADD), Said::TooHeavy { weight: 6, share: 5 }),
    (Ask::Write(-5, 1, ADD), Said::Done { index: 2, stamp: 3 }),
    (Ask::Write(1, 1, ADD), Said::WaitShare { missing: 5, reserved: 0, weight: 1, share: 5 }),
    (Ask::Write(-1, 1, ADD), Said::WaitShare { missing: 5, reserved: 0, weight: 1, share: 5 }),
];

fn use_up_a_share(rt: &impl Abort, member: &mut Member) {
    assert_replies(rt, member, &USED_UP);
    assert_counts(rt, member, (8, 8, 3), (5, 5));
    assert_eq!(rt; member.replica.tentative().len(), 3);
}

// Of three on one conit, each of which allows 10 and lends 5 of it to each other.
fn of_three(rt: &impl Abort, alloc: Global) -> Box<Member> {
    let loans = [0, 5, 5, 5, 0, 5, 5, 5, 0];
    let config = Config::new(alloc, 3, 1, &[10; 3], &loans).expect(rt, "a setup");
    Member::new(rt, alloc, &config, 0)
}

#[test]
fn writes_wait_for_the_share(rt: HostRuntime) {
    let mut member = of_three(&rt, rt.alloc());
    use_up_a_share(&rt, &mut member);
}

// All of a share is reserved, and one write takes it.
#[rattlefmt::skip]
static SPENT: [(Ask, Said); 6] = [
    (Ask::Reserve(10), Said::Granted),
    (Ask::Write(1, 1, ADD), Said::WaitHeld { reserved: 10, weight: 1, share: 10 }),
    (Ask::Held(10, 1, ADD), Said::Done { index: 0, stamp: 1 }),
    (Ask::Write(1, 1, ADD), Said::WaitShare { missing: 10, reserved: 0, weight: 1, share: 10 }),
    (Ask::Held(1, 1, ADD), Said::NotHeld { held: 0, amount: 1 }),
    (Ask::Release(1), Said::NotHeld { held: 0, amount: 1 }),
];

fn spend_all(rt: &impl Abort, member: &mut Member) {
    assert_replies(rt, member, &SPENT);
    assert_counts(rt, member, (6, 6, 1), (10, 0));
}

#[test]
fn held_writes_spend_what_is_reserved(rt: HostRuntime) {
    let mut member = Member::of_two(&rt, rt.alloc(), 0, [10; 2]);
    spend_all(&rt, &mut member);
}

// A negative weight is missed: what is reserved beside it is of either sign.
#[rattlefmt::skip]
static RESERVED: [(Ask, Said); 9] = [
    (Ask::Write(-7, 1, ADD), Said::Done { index: 0, stamp: 1 }),
    (Ask::Reserve(11), Said::TooHeavy { weight: 11, share: 10 }),
    (Ask::Reserve(4), Said::WaitShare { missing: 7, reserved: 0, weight: 4, share: 10 }),
    (Ask::Reserve(3), Said::Granted),
    (Ask::Reserve(8), Said::WaitHeld { reserved: 3, weight: 8, share: 10 }),
    (Ask::Held(-2, 1, ADD), Said::Done { index: 1, stamp: 2 }),
    (Ask::Release(2), Said::NotHeld { held: 1, amount: 2 }),
    (Ask::Release(1), Said::Released),
    (Ask::Reserve(1), Said::Granted),
];

// There is room for the first write, and none for the second, with which room is made for 63 others.
fn reserve_beside_a_write(rt: &impl Abort, member: &mut Member) {
    member.reserve(rt, 1);
    assert_replies(rt, member, &RESERVED);
    assert_counts(rt, member, (9, 9, 2), (0, 9));
    assert_eq!(rt; (member.reserved(), member.replica.spare()), (1, 63));
}

#[test]
fn reserves_count_either_sign(rt: HostRuntime) {
    let mut member = Member::of_two(&rt, rt.alloc(), 0, [10; 2]);
    reserve_beside_a_write(&rt, &mut member);
}

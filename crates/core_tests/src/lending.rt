//! Loans of a replica: what is at home is lent, and what is free is given back.

use crate::member::Member;
use replica_core::LoanFault;
use run_model::Config;
use std::alloc::Global;
use std::process::Abort;

// Replica 0 of two, on two conits: of its 10 and 7 the other has 3 and 1, and of the other's it has 4 and 2.
fn one_of_two(rt: &impl Abort, alloc: Global) -> Box<Member> {
    let loans = [0, 3, 0, 1, 4, 0, 2, 0];
    let config = Config::new(alloc, 2, 2, &[10, 7, 9, 8], &loans).expect(rt, "a setup");
    Member::new(rt, alloc, &config, 0)
}

// What it tells the other of loans and returns is this.
fn assert_told(rt: &impl Abort, member: &mut Member, lent: [u64; 2], returned: [u64; 2]) {
    let message = member.send(rt, 6, 1, &[0; 2]);
    assert!(rt; message.lent.items() == lent.as_slice());
    assert!(rt; message.returned.items() == returned.as_slice());
}

// It made so many entries, the last at the moment 5.
fn assert_entries(rt: &impl Abort, member: &Member, count: u64) {
    assert_eq!(rt; (member.replica.count(), member.replica.last()), (count, 5));
}

// Some of what is at home, and more: a conit, an amount, and the answer.
#[rattlefmt::skip]
static LENT: [(u32, u8, Result<(), LoanFault>); 6] = [
    (0, 3, Ok(())),
    (0, 5, Err(LoanFault::Home { conit: 0, home: 4 })),
    (0, 4, Ok(())),
    (0, 1, Err(LoanFault::Home { conit: 0, home: 0 })),
    (1, 7, Err(LoanFault::Home { conit: 1, home: 6 })),
    (1, 6, Ok(())),
];

fn lend_and_more(rt: &impl Abort, member: &mut Member) {
    for (conit, amount, given) in &LENT {
        assert_eq!(rt; &member.lend(rt, 5, 1, *conit, *amount), given);
    }
    assert_entries(rt, member, 3);
}

// Some of what is free, and more.
#[rattlefmt::skip]
static GIVEN_BACK: [(u32, u8, Result<(), LoanFault>); 7] = [
    (0, 5, Err(LoanFault::Free { conit: 0, free: 4 })),
    (0, 1, Ok(())),
    (0, 4, Err(LoanFault::Free { conit: 0, free: 3 })),
    (0, 3, Ok(())),
    (0, 0, Ok(())),
    (1, 3, Err(LoanFault::Free { conit: 1, free: 2 })),
    (1, 2, Ok(())),
];

fn give_back_and_more(rt: &impl Abort, member: &mut Member) {
    for (conit, amount, given) in &GIVEN_BACK {
        assert_eq!(rt; &member.give_back(rt, 5, 1, *conit, *amount), given);
    }
    assert_entries(rt, member, 4);
}

#[test]
fn lends_what_is_at_home(rt: HostRuntime) {
    let mut member = one_of_two(&rt, rt.alloc());
    lend_and_more(&rt, &mut member);
    assert_told(&rt, &mut member, [10, 7], [0, 0]);
}

#[test]
fn gives_back_what_is_free(rt: HostRuntime) {
    let mut member = one_of_two(&rt, rt.alloc());
    give_back_and_more(&rt, &mut member);
    assert_told(&rt, &mut member, [3, 1], [4, 2]);
}

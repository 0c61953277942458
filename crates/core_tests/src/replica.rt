//! A replica: what it accepts, what it sends, and when it is full.

use crate::asking::{Ask, Deed};
use crate::member::Member;
use crate::readings::{Readings, assert_readings};
use replica_core::{CoreFault, LoanFault};
use run_model::{Config, Message, Reply};
use std::alloc::Global;
use std::process::Abort;
use tact_base::Cover;

// What client 3 asks for: a write without weights.
const SHIFT: Ask = Ask::Plain(Deed::Shift(7, 8, 1));

fn write(rt: &impl Abort, member: &mut Member, moment: u8) -> Reply {
    member.answered(rt, moment, 3, SHIFT)
}

// Client 3 writes, and is told that it did.
fn assert_written(rt: &impl Abort, member: &mut Member, moment: u8, index: u64, stamp: u64) {
    assert_eq!(rt; write(rt, member, moment), Reply::Done { index, stamp });
}

// Makes room for two writes, which it then accepts.
fn accept_two(rt: &impl Abort, member: &mut Member) {
    member.reserve(rt, 2);
    assert_eq!(rt; member.replica.spare(), 2);
    assert_written(rt, member, 5, 0, 1);
    assert_written(rt, member, 4, 1, 2);
    assert_readings(rt, member, &accepted());
}

// What replica 1 of two reads, of which client 3 wrote twice, at the moment 5 first, where there was room for no more.
fn accepted() -> Readings {
    Readings {
        haves: [0, 2],
        known: [0; 4],
        covers: [
            NOTHING,
            Cover {
                count: 2,
                stamp: 2,
                moment: 5,
            },
        ],
        clock: 2,
        point: 0,
        committed: 0,
        tentative: 2,
        count: 2,
        calls: [0, 0, 0, 2, 0, 0, 0, 0],
        last: 5,
        spare: 0,
    }
}

// The cover of one that was never heard of.
const NOTHING: Cover = Cover {
    count: 0,
    stamp: 0,
    moment: 0,
};

#[test]
fn accepts_writes(rt: HostRuntime) {
    let mut member = Member::of_two(&rt, rt.alloc(), 1, [5, 6]);
    accept_two(&rt, &mut member);
}

// A message of replica 1 to replica 0, which tells of two writes, its first and how many, with a cover of this moment.
fn assert_message(rt: &impl Abort, message: &Message, first: u64, count: usize, moment: u64) {
    let told = Cover {
        count: 2,
        stamp: 2,
        moment,
    };
    assert_eq!(rt; (message.from, message.to, message.number), (1, 0, 0));
    assert!(rt; message.covers.items() == [NOTHING, told].as_slice());
    assert!(rt; message.writes.len() == count);
    assert_lists(rt, message, first);
}

fn assert_lists(rt: &impl Abort, message: &Message, first: u64) {
    assert!(rt; message.haves.items() == [0, 2].as_slice());
    assert!(rt; message.firsts.items() == [0, first].as_slice());
    assert!(rt; message.lent.items() == [6].as_slice());
    assert!(rt; message.returned.items() == [0].as_slice());
}

// Writes twice, and sends where the first of its own writes is given.
fn send_two(rt: &impl Abort, member: &mut Member, moment: u8, given: u64) -> Box<Message> {
    write(rt, member, 5);
    write(rt, member, 6);
    member.send(rt, moment, 0, &[0, given])
}

// The same by a new replica, whose counts are right then.
fn sent(rt: &impl Abort, alloc: Global, moment: u8, given: u64) -> Box<Message> {
    let mut member = Member::of_two(rt, alloc, 1, [5, 6]);
    let message = send_two(rt, &mut member, moment, given);
    let last = u64::from(moment).max(6);
    assert_eq!(rt; (member.replica.count(), member.replica.last()), (3, last));
    message
}

static SENT: [(u8, u64, u64, usize, u64); 4] = [
    (7, 0, 0, 2, 7),
    (3, 1, 1, 1, 6),
    (6, 2, 2, 0, 6),
    (8, 9, 2, 0, 8),
];

#[test]
fn sends_what_another_lacks(rt: HostRuntime) {
    for &(moment, given, first, count, last) in &SENT {
        let message = sent(&rt, rt.alloc(), moment, given);
        assert_message(&rt, &message, first, count, last);
    }
}

// As many entries as there can be.
fn fill(rt: &impl Abort, member: &mut Member) {
    for _ in 0..20_000 {
        assert_eq!(rt; member.restart(3), Ok(()));
    }
}

// What a full replica of two reads, which restarted at the moment 3 alone.
fn full() -> Readings {
    Readings {
        haves: [0; 2],
        known: [0; 4],
        covers: [
            Cover {
                count: 0,
                stamp: 0,
                moment: 3,
            },
            NOTHING,
        ],
        clock: 0,
        point: 0,
        committed: 0,
        tentative: 0,
        count: 20_000,
        calls: [0; 8],
        last: 3,
        spare: 0,
    }
}

// Each entry is refused, and nothing changes.
fn assert_full(rt: &impl Abort, member: &mut Member) {
    assert_nothing_enters(rt, member);
    assert_no_loan_moves(rt, member);
    assert_readings(rt, member, &full());
}

fn assert_nothing_enters(rt: &impl Abort, member: &mut Member) {
    let (count, clock) = (20_000, 0);
    let full = CoreFault::Full { count, clock };
    assert_eq!(rt; member.restart(4), Err(full));
    assert_eq!(rt; member.ask(rt, 4, 3, SHIFT), Err(full));
}

fn assert_no_loan_moves(rt: &impl Abort, member: &mut Member) {
    let (count, clock) = (20_000, 0);
    let full = Err(LoanFault::Full { count, clock });
    assert_eq!(rt; member.lend(rt, 4, 1, 0, 1), full);
    assert_eq!(rt; member.give_back(rt, 4, 1, 0, 1), full);
}

// Replica 0 of two that allow nothing.
fn of_nothing(rt: &impl Abort, alloc: Global) -> Box<Member> {
    let config = Config::new(alloc, 2, 1, &[0; 2], &[0; 4]).expect(rt, "a setup");
    Member::new(rt, alloc, &config, 0)
}

#[test]
fn is_full_after_as_many_entries(rt: HostRuntime) {
    let mut member = of_nothing(&rt, rt.alloc());
    fill(&rt, &mut member);
    assert_readings(&rt, &member, &full());
    assert_full(&rt, &mut member);
}

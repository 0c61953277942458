//! Want of memory: a run of one replica with every call. Each call that is refused memory is made again, and then
//! answers as if nothing had happened. `rt try --test --fail-alloc N` makes the Nth allocation fail; where none does,
//! each call is made once.

use crate::asking::{Ask, Deed, Light};
use crate::member::Member;
use crate::readings::{Counts, Known, NOTHING, Settled, Values};
use replica_core::LastOne;
use run_model::{Message, Reply};
use std::alloc::Global;
use std::process::Abort;
use tact_base::{Cover, Numbers};

// What is done next: a client asks; room is made for so many own writes; the replica sends what the other lacks, or
// takes a message of the other, which is given; it lends the other an amount of conit 0, or gives one back to it; or it
// begins anew.
#[derive(Clone, Copy)]
enum Turn {
    Ask(Ask),
    Room(u8),
    Send,
    Take,
    Lend(u8),
    GiveBack(u8),
    Restart,
}

// What it answered: of a client's reply what is in it; with the first of the own writes of a message and how many it
// has; or only that it did so.
#[derive(Clone, Copy, Debug, PartialEq, Eq)]
enum Answer {
    Done { index: u64, stamp: u64 },
    Granted,
    Released,
    Value { value: i64, sum: i64 },
    Other,
    Sent { first: u64, count: usize },
    Made,
}

// What is given: where the told writes may begin, and a message of the other, which wrote twice.
#[derive(Clone, Copy)]
struct Given<'a> {
    firsts: &'a Numbers,
    message: &'a Message,
}

// All that can be read.
#[derive(Clone, Copy, Debug, PartialEq, Eq)]
struct Readings {
    known: Known,
    settled: Settled,
    values: Values,
    counts: Counts,
}

// What all writes of the run weigh but for how much they change.
const LIGHT: Light = Light {
    conit: 0,
    nweight: 3,
    oweight: 2,
};

// The message of one that wrote twice.
fn told_by(rt: &impl Abort, alloc: Global, other: &mut Member) -> Message {
    for _ in 0..2 {
        other.answered(rt, 7, Ask::Write(LIGHT, Deed::Add(1, 1)));
    }
    other.sent(rt, alloc, 7, 0)
}

fn read(member: &Member) -> Readings {
    Readings {
        known: member.known(),
        settled: member.settled(),
        values: member.values(),
        counts: member.counts(),
    }
}

// Takes a turn: the answer, or nothing where memory was refused.
fn take_once(
    rt: &impl Abort,
    member: &mut Member,
    given: &Given<'_>,
    turn: Turn,
) -> Option<Answer> {
    match turn {
        Turn::Ask(ask) => ask_once(rt, member, ask),
        Turn::Send => send_once(rt, member, given),
        Turn::Take => made(member.take(rt, 9, given.message)),
        Turn::Room(count) => made(member.reserve(count)),
        _ => {
            take_freely(rt, member, turn);
            Some(Answer::Made)
        }
    }
}

fn made(done: Option<()>) -> Option<Answer> {
    match done {
        Some(()) => Some(Answer::Made),
        None => None,
    }
}

fn ask_once(rt: &impl Abort, member: &mut Member, ask: Ask) -> Option<Answer> {
    match member.ask(rt, 8, ask) {
        Some(reply) => Some(said(&reply)),
        None => None,
    }
}

// What is in a reply, where it is one of those that the run has.
fn said(reply: &Reply) -> Answer {
    match reply {
        Reply::Done { index, stamp } => Answer::Done {
            index: *index,
            stamp: *stamp,
        },
        Reply::Granted => Answer::Granted,
        Reply::Released => Answer::Released,
        Reply::Value { value, sums } => Answer::Value {
            value: *value,
            sum: sums.items().first().copied().unwrap_or(0),
        },
        _ => Answer::Other,
    }
}

// A turn that wants no memory.
fn take_freely(rt: &impl Abort, member: &mut Member, turn: Turn) {
    match turn {
        Turn::Lend(amount) => member.lend(rt, 9, 1, amount),
        Turn::GiveBack(amount) => member.give_back(rt, 9, 1, amount),
        _ => member.restart(rt, 10),
    }
}

fn send_once(rt: &impl Abort, member: &mut Member, given: &Given<'_>) -> Option<Answer> {
    match member.send(rt, 9, 1, given.firsts) {
        Some(message) => Some(sent(&message)),
        None => None,
    }
}

fn sent(message: &Message) -> Answer {
    Answer::Sent {
        first: message.firsts.items().first().copied().unwrap_or(9),
        count: message.writes.len(),
    }
}

// Takes a turn, and where memory was refused takes it again: nothing that can be read changed in between.
fn take_surely(rt: &impl Abort, member: &mut Member, given: &Given<'_>, turn: Turn) -> Answer {
    let before = read(member);
    match take_once(rt, member, given, turn) {
        Some(answer) => answer,
        None => take_again(rt, member, given, turn, &before),
    }
}

fn take_again(
    rt: &impl Abort,
    member: &mut Member,
    given: &Given<'_>,
    turn: Turn,
    before: &Readings,
) -> Answer {
    assert_eq!(rt; &read(member), before);
    take_once(rt, member, given, turn).expect(rt, "an answer at the second time")
}

fn take_all(rt: &impl Abort, member: &mut Member, given: &Given<'_>, table: &[(Turn, Answer)]) {
    for (turn, answer) in table {
        assert_eq!(rt; take_surely(rt, member, given, *turn), *answer);
    }
}

// All that writes or reads.
#[rattlefmt::skip]
static WRITES_AND_READS: [(Turn, Answer); 7] = [
    (Turn::Ask(Ask::Write(Light { nweight: 1, ..LIGHT }, Deed::Add(1, 5))), Answer::Done { index: 0, stamp: 1 }),
    (Turn::Ask(Ask::Write(Light { nweight: 2, ..LIGHT }, Deed::Put(2, 9))), Answer::Done { index: 1, stamp: 2 }),
    (Turn::Ask(Ask::Reserve(10)), Answer::Granted),
    (Turn::Ask(Ask::Held(Light { nweight: -4, ..LIGHT }, Deed::Shift(1, 2, 3))), Answer::Done { index: 2, stamp: 3 }),
    (Turn::Ask(Ask::Release(1)), Answer::Released),
    (Turn::Room(100), Answer::Made),
    (Turn::Ask(Ask::Read(2, 6)), Answer::Value { value: 12, sum: -1 }),
];

// All that has to do with the other.
#[rattlefmt::skip]
static EXCHANGES: [(Turn, Answer); 6] = [
    (Turn::Send, Answer::Sent { first: 0, count: 3 }),
    (Turn::Take, Answer::Made),
    (Turn::Lend(60), Answer::Made),
    (Turn::GiveBack(31), Answer::Made),
    (Turn::Restart, Answer::Made),
    (Turn::Ask(Ask::Read(1, 2)), Answer::Value { value: 4, sum: 5 }),
];

// What can be read then: the other's two writes are seen, of the own ones the last is tentative.
#[rattlefmt::skip]
fn all_read() -> Readings {
    Readings {
        known: Known {
            haves: [3, 2, 0],
            known: [[0; 3], [0, 2, 0], [0; 3]],
            covers: [Cover { count: 3, stamp: 3, moment: 10 }, Cover { count: 2, stamp: 2, moment: 7 }, NOTHING],
            clock: 3,
        },
        settled: Settled {
            point: 2,
            count: 4,
            last: Some(LastOne { origin: 1, index: 1 }),
            dropped: 0,
            held: 4,
            tentative: 1,
        },
        values: Values { conits: [5, 0], weights: [2, 0], keys: [4, 12] },
        counts: Counts {
            entries: 12,
            calls: 7,
            last: 10,
            spare: 100,
            reserved: 5,
            missing: (3, 4),
            home: 0,
            free: 0,
        },
    }
}

fn run_all(rt: &impl Abort, member: &mut Member, given: &Given<'_>) {
    take_all(rt, member, given, &WRITES_AND_READS);
    take_all(rt, member, given, &EXCHANGES);
    assert_eq!(rt; &read(member), &all_read());
}

#[test]
fn goes_on_where_memory_was_refused(rt: HostRuntime) {
    let mut other = Member::of_two(&rt, rt.alloc(), 1);
    let message = told_by(&rt, rt.alloc(), &mut other);
    let firsts = other.no_firsts(&rt, rt.alloc());
    let given = Given {
        firsts: &firsts,
        message: &message,
    };
    let mut member = Member::of_two(&rt, rt.alloc(), 0);
    run_all(&rt, &mut member, &given);
}

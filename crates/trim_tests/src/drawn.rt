//! A long run whose steps are drawn: after each, what each member tells is what the plain functions say.

use crate::asking::{Ask, Deed, Light};
use crate::member::{Member, three};
use crate::plain::{assert_keys, assert_order, assert_sums, committed_count, dropped, seen};
use run_model::{Message, Reply};
use std::alloc::Global;
use std::process::Abort;
use tact_base::{Weights, Write};
use test_draws::{below, next};

// The members, all writes that they accepted, and the messages that are on the way.
#[derive(Drop)]
struct Course {
    members: Vec<Member>,
    writes: Vec<Write>,
    mail: Vec<Message>,
}

fn light_of(number: u64) -> Light {
    Light {
        conit: below(number, 20, 2),
        nweight: below(number, 23, 5) as i8 - 2,
        oweight: below(number, 27, 9),
    }
}

fn deed_of(number: u64) -> Deed {
    let key = below(number, 31, 4);
    let amount = below(number, 34, 20);
    match below(number, 40, 3) {
        0 => Deed::Put(key, amount as i8),
        1 => Deed::Add(key, amount as i8),
        _ => Deed::Shift(key, below(number, 43, 4), amount),
    }
}

// A member writes, if its share allows it.
fn write(
    rt: &impl Abort,
    members: &mut [Member],
    writes: &mut Vec<Write>,
    moment: u16,
    number: u64,
) {
    let origin = u32::from(below(number, 50, 3));
    assert!(rt; (origin as usize) < members.len());
    let (light, deed) = (light_of(number), deed_of(number));
    let reply = members[origin as usize].answered(rt, moment, Ask::Write(light, deed));
    if let Reply::Done { index, stamp } = reply {
        let write = Write {
            origin,
            index,
            stamp,
            moment: u64::from(moment),
            weights: Weights::new(&[light.weight()]).expect(rt, "a weight"),
            op: deed.op(),
        };
        writes.push(write).expect(rt, "room for a write");
    }
}

// A member sends to another. The message is on its way.
fn send(
    rt: &impl Abort,
    alloc: Global,
    members: &mut [Member],
    mail: &mut Vec<Message>,
    moment: u16,
    number: u64,
) {
    let from = u32::from(below(number, 50, 3));
    let to = (from + 1 + u32::from(below(number, 53, 2))) % 3;
    assert!(rt; (from as usize) < members.len());
    let message = members[from as usize].sent(rt, alloc, moment, to);
    mail.push(message).expect(rt, "room for a message");
}

// A message that is on its way comes, out of turn, and sometimes it comes again.
fn take(
    rt: &impl Abort,
    members: &mut [Member],
    mail: &mut Vec<Message>,
    moment: u16,
    number: u64,
) {
    if mail.is_empty() {
        return;
    }
    let place = (number >> 45) as usize % mail.len();
    let to = mail[place].to as usize;
    assert!(rt; to < members.len());
    let taken = members[to].take(rt, moment, &mail[place]);
    taken.expect(rt, "a message that is taken");
    assert_given_up(rt, &members[to]);
    if below(number, 54, 4) > 0 {
        mail.swap_remove(place);
    }
}

// A member that took a message holds no committed write at the front that each is known to have.
fn assert_given_up(rt: &impl Abort, member: &Member) {
    let held = member.replica.committed();
    assert_eq!(rt; dropped(member, held), 0);
}

// One step by a number.
fn step(rt: &impl Abort, alloc: Global, course: &mut Course, moment: u16, number: u64) {
    let members = &mut course.members;
    match below(number, 56, 8) {
        0..=1 => write(rt, members, &mut course.writes, moment, number),
        2..=4 => send(rt, alloc, members, &mut course.mail, moment, number),
        _ => take(rt, members, &mut course.mail, moment, number),
    }
}

// What each member tells is what the plain functions say.
fn assert_all(rt: &impl Abort, alloc: Global, course: &Course) {
    for member in &course.members {
        assert_member(rt, alloc, member, &course.writes);
    }
}

fn assert_member(rt: &impl Abort, alloc: Global, member: &Member, writes: &[Write]) {
    let seen = seen(rt, alloc, member, writes);
    let count = committed_count(member, &seen);
    assert_order(rt, member, &seen, count);
    assert!(rt; count <= seen.len());
    assert!(rt; member.replica.dropped() <= dropped(member, &seen[..count]));
    assert_sums(rt, member, &seen, &seen[count..]);
    assert_keys(rt, alloc, member, &seen);
}

// With this beginning 17 writes are accepted, messages come out of turn, and each member gives up some writes.
#[test]
fn tells_what_the_plain_functions_say(rt: HostRuntime) {
    let mut course = Course {
        members: three(&rt, rt.alloc()),
        writes: Vec::new(rt.alloc()),
        mail: Vec::new(rt.alloc()),
    };
    let mut number = 25;
    for moment in 0..60 {
        number = next(number);
        step(&rt, rt.alloc(), &mut course, moment, number);
        assert_all(&rt, rt.alloc(), &course);
    }
    for member in &course.members {
        assert!(rt; member.replica.dropped() > 0);
    }
}

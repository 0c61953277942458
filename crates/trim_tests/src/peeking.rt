//! The message that a replica would send.

use crate::asking::{Ask, Deed, Light};
use crate::member::Member;
use run_model::Message;
use std::process::Abort;

// A write that weighs on conit 1.
fn write(rt: &impl Abort, one: &mut Member) {
    let light = Light {
        conit: 1,
        nweight: 4,
        oweight: 1,
    };
    one.answered(rt, 3, Ask::Write(light, Deed::Put(1, 4)));
}

fn assert_same(rt: &impl Abort, peeked: &Message, sent: &Message) {
    assert_eq!(rt; peeked.writes.len(), 1);
    assert_eq!(rt; peeked, sent);
}

#[test]
fn tells_what_it_would_send(rt: HostRuntime) {
    let mut one = Member::of_two(&rt, rt.alloc(), 1);
    write(&rt, &mut one);
    let peeked = one.peek(&rt, rt.alloc(), 5, 0);
    let sent = one.sent(&rt, rt.alloc(), 5, 0);
    assert_same(&rt, &peeked, &sent);
}

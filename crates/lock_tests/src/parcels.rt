//! Parcels between two nodes, in one thread.
ghost use Rattle.std.specs.Prelude.{◌≡◌};
ghost use Rattle.postbox.specs.Posts.{IsFor};

use crate::client::Client;
use crate::opened::{Opened, closed, node_of, open_two};
use replica_lock::{Ended, Parcel};
use run_history::Desk;
use run_model::Act;
use std::process::Abort;
use std::sync::Wait;
use tact_io::SureJournal;

// Replica 0 writes and sends to replica 1. It has something to tell it from then on.
fn write_and_send<R: Wait + Abort>(rt: &R, sender: &mut Client<'_, '_>) -> Parcel
    requires replicas { sender.old.node.now.desk.setup.replicas ≡ 2 }
    requires sender { sender.old.node.now.replica ≡ 0 }
    ensures node { sender.new.node.now ≡ sender.old.node.now }
    ensures parcel { IsFor sender.old.node.now.desk.table 1 result }
{
    sender.write(rt);
    let due = sender.due(rt, 1);
    assert!(rt; due, "a write is to be told");
    sender.send(rt, 1)
}

// Replica 1 takes what was sent to it, which it is to answer.
fn take<R: Wait + Abort>(rt: &R, taker: &mut Client<'_, '_>, parcel: Parcel)
    requires parcel { IsFor taker.old.node.now.desk.table 1 parcel }
    requires taker { taker.old.node.now.replica ≡ 1 }
    ensures { taker.new.node.now ≡ taker.old.node.now }
{
    let due = taker.answer_due(rt, parcel.message());
    assert!(rt; due, "a message with a write is to be answered");
    taker.take(rt, parcel);
}

// A parcel and its twin are taken, and the second changes nothing.
fn take_twice<R: Wait + Abort>(
    rt: &R,
    desk: &Desk,
    sender: &mut Client<'_, '_>,
    taker: &mut Client<'_, '_>,
)
    requires replicas { desk.now.setup.replicas ≡ 2 }
    requires sender { (sender.old.node.now.desk ≡ desk.now) × (sender.old.node.now.replica ≡ 0) }
    requires taker { (taker.old.node.now.desk ≡ desk.now) × (taker.old.node.now.replica ≡ 1) }
    ensures sender { sender.new.node.now ≡ sender.old.node.now }
    ensures taker { taker.new.node.now ≡ taker.old.node.now }
{
    let mut parcel = write_and_send(rt, sender);
    let twin = parcel.twin(desk).expect(rt, "a twin");
    take(rt, taker, parcel);
    take(rt, taker, twin);
    let value = taker.read(rt);
    assert_eq!(rt; value, 1);
}

// Replica 1 answers, and then replica 0 has nothing more to tell it.
fn answer<R: Wait + Abort>(rt: &R, sender: &mut Client<'_, '_>, taker: &mut Client<'_, '_>)
    requires replicas { sender.old.node.now.desk.setup.replicas ≡ 2 }
    requires desk { taker.old.node.now.desk ≡ sender.old.node.now.desk }
    requires sender { sender.old.node.now.replica ≡ 0 }
    requires taker { taker.old.node.now.replica ≡ 1 }
    ensures sender { sender.new.node.now ≡ sender.old.node.now }
    ensures taker { taker.new.node.now ≡ taker.old.node.now }
{
    let before = sender.due(rt, 1);
    let parcel = taker.send(rt, 0);
    let answer_due = sender.answer_due(rt, parcel.message());
    sender.take(rt, parcel);
    let after = sender.due(rt, 1);
    assert_eq!(rt; (before, answer_due, after), (true, false, false));
}

// A parcel is taken after a newer one.
fn take_late<R: Wait + Abort>(rt: &R, sender: &mut Client<'_, '_>, taker: &mut Client<'_, '_>)
    requires replicas { sender.old.node.now.desk.setup.replicas ≡ 2 }
    requires desk { taker.old.node.now.desk ≡ sender.old.node.now.desk }
    requires sender { sender.old.node.now.replica ≡ 0 }
    requires taker { taker.old.node.now.replica ≡ 1 }
{
    let early = write_and_send(rt, sender);
    let late = write_and_send(rt, sender);
    take(rt, taker, late);
    let both = taker.read(rt);
    take(rt, taker, early);
    let same = taker.read(rt);
    assert_eq!(rt; (both, same), (3, 3));
}

// All that the two exchange.
fn exchange<R: Wait + Abort>(
    rt: &R,
    desk: &Desk,
    mut sender: Client<'_, '_>,
    mut taker: Client<'_, '_>,
)
    requires replicas { desk.now.setup.replicas ≡ 2 }
    requires sender { (sender.node.now.desk ≡ desk.now) × (sender.node.now.replica ≡ 0) }
    requires taker { (taker.node.now.desk ≡ desk.now) × (taker.node.now.replica ≡ 1) }
{
    take_twice(rt, desk, &mut sender, &mut taker);
    answer(rt, &mut sender, &mut taker);
    take_late(rt, &mut sender, &mut taker);
}

// Marks the entries of a node at their ticks: calls, sendings and takings.
fn mark(rt: &impl Abort, ended: &Ended<SureJournal>, marks: &mut [u8; 15]) {
    for (tick, entry) in ended.stored.pairs() {
        let tick = *tick as usize;
        assert!(rt; tick < 15, "no entry at {tick}");
        marks[tick] = match entry.act {
            Act::Call { .. } => b'c',
            Act::Send { .. } => b's',
            Act::Take { .. } => b't',
            _ => b'-',
        };
    }
}

// What both stored, by tick.
fn are_marked(rt: &impl Abort, one: &Ended<SureJournal>, other: &Ended<SureJournal>) {
    let mut marks = [b'.'; 15];
    mark(rt, one, &mut marks);
    mark(rt, other, &mut marks);
    assert_eq!(rt; &marks, b"csttcstcscstctc");
}

#[test]
fn parcels_are_taken_twice_and_late(rt: HostRuntime) {
    let Opened {
        desk,
        config,
        first,
        second,
    } = open_two(&rt, rt.alloc());
    let (one, mut roster) = node_of(&rt, rt.alloc(), &desk, &config, first);
    let (other, mut other_roster) = node_of(&rt, rt.alloc(), &desk, &config, second);
    let sender = Client::new(&rt, &one, &mut roster, 0);
    let taker = Client::new(&rt, &other, &mut other_roster, 0);
    exchange(&rt, &desk, sender, taker);
    let one = one.end(&rt, roster);
    let other = other.end(&rt, other_roster);
    are_marked(&rt, &one, &other);
    let entries = closed(&rt, rt.alloc(), desk, one.clerk, other.clerk);
    assert_eq!(rt; entries, 15);
}

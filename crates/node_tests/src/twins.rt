//! A parcel and its twin between two nodes on one thread, and what is left of the nodes and of their desk.
ghost use Rattle.std.specs.Prelude.{◌≡◌};

use crate::lone_client::LoneClient;
use crate::opened::{Opened, closed, open_two};
use run_history::Desk;
use std::process::Abort;
use std::sync::Wait;

// Replica 0 sends to replica 1, which takes the parcel, and then its twin.
fn tell_twice<R: Wait + Abort>(
    rt: &R,
    desk: &Desk,
    sender: &mut LoneClient<'_>,
    taker: &mut LoneClient<'_>,
)
    requires replicas { desk.now.setup.replicas ≡ 2 }
    requires sender { (sender.old.node.desk ≡ desk.now) × (sender.old.node.replica ≡ 0) }
    requires taker { (taker.old.node.desk ≡ desk.now) × (taker.old.node.replica ≡ 1) }
    ensures sender { sender.new.node ≡ sender.old.node }
    ensures taker { taker.new.node ≡ taker.old.node }
{
    let mut parcel = sender.send(rt, 1);
    let twin = parcel.twin(desk).expect(rt, "a twin");
    taker.take(rt, parcel);
    taker.take(rt, twin);
}

#[test]
fn a_parcel_and_its_twin_are_taken(rt: HostRuntime) {
    let Opened {
        desk,
        config,
        first,
        second,
    } = open_two(&rt, rt.alloc());
    let mut sender = LoneClient::new(&rt, rt.alloc(), &desk, &config, first);
    let mut taker = LoneClient::new(&rt, rt.alloc(), &desk, &config, second);
    let written = sender.write(&rt);
    tell_twice(&rt, &desk, &mut sender, &mut taker);
    let value = taker.value(&rt);
    let seen = taker.look(&desk);
    let sender = sender.finish(&rt, rt.alloc());
    let taker = taker.finish(&rt, rt.alloc());
    let entries = closed(&rt, rt.alloc(), desk, sender.clerk, taker.clerk);
    assert_eq!(rt; written, (0, 1));
    assert_eq!(rt; value, 1);
    assert_eq!(rt; (seen, entries), (5, 5));
}

//! The library example of the README: two nodes on threads.
ghost use Rattle.std.specs.Prelude.{◌≡◌};
ghost use Rattle.replica_lock.specs.Sessions.{IsSessionOf};
ghost use Rattle.postbox.specs.Posts.{IsFor};
ghost use Rattle.lock_tests.specs.Boxes.{IsBoxOf, IsBoxOfAnother};

use crate::opened::{Opened, node_of, open_two, plain_read, plain_write};
use crate::records::said_of;
use crate::writers::session;
use link_faults::LinkPlan;
use postbox::Postbox;
use replica_lock::{Node, Parcel, Session};
use run_history::Desk;
use run_model::Reply;
use std::alloc::Global;
use std::process::Abort;
use std::sync::Wait;
use std::thread;
use std::thread::Threads;
use tact_io::{FreeGate, SureJournal};

const SAID: &[u8] = b"run 8 calls 4 writes 2 waits 0 sends 2 takes 2 lends 0 backs 0 restarts 0\n";

// Waits until a parcel is there, and takes it.
fn wait<R: Wait>(rt: &R, inbox: &Postbox) -> Parcel
    ensures { IsFor inbox.now.desk inbox.now.to result }
{
    for _ in rt.forever() {
        if let Some(parcel) = inbox.next(rt) {
            return parcel;
        }
        thread::yield_now();
    }
    unreachable!()
}

// A client of one of two replicas: adds 1 to a key, tells the other replica, takes what comes from there, and reads.
fn visit<R: Wait + Abort>(
    rt: &R,
    desk: &Desk,
    node: &Node<'_, SureJournal, FreeGate>,
    mut session: Session,
    here: &Postbox,
    there: &Postbox,
) -> i64
    requires session { IsSessionOf node.now session }
    requires desk { node.now.desk ≡ desk.now }
    requires here { IsBoxOf node.now here.now }
    requires there { IsBoxOfAnother node.now there.now }
{
    node.call(rt, &mut session, 0, plain_write(rt))
        .expect(rt, "a write");
    let parcel = node
        .send(rt, &mut session, 0, there.to())
        .expect(rt, "a parcel");
    there.put(rt, desk, parcel).expect(rt, "a put");
    let Ok(()) = node.take(rt, &mut session, 0, wait(rt, here)) else {
        panic!(rt; "it wasn't taken")
    };
    match node.call(rt, &mut session, 0, plain_read(rt)) {
        Ok(Reply::Value { value, .. }) => value,
        _ => panic!(rt; "no value"),
    }
}

// Both visits at once, with a postbox for each replica: the value that each of them read.
fn meet<R: Threads + Wait + Abort + Sync>(
    rt: &R,
    alloc: Global,
    desk: &Desk,
    north: &Node<'_, SureJournal, FreeGate>,
    south: &Node<'_, SureJournal, FreeGate>,
    mut ann: Session,
    mut bob: Session,
) -> (i64, i64)
    requires replicas { desk.now.setup.replicas ≡ 2 }
    requires north { (north.now.desk ≡ desk.now) × (north.now.replica ≡ 0) }
    requires south { (south.now.desk ≡ desk.now) × (south.now.replica ≡ 1) }
    requires ann { IsSessionOf north.now ann }
    requires bob { IsSessionOf south.now bob }
{
    let plan = LinkPlan::default();
    let (to_north, north_key) = Postbox::new(alloc, plan, north.note(&mut ann), 0).expect(
        rt,
        "a postbox",
    );
    let (to_south, south_key) = Postbox::new(alloc, plan, south.note(&mut bob), 1).expect(
        rt,
        "a postbox",
    );
    let values = thread::join(
        rt,
        || visit(rt, desk, north, ann, &to_north, &to_south),
        || visit(rt, desk, south, bob, &to_south, &to_north),
    );
    to_north.end(rt, north_key);
    to_south.end(rt, south_key);
    values
}

#[test]
fn two_nodes_on_threads(rt: HostRuntime) {
    let Opened {
        desk,
        config,
        first,
        second,
    } = open_two(&rt, rt.alloc());
    let (north, mut north_roster) = node_of(&rt, rt.alloc(), &desk, &config, first);
    let (south, mut south_roster) = node_of(&rt, rt.alloc(), &desk, &config, second);
    let ann = session(&rt, &north, &mut north_roster, 0);
    let bob = session(&rt, &south, &mut south_roster, 0);
    let values = meet(&rt, rt.alloc(), &desk, &north, &south, ann, bob);
    let north = north.end(&rt, north_roster).stored;
    let south = south.end(&rt, south_roster).stored;
    let said = said_of(&rt, rt.alloc(), &config, &[&north, &south]);
    assert_eq!(rt; values, (2, 2));
    assert_eq!(rt; said.items(), SAID);
}

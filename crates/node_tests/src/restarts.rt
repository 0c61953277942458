//! Nodes whose journals fail at their second append, or lose their first piece, and begin anew.
ghost use Rattle.std.specs.Prelude.{◌≡◌, ◌<◌, ◌≤◌, IsTrue, [], unsigned_abs};
ghost use Rattle.tact_base.specs.Setup.{Setup};
ghost use Rattle.tact_base.specs.declared.limits.TheConstants.{WEIGHT_MAX};
ghost use Rattle.run_model.specs.Ranges.{IsRequestInRange};
ghost use Rattle.locked_replica.specs.Locks.{IsWriteOrRead};
ghost use Rattle.replica_lock.specs.Sessions.{IsAtNode};

use crate::headless::Headless;
use crate::opened::{Opened, ask, node_of, open_two, session, weighing};
use replica_lock::{Node, NodeFault, RestartFault, Resumed, Session};
use run_history::{Clerk, Desk};
use run_model::{Config, Reply, Request};
use std::alloc::Global;
use std::process::Abort;
use std::sync::Wait;
use tact_base::{Need, Needs};
use tact_io::{FreeGate, Journal, JournalFail, MemJournal};

// A node on one conit, with two clients.
#[derive(Drop)]
struct TwoClients<'d, J: Journal + Drop> {
    node: Node<'d, J, FreeGate>,
    one: Session,
    other: Session,
    ghost one_at: { IsAtNode node one },
    ghost other_at: { IsAtNode node other },
    ghost some: { 0 < node.desk.setup.conits },
}

impl<'d, J: Journal + Drop> TwoClients<'d, J> {
    // They are at the node of a clerk that drew nothing.
    fn new(
        rt: &impl Abort,
        alloc: Global,
        desk: &'d Desk,
        config: &Config,
        clerk: Clerk,
        journal: J,
    ) -> TwoClients<'d, J>
        requires setup { desk.now.setup ≡ config.now }
        requires conits { config.now.conits ≡ 1 }
        requires clerk { clerk.table ≡ desk.now.table }
        requires drawn { clerk.pairs ≡ [] }
        requires empty { IsTrue J.tells → J.pieces journal ≡ [] }
    {
        let (node, mut roster) = node_of(rt, alloc, desk, config, clerk, journal);
        let one = session(rt, &node, &mut roster, 0);
        let other = session(rt, &node, &mut roster, 1);
        TwoClients { node, one, other }
    }

    // The first one writes so much on the conit. It isn't in doubt.
    fn write<R: Wait + Abort>(&mut self, rt: &R, nweight: i64) -> Result<Reply, NodeFault>
        requires few { unsigned_abs nweight ≤ WEIGHT_MAX }
    {
        ask(rt, &self.node, &mut self.one, weighing(rt, nweight))
    }

    // The other one reads what the conit comes to. It isn't in doubt.
    fn read<R: Wait + Abort>(&mut self, rt: &R) -> Result<Reply, NodeFault> {
        ask(rt, &self.node, &mut self.other, reading(rt))
    }

    // The other one has the node begin anew.
    fn restart<R: Wait + Abort>(&mut self, rt: &R) -> Result<(), RestartFault> {
        self.node.restart(rt, &mut self.other, 3)
    }

    // What became of the first one's call in doubt: its reply, if it stands.
    fn resume<R: Wait + Abort>(&mut self, rt: &R) -> Option<Reply> {
        let resumed = self.node.resume(rt, &mut self.one);
        reply_of(rt, resumed.expect(rt, "the node isn't halted"))
    }
}

// The reply to a call that was in doubt, if it stands.
fn reply_of(rt: &impl Abort, resumed: Resumed) -> Option<Reply> {
    match resumed {
        Resumed::Stands {
            request: _request,
            reply,
            allowance: _allowance,
        } => Some(reply),
        Resumed::Dropped { .. } => None,
        Resumed::Nothing => panic!(rt; "it was in doubt"),
    }
}

// A read that asks for conit 0, however far that is off.
fn reading(rt: &impl Abort) -> Request
    ensures in_range { (setup : Setup) → 0 < setup.conits → IsRequestInRange setup result }
    ensures plain { IsWriteOrRead result }
{
    let need = Need {
        conit: 0,
        num: 10,
        order: 100,
        stale: 100,
    };
    Request::Read {
        key: 7,
        needs: Needs::new(&[need]).expect(rt, "a need"),
    }
}

// The reply to a write that is done.
fn done(index: u64, stamp: u64) -> Result<Reply, NodeFault> {
    Ok(Reply::Done { index, stamp })
}

// The first write is done; the second fails, which halts the node for all.
fn halt<R: Wait + Abort>(rt: &R, clients: &mut TwoClients<'_, MemJournal>) {
    assert!(rt; clients.write(rt, 3) == done(0, 1));
    assert!(rt; clients.write(rt, 4) == Err(NodeFault::JournalFault));
    assert!(rt; clients.one.in_doubt());
    assert!(rt; clients.read(rt) == Err(NodeFault::Halted));
}

// What a read sums up on its one conit.
fn sum_of(rt: &impl Abort, answer: &Result<Reply, NodeFault>) -> i64 {
    match answer {
        Ok(Reply::Value { sums, .. }) => sums.items().first().copied().expect(rt, "a sum"),
        _ => panic!(rt; "the read is answered"),
    }
}

fn two_clients<'d, R: Wait + Abort>(
    rt: &R,
    alloc: Global,
    desk: &'d Desk,
    config: &Config,
    clerk: Clerk,
    kept: bool,
) -> TwoClients<'d, MemJournal>
    requires setup { desk.now.setup ≡ config.now }
    requires conits { config.now.conits ≡ 1 }
    requires clerk { clerk.table ≡ desk.now.table }
    requires drawn { clerk.pairs ≡ [] }
{
    let fails = [JournalFail { call: 1, kept }];
    let journal = MemJournal::new(alloc, &fails).expect(rt, "a journal");
    TwoClients::new(rt, alloc, desk, config, clerk, journal)
}

#[test]
fn a_kept_piece_is_found_again(rt: HostRuntime) {
    let Opened {
        desk,
        config,
        first,
        ..
    } = open_two(&rt, rt.alloc());
    let mut clients = two_clients(&rt, rt.alloc(), &desk, &config, first, true);
    halt(&rt, &mut clients);
    assert!(&rt; clients.restart(&rt).is_ok());
    assert!(&rt; clients.resume(&rt) == Some(Reply::Done { index: 1, stamp: 2 }));
    assert!(&rt; sum_of(&rt, &clients.read(&rt)) == 7);
}

#[test]
fn a_lost_piece_is_dropped(rt: HostRuntime) {
    let Opened {
        desk,
        config,
        first,
        ..
    } = open_two(&rt, rt.alloc());
    let mut clients = two_clients(&rt, rt.alloc(), &desk, &config, first, false);
    halt(&rt, &mut clients);
    assert!(&rt; clients.restart(&rt).is_ok());
    assert!(&rt; clients.resume(&rt) == None);
    assert!(&rt; sum_of(&rt, &clients.read(&rt)) == 3);
    assert!(&rt; clients.write(&rt, 1) == done(1, 2));
}

#[test]
fn a_journal_that_loses_its_first_piece_is_foreign(rt: HostRuntime) {
    let Opened {
        desk,
        config,
        first,
        ..
    } = open_two(&rt, rt.alloc());
    let journal = Headless::new(rt.alloc());
    let mut clients = TwoClients::new(&rt, rt.alloc(), &desk, &config, first, journal);
    assert!(&rt; clients.write(&rt, 3) == done(0, 1));
    assert!(&rt; clients.restart(&rt) == Err(RestartFault::Foreign { place: 0 }));
    assert!(&rt; clients.read(&rt) == Err(NodeFault::Halted));
}

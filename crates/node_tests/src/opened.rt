//! Desks for two replicas on one conit, their nodes, and requests of clients.
ghost use Rattle.std.specs.Prelude.{◌≡◌, ◌<◌, ◌≤◌, ◌∷◌, ◌++◌, [], IsTrue, false, unsigned_abs};
ghost use Rattle.tact_base.specs.Setup.{Setup};
ghost use Rattle.tact_base.specs.declared.limits.TheConstants.{CLIENTS, WEIGHT_MAX};
ghost use Rattle.run_model.specs.Ranges.{IsRequestInRange};
ghost use Rattle.run_history.specs.Seats.{fresh_clerk};
ghost use Rattle.locked_replica.specs.Locks.{IsWriteOrRead};
ghost use Rattle.replica_lock.specs.Rosters.{IsRosterOf};
ghost use Rattle.replica_lock.specs.Sessions.{IsAtNode, IsSessionOf};

use replica_lock::{Node, NodeFault, Roster, Session};
use run_history::{Clerk, Desk};
use run_model::{Config, Reply, Request};
use std::alloc::Global;
use std::process::Abort;
use std::sync::Wait;
use tact_base::{Needs, Op, Weight, Weights};
use tact_io::{FreeGate, Journal};

/// A desk for two replicas, its setup, and the clerks of both.
#[derive(Drop)]
pub struct Opened {
    pub desk: Desk,
    pub config: Config,
    pub first: Clerk,
    pub second: Clerk,
}

/// Opens a desk for two replicas, of which each lends all its 10 to the other.
pub fn open_two(rt: &impl Abort, alloc: Global) -> Opened
    ensures setup { result.desk.setup ≡ result.config }
    ensures first { result.first ≡ fresh_clerk result.desk.table 0 }
    ensures second { result.second ≡ fresh_clerk result.desk.table 1 }
    ensures replicas { result.config.replicas ≡ 2 }
    ensures conits { result.config.conits ≡ 1 }
{
    let config = Config::new(alloc, 2, 1, &[10, 10], &[0, 10, 10, 0]).expect(rt, "a setup");
    let (desk, mut clerks) = Desk::new(alloc, &config).expect(rt, "a desk");
    let second = clerks.pop().expect(rt, "a second clerk");
    let first = clerks.pop().expect(rt, "a first clerk");
    Opened {
        desk,
        config,
        first,
        second,
    }
}

/// The node of a clerk that drew nothing, with a journal without pieces, and its roster.
pub fn node_of<'d, J: Journal + Drop>(
    rt: &impl Abort,
    alloc: Global,
    desk: &'d Desk,
    config: &Config,
    clerk: Clerk,
    journal: J,
) -> (Node<'d, J, FreeGate>, Roster)
    requires setup { desk.now.setup ≡ config.now }
    requires clerk { clerk.table ≡ desk.now.table }
    requires drawn { clerk.pairs ≡ [] }
    requires empty { IsTrue J.tells → J.pieces journal ≡ [] }
    ensures node { (result.0.desk ≡ desk.now) × (result.0.replica ≡ clerk.replica) }
    ensures roster { IsRosterOf result.0 result.1 }
    ensures clients { result.1.clients ≡ [] }
{
    match Node::new(alloc, desk, config, clerk, journal, FreeGate::new()) {
        Ok(made) => made,
        Err(_) => panic!(rt; "no memory"),
    }
}

/// A session of a client that has none.
pub fn session<J: Journal>(
    rt: &impl Abort,
    node: &Node<'_, J, FreeGate>,
    roster: &mut Roster,
    client: u32,
) -> Session
    requires roster { IsRosterOf node.now roster.old }
    requires client { client < CLIENTS }
    ensures session { IsSessionOf node.now result }
    ensures client { result.client ≡ client }
    ensures roster { IsRosterOf node.now roster.new }
    ensures clients { roster.new.clients ≡ roster.old.clients ++ client ∷ [] }
{
    node.session(roster, client).expect(rt, "a session")
}

/// The session isn't in doubt.
pub fn is_certain(rt: &impl Abort, session: &Session)
    ensures { session.now.doubt ≡ false }
{
    assert!(rt; !session.in_doubt(), "it is in doubt");
}

/// What a session that isn't in doubt is answered.
pub fn ask<J: Journal, R: Wait + Abort>(
    rt: &R,
    node: &Node<'_, J, FreeGate>,
    session: &mut Session,
    request: Request,
) -> Result<Reply, NodeFault>
    requires at { IsAtNode node.now session.old }
    requires in_range { IsRequestInRange node.now.desk.setup request }
    requires plain { IsWriteOrRead request }
    ensures at { IsAtNode node.now session.new }
    ensures client { session.new.client ≡ session.old.client }
{
    is_certain(rt, session);
    node.call(rt, session, 3, request)
}

/// Closes a desk for two replicas with their clerks, and gives how many entries its history has.
pub fn closed(rt: &impl Abort, alloc: Global, desk: Desk, first: Clerk, second: Clerk) -> u64
    requires replicas { desk.setup.replicas ≡ 2 }
    requires first { (first.table ≡ desk.table) × (first.replica ≡ 0) }
    requires second { (second.table ≡ desk.table) × (second.replica ≡ 1) }
{
    let Ok(clerks) = vec![in alloc; first, second] else {
        panic!(rt; "no memory")
    };
    desk.close(clerks).entries()
}

/// What each write here does: it adds 1 to key 7.
pub const ADDS: Op = Op::Add { key: 7, delta: 1 };

/// A write without weights.
pub fn plain_write(rt: &impl Abort) -> Request
    ensures in_range { (setup : Setup) → IsRequestInRange setup result }
    ensures plain { IsWriteOrRead result }
{
    Request::Write {
        weights: Weights::new(&[]).expect(rt, "no weights"),
        op: ADDS,
    }
}

/// A write that weighs so much on conit 0.
pub fn weighing(rt: &impl Abort, nweight: i64) -> Request
    requires few { unsigned_abs nweight ≤ WEIGHT_MAX }
    ensures in_range { (setup : Setup) → 0 < setup.conits → IsRequestInRange setup result }
    ensures plain { IsWriteOrRead result }
{
    let weight = Weight {
        conit: 0,
        nweight,
        oweight: 1,
    };
    Request::Write {
        weights: Weights::new(&[weight]).expect(rt, "a weight"),
        op: ADDS,
    }
}

/// A read of key 7 without needs.
pub fn plain_read(rt: &impl Abort) -> Request
    ensures in_range { (setup : Setup) → IsRequestInRange setup result }
    ensures plain { IsWriteOrRead result }
{
    Request::Read {
        key: 7,
        needs: Needs::new(&[]).expect(rt, "no needs"),
    }
}

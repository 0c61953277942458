//! Desks for two replicas on one conit, their nodes, and requests of clients.
ghost use Rattle.std.specs.Prelude.{◌≡◌, []};
ghost use Rattle.tact_base.specs.Setup.{Setup};
ghost use Rattle.run_model.specs.Ranges.{IsRequestInRange};
ghost use Rattle.run_history.specs.Seats.{fresh_clerk};
ghost use Rattle.locked_replica.specs.Locks.{IsWriteOrRead};
ghost use Rattle.replica_lock.specs.Rosters.{IsRosterOf};

use replica_lock::{Node, Roster};
use run_history::{Clerk, Desk};
use run_model::{Config, Request};
use std::alloc::Global;
use std::process::Abort;
use tact_base::{Needs, Op, Weights};
use tact_io::{FreeGate, SureJournal};

/// A desk for two replicas, its setup, and the clerks of both.
#[derive(Drop)]
pub struct Opened {
    pub desk: Desk,
    pub config: Config,
    pub first: Clerk,
    pub second: Clerk,
}

/// Opens a desk.
pub fn open_two(rt: &impl Abort, alloc: Global) -> Opened
    ensures setup { result.desk.setup ≡ result.config }
    ensures first { result.first ≡ fresh_clerk result.desk.table 0 }
    ensures second { result.second ≡ fresh_clerk result.desk.table 1 }
    ensures replicas { result.config.replicas ≡ 2 }
{
    let config = Config::new(alloc, 2, 1, &[10, 10], &[0, 10, 10, 0]).expect(rt, "a setup");
    let (desk, mut clerks) = Desk::new(alloc, &config).expect(rt, "a desk");
    let second = clerks.pop().expect(rt, "a second clerk");
    let first = clerks.pop().expect(rt, "a first clerk");
    Opened {
        desk,
        config,
        first,
        second,
    }
}

/// A desk for four replicas, its setup, and the clerk of each.
#[derive(Drop)]
pub struct Four {
    pub desk: Desk,
    pub config: Config,
    pub first: Clerk,
    pub second: Clerk,
    pub third: Clerk,
    pub fourth: Clerk,
}

/// Opens a desk for four replicas, of which each lends 4 of its 12 to each other.
pub fn open_four(rt: &impl Abort, alloc: Global) -> Four
    ensures setup { result.desk.setup ≡ result.config }
    ensures counts { (result.config.replicas ≡ 4) × (result.config.conits ≡ 1) }
    ensures first { result.first ≡ fresh_clerk result.desk.table 0 }
    ensures second { result.second ≡ fresh_clerk result.desk.table 1 }
    ensures third { result.third ≡ fresh_clerk result.desk.table 2 }
    ensures fourth { result.fourth ≡ fresh_clerk result.desk.table 3 }
{
    let loans = [0, 4, 4, 4, 4, 0, 4, 4, 4, 4, 0, 4, 4, 4, 4, 0];
    let config = Config::new(alloc, 4, 1, &[12, 12, 12, 12], &loans).expect(rt, "a setup");
    let (desk, mut clerks) = Desk::new(alloc, &config).expect(rt, "a desk");
    let fourth = clerks.pop().expect(rt, "a fourth clerk");
    let third = clerks.pop().expect(rt, "a third clerk");
    let second = clerks.pop().expect(rt, "a second clerk");
    let first = clerks.pop().expect(rt, "a first clerk");
    Four {
        desk,
        config,
        first,
        second,
        third,
        fourth,
    }
}

/// The node of a clerk that drew nothing, and its roster.
pub fn node_of<'d>(
    rt: &impl Abort,
    alloc: Global,
    desk: &'d Desk,
    config: &Config,
    clerk: Clerk,
) -> (Node<'d, SureJournal, FreeGate>, Roster)
    requires setup { desk.now.setup ≡ config.now }
    requires clerk { clerk.table ≡ desk.now.table }
    requires drawn { clerk.pairs ≡ [] }
    ensures node { (result.0.desk ≡ desk.now) × (result.0.replica ≡ clerk.replica) }
    ensures roster { IsRosterOf result.0 result.1 }
{
    match Node::new(
        alloc,
        desk,
        config,
        clerk,
        SureJournal::new(alloc),
        FreeGate::new(),
    ) {
        Ok(made) => made,
        Err(_) => panic!(rt; "no memory"),
    }
}

/// Closes a desk for two replicas with their clerks, and gives how many entries its history has.
pub fn closed(rt: &impl Abort, alloc: Global, desk: Desk, first: Clerk, second: Clerk) -> u64
    requires replicas { desk.setup.replicas ≡ 2 }
    requires first { (first.table ≡ desk.table) × (first.replica ≡ 0) }
    requires second { (second.table ≡ desk.table) × (second.replica ≡ 1) }
{
    let Ok(clerks) = vec![in alloc; first, second] else {
        panic!(rt; "no memory")
    };
    desk.close(clerks).entries()
}

/// A write without weights, which adds 1 to key 7.
pub fn plain_write(rt: &impl Abort) -> Request
    ensures in_range { (setup : Setup) → IsRequestInRange setup result }
    ensures plain { IsWriteOrRead result }
{
    Request::Write {
        weights: Weights::new(&[]).expect(rt, "no weights"),
        op: Op::Add { key: 7, delta: 1 },
    }
}

/// A read of key 7 without needs.
pub fn plain_read(rt: &impl Abort) -> Request
    ensures in_range { (setup : Setup) → IsRequestInRange setup result }
    ensures plain { IsWriteOrRead result }
{
    Request::Read {
        key: 7,
        needs: Needs::new(&[]).expect(rt, "no needs"),
    }
}

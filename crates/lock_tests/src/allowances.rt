//! An allowance that is reserved, split, joined, spent and released, and two on different conits.
ghost use Rattle.std.specs.Prelude.{◌≡◌, ◌<◌, ◌≤◌};
ghost use Rattle.tact_base.specs.declared.limits.TheConstants.{AMOUNT_MAX};
ghost use Rattle.run_history.specs.Seats.{fresh_clerk};
ghost use Rattle.replica_lock.specs.Allowances.{IsAllowanceOf};
ghost use Rattle.replica_lock.specs.Sessions.{IsSessionOf};

use crate::opened::node_of;
use crate::writers::session;
use replica_lock::{Accepted, Allowance, Node, Reserving, Session};
use run_history::{Clerk, Desk};
use run_model::Config;
use std::alloc::Global;
use std::process::Abort;
use std::sync::Wait;
use tact_base::{Op, Weight};
use tact_io::{FreeGate, SureJournal};

// A desk for two replicas on two conits, its setup, and the clerk of the first.
#[derive(Drop)]
struct Wide {
    desk: Desk,
    config: Config,
    clerk: Clerk,
}

fn open_wide(rt: &impl Abort, alloc: Global) -> Wide
    ensures setup { result.desk.setup ≡ result.config }
    ensures conits { result.config.conits ≡ 2 }
    ensures clerk { result.clerk ≡ fresh_clerk result.desk.table 0 }
{
    let loans = [0, 10, 0, 10, 10, 0, 10, 0];
    let config = Config::new(alloc, 2, 2, &[10, 10, 10, 10], &loans).expect(rt, "a setup");
    let (desk, mut clerks) = Desk::new(alloc, &config).expect(rt, "a desk");
    let _ = clerks.pop().expect(rt, "a second clerk");
    let clerk = clerks.pop().expect(rt, "a first clerk");
    Wide {
        desk,
        config,
        clerk,
    }
}

// Reserves an amount on conit 0, which is granted.
fn reserve<R: Wait + Abort>(
    rt: &R,
    node: &Node<'_, SureJournal, FreeGate>,
    session: &mut Session,
    amount: u64,
) -> Allowance
    requires session { IsSessionOf node.now session.old }
    requires conit { 0 < node.now.desk.setup.conits }
    requires amount { amount ≤ AMOUNT_MAX }
    ensures session { IsSessionOf node.now session.new }
    ensures allowance { IsAllowanceOf node.now result }
    ensures conit { result.conit ≡ 0 }
    ensures amount { result.amount ≡ amount }
{
    match node.reserve(rt, session, 3, 0, amount) {
        Ok(Reserving::Granted(allowance)) => allowance,
        _ => panic!(rt; "so much is granted"),
    }
}

// Splits 2 off, and joins them again.
fn split_and_join<R: Wait + Abort>(
    rt: &R,
    node: &Node<'_, SureJournal, FreeGate>,
    allowance: &mut Allowance,
)
    requires allowance { IsAllowanceOf node.now allowance.old }
    requires amount { 2 ≤ allowance.old.amount }
    ensures kept { allowance.new ≡ allowance.old }
{
    let part = node.split_off(allowance, 2);
    assert_eq!(rt; part.amount(), 2);
    if node.join(allowance, part).is_err() {
        panic!(rt; "both are on one conit");
    }
}

// Spends 4 of an allowance on conit 0, and gives back the rest.
fn spend_and_release<R: Wait + Abort>(
    rt: &R,
    node: &Node<'_, SureJournal, FreeGate>,
    session: &mut Session,
    allowance: &mut Allowance,
) -> (Accepted, u64, u64)
    requires session { IsSessionOf node.now session.old }
    requires setup { 0 < node.now.desk.setup.conits }
    requires allowance { IsAllowanceOf node.now allowance.old }
    requires conit { allowance.old.conit ≡ 0 }
    requires amount { 4 ≤ allowance.old.amount }
    ensures session { IsSessionOf node.now session.new }
    ensures allowance { IsAllowanceOf node.now allowance.new }
    ensures on { allowance.new.conit ≡ 0 }
{
    let weight = Weight {
        conit: 0,
        nweight: 4,
        oweight: 1,
    };
    let op = Op::Add { key: 7, delta: 1 };
    let Ok(accepted) = node.write_held(rt, session, allowance, 4, weight, op) else {
        panic!(rt; "a held write never waits")
    };
    let left = allowance.amount();
    let Ok(released) = node.release(rt, session, allowance, 5) else {
        panic!(rt; "memory is ample")
    };
    (accepted, left, released)
}

// An allowance on conit 0 takes none that is on conit 1.
fn join_across<R: Wait + Abort>(
    rt: &R,
    node: &Node<'_, SureJournal, FreeGate>,
    session: &mut Session,
    allowance: &mut Allowance,
)
    requires session { IsSessionOf node.now session.old }
    requires setup { 1 < node.now.desk.setup.conits }
    requires allowance { IsAllowanceOf node.now allowance.old }
    requires conit { allowance.old.conit ≡ 0 }
{
    let other = node.empty(session, 1);
    let Err(back) = node.join(allowance, other) else {
        panic!(rt; "they are on different conits")
    };
    assert_eq!(rt; (back.conit(), back.amount()), (1, 0));
}

// All that is done with an allowance of 6: three calls, each with an entry.
fn reserve_and_spend<R: Wait + Abort>(
    rt: &R,
    node: &Node<'_, SureJournal, FreeGate>,
    session: &mut Session,
)
    requires session { IsSessionOf node.now session.old }
    requires setup { 1 < node.now.desk.setup.conits }
{
    let mut allowance = reserve(rt, node, session, 6);
    split_and_join(rt, node, &mut allowance);
    let (accepted, left, released) = spend_and_release(rt, node, session, &mut allowance);
    assert_eq!(rt; (accepted.index, accepted.stamp), (0, 1));
    assert_eq!(rt; (left, released, allowance.amount()), (2, 2, 0));
    join_across(rt, node, session, &mut allowance);
    assert_eq!(rt; (session.calls(), session.made()), (3, 3));
}

#[test]
fn an_allowance_is_spent(rt: HostRuntime) {
    let Wide {
        desk,
        config,
        clerk,
    } = open_wide(&rt, rt.alloc());
    let (node, mut roster) = node_of(&rt, rt.alloc(), &desk, &config, clerk);
    let mut one = session(&rt, &node, &mut roster, 0);
    reserve_and_spend(&rt, &node, &mut one);
    let ended = node.end(&rt, roster);
    assert_eq!(rt; ended.stored.pairs().len(), 3);
}

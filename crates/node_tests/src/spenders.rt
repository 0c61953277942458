//! Two threads spend at one node what each of them reserved there.
ghost use Rattle.std.specs.Prelude.{◌≡◌, ◌<◌};
ghost use Rattle.tact_base.specs.declared.limits.TheConstants.{CLIENTS};
ghost use Rattle.replica_lock.specs.Allowances.{IsAllowanceOf};
ghost use Rattle.replica_lock.specs.Rosters.{IsRosterOf};
ghost use Rattle.replica_lock.specs.Sessions.{IsSessionOf};

use crate::opened::{ADDS, Opened, node_of, open_two, session, weighing};
use replica_lock::{Allowance, Node, Reserving, Roster, Session, SessionFault};
use run_model::Reply;
use std::process::Abort;
use std::sync::Wait;
use std::thread;
use tact_base::Weight;
use tact_io::{FreeGate, SureJournal};

const FIVE: Weight = Weight {
    conit: 0,
    nweight: 5,
    oweight: 1,
};

// A client of a node that has a conit.
#[derive(Drop)]
struct Spender<'n, 'd> {
    node: &'n Node<'d, SureJournal, FreeGate>,
    session: Session,
    ghost of: { IsSessionOf node.now session },
    ghost conits: { 0 < node.now.desk.setup.conits },
}

impl<'n, 'd> Spender<'n, 'd> {
    // A client that has no session yet.
    fn new(
        rt: &impl Abort,
        node: &'n Node<'d, SureJournal, FreeGate>,
        roster: &mut Roster,
        client: u32,
    ) -> Spender<'n, 'd>
        requires roster { IsRosterOf node.now roster.old }
        requires client { client < CLIENTS }
        requires conits { 0 < node.now.desk.setup.conits }
        ensures { IsRosterOf node.now roster.new }
    {
        let session = session(rt, node, roster, client);
        Spender { node, session }
    }

    // Reserves 5 on conit 0, which is granted.
    fn reserve<R: Wait + Abort>(&mut self, rt: &R) -> Allowance
        ensures node { self.new.node.now ≡ self.old.node.now }
        ensures allowance { IsAllowanceOf self.old.node.now result }
        ensures conit { result.conit ≡ 0 }
        ensures amount { result.amount ≡ 5 }
    {
        match self.node.reserve(rt, &mut self.session, 3, 0, 5) {
            Ok(Reserving::Granted(allowance)) => allowance,
            _ => panic!(rt; "so much is granted"),
        }
    }

    // Reserves 5, spends it by one held write, and gives the index of the write.
    fn spend<R: Wait + Abort>(&mut self, rt: &R) -> u64 {
        let mut allowance = self.reserve(rt);
        let written = self
            .node
            .write_held(rt, &mut self.session, &mut allowance, 3, FIVE, ADDS);
        let Ok(accepted) = written else {
            panic!(rt; "a held write never waits")
        };
        assert_eq!(rt; allowance.amount(), 0);
        accepted.index
    }

    // What a write that weighs 1 is answered.
    fn write<R: Wait + Abort>(mut self, rt: &R) -> Reply {
        match self.node.call(rt, &mut self.session, 3, weighing(rt, 1)) {
            Ok(reply) => reply,
            Err(_) => panic!(rt; "a write is answered"),
        }
    }
}

// A client that has spent, and the index of its write.
fn spent<'n, 'd, R: Wait + Abort>(rt: &R, mut spender: Spender<'n, 'd>) -> (u64, Spender<'n, 'd>) {
    let index = spender.spend(rt);
    (index, spender)
}

// Client 0 has a session.
fn is_taken(rt: &impl Abort, node: &Node<'_, SureJournal, FreeGate>, roster: &mut Roster)
    requires { IsRosterOf node.now roster.old }
    ensures { IsRosterOf node.now roster.new }
{
    let Err(fault) = node.session(roster, 0) else {
        panic!(rt; "two sessions of a client")
    };
    assert_eq!(rt; fault, SessionFault::Taken { client: 0 });
}

// The last reply waits for the share of replica 1, which misses all 10 that were spent.
fn waits(rt: &impl Abort, reply: Reply) {
    let full = Reply::WaitShare {
        conit: 0,
        peer: 1,
        missing: 10,
        reserved: 0,
        weight: 1,
        share: 10,
    };
    assert_eq!(rt; reply, full);
}

#[test]
fn two_threads_spend_what_they_reserved(rt: HostRuntime) {
    let Opened {
        desk,
        config,
        first,
        second: _,
    } = open_two(&rt, rt.alloc());
    let (node, mut roster) = node_of(
        &rt,
        rt.alloc(),
        &desk,
        &config,
        first,
        SureJournal::new(rt.alloc()),
    );
    let one = Spender::new(&rt, &node, &mut roster, 0);
    let other = Spender::new(&rt, &node, &mut roster, 1);
    let ((first, one), (second, _)) = thread::join(&rt, || spent(&rt, one), || spent(&rt, other));
    waits(&rt, one.write(&rt));
    is_taken(&rt, &node, &mut roster);
    let ended = node.end(&rt, roster);
    assert!(rt;
        matches!((first, second), (0, 1) | (1, 0)),
        "{first}, {second}"
    );
    assert_eq!(rt; ended.stored.pairs().len(), 5);
}

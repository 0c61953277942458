//! A client of a node whose journal fails once, at any call of it, and keeps the piece or loses it: its calls go on.
ghost use Rattle.std.specs.Prelude.{◌≡◌};
ghost use Rattle.replica_lock.specs.Allowances.{IsAllowanceOf};
ghost use Rattle.replica_lock.specs.Sessions.{IsAtNode};

use crate::opened::{ADDS, Opened, is_certain, node_of, open_two, session, weighing};
use replica_lock::{Allowance, Node, Reserving, Session};
use run_model::Reply;
use std::alloc::Global;
use std::process::Abort;
use std::sync::Wait;
use steady_node::{call, release, reserve, write_held};
use tact_base::Weight;
use tact_io::{FreeGate, JournalFail, MemJournal, StepClock};

const TWO: Weight = Weight {
    conit: 0,
    nweight: 2,
    oweight: 1,
};

// A client of a node that has a conit.
#[derive(Drop)]
struct Client<'n, 'd> {
    node: &'n Node<'d, MemJournal, FreeGate>,
    session: Session,
    clock: StepClock,
    ghost at: { IsAtNode node.now session },
    ghost conits: { node.now.desk.setup.conits ≡ 1 },
}

impl<'n, 'd> Client<'n, 'd> {
    // Reserves 5 on the conit, which is granted.
    fn reserve<R: Wait + Abort>(&mut self, rt: &R) -> Allowance
        ensures node { self.new.node.now ≡ self.old.node.now }
        ensures of { IsAllowanceOf self.old.node.now result }
        ensures conit { result.conit ≡ 0 }
        ensures amount { result.amount ≡ 5 }
    {
        is_certain(rt, &self.session);
        match reserve(rt, &self.clock, self.node, &mut self.session, 0, 5) {
            Ok(Reserving::Granted(allowance)) => allowance,
            _ => panic!(rt; "so much is granted"),
        }
    }

    // Spends 2 of it, and gives the rest back: the index of the write, and how much came back.
    fn spend<R: Wait + Abort>(&mut self, rt: &R) -> (u64, u64) {
        let mut allowance = self.reserve(rt);
        is_certain(rt, &self.session);
        let written = write_held(
            rt,
            &self.clock,
            self.node,
            &mut self.session,
            &mut allowance,
            TWO,
            ADDS,
        );
        let Ok(accepted) = written else {
            panic!(rt; "a held write is accepted")
        };
        is_certain(rt, &self.session);
        let back = release(
            rt,
            &self.clock,
            self.node,
            &mut self.session,
            &mut allowance,
        );
        (accepted.index, back.ok().expect(rt, "it is released"))
    }

    // What a write that weighs 3 is answered.
    fn write<R: Wait + Abort>(&mut self, rt: &R) -> Reply {
        is_certain(rt, &self.session);
        let asked = weighing(rt, 3);
        match call(rt, &self.clock, self.node, &mut self.session, &asked) {
            Ok(reply) => reply,
            Err(_) => panic!(rt; "a write is answered"),
        }
    }
}

// What a client of a node is answered whose journal fails at a call.
fn answers<R: Wait + Abort>(rt: &R, alloc: Global, fail: JournalFail) -> ((u64, u64), Reply) {
    let Opened {
        desk,
        config,
        first,
        ..
    } = open_two(rt, alloc);
    let journal = MemJournal::new(alloc, &[fail]).expect(rt, "a journal");
    let (node, mut roster) = node_of(rt, alloc, &desk, &config, first, journal);
    let session = session(rt, &node, &mut roster, 0);
    let mut client = Client {
        node: &node,
        session,
        clock: StepClock::new(3, 0),
    };
    let spent = client.spend(rt);
    let reply = client.write(rt);
    (spent, reply)
}

#[test]
fn calls_go_on_where_the_journal_fails(rt: HostRuntime) {
    for call in 0..6 {
        for kept in [false, true] {
            let (spent, reply) = answers(&rt, rt.alloc(), JournalFail { call, kept });
            assert_eq!(rt; spent, (0, 3), "{call}");
            assert_eq!(rt; reply, Reply::Done { index: 1, stamp: 2 }, "{call}");
        }
    }
}

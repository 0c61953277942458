//! A client of a node, with a session of its own.
ghost use Rattle.std.specs.Prelude.{◌≡◌, ◌≢◌, ◌<◌, ◌≤◌};
ghost use Rattle.tact_base.specs.declared.limits.TheConstants.{CLIENTS, MOMENT_MAX};
ghost use Rattle.run_model.specs.Ranges.{IsRequestInRange};
ghost use Rattle.replica_lock.specs.Allowances.{IsAllowanceOf};
ghost use Rattle.locked_replica.specs.Locks.{IsWriteOrRead};
ghost use Rattle.replica_lock.specs.Rosters.{IsRosterOf};
ghost use Rattle.replica_lock.specs.Sessions.{IsSessionOf};
ghost use Rattle.postbox.specs.Posts.{IsFor};

use crate::opened::{plain_read, plain_write};
use replica_lock::{Allowance, Node, Parcel, Reserving, Roster, Session};
use run_model::{Message, Reply, Request};
use std::process::Abort;
use std::sync::Wait;
use tact_base::{Op, Weight};
use tact_io::{FreeGate, SureJournal};

/// The weight of a held write.
pub const HELD: Weight = Weight {
    conit: 0,
    nweight: 1,
    oweight: 1,
};

/// A client of a node. Each of its calls panics where it is refused.
#[derive(Drop)]
pub struct Client<'n, 'd> {
    pub node: &'n Node<'d, SureJournal, FreeGate>,
    pub session: Session,
    ghost of: { IsSessionOf node.now session },
}

impl<'n, 'd> Client<'n, 'd> {
    /// A client that has no session yet.
    pub fn new(
        rt: &impl Abort,
        node: &'n Node<'d, SureJournal, FreeGate>,
        roster: &mut Roster,
        client: u32,
    ) -> Client<'n, 'd>
        requires roster { IsRosterOf node.now roster.old }
        requires client { client < CLIENTS }
        ensures node { result.node.now ≡ node.now }
        ensures roster { IsRosterOf node.now roster.new }
    {
        let session = node.session(roster, client).expect(rt, "a session");
        Client { node, session }
    }

    /// Its number among the clients of its replica.
    pub fn number(&self) -> u32 {
        self.session.client()
    }

    /// Its replica.
    pub fn replica(&self) -> u32
        ensures { result ≡ self.now.node.now.replica }
    {
        self.session.replica()
    }

    /// Asks what writes or reads.
    pub fn ask<R: Wait + Abort>(&mut self, rt: &R, moment: u64, request: Request)
        requires moment { moment ≤ MOMENT_MAX }
        requires in_range { IsRequestInRange self.old.node.now.desk.setup request }
        requires plain { IsWriteOrRead request }
        ensures { self.new.node.now ≡ self.old.node.now }
    {
        match self.node.call(rt, &mut self.session, moment, request) {
            Ok(_) => {}
            Err(_) => panic!(rt; "a call is answered"),
        }
    }

    /// Reserves 2 on conit 0. Where that is granted, it spends 1 by a held write and gives back the rest.
    pub fn hold<R: Wait + Abort>(&mut self, rt: &R)
        requires { 0 < self.old.node.now.desk.setup.conits }
        ensures { self.new.node.now ≡ self.old.node.now }
    {
        match self.node.reserve(rt, &mut self.session, 0, 0, 2) {
            Ok(Reserving::Granted(allowance)) => self.spend(rt, allowance),
            Ok(Reserving::Waiting(_)) => {}
            Err(_) => panic!(rt; "a reserve is answered"),
        }
    }

    // Adds 1 to key 8 with 1 of an allowance on conit 0, and gives back the rest.
    fn spend<R: Wait + Abort>(&mut self, rt: &R, mut allowance: Allowance)
        requires conits { 0 < self.old.node.now.desk.setup.conits }
        requires allowance { IsAllowanceOf self.old.node.now allowance }
        requires conit { allowance.conit ≡ 0 }
        requires amount { 1 ≤ allowance.amount }
        ensures { self.new.node.now ≡ self.old.node.now }
    {
        let op = Op::Add { key: 8, delta: 1 };
        let written = self
            .node
            .write_held(rt, &mut self.session, &mut allowance, 0, HELD, op);
        assert!(rt; written.is_ok(), "a held write is done at once");
        let released = self.node.release(rt, &mut self.session, &mut allowance, 0);
        assert!(rt; released.is_ok(), "what is left is given back");
    }

    /// Adds 1 to key 7, and gives the index of the write.
    pub fn write<R: Wait + Abort>(&mut self, rt: &R) -> u64
        ensures { self.new.node.now ≡ self.old.node.now }
    {
        match self.node.call(rt, &mut self.session, 3, plain_write(rt)) {
            Ok(Reply::Done { index, .. }) => index,
            _ => panic!(rt; "a write is done at once"),
        }
    }

    /// The value of key 7.
    pub fn read<R: Wait + Abort>(&mut self, rt: &R) -> i64
        ensures { self.new.node.now ≡ self.old.node.now }
    {
        match self.node.call(rt, &mut self.session, 3, plain_read(rt)) {
            Ok(Reply::Value { value, .. }) => value,
            _ => panic!(rt; "a read without needs is answered at once"),
        }
    }

    /// Sends to another replica.
    pub fn send<R: Wait + Abort>(&mut self, rt: &R, to: u32) -> Parcel
        requires to { to < self.old.node.now.desk.setup.replicas }
        requires other { to ≢ self.old.node.now.replica }
        ensures node { self.new.node.now ≡ self.old.node.now }
        ensures parcel { IsFor self.old.node.now.desk.table to result }
    {
        match self.node.send(rt, &mut self.session, 3, to) {
            Ok(parcel) => parcel,
            Err(_) => panic!(rt; "a message is sent"),
        }
    }

    /// Takes what was sent to its replica.
    pub fn take<R: Wait + Abort>(&mut self, rt: &R, parcel: Parcel)
        requires parcel { IsFor self.old.node.now.desk.table self.old.node.now.replica parcel }
        ensures node { self.new.node.now ≡ self.old.node.now }
    {
        match self.node.take(rt, &mut self.session, 3, parcel) {
            Ok(()) => {}
            Err(_) => panic!(rt; "a parcel is taken"),
        }
    }

    /// Whether its replica has something to tell another.
    pub fn due<R: Wait>(&self, rt: &R, to: u32) -> bool
        requires { to < self.now.node.now.desk.setup.replicas }
    {
        let turn = self.node.turn(rt);
        let due = turn.due(to);
        turn.end();
        due
    }

    /// Whether its replica is to answer a message.
    pub fn answer_due<R: Wait>(&self, rt: &R, message: &Message) -> bool {
        let turn = self.node.turn(rt);
        let due = turn.answer_due(message);
        turn.end();
        due
    }
}

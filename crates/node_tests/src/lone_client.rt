//! A node with one client.
ghost use Rattle.std.specs.Prelude.{◌≡◌, ◌≢◌, ◌<◌, ◌∷◌, []};
ghost use Rattle.replica_lock.specs.Rosters.{IsRosterOf};
ghost use Rattle.replica_lock.specs.Sessions.{IsAtNode};

use crate::opened::{ask, is_certain, node_of, plain_read, plain_write, session};
use replica_lock::{Ended, Node, NodeFault, Parcel, Roster, Session};
use run_history::{Clerk, Desk};
use run_model::{Config, Reply};
use std::alloc::Global;
use std::process::Abort;
use std::sync::Wait;
use tact_io::{FreeGate, SureJournal};

/// A node whose only client is client 0, with that client's session. It is to be finished.
pub struct LoneClient<'d> {
    pub node: Node<'d, SureJournal, FreeGate>,
    roster: Roster,
    session: Session,
    ghost roster_of: { IsRosterOf node roster },
    ghost session_at: { IsAtNode node session },
    ghost alone: { roster.clients ≡ session.client ∷ [] },
}

impl<'d> LoneClient<'d> {
    /// The client at the node of a clerk that drew nothing.
    pub fn new(
        rt: &impl Abort,
        alloc: Global,
        desk: &'d Desk,
        config: &Config,
        clerk: Clerk,
    ) -> LoneClient<'d>
        requires setup { desk.now.setup ≡ config.now }
        requires clerk { clerk.table ≡ desk.now.table }
        requires drawn { clerk.pairs ≡ [] }
        ensures node { (result.node.desk ≡ desk.now) × (result.node.replica ≡ clerk.replica) }
    {
        let (node, mut roster) = node_of(rt, alloc, desk, config, clerk, SureJournal::new(alloc));
        let session = session(rt, &node, &mut roster, 0);
        LoneClient {
            node,
            roster,
            session,
        }
    }

    /// Adds 1 to key 7, and gives the index of the write and its stamp.
    pub fn write<R: Wait + Abort>(&mut self, rt: &R) -> (u64, u64)
        ensures { self.new.node ≡ self.old.node }
    {
        match ask(rt, &self.node, &mut self.session, plain_write(rt)) {
            Ok(Reply::Done { index, stamp }) => (index, stamp),
            _ => panic!(rt; "a write is done at once"),
        }
    }

    /// What a read of key 7 is answered.
    pub fn read<R: Wait + Abort>(&mut self, rt: &R) -> Result<Reply, NodeFault>
        ensures { self.new.node ≡ self.old.node }
    {
        ask(rt, &self.node, &mut self.session, plain_read(rt))
    }

    /// The value of key 7.
    pub fn value<R: Wait + Abort>(&mut self, rt: &R) -> i64
        ensures { self.new.node ≡ self.old.node }
    {
        match self.read(rt) {
            Ok(Reply::Value { value, .. }) => value,
            _ => panic!(rt; "a read without needs is answered at once"),
        }
    }

    /// Sends to another replica.
    pub fn send<R: Wait + Abort>(&mut self, rt: &R, to: u32) -> Parcel
        requires to { to < self.old.node.desk.setup.replicas }
        requires other { to ≢ self.old.node.replica }
        ensures node { self.new.node ≡ self.old.node }
        ensures desk { result.desk ≡ self.old.node.desk.table }
        ensures addressed { result.message.to ≡ to }
    {
        is_certain(rt, &self.session);
        match self.node.send(rt, &mut self.session, 3, to) {
            Ok(parcel) => parcel,
            Err(_) => panic!(rt; "a message is sent"),
        }
    }

    /// Takes what was sent to its replica.
    pub fn take<R: Wait + Abort>(&mut self, rt: &R, parcel: Parcel)
        requires desk { parcel.desk ≡ self.old.node.desk.table }
        requires addressed { parcel.message.to ≡ self.old.node.replica }
        ensures node { self.new.node ≡ self.old.node }
    {
        is_certain(rt, &self.session);
        match self.node.take(rt, &mut self.session, 3, parcel) {
            Ok(()) => {}
            Err(_) => panic!(rt; "a parcel is taken"),
        }
    }

    /// How many entries a look with a note of the session sees.
    pub fn look(&mut self, desk: &Desk) -> u64
        requires desk { self.old.node.desk ≡ desk.now }
        ensures node { self.new.node ≡ self.old.node }
    {
        self.node.note(&mut self.session).look(desk)
    }

    /// Finishes the node with its session.
    pub fn finish<R: Wait + Abort>(self, rt: &R, alloc: Global) -> Ended<SureJournal>
        ensures desk { result.clerk.table ≡ self.entry.node.desk.table }
        ensures replica { result.clerk.replica ≡ self.entry.node.replica }
    {
        let LoneClient {
            node,
            roster,
            session,
        } = self;
        let mut sessions = Vec::new(alloc);
        let pushed = sessions.push(session);
        assert!(rt; pushed.is_ok(), "no memory");
        node.finish(rt, roster, sessions)
    }
}

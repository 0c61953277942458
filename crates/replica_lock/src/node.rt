//! Nodes, which their clients share.
ghost use Rattle.std.specs.Prelude.{◌≡◌, ◌≢◌, ◌<◌, ◌≤◌, ℕ, false, [], ◌∷◌, ◌++◌, All, AllPairs, Contains, IsTrue, IfOk, IfErr, OnErr, OnOk, length, map, slice_index};
ghost use Rattle.tact_base.specs.declared.limits.TheConstants.{CLIENTS, CONITS_MAX, MOMENT_MAX};
ghost use Rattle.run_model.specs.Histories.{IsPrefix};
ghost use Rattle.run_model.specs.Ranges.{IsRequestInRange};
ghost use Rattle.run_history.specs.Ticks.{entries_of};
ghost use Rattle.locked_replica.specs.Locks.{IsLocked, IsWriteOrRead};
ghost use Rattle.locked_replica.specs.Journals.{IsJournaled, LeavesJournal, LeavesPieces, OnlyWhere};
ghost use Rattle.replica_lock.specs.Rosters.{AreAllSessions, HasNumbers, IsRosterOf, IsSessionFaultOf, no_numbers};
ghost use Rattle.replica_lock.specs.Sessions.{HasCalled, HasHeard, HasPlacesOf, IsAtNode, IsFaultSeen, IsSessionOf, failed_by, numbers_of, own_calls, place_of};
ghost use Rattle.replica_lock.specs.Ledgers.{IsAccounted};

use crate::counts::Counts;
use crate::ended::{Ended, Stored};
use crate::label::Label;
use crate::locked_box::{LockedBox, stand};
use crate::roster::Roster;
use crate::session::Session;
use crate::turn::Turn;
use crate::{NewFault, SessionFault};
use locked_replica::{Locked, NodeFault};
use run_history::{Clerk, Desk, Note};
use run_model::{Config, Reply, Request};
use std::alloc::Global;
use std::marker::Model;
use std::sync::Wait;
use tact_base::{CLIENTS, Items};
use tact_io::{Gate, Journal};
use weight_ledger::{Cell, CellFault, Tally};

/// A replica that its clients share under a lock, with its part of the history. Its calls wait for the lock, and
/// promise what they say where they return.
#[derive(Drop)]
pub struct Node<'d, J: Journal, G: Gate> {
    pub(crate) desk: &'d Desk,
    pub(crate) cell: Cell<LockedBox<J>>,
    pub(crate) gate: G,
}

impl<'d, J: Journal, G: Gate> Model for Node<'d, J, G> {
    ghost use Rattle.replica_lock.specs.Nodes.{KeepsNode};
    ghost use Rattle.replica_lock.specs.Sessions.{NodeView};

    ghost Value = { NodeView };

    ghost view = { λ n. record { cell = n.cell.id; desk = n.desk.now; replica = n.cell.label.replica } };

    ghost invariant = { λ n. KeepsNode n.desk.now n.cell };
}

impl<'d, J: Journal, G: Gate> Node<'d, J, G> {
    /// The node of a clerk that drew nothing, and its roster. The setup is that of the clerk's desk, and the journal has
    /// no piece where it tells them. Each call of a client passes the gate once. Want of memory is the only error, and
    /// gives the clerk back, which may have seen more, and the journal, which has the same pieces and counted no fault.
    pub fn new(
        alloc: Global,
        desk: &'d Desk,
        config: &Config,
        mut clerk: Clerk,
        journal: J,
        gate: G,
    ) -> Result<(Node<'d, J, G>, Roster), NewFault<J>>
        requires setup { desk.now.setup ≡ config.now }
        requires clerk { clerk.table ≡ desk.now.table }
        requires drawn { clerk.pairs ≡ [] }
        requires empty { IsTrue J.tells → J.pieces journal ≡ [] }
        ensures node { IfOk result (λ made. (made.0.desk ≡ desk.now) × (made.0.replica ≡ clerk.replica)) }
        ensures roster { IfOk result (λ made. IsRosterOf made.0 made.1) }
        ensures clients { IfOk result (λ made. made.1.clients ≡ []) }
        ensures refused { IfErr result (λ fault. fault.clerk ≡ record clerk { seen = fault.clerk.seen }) }
        ensures pieces { IfErr result (λ fault. IsTrue J.tells → J.pieces fault.journal ≡ []) }
        ensures faults { IfErr result (λ fault. J.faults fault.journal ≡ J.faults journal) }
    {
        let seen = clerk.note(desk);
        clerk.learn(desk, seen);
        let note = clerk.note(desk);
        let replica = clerk.replica();
        let conits = config.conits();
        let locked = match Locked::new(alloc, config, clerk) {
            Ok(locked) => locked,
            Err(clerk) => return Err(NewFault { clerk, journal }),
        };
        let locked = LockedBox::new(alloc, conits, locked, journal)?;
        match Cell::new(alloc, locked, conits, 5 * CLIENTS) {
            Ok((cell, tally)) => {
                let roster = Roster {
                    replica,
                    conits,
                    clients: Items::new(alloc),
                    note,
                    tally,
                };
                Ok((Node { desk, cell, gate }, roster))
            }
            Err(CellFault { value }) => {
                let (locked, journal) = value.into_parts();
                Err(NewFault {
                    clerk: locked.into_clerk(),
                    journal,
                })
            }
        }
    }

    /// A session for a client that has none yet. `Taken` comes exactly where it has one. Both errors leave the roster
    /// as it was.
    pub fn session(&self, roster: &mut Roster, client: u32) -> Result<Session, SessionFault>
        requires roster { IsRosterOf self.now roster.old }
        requires client { client < CLIENTS }
        ensures of { IfOk result (IsSessionOf self.now) }
        ensures fresh { IfOk result (λ session. (session.client ≡ client) × (session.calls ≡ 0) × (session.made ≡ 0) × (session.faults ≡ 0) × (session.halts ≡ 0) × (own_calls session ≡ [])) }
        ensures clients { OnOk result (roster.new ≡ record roster.old { clients = roster.old.clients ++ client ∷ [] }) }
        ensures free { OnOk result (Contains roster.old.clients client → ⊥) }
        ensures fault { IfErr result (IsSessionFaultOf roster.old.clients client) }
        ensures err { OnErr result (roster.new ≡ roster.old) }
    {
        if roster.has(client) {
            return Err(SessionFault::Taken { client });
        }
        roster.clients.push(client)?;
        let conits = roster.conits;
        let places = places_of(conits, client);
        let tally = self.cell.split_own(&mut roster.tally, &places);
        Ok(Session {
            replica: roster.replica,
            conits: roster.conits,
            client,
            calls: 0,
            made: 0,
            faults: 0,
            halts: 0,
            doubt: false,
            note: roster.note.twin(self.desk),
            tally,
        })
    }

    /// Takes the lock, which it holds until the turn ends. What stands behind it is of the node's setup, replica and desk,
    /// and its journal tells its pieces where journals of its type do.
    pub fn turn<R: Wait>(&self, rt: &R) -> Turn<'_, 'd, J, G>
        ensures node { result.node ≡ self.now }
        ensures label { (result.state.core.setup ≡ self.now.desk.setup) × (result.state.core.replica ≡ self.now.replica) × (result.state.clerk.table ≡ self.now.desk.table) }
        ensures tells { result.journal.tells ≡ J.tells }
        ensures kept { IsLocked result.state }
        ensures journaled { IsJournaled result.state result.journal }
        ensures accounted { IsAccounted result.state result.journal result.book result.owes }
    {
        let (
            held,
            LockedBox {
                locked,
                journal,
                ledger,
            },
        ) = self.cell.lock(rt);
        stand(&locked);
        Turn {
            node: self,
            counts: Counts::new(held, ledger),
            locked,
            journal,
        }
    }

    /// A note of what the session has seen. It waits for nobody.
    pub fn note(&self, session: &mut Session) -> Note
        requires { IsAtNode self.now session.old }
        ensures session { session.new ≡ session.old }
        ensures desk { result.table ≡ self.now.desk.table }
        ensures seen { result.seen ≡ session.old.seen }
    {
        session.note.twin(self.desk)
    }

    /// The session sees what a note has seen. It makes no entry, takes no memory and has no refusal.
    pub fn hear<R: Wait>(&self, rt: &R, session: &mut Session, note: Note)
        requires session { IsSessionOf self.now session.old }
        requires note { note.table ≡ self.now.desk.table }
        ensures heard { HasHeard self.now.desk.setup session.old session.old session.new }
        ensures note { IsPrefix note.seen session.new.seen }
    {
        let mut turn = self.turn(rt);
        turn.hear(session, note);
        turn.end();
    }

    /// Ends the node where sessions of it may be gone. It gives the node's clerk, the entries that it stored, which are
    /// what the clerk drew, and the journal: where that tells its pieces, they are those of the stored entries, or of
    /// these and of one more whose append failed, which may come next after them. Where all sessions are at hand,
    /// `finish` says more.
    pub fn end<R: Wait>(self, rt: &R, roster: Roster) -> Ended<J>
        requires roster { IsRosterOf self roster }
        ensures clerk { (result.clerk.table ≡ self.entry.desk.table) × (result.clerk.replica ≡ self.entry.replica) }
        ensures stored { result.stored ≡ result.clerk.pairs }
        ensures journal { LeavesPieces J.tells (J.pieces result.journal) (J.faults result.journal) (entries_of result.stored) }
        ensures next { LeavesJournal self.entry.desk.setup result.clerk J.tells (J.pieces result.journal) (J.faults result.journal) (entries_of result.stored) }
    {
        let Node {
            desk: _,
            cell,
            gate: _,
        } = self;
        let Roster { tally, .. } = roster;
        ended(cell.end(rt, tally))
    }

    /// Ends the node, with the sessions of all clients that have one, in the order in which they came. It gives the
    /// node's clerk and the entries that it stored, which are what the clerk drew. Of each session's client these have
    /// as many calls as the session has seen, if it isn't in doubt, and no calls of others. The journal counted each fault
    /// that a session marked, and has the pieces that `end` tells of.
    pub fn finish<R: Wait>(self, rt: &R, roster: Roster, sessions: Vec<Session>) -> Ended<J>
        requires roster { IsRosterOf self roster }
        requires sessions { All (IsAtNode self) sessions.items }
        requires whole { map (λ session. session.client) sessions.items ≡ roster.clients }
        ensures clerk { (result.clerk.table ≡ self.entry.desk.table) × (result.clerk.replica ≡ self.entry.replica) }
        ensures stored { result.stored ≡ result.clerk.pairs }
        ensures sessions { AreAllSessions roster.clients sessions.items (entries_of result.stored) J.tells (J.faults result.journal) }
        ensures journal { LeavesPieces J.tells (J.pieces result.journal) (J.faults result.journal) (entries_of result.stored) }
        ensures next { LeavesJournal self.entry.desk.setup result.clerk J.tells (J.pieces result.journal) (J.faults result.journal) (entries_of result.stored) }
    {
        let Node {
            desk: _,
            cell,
            gate: _,
        } = self;
        let tally = gathered(&cell, roster, sessions);
        ended(cell.end(rt, tally))
    }

    /// Answers a call that writes or reads, in a turn of its own. No refusal makes an entry. After `JournalFault` the
    /// session is in doubt, after any other it is as it was, but for what it has seen and its marks.
    pub fn call<R: Wait>(
        &self,
        rt: &R,
        session: &mut Session,
        moment: u64,
        request: Request,
    ) -> Result<Reply, NodeFault>
        requires session { IsSessionOf self.now session.old }
        requires moment { moment ≤ MOMENT_MAX }
        requires in_range { IsRequestInRange self.now.desk.setup request }
        requires plain { IsWriteOrRead request }
        ensures called { IfOk result (HasCalled self.now.desk.setup session.old session.new moment request) }
        ensures refused { IfErr result (λ told. HasHeard self.now.desk.setup session.old (failed_by told session.old) session.new) }
        ensures fault { IfErr result (IsFaultSeen session.new) }
        ensures met { IfErr result (OnlyWhere (IsTrue J.tells → (met : J) × (J.faults met ≢ 0))) }
    {
        let mut turn = self.turn(rt);
        let answer = turn.call(session, moment, request);
        turn.end();
        answer
    }
}

// What the value behind a node's lock leaves.
fn ended<J: Journal>(kept: LockedBox<J>) -> Ended<J>
    ensures clerk { result.clerk ≡ kept.state.clerk }
    ensures stored { result.stored ≡ kept.state.stored }
    ensures kept { IsLocked kept.state }
    ensures accounted { IsAccounted kept.state kept.journal kept.book kept.owes }
    ensures faults { (J.faults result.journal ≡ kept.journal.faults) × (kept.journal.tells ≡ J.tells) }
    ensures journal { LeavesPieces J.tells (J.pieces result.journal) (J.faults result.journal) (entries_of result.stored) }
    ensures next { LeavesJournal kept.state.core.setup result.clerk J.tells (J.pieces result.journal) (J.faults result.journal) (entries_of result.stored) }
{
    let (locked, journal) = kept.into_parts();
    let (clerk, pairs) = locked.into_parts();
    Ended {
        clerk,
        stored: Stored { pairs },
        journal,
    }
}

// A tally with the places of all clients: of the sessions' clients with what is there, of the others with nothing.
fn gathered<J: Journal>(
    cell: &Cell<LockedBox<J>>,
    roster: Roster,
    sessions: Vec<Session>,
) -> Tally<Label>
    requires cell { roster.cell ≡ cell.now.id }
    requires sessions { All (λ session. (session.cell ≡ cell.now.id) × (session.conits ≡ roster.conits)) sessions.items }
    requires whole { map (λ session. session.client) sessions.items ≡ roster.clients }
    ensures cell { result.id ≡ cell.now.id }
    ensures sessions { All (λ session. HasPlacesOf roster.conits session.client (numbers_of session) result) sessions.items }
    ensures counted { All (λ session. session.doubt ≡ false → session.calls ≡ length (own_calls session)) sessions.items }
    ensures among { All (λ client. client < CLIENTS) roster.clients }
    ensures apart { AllPairs (λ one other. one ≢ other) roster.clients }
    ensures others { (client : ℕ) → client < CLIENTS → (Contains roster.clients client → ⊥) → HasPlacesOf roster.conits client no_numbers result }
{
    let Roster { mut tally, .. } = roster;
    for session in sessions {
        give_places(cell, &mut tally, session);
    }
    tally
}

// The places of a client: its turns, the entries made for it, its faults, its halts and its doubt.
fn places_of(conits: u32, client: u32) -> [u32; 5]
    requires few { conits ≤ CONITS_MAX }
    requires client { client < CLIENTS }
    ensures { result ≡ map (place_of conits client) (0 ∷ 1 ∷ 2 ∷ 3 ∷ 4 ∷ []) }
{
    let place = conits + client;
    [
        place,
        place + CLIENTS,
        place + 2 * CLIENTS,
        place + 3 * CLIENTS,
        place + 4 * CLIENTS,
    ]
}

// Gives the places of a session's client to a tally that has nothing of it.
fn give_places<J: Journal>(
    cell: &Cell<LockedBox<J>>,
    tally: &mut Tally<Label>,
    mut session: Session,
)
    requires cell { (tally.old.id ≡ cell.now.id) × (session.cell ≡ cell.now.id) }
    requires nothing { session.client < CLIENTS → HasNumbers session.conits session.client no_numbers tally.old }
    ensures cell { tally.new.id ≡ cell.now.id }
    ensures among { session.client < CLIENTS }
    ensures places { HasPlacesOf session.conits session.client (numbers_of session) tally.new }
    ensures counted { session.doubt ≡ false → session.calls ≡ length (own_calls session) }
    ensures others { (place : ℕ) → ((k : ℕ) → k < 5 → place ≢ place_of session.conits session.client k)
        → (slice_index tally.new.amounts place ≡ slice_index tally.old.amounts place) × (slice_index tally.old.owns place ≢ 0 → slice_index tally.new.owns place ≢ 0) }
{
    let places = places_of(session.conits, session.client);
    let own = cell.split_own(&mut session.tally, &places);
    cell.join(tally, own);
}

//! Turns: the lock of a node, held over several calls.
ghost use Rattle.std.specs.Prelude.{◌≡◌, ◌≢◌, ◌+◌, ◌*◌, ◌<◌, ◌≤◌, ◌^◌, slice_index, IsTrue, IfOk, IfErr, IsErrOf, OnErr, OnOk, None, false};
ghost use Rattle.tact_base.specs.declared.limits.TheConstants.{CLIENTS, CONITS_MAX, MOMENT_MAX};
ghost use Rattle.run_model.specs.Histories.{moment_at, calls_in, IsPrefix};
ghost use Rattle.run_model.specs.Ranges.{IsRequestInRange};
ghost use Rattle.run_model.specs.declared.entry.Act.TheVariants as act;
ghost use Rattle.entry_journal.specs.EntryJournals.{IsUntouched};
ghost use Rattle.locked_replica.specs.Journals.{IsInDoubtAfter, IsJournaled, IsRefusal, IsRoomRefusal, OnlyWhere, call_in};
ghost use Rattle.locked_replica.specs.Locks.{HasEntered, IsLocked, IsWriteOrRead, made_place, one_more_at, part_in, turns_place};
ghost use Rattle.replica_lock.specs.Ledgers.{failed_book, failed_owes};
ghost use Rattle.replica_lock.specs.Sessions.{HasCalled, HasHeard, IsFaultSeen, IsSessionOf, failed_by};

use crate::counts::Counts;
use crate::label::Label;
use crate::locked_box::{LockedBox, stand};
use crate::node::Node;
use crate::session::Session;
use entry_journal::EntryJournal;
use locked_replica::{Locked, NodeFault};
use run_history::Note;
use run_model::{Reply, Request};
use std::marker::Model;
use tact_base::CLIENTS;
use tact_io::{Gate, Journal};
use weight_ledger::Tally;

/// The lock of a node, held over several calls. It can't be dropped: `end` gives the lock back.
pub struct Turn<'n, 'd, J: Journal, G: Gate> {
    pub(crate) node: &'n Node<'d, J, G>,
    pub(crate) counts: Counts<'n, J>,
    pub(crate) locked: Box<Locked>,
    pub(crate) journal: EntryJournal<J>,
}

impl<'n, 'd, J: Journal, G: Gate> Model for Turn<'n, 'd, J, G> {
    ghost use Rattle.std.specs.Prelude.{◌≡◌};
    ghost use Rattle.locked_replica.specs.Journals.{IsJournaled};
    ghost use Rattle.replica_lock.specs.Ledgers.{IsAccounted};
    ghost use Rattle.replica_lock.specs.Nodes.{KeepsTurn};
    ghost use Rattle.replica_lock.specs.Sessions.{TurnView};

    ghost Value = { TurnView };

    ghost view = { λ t. record { node = t.node.now; state = t.locked.value; journal = t.journal; book = t.counts.book; owes = t.counts.owes } };

    ghost invariant = { λ t. KeepsTurn t.node.now t.counts t.locked.value × IsJournaled t.locked.value t.journal
        × IsAccounted t.locked.value t.journal t.counts.book t.counts.owes × (t.journal.tells ≡ J.tells) };
}

impl<'n, 'd, J: Journal, G: Gate> Turn<'n, 'd, J, G> {
    /// Makes room for `count` writes and stored entries with their pieces in the journal, which lasts until the turn made
    /// so many entries; that for writes goes where a `restart` is refused. `Halted` comes exactly where the node is halted,
    /// and else `NoMemory` alone; both leave everything as it was, but for what room there is.
    pub fn make_room(&mut self, count: u64) -> Result<(), NodeFault>
        ensures node { self.new.node ≡ self.old.node }
        ensures kept { IsLocked self.new.state }
        ensures state { self.new.state ≡ record self.old.state { spare = self.new.state.spare; beside = self.new.state.beside; room = self.new.state.room } }
        ensures journaled { IsJournaled self.new.state self.new.journal }
        ensures journal { IsUntouched self.old.journal self.new.journal }
        ensures ledger { (self.new.book ≡ self.old.book) × (self.new.owes ≡ self.old.owes) }
        ensures going { OnOk result (self.old.journal.halted ≡ false) }
        ensures room { OnOk result ((count ≤ self.new.state.spare) × (count ≤ self.new.state.room) × (count ≤ self.new.journal.room)) }
        ensures no_less { (self.old.state.spare ≤ self.new.state.spare) × (self.old.state.room ≤ self.new.state.room) × (self.old.journal.room ≤ self.new.journal.room) }
        ensures fault { IfErr result (IsRoomRefusal self.old.journal) }
        ensures met { IfErr result (OnlyWhere (IsTrue J.tells → (met : J) × (J.faults met ≢ 0))) }
    {
        stand(&self.locked);
        if self.journal.is_halted() {
            return Err(NodeFault::Halted);
        }
        self.locked.make_room(count)?;
        self.journal.make_room(count)?;
        Ok(())
    }

    // The session learns what a note has seen, and all that the clerk has seen.
    pub(crate) fn hear(&mut self, session: &mut Session, note: Note)
        requires session { IsSessionOf self.old.node session.old }
        requires note { note.table ≡ self.old.node.desk.table }
        ensures node { self.new.node ≡ self.old.node }
        ensures kept { IsLocked self.new.state }
        ensures state { self.new.state ≡ record self.old.state { clerk = record self.old.state.clerk { seen = self.new.state.clerk.seen } } }
        ensures journal { self.new.journal ≡ self.old.journal }
        ensures ledger { (self.new.book ≡ self.old.book) × (self.new.owes ≡ self.old.owes) }
        ensures seen { session.new.seen ≡ self.new.state.clerk.seen }
        ensures heard { HasHeard self.old.node.desk.setup session.old session.old session.new }
        ensures note { IsPrefix note.seen session.new.seen }
    {
        let node = self.node;
        stand(&self.locked);
        self.counts.agree(&mut session.tally);
        self.locked.hear(node.desk, &mut session.note, note);
    }

    /// Answers a call of a session's client that writes or reads, as `Replica::call` does; draws it and stores it. No
    /// refusal makes an entry. After `JournalFault` the session is in doubt and the node halted.
    pub fn call(
        &mut self,
        session: &mut Session,
        moment: u64,
        request: Request,
    ) -> Result<Reply, NodeFault>
        requires session { IsSessionOf self.old.node session.old }
        requires moment { moment ≤ MOMENT_MAX }
        requires in_range { IsRequestInRange self.old.node.desk.setup request }
        requires plain { IsWriteOrRead request }
        ensures node { self.new.node ≡ self.old.node }
        ensures kept { IsLocked self.new.state }
        ensures entered { IfOk result (λ reply. HasEntered self.old.state self.new.state session.old.seen (record {
          replica = self.old.state.core.replica;
          moment = moment_at (part_in self.old.state) moment;
          act = act.Call session.old.client (calls_in (part_in self.old.state) session.old.client) request reply;
        })) }
        ensures totals { OnOk result (self.new.state.totals ≡ one_more_at (made_place session.old.conits session.old.client)
            (one_more_at (turns_place session.old.conits session.old.client) self.old.state.totals)) }
        ensures book { OnOk result ((self.new.book ≡ one_more_at (made_place session.old.conits session.old.client)
            (one_more_at (turns_place session.old.conits session.old.client) self.old.book)) × (self.new.owes ≡ self.old.owes)) }
        ensures seen { session.new.seen ≡ self.new.state.clerk.seen }
        ensures called { IfOk result (HasCalled self.old.node.desk.setup session.old session.new moment request) }
        ensures refused { IfErr result (λ told. HasHeard self.old.node.desk.setup session.old (failed_by told session.old) session.new) }
        ensures spare { self.old.state.spare ≤ self.new.state.spare + 1 }
        ensures room { self.old.state.room ≤ self.new.state.room + 1 }
        ensures journaled { IsJournaled self.new.state self.new.journal }
        ensures going { OnOk result ((self.old.journal.halted ≡ false) × (self.new.journal.halted ≡ false)) }
        ensures enough { 0 < self.old.state.spare → 0 < self.old.state.room → 0 < self.old.journal.room → IsErrOf result NodeFault.NoMemory → ⊥ }
        ensures journal_room { self.old.journal.room ≤ self.new.journal.room + 1 }
        ensures counts { (self.new.journal.tells ≡ self.old.journal.tells) × (self.old.journal.faults ≤ self.new.journal.faults) }
        ensures fault { IfErr result (IsRefusal self.old.state.core self.old.journal self.new.journal) }
        ensures met { IfErr result (OnlyWhere (IsTrue J.tells → (met : J) × (J.faults met ≢ 0))) }
        ensures fault_seen { IfErr result (IsFaultSeen session.new) }
        ensures doubt { IfErr result (IsInDoubtAfter self.new.journal (call_in self.old.state moment session.old.client request)) }
        ensures told { IfErr result (λ told. (self.new.book ≡ failed_book session.old.conits session.old.client 0 None told self.old.book)
            × (self.new.owes ≡ failed_owes session.old.client 0 None told self.old.owes)) }
        ensures err { OnErr result ((self.new.state.core ≡ self.old.state.core) × (self.new.state.stored ≡ self.old.state.stored) × (self.new.state.totals ≡ self.old.state.totals)) }
    {
        stand(&self.locked);
        let mut none = self.node.empty(session, 0);
        self.ask(session, &mut none, moment, request)
    }

    /// Gives the lock back.
    pub fn end(self) {
        let Turn {
            node: _,
            counts,
            locked,
            journal,
        } = self;
        let (held, ledger) = counts.into_parts();
        held.end(LockedBox {
            locked,
            journal,
            ledger,
        });
    }
}

// Counts a call among a client's turns and among the entries made for it,
// in the totals and in the tally that owns them.
pub(crate) fn count<J: Journal>(
    counts: &mut Counts<'_, J>,
    tally: &mut Tally<Label>,
    conits: u32,
    client: u32,
)
    requires cell { tally.old.id ≡ counts.old.cell.id }
    requires client { client < CLIENTS }
    requires few { conits ≤ CONITS_MAX }
    requires places { (counts.old.cell.shared ≡ conits) × (counts.old.cell.owned ≡ 5 * CLIENTS) }
    requires turns { (slice_index tally.old.owns (turns_place conits client) ≢ 0) × (slice_index counts.old.book (turns_place conits client) + 1 < 2 ^ 64) }
    requires made { (slice_index tally.old.owns (made_place conits client) ≢ 0) × (slice_index counts.old.book (made_place conits client) + 1 < 2 ^ 64) }
    ensures book { counts.new ≡ record counts.old { book = one_more_at (made_place conits client) (one_more_at (turns_place conits client) counts.old.book) } }
    ensures tally { tally.new ≡ record tally.old { amounts = one_more_at (made_place conits client) (one_more_at (turns_place conits client) tally.old.amounts) } }
    ensures turns { slice_index tally.new.amounts (turns_place conits client) ≡ slice_index tally.old.amounts (turns_place conits client) + 1 }
    ensures made { slice_index tally.new.amounts (made_place conits client) ≡ slice_index tally.old.amounts (made_place conits client) + 1 }
{
    let place = conits + client;
    counts.raise(tally, place, 1);
    counts.raise(tally, place + CLIENTS, 1);
}

// Counts an entry that is no call among those made for a session's client, in the totals and at the session.
pub(crate) fn count_made<J: Journal>(counts: &mut Counts<'_, J>, session: &mut Session)
    requires cell { session.old.cell ≡ counts.old.cell.id }
    requires places { (counts.old.cell.shared ≡ session.old.conits) × (counts.old.cell.owned ≡ 5 * CLIENTS) }
    requires agrees { slice_index counts.old.book (made_place session.old.conits session.old.client) ≡ session.old.made }
    requires room { session.old.made + 1 < 2 ^ 64 }
    ensures book { counts.new ≡ record counts.old { book = one_more_at (made_place session.old.conits session.old.client) counts.old.book } }
    ensures session { session.new ≡ record session.old { made = session.old.made + 1 } }
{
    counts.raise(
        &mut session.tally,
        session.conits + CLIENTS + session.client,
        1,
    );
    session.made += 1;
}

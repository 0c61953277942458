//! What a node sends.
ghost use Rattle.std.specs.Prelude.{◌≡◌, ◌≢◌, ◌<◌, ◌≤◌, ◌+◌, ◌^◌, slice_index, false, ◌↔◌, IsTrue, IfOk, IfErr, OnErr, OnOk};
ghost use Rattle.tact_base.specs.Setup.{IsSetup};
ghost use Rattle.tact_base.specs.declared.limits.TheConstants.{CLIENTS, MOMENT_MAX};
ghost use Rattle.run_model.specs.Histories.{IsPrefix};
ghost use Rattle.run_model.specs.Runs.{IsDue, IsRun};
ghost use Rattle.run_model.specs.declared.entry.Act.TheVariants as act;
ghost use Rattle.anti_entropy.specs.Counts.{IsBehind};
ghost use Rattle.replica_core.specs.States.{IsKept, is_full};
ghost use Rattle.locked_replica.specs.Journals.{IsInDoubtAfter, IsJournaled, IsRefusal, OnlyWhere, send_in};
ghost use Rattle.run_history.specs.Ticks.{entries_of};
ghost use Rattle.locked_replica.specs.Locks.{HasDrawn, HasEntered, IsLocked, IsOfDesk, entry_in, made_place, one_more_at, part_in};
ghost use Rattle.locked_replica.specs.Parcels.{message_to};
ghost use Rattle.replica_lock.specs.Sessions.{HasHeard, HasSent, IsFaultSeen, IsSessionOf, marked_by};
ghost use Rattle.replica_lock.specs.Ledgers.{told_book};

use crate::locked_box::stand;
use crate::marking::mark;
use crate::node::Node;
use crate::session::Session;
use crate::turn::{Turn, count_made};
use locked_replica::{NodeFault, Parcel};
use std::sync::Wait;
use tact_io::{Gate, Journal};

impl<'d, J: Journal, G: Gate> Node<'d, J, G> {
    /// Sends a message to another replica, in a turn of its own: by origin its writes begin past those that the other
    /// is known to have. The moment of the entry is the greater of the handed one and that of the replica's last entry.
    /// No refusal makes an entry; after `JournalFault` the node is halted.
    pub fn send<R: Wait>(
        &self,
        rt: &R,
        session: &mut Session,
        moment: u64,
        to: u32,
    ) -> Result<Parcel, NodeFault>
        requires session { IsSessionOf self.now session.old }
        requires moment { moment ≤ MOMENT_MAX }
        requires to { to < self.now.desk.setup.replicas }
        requires other { to ≢ self.now.replica }
        ensures sent { IfOk result (λ parcel. HasSent self.now.desk.setup session.old session.new moment to parcel.message) }
        ensures parcel { IfOk result (λ parcel. (parcel.desk ≡ self.now.desk.table) × (parcel.seen ≡ session.new.seen)) }
        ensures refused { IfErr result (λ told. HasHeard self.now.desk.setup session.old (marked_by told session.old) session.new) }
        ensures fault { IfErr result (IsFaultSeen session.new) }
        ensures met { IfErr result (OnlyWhere (IsTrue J.tells → (met : J) × (J.faults met ≢ 0))) }
    {
        let mut turn = self.turn(rt);
        let answer = turn.send(session, moment, to);
        turn.end();
        answer
    }
}

impl<'n, 'd, J: Journal, G: Gate> Turn<'n, 'd, J, G> {
    /// Whether a message to a replica is due: of some other origin it has more writes than it knows that replica to
    /// have. It makes no entry and takes no memory.
    pub fn due(&self, to: u32) -> bool
        requires { to < self.now.node.desk.setup.replicas }
        ensures { IsTrue result ↔ IsBehind self.now.state.core.setup self.now.state.core.replica (part_in self.now.state) to }
    {
        self.locked.due(to)
    }

    /// Sends a message to another replica, as `Replica::send` does where no firsts are given; draws the entry and
    /// stores it. The parcel carries the same message. No refusal makes an entry; after `JournalFault` the node is halted.
    pub fn send(&mut self, session: &mut Session, moment: u64, to: u32) -> Result<Parcel, NodeFault>
        requires session { IsSessionOf self.old.node session.old }
        requires moment { moment ≤ MOMENT_MAX }
        requires to { to < self.old.node.desk.setup.replicas }
        requires other { to ≢ self.old.node.replica }
        ensures node { self.new.node ≡ self.old.node }
        ensures kept { IsLocked self.new.state }
        ensures entered { IfOk result (λ parcel. HasEntered self.old.state self.new.state session.old.seen (entry_in self.old.state moment (act.Send parcel.message))) }
        ensures message { IfOk result (λ parcel.
            parcel.message ≡ message_to self.old.state.core.setup self.old.state.core.replica (part_in self.old.state) moment to) }
        ensures parcel { IfOk result (λ parcel. (parcel.desk ≡ self.old.node.desk.table) × (parcel.seen ≡ session.new.seen)) }
        ensures totals { OnOk result (self.new.state.totals ≡ one_more_at (made_place session.old.conits session.old.client) self.old.state.totals) }
        ensures seen { session.new.seen ≡ self.new.state.clerk.seen }
        ensures sent { IfOk result (λ parcel. HasSent self.old.node.desk.setup session.old session.new moment to parcel.message) }
        ensures refused { IfErr result (λ told. HasHeard self.old.node.desk.setup session.old (marked_by told session.old) session.new) }
        ensures spare { self.old.state.spare ≤ self.new.state.spare }
        ensures room { self.old.state.room ≤ self.new.state.room + 1 }
        ensures journaled { IsJournaled self.new.state self.new.journal }
        ensures going { OnOk result ((self.old.journal.halted ≡ false) × (self.new.journal.halted ≡ false)) }
        ensures fault { IfErr result (IsRefusal self.old.state.core self.old.journal self.new.journal) }
        ensures met { IfErr result (OnlyWhere (IsTrue J.tells → (met : J) × (J.faults met ≢ 0))) }
        ensures journal_room { self.old.journal.room ≤ self.new.journal.room + 1 }
        ensures counts { (self.new.journal.tells ≡ self.old.journal.tells) × (self.old.journal.faults ≤ self.new.journal.faults) }
        ensures fault_seen { IfErr result (IsFaultSeen session.new) }
        ensures book { OnOk result (self.new.book ≡ one_more_at (made_place session.old.conits session.old.client) self.old.book) }
        ensures told { IfErr result (λ told. self.new.book ≡ told_book session.old.conits session.old.client told self.old.book) }
        ensures owes { self.new.owes ≡ self.old.owes }
        ensures doubt { IfErr result (IsInDoubtAfter self.new.journal (send_in self.old.state moment to)) }
        ensures err { OnErr result ((self.new.state.core ≡ self.old.state.core) × (self.new.state.stored ≡ self.old.state.stored) × (self.new.state.totals ≡ self.old.state.totals)) }
    {
        let node = self.node;
        stand(&self.locked);
        self.counts.agree(&mut session.tally);
        let answer = self.locked.send(
            &mut self.journal,
            node.desk,
            &mut session.note,
            moment,
            session.client,
            to,
        );
        match answer {
            Ok(parcel) => {
                count_made(&mut self.counts, session);
                Ok(parcel)
            }
            Err(fault) => {
                mark(&mut self.counts, session, fault);
                Err(fault)
            }
        }
    }
}

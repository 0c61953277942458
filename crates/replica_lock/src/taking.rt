//! What a node takes.
ghost use Rattle.std.specs.Prelude.{◌≡◌, ◌≢◌, ◌<◌, ◌≤◌, ◌+◌, ◌^◌, length, slice_index, false, ◌↔◌, IsTrue, IfErr, OnErr, OnOk};
ghost use Rattle.tact_base.specs.Setup.{IsSetup};
ghost use Rattle.tact_base.specs.declared.limits.TheConstants.{CLIENTS, MOMENT_MAX};
ghost use Rattle.run_model.specs.Histories.{IsPrefix};
ghost use Rattle.run_model.specs.Runs.{IsRun};
ghost use Rattle.run_model.specs.Taking.{told_have};
ghost use Rattle.run_model.specs.declared.entry.Act.TheVariants as act;
ghost use Rattle.replica_core.specs.Stands.{GoesOn, IsSameReplica};
ghost use Rattle.replica_core.specs.States.{is_full};
ghost use Rattle.replica_core.specs.Taking.{FitsAt};
ghost use Rattle.locked_replica.specs.Journals.{IsInDoubtAfter, IsJournaled, IsRefusal, OnlyWhere};
ghost use Rattle.locked_replica.specs.Locks.{HasEntered, IsLocked, IsOfDesk, entry_in, made_place, one_more_at, part_in};
ghost use Rattle.locked_replica.specs.Parcels.{HasSending, IsAnswerDue};
ghost use Rattle.replica_lock.specs.Sessions.{HasHeard, HasMade, IsFaultSeen, IsSessionOf, marked_by};
ghost use Rattle.replica_lock.specs.Ledgers.{told_book};

use crate::locked_box::stand;
use crate::marking::mark;
use crate::node::Node;
use crate::session::Session;
use crate::turn::{Turn, count_made};
use locked_replica::{Parcel, TakeFault};
use run_model::Message;
use std::sync::Wait;
use tact_io::{Gate, Journal};

impl<'d, J: Journal, G: Gate> Node<'d, J, G> {
    /// Takes a parcel that is addressed to its replica, in a turn of its own. The moment of the entry is the greater of
    /// the handed one and that of the replica's last entry. A refusal gives the parcel back, with the same message.
    pub fn take<R: Wait>(
        &self,
        rt: &R,
        session: &mut Session,
        moment: u64,
        parcel: Parcel,
    ) -> Result<(), TakeFault>
        requires session { IsSessionOf self.now session.old }
        requires moment { moment ≤ MOMENT_MAX }
        requires desk { parcel.desk ≡ self.now.desk.table }
        requires addressed { parcel.message.to ≡ self.now.replica }
        ensures taken { OnOk result (HasMade self.now.desk.setup session.old session.new moment (act.Take parcel.message)) }
        ensures told { IsPrefix parcel.seen session.new.seen }
        ensures refused { IfErr result (λ refused. HasHeard self.now.desk.setup session.old (marked_by refused.fault session.old) session.new) }
        ensures fault { IfErr result (λ refused. IsFaultSeen session.new refused.fault) }
        ensures met { IfErr result (λ refused. OnlyWhere (IsTrue J.tells → (met : J) × (J.faults met ≢ 0)) refused.fault) }
        ensures back { IfErr result (λ refused. refused.parcel ≡ parcel) }
    {
        let mut turn = self.turn(rt);
        let answer = turn.take(session, moment, parcel);
        turn.end();
        answer
    }
}

impl<'n, 'd, J: Journal, G: Gate> Turn<'n, 'd, J, G> {
    /// Whether a message is to be answered by one to its sender: it has writes, or of some origin the replica has more
    /// than it tells of. It makes no entry and takes no memory.
    pub fn answer_due(&self, message: &Message) -> bool
        ensures { IsTrue result ↔ IsAnswerDue self.now.state.core.setup self.now.state.core.replica (part_in self.now.state) message.now }
    {
        self.locked.answer_due(message)
    }

    /// Takes a parcel that is addressed to its replica, as `Replica::take` does its message, which fits since it was
    /// sent; draws the entry and stores it. A refusal gives the parcel back, with the same message.
    pub fn take(
        &mut self,
        session: &mut Session,
        moment: u64,
        parcel: Parcel,
    ) -> Result<(), TakeFault>
        requires session { IsSessionOf self.old.node session.old }
        requires moment { moment ≤ MOMENT_MAX }
        requires desk { parcel.desk ≡ self.old.node.desk.table }
        requires addressed { parcel.message.to ≡ self.old.node.replica }
        ensures node { self.new.node ≡ self.old.node }
        ensures kept { IsLocked self.new.state }
        ensures entered { OnOk result (HasEntered self.old.state self.new.state session.old.seen (entry_in self.old.state moment (act.Take parcel.message))) }
        ensures totals { OnOk result (self.new.state.totals ≡ one_more_at (made_place session.old.conits session.old.client) self.old.state.totals) }
        ensures seen { session.new.seen ≡ self.new.state.clerk.seen }
        ensures taken { OnOk result (HasMade self.old.node.desk.setup session.old session.new moment (act.Take parcel.message)) }
        ensures told { IsPrefix parcel.seen session.new.seen }
        ensures refused { IfErr result (λ refused. HasHeard self.old.node.desk.setup session.old (marked_by refused.fault session.old) session.new) }
        ensures spare { self.old.state.spare ≤ self.new.state.spare }
        ensures room { self.old.state.room ≤ self.new.state.room + 1 }
        ensures journaled { IsJournaled self.new.state self.new.journal }
        ensures going { OnOk result ((self.old.journal.halted ≡ false) × (self.new.journal.halted ≡ false)) }
        ensures fault { IfErr result (λ refused. IsRefusal self.old.state.core self.old.journal self.new.journal refused.fault) }
        ensures met { IfErr result (λ refused. OnlyWhere (IsTrue J.tells → (met : J) × (J.faults met ≢ 0)) refused.fault) }
        ensures journal_room { self.old.journal.room ≤ self.new.journal.room + 1 }
        ensures counts { (self.new.journal.tells ≡ self.old.journal.tells) × (self.old.journal.faults ≤ self.new.journal.faults) }
        ensures fault_seen { IfErr result (λ refused. IsFaultSeen session.new refused.fault) }
        ensures back { IfErr result (λ refused. refused.parcel ≡ parcel) }
        ensures book { OnOk result (self.new.book ≡ one_more_at (made_place session.old.conits session.old.client) self.old.book) }
        ensures marks { IfErr result (λ refused. self.new.book ≡ told_book session.old.conits session.old.client refused.fault self.old.book) }
        ensures owes { self.new.owes ≡ self.old.owes }
        ensures doubt { IfErr result (λ refused. IsInDoubtAfter self.new.journal (entry_in self.old.state moment (act.Take parcel.message)) refused.fault) }
        ensures err { OnErr result ((self.new.state.core ≡ self.old.state.core) × (self.new.state.stored ≡ self.old.state.stored) × (self.new.state.totals ≡ self.old.state.totals)) }
    {
        let node = self.node;
        stand(&self.locked);
        self.counts.agree(&mut session.tally);
        let answer = self.locked.take(
            &mut self.journal,
            node.desk,
            &mut session.note,
            moment,
            session.client,
            parcel,
        );
        match answer {
            Ok(()) => {
                count_made(&mut self.counts, session);
                Ok(())
            }
            Err(refused) => {
                mark(&mut self.counts, session, refused.fault);
                Err(refused)
            }
        }
    }
}

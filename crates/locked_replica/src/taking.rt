//! What a node takes.
ghost use Rattle.std.specs.Prelude.{◌≡◌, ◌≢◌, ◌<◌, ◌≤◌, ◌+◌, ◌^◌, length, slice_index, false, ◌↔◌, IsTrue, IfErr, OnErr, OnOk};
ghost use Rattle.tact_base.specs.Setup.{IsSetup};
ghost use Rattle.tact_base.specs.declared.limits.TheConstants.{CLIENTS, MOMENT_MAX};
ghost use Rattle.run_model.specs.Histories.{IsPrefix};
ghost use Rattle.run_model.specs.Runs.{IsRun};
ghost use Rattle.run_model.specs.Taking.{told_have};
ghost use Rattle.run_model.specs.declared.entry.Act.TheVariants as act;
ghost use Rattle.replica_core.specs.Stands.{GoesOn, IsSameReplica};
ghost use Rattle.replica_core.specs.States.{is_full};
ghost use Rattle.replica_core.specs.Taking.{FitsAt};
ghost use Rattle.locked_replica.specs.Journals.{IsInDoubtAfter, IsJournaled, IsRefusal, OnlyWhere};
ghost use Rattle.locked_replica.specs.Locks.{HasEntered, IsLocked, IsOfDesk, entry_in, made_place, one_more_at, part_in};
ghost use Rattle.locked_replica.specs.Parcels.{HasSending, IsAnswerDue};

use crate::TakeFault;
use crate::locked::{Locked, count_entry, draw};
use crate::parcel::Parcel;
use entry_journal::EntryJournal;
use replica_core::Replica;
use run_history::{Desk, Note};
use run_model::{Act, Entry, Message};
use tact_io::Journal;

impl Locked {
    /// Whether a message is to be answered.
    pub fn answer_due(&self, message: &Message) -> bool
        requires sound { IsSetup self.now.core.setup }
        ensures { IsTrue result ↔ IsAnswerDue self.now.core.setup self.now.core.replica (part_in self.now) message.now }
    {
        if !message.writes.is_empty() {
            return true;
        }
        for origin in 0..self.replicas() {
            if told_count(message, origin) < self.replica.have(origin) {
                return true;
            }
        }
        false
    }

    /// Takes a parcel that is addressed to its replica, for a session that has seen what a note has. The clerk learns
    /// that note and the parcel's; where it isn't refused the taking is drawn and stored; then the note sees what the
    /// clerk has seen.
    pub fn take<J: Journal>(
        &mut self,
        journal: &mut EntryJournal<J>,
        desk: &Desk,
        note: &mut Note,
        moment: u64,
        client: u32,
        mut parcel: Parcel,
    ) -> Result<(), TakeFault>
        requires desk { IsOfDesk desk.now self.old }
        requires note { note.old.table ≡ desk.now.table }
        requires moment { moment ≤ MOMENT_MAX }
        requires client { client < CLIENTS }
        requires parcel { parcel.desk ≡ desk.now.table }
        requires addressed { parcel.message.to ≡ self.old.core.replica }
        requires journaled { IsJournaled self.old journal.old }
        ensures kept { IsLocked self.new }
        ensures label { (self.new.core.setup ≡ self.old.core.setup) × (self.new.core.replica ≡ self.old.core.replica) × (self.new.clerk.table ≡ self.old.clerk.table) }
        ensures note { (note.new.table ≡ note.old.table) × (note.new.seen ≡ self.new.clerk.seen) }
        ensures run { IsRun desk.now.setup note.new.seen }
        ensures entered { OnOk result (HasEntered self.old self.new note.old.seen (entry_in self.old moment (act.Take parcel.message))) }
        ensures rooms { OnOk result (slice_index self.old.totals (made_place self.old.core.setup.conits client) + 1 < 2 ^ 64) }
        ensures totals { OnOk result (self.new.totals ≡ one_more_at (made_place self.old.core.setup.conits client) self.old.totals) }
        ensures spare { self.old.spare ≤ self.new.spare }
        ensures room { self.old.room ≤ self.new.room + 1 }
        ensures journaled { IsJournaled self.new journal.new }
        ensures going { OnOk result ((journal.old.halted ≡ false) × (journal.new.halted ≡ false)) }
        ensures fault { IfErr result (λ refused. IsRefusal self.old.core journal.old journal.new refused.fault) }
        ensures met { IfErr result (λ refused. OnlyWhere (IsTrue J.tells → (met : J) × (J.faults met ≢ 0)) refused.fault) }
        ensures journal_room { journal.old.room ≤ journal.new.room + 1 }
        ensures doubt { IfErr result (λ refused. IsInDoubtAfter journal.new (entry_in self.old moment (act.Take parcel.message)) refused.fault) }
        ensures counts { (journal.new.tells ≡ journal.old.tells) × (journal.old.faults ≤ journal.new.faults) }
        ensures back { IfErr result (λ refused. refused.parcel ≡ parcel) }
        ensures err { OnErr result ((self.new.core ≡ self.old.core) × (self.new.stored ≡ self.old.stored) × (self.new.totals ≡ self.old.totals)) }
        ensures learnt { IsPrefix self.old.clerk.seen note.new.seen × IsPrefix note.old.seen note.new.seen × IsPrefix parcel.seen note.new.seen }
    {
        self.learn(desk, note);
        self.learn(desk, &mut parcel.note);
        let answer = self.kept_take(journal, desk, moment, client, parcel);
        self.tell(desk, note);
        answer
    }

    // Takes a parcel whose message the clerk has seen sent to its replica. There is room for it.
    pub(crate) fn enter_take(&mut self, desk: &Desk, moment: u64, client: u32, parcel: Parcel)
        requires desk { IsOfDesk desk.now self.old }
        requires moment { moment ≤ MOMENT_MAX }
        requires client { client < CLIENTS }
        requires addressed { parcel.message.to ≡ self.old.core.replica }
        requires sent { HasSending self.old.clerk.seen parcel.message }
        requires run { IsRun desk.now.setup self.old.clerk.seen }
        requires free { is_full self.old.core ≡ false }
        requires rooms { (length parcel.message.writes ≤ self.old.beside) × (0 < self.old.room) }
        ensures kept { IsLocked self.new }
        ensures label { (self.new.core.setup ≡ self.old.core.setup) × (self.new.core.replica ≡ self.old.core.replica) × (self.new.clerk.table ≡ self.old.clerk.table) }
        ensures entered { HasEntered self.old self.new self.old.clerk.seen (entry_in self.old moment (act.Take parcel.message)) }
        ensures rooms { slice_index self.old.totals (made_place self.old.core.setup.conits client) + 1 < 2 ^ 64 }
        ensures totals { self.new.totals ≡ one_more_at (made_place self.old.core.setup.conits client) self.old.totals }
        ensures grows { IsPrefix self.old.clerk.seen self.new.clerk.seen }
        ensures run { IsRun desk.now.setup self.new.clerk.seen }
        ensures spare { self.new.spare ≡ self.old.spare }
        ensures room { self.old.room ≤ self.new.room + 1 }
    {
        let replica = self.replica_number();
        let at = self.moment_after(moment);
        take_in(&mut self.replica, moment, &parcel.message);
        let Parcel { message, note: _ } = parcel;
        let entry = Entry {
            replica,
            moment: at,
            act: Act::Take { message },
        };
        draw(&mut self.clerk, &mut self.stored, desk, entry);
        count_entry(&mut self.totals, self.conits, client);
    }
}

// How many writes of an origin a message tells its sender to have, 0 where it tells nothing.
fn told_count(message: &Message, origin: u32) -> u64
    ensures { result ≡ told_have message.now origin }
{
    match message.haves.items().get(origin as usize) {
        Some(have) => *have,
        None => 0,
    }
}

// The replica takes a message, for whose writes there is room.
fn take_in(replica: &mut Replica, moment: u64, message: &Message)
    requires moment { moment ≤ MOMENT_MAX }
    requires free { is_full replica.old.core ≡ false }
    requires fits { FitsAt replica.old.core message.now }
    requires room { length message.now.writes ≤ replica.old.beside }
    ensures goes_on { GoesOn replica.old.core replica.new.core moment (λ part. act.Take message.now) }
    ensures same { IsSameReplica replica.old.core replica.new.core }
    ensures spare { replica.new.spare ≡ replica.old.spare }
{
    match replica.take(moment, message) {
        Ok(()) => {}
        Err(_) => unreachable!(),
    }
}

//! What a node sends.
ghost use Rattle.std.specs.Prelude.{◌≡◌, ◌≢◌, ◌<◌, ◌≤◌, ◌+◌, ◌^◌, slice_index, false, ◌↔◌, IsTrue, IfOk, IfErr, OnErr, OnOk};
ghost use Rattle.tact_base.specs.Setup.{IsSetup};
ghost use Rattle.tact_base.specs.declared.limits.TheConstants.{CLIENTS, MOMENT_MAX};
ghost use Rattle.run_model.specs.Histories.{IsPrefix};
ghost use Rattle.run_model.specs.Runs.{IsDue, IsRun};
ghost use Rattle.run_model.specs.declared.entry.Act.TheVariants as act;
ghost use Rattle.anti_entropy.specs.Counts.{IsBehind};
ghost use Rattle.replica_core.specs.States.{IsKept, is_full};
ghost use Rattle.locked_replica.specs.Journals.{IsInDoubtAfter, IsJournaled, IsRefusal, OnlyWhere, send_in};
ghost use Rattle.run_history.specs.Ticks.{entries_of};
ghost use Rattle.locked_replica.specs.Locks.{HasDrawn, HasEntered, IsLocked, IsOfDesk, entry_in, made_place, one_more_at, part_in};
ghost use Rattle.locked_replica.specs.Parcels.{message_to};

use crate::NodeFault;
use crate::locked::{Locked, count_entry, draw};
use crate::parcel::Parcel;
use entry_journal::EntryJournal;
use run_history::{Clerk, Desk, Note};
use run_model::{Act, Entry, Message};
use tact_base::RoomyList;
use tact_io::Journal;

impl Locked {
    /// Whether a message to a replica is due.
    pub fn due(&self, to: u32) -> bool
        requires sound { IsSetup self.now.core.setup }
        requires to { to < self.now.core.setup.replicas }
        ensures { IsTrue result ↔ IsBehind self.now.core.setup self.now.core.replica (part_in self.now) to }
    {
        for origin in 0..self.replicas() {
            if origin != to && self.replica.known(to, origin) < self.replica.have(origin) {
                return true;
            }
        }
        false
    }

    // How many replicas there are.
    pub(crate) fn replicas(&self) -> u32
        requires { IsSetup self.now.core.setup }
        ensures { result ≡ self.now.core.setup.replicas }
    {
        self.firsts.len() as u32
    }

    /// Sends a message to another replica, for a session that has seen what a note has. The clerk learns the note;
    /// where it isn't refused the sending is drawn and stored; then the note sees what the clerk has seen,
    /// and so has the parcel.
    pub fn send<J: Journal>(
        &mut self,
        journal: &mut EntryJournal<J>,
        desk: &Desk,
        note: &mut Note,
        moment: u64,
        client: u32,
        to: u32,
    ) -> Result<Parcel, NodeFault>
        requires desk { IsOfDesk desk.now self.old }
        requires note { note.old.table ≡ desk.now.table }
        requires moment { moment ≤ MOMENT_MAX }
        requires client { client < CLIENTS }
        requires to { to < self.old.core.setup.replicas }
        requires other { to ≢ self.old.core.replica }
        requires journaled { IsJournaled self.old journal.old }
        ensures kept { IsLocked self.new }
        ensures label { (self.new.core.setup ≡ self.old.core.setup) × (self.new.core.replica ≡ self.old.core.replica) × (self.new.clerk.table ≡ self.old.clerk.table) }
        ensures note { (note.new.table ≡ note.old.table) × (note.new.seen ≡ self.new.clerk.seen) }
        ensures run { IsRun desk.now.setup note.new.seen }
        ensures entered { IfOk result (λ parcel. HasEntered self.old self.new note.old.seen (entry_in self.old moment (act.Send parcel.message))) }
        ensures message { IfOk result (λ parcel. parcel.message ≡ message_to self.old.core.setup self.old.core.replica (part_in self.old) moment to) }
        ensures parcel { IfOk result (λ parcel. (parcel.desk ≡ desk.now.table) × (parcel.seen ≡ note.new.seen)) }
        ensures rooms { OnOk result (slice_index self.old.totals (made_place self.old.core.setup.conits client) + 1 < 2 ^ 64) }
        ensures totals { OnOk result (self.new.totals ≡ one_more_at (made_place self.old.core.setup.conits client) self.old.totals) }
        ensures spare { self.old.spare ≤ self.new.spare }
        ensures room { self.old.room ≤ self.new.room + 1 }
        ensures journaled { IsJournaled self.new journal.new }
        ensures going { OnOk result ((journal.old.halted ≡ false) × (journal.new.halted ≡ false)) }
        ensures fault { IfErr result (IsRefusal self.old.core journal.old journal.new) }
        ensures met { IfErr result (OnlyWhere (IsTrue J.tells → (met : J) × (J.faults met ≢ 0))) }
        ensures journal_room { journal.old.room ≤ journal.new.room + 1 }
        ensures doubt { IfErr result (IsInDoubtAfter journal.new (send_in self.old moment to)) }
        ensures counts { (journal.new.tells ≡ journal.old.tells) × (journal.old.faults ≤ journal.new.faults) }
        ensures err { OnErr result ((self.new.core ≡ self.old.core) × (self.new.stored ≡ self.old.stored) × (self.new.totals ≡ self.old.totals)) }
        ensures learnt { IsPrefix self.old.clerk.seen note.new.seen × IsPrefix note.old.seen note.new.seen }
    {
        self.learn(desk, note);
        let answer = self.kept_send(journal, desk, moment, client, to);
        self.tell(desk, note);
        answer
    }

    // Sends a message to another replica, the one that is due, of which the parcel carries a second. There is room for
    // it.
    pub(crate) fn enter_send(
        &mut self,
        desk: &Desk,
        moment: u64,
        client: u32,
        to: u32,
        message: Message,
        carried: Message,
    ) -> Parcel
        requires desk { IsOfDesk desk.now self.old }
        requires moment { moment ≤ MOMENT_MAX }
        requires client { client < CLIENTS }
        requires to { to < self.old.core.setup.replicas }
        requires other { to ≢ self.old.core.replica }
        requires sound { IsKept self.old.core }
        requires free { is_full self.old.core ≡ false }
        requires room { 0 < self.old.room }
        requires message { message ≡ message_to self.old.core.setup self.old.core.replica (part_in self.old) moment to }
        requires carried { carried ≡ message }
        ensures kept { IsLocked self.new }
        ensures label { (self.new.core.setup ≡ self.old.core.setup) × (self.new.core.replica ≡ self.old.core.replica) × (self.new.clerk.table ≡ self.old.clerk.table) }
        ensures entered { HasEntered self.old self.new self.old.clerk.seen (entry_in self.old moment (act.Send message)) }
        ensures parcel { result ≡ record { message = message; desk = desk.now.table; seen = self.new.clerk.seen } }
        ensures rooms { slice_index self.old.totals (made_place self.old.core.setup.conits client) + 1 < 2 ^ 64 }
        ensures totals { self.new.totals ≡ one_more_at (made_place self.old.core.setup.conits client) self.old.totals }
        ensures grows { IsPrefix self.old.clerk.seen self.new.clerk.seen }
        ensures run { IsRun desk.now.setup self.old.clerk.seen → IsRun desk.now.setup self.new.clerk.seen }
        ensures spare { self.new.spare ≡ self.old.spare }
        ensures room { self.old.room ≤ self.new.room + 1 }
    {
        let replica = self.replica_number();
        let at = self.moment_after(moment);
        self.replica
            .enter_sending(moment, to, &self.firsts, &message);
        let entry = Entry {
            replica,
            moment: at,
            act: Act::Send { message },
        };
        let parcel = draw_sending(&mut self.clerk, &mut self.stored, desk, entry, carried);
        count_entry(&mut self.totals, self.conits, client);
        parcel
    }
}

// Draws the entry of a sending and stores it, and gives a parcel with its message.
fn draw_sending(
    clerk: &mut Clerk,
    stored: &mut RoomyList<(u64, Entry)>,
    desk: &Desk,
    entry: Entry,
    message: Message,
) -> Parcel
    requires desk { clerk.old.table ≡ desk.now.table }
    requires replica { entry.replica ≡ clerk.old.replica }
    requires drawn { clerk.old.pairs ≡ stored.old.items }
    requires due { IsDue desk.now.setup (entries_of stored.old.items) entry }
    requires sends { entry.act ≡ act.Send message }
    requires room { 0 < stored.old.room }
    ensures drawn { HasDrawn desk.now.setup clerk.old clerk.new entry }
    ensures stored { stored.new.items ≡ clerk.new.pairs }
    ensures room { stored.old.room ≤ stored.new.room + 1 }
    ensures parcel { result ≡ record { message = message; desk = desk.now.table; seen = clerk.new.seen } }
{
    draw(clerk, stored, desk, entry);
    Parcel {
        message,
        note: clerk.note(desk),
    }
}

//! A replica that is made again from its journal, and begins anew.
ghost use Rattle.std.specs.Prelude.{◌≡◌, ◌≢◌, ◌+◌, ◌<◌, ◌≤◌, ◌^◌, ◌++◌, ◌∷◌, [], false, None, IsTrue, IfOk, IfErr, OnErr, OnOk, map, slice_index, slice_set};
ghost use Rattle.tact_base.specs.Setup.{IsSetup};
ghost use Rattle.tact_base.specs.declared.limits.TheConstants.{CLIENTS, MOMENT_MAX};
ghost use Rattle.run_model.specs.Histories.{IsPrefix, calls_in};
ghost use Rattle.run_model.specs.Missing.{reserved};
ghost use Rattle.run_model.specs.Runs.{IsRun, WasSent};
ghost use Rattle.run_model.specs.declared.entry.Act.TheVariants as act;
ghost use Rattle.replica_core.specs.Stands.{GoesOn, IsSameReplica, Stands};
ghost use Rattle.replica_core.specs.States.{IsKept, is_full};
ghost use Rattle.restart_journal.specs.Pieces.{CanBePut, piece_bytes};
ghost use Rattle.journal_reread.specs.Rereading.{with_kept};
ghost use Rattle.entry_journal.specs.EntryJournals.{HasKept, IsKeptOf};
ghost use Rattle.locked_replica.specs.Asking.{conit_of, given_up, granted_to};
ghost use Rattle.locked_replica.specs.Journals.{IsJournaled, MayComeNext};
ghost use Rattle.locked_replica.specs.Locks.{HasEntered, IsLocked, IsOfDesk, entry_in, made_place, one_more_at, part_in, turns_place};
ghost use Rattle.locked_replica.specs.Restarting.{IsCallOf, IsNoCall, HasJustStored, HasReread, HasRestartDoubt, HasTotalsWith, IsRereadRefusal, IsRestartRefusal, OnlyWhereRestarted, found_of};

use crate::RestartFault;
use crate::locked::{Locked, count_call, count_entry, draw, set_reserved};
use entry_journal::{EntryJournal, Restarted};
use replica_core::Replica;
use restart_journal::due_can_be_put;
use run_history::{Desk, Note};
use run_model::{Act, Entry, Reply, Request};
use tact_io::Journal;

/// An entry in doubt that a journal gave back, as it counts: for which client, whether as a call, and what it was granted
/// if it is a reserve.
#[derive(Clone, Copy)]
pub struct Found {
    pub client: u32,
    pub call: bool,
    pub granted: Option<u64>,
}

impl Locked {
    /// Makes the replica again from its journal, for a session that has seen what a note has. The clerk learns the note;
    /// where the journal has the entry in doubt, that one is drawn and stored, and else it is dropped; then the note sees
    /// what the clerk has seen. Nothing is in doubt then, and the journal's pieces, which stay, are those of just the
    /// stored entries.
    ///
    /// `JournalReadFault` comes only where the journal failed in this call, and `Foreign` only where it gave another
    /// piece than was appended, or none: after both it is halted. All faults leave the replica, the stored entries, the
    /// totals and what is in doubt.
    pub fn reread<J: Journal>(
        &mut self,
        journal: &mut EntryJournal<J>,
        desk: &Desk,
        note: &mut Note,
    ) -> Result<Option<Found>, RestartFault>
        requires desk { IsOfDesk desk.now self.old }
        requires sound { IsSetup desk.now.setup }
        requires note { note.old.table ≡ desk.now.table }
        requires journaled { IsJournaled self.old journal.old }
        ensures kept { IsLocked self.new }
        ensures label { (self.new.core.setup ≡ self.old.core.setup) × (self.new.core.replica ≡ self.old.core.replica) × (self.new.clerk.table ≡ self.old.clerk.table) }
        ensures note { (note.new.table ≡ note.old.table) × (note.new.seen ≡ self.new.clerk.seen) }
        ensures run { IsRun desk.now.setup note.new.seen }
        ensures found { IfOk result (HasReread self.old self.new journal.old.doubt) }
        ensures told { OnOk result (HasJustStored journal.old self.new) }
        ensures journaled { IsJournaled self.new journal.new }
        ensures sure { OnOk result ((journal.new.doubt ≡ None) × (journal.new.halted ≡ journal.old.halted)) }
        ensures tells { journal.new.tells ≡ journal.old.tells }
        ensures stays { IsTrue journal.old.tells → journal.new.pieces ≡ journal.old.pieces }
        ensures never_falls { journal.old.faults ≤ journal.new.faults }
        ensures fault { IfErr result (IsRereadRefusal journal.old journal.new) }
        ensures met { IfErr result (OnlyWhereRestarted J.tells ((met : J) × (J.faults met ≢ 0))) }
        ensures doubt { OnErr result (journal.new.doubt ≡ journal.old.doubt) }
        ensures room { self.old.room ≤ self.new.room + 1 }
        ensures journal_room { journal.new.room ≡ journal.old.room }
        ensures err { OnErr result ((self.new.core ≡ self.old.core) × (self.new.stored ≡ self.old.stored) × (self.new.totals ≡ self.old.totals)) }
        ensures learnt { IsPrefix self.old.clerk.seen note.new.seen × IsPrefix note.old.seen note.new.seen }
    {
        self.learn(desk, note);
        let answer = self.make_again(journal, desk);
        self.tell(desk, note);
        answer
    }

    // Makes the replica again from its journal, and draws the entry in doubt where the journal has it.
    fn make_again<J: Journal>(
        &mut self,
        journal: &mut EntryJournal<J>,
        desk: &Desk,
    ) -> Result<Option<Found>, RestartFault>
        requires desk { IsOfDesk desk.now self.old }
        requires sound { IsSetup desk.now.setup }
        requires among { self.old.core.replica < desk.now.setup.replicas }
        requires run { IsRun desk.now.setup self.old.clerk.seen }
        requires journaled { IsJournaled self.old journal.old }
        ensures kept { IsLocked self.new }
        ensures label { (self.new.core.setup ≡ self.old.core.setup) × (self.new.core.replica ≡ self.old.core.replica) × (self.new.clerk.table ≡ self.old.clerk.table) }
        ensures found { IfOk result (HasReread self.old self.new journal.old.doubt) }
        ensures told { OnOk result (HasJustStored journal.old self.new) }
        ensures grows { IsPrefix self.old.clerk.seen self.new.clerk.seen }
        ensures run { IsRun desk.now.setup self.new.clerk.seen }
        ensures journaled { IsJournaled self.new journal.new }
        ensures sure { OnOk result ((journal.new.doubt ≡ None) × (journal.new.halted ≡ journal.old.halted)) }
        ensures tells { journal.new.tells ≡ journal.old.tells }
        ensures stays { IsTrue journal.old.tells → journal.new.pieces ≡ journal.old.pieces }
        ensures never_falls { journal.old.faults ≤ journal.new.faults }
        ensures fault { IfErr result (IsRereadRefusal journal.old journal.new) }
        ensures met { IfErr result (OnlyWhereRestarted J.tells ((met : J) × (J.faults met ≢ 0))) }
        ensures doubt { OnErr result (journal.new.doubt ≡ journal.old.doubt) }
        ensures room { self.old.room ≤ self.new.room + 1 }
        ensures journal_room { journal.new.room ≡ journal.old.room }
        ensures err { OnErr result ((self.new.core ≡ self.old.core) × (self.new.stored ≡ self.old.stored) × (self.new.totals ≡ self.old.totals) × (self.new.clerk ≡ self.old.clerk)) }
    {
        self.store_room()?;
        let Restarted { replica, kept } = self.read_again(journal)?;
        match kept {
            Some(entry) => Ok(Some(self.redraw(desk, replica, entry))),
            None => {
                self.put_again(replica);
                Ok(None)
            }
        }
    }

    // What the journal gives back.
    fn read_again<J: Journal>(
        &self,
        journal: &mut EntryJournal<J>,
    ) -> Result<Restarted, RestartFault>
        requires among { self.now.core.replica < self.now.core.setup.replicas }
        requires run { IsRun self.now.core.setup self.now.clerk.seen }
        requires journaled { IsJournaled self.now journal.old }
        ensures setup { IfOk result (λ read. IsSameReplica self.now.core read.replica.core) }
        ensures stands { IfOk result (λ read. Stands (with_kept (part_in self.now) read.kept) read.replica.core) }
        ensures kept { IfOk result (λ read. IsKeptOf journal.old.doubt read.kept) }
        ensures told { IfOk result (λ read. IsTrue journal.old.tells → journal.new.pieces ≡ map piece_bytes (with_kept (part_in self.now) read.kept)) }
        ensures sure { OnOk result ((journal.new.doubt ≡ None) × (journal.new.halted ≡ journal.old.halted)) }
        ensures tells { journal.new.tells ≡ journal.old.tells }
        ensures stays { IsTrue journal.old.tells → journal.new.pieces ≡ journal.old.pieces }
        ensures never_falls { journal.old.faults ≤ journal.new.faults }
        ensures fault { IfErr result (IsRereadRefusal journal.old journal.new) }
        ensures met { IfErr result (OnlyWhereRestarted J.tells ((met : J) × (J.faults met ≢ 0))) }
        ensures doubt { OnErr result (journal.new.doubt ≡ journal.old.doubt) }
        ensures journal_room { journal.new.room ≡ journal.old.room }
    {
        let number = self.replica_number();
        Ok(journal.reread(&self.config, number, self.stored.items())?)
    }

    // Puts a replica in the place of its own, which stands for the same part.
    fn put_again(&mut self, replica: Replica)
        requires same { IsSameReplica self.old.core replica.core }
        requires stands { Stands (part_in self.old) replica.core }
        ensures kept { IsLocked self.new }
        ensures value { self.new ≡ record self.old { core = replica.core; spare = replica.spare; beside = replica.beside } }
    {
        self.replica = replica;
    }

    // Puts a replica in the place of its own, which stands for its part with one more entry, and draws and stores that.
    fn redraw(&mut self, desk: &Desk, replica: Replica, entry: Entry) -> Found
        requires desk { IsOfDesk desk.now self.old }
        requires sound { IsSetup desk.now.setup }
        requires run { IsRun desk.now.setup self.old.clerk.seen }
        requires same { IsSameReplica self.old.core replica.core }
        requires stands { Stands (part_in self.old ++ entry ∷ []) replica.core }
        requires sent { WasSent self.old.clerk.seen entry.act }
        requires room { 0 < self.old.room }
        ensures kept { IsLocked self.new }
        ensures label { (self.new.core.setup ≡ self.old.core.setup) × (self.new.core.replica ≡ self.old.core.replica) × (self.new.clerk.table ≡ self.old.clerk.table) }
        ensures entered { HasEntered self.old self.new self.old.clerk.seen entry }
        ensures totals { HasTotalsWith self.old self.new entry.act }
        ensures found { result ≡ found_of entry.act }
        ensures grows { IsPrefix self.old.clerk.seen self.new.clerk.seen }
        ensures run { IsRun desk.now.setup self.new.clerk.seen }
        ensures left { self.old.room ≤ self.new.room + 1 }
    {
        let found = found_of(&entry.act);
        match &entry.act {
            Act::Call { request, .. } => {
                let conit = conit_of(request);
                self.redraw_call(desk, replica, entry, found.client, conit);
            }
            _ => self.redraw_other(desk, replica, entry),
        }
        found
    }

    // The same for a call of a client, which is on a conit.
    fn redraw_call(&mut self, desk: &Desk, replica: Replica, entry: Entry, client: u32, conit: u32)
        requires desk { IsOfDesk desk.now self.old }
        requires sound { IsSetup desk.now.setup }
        requires run { IsRun desk.now.setup self.old.clerk.seen }
        requires same { IsSameReplica self.old.core replica.core }
        requires stands { Stands (part_in self.old ++ entry ∷ []) replica.core }
        requires call { IsCallOf client conit entry.act }
        requires room { 0 < self.old.room }
        ensures kept { IsLocked self.new }
        ensures label { (self.new.core.setup ≡ self.old.core.setup) × (self.new.core.replica ≡ self.old.core.replica) × (self.new.clerk.table ≡ self.old.clerk.table) }
        ensures entered { HasEntered self.old self.new self.old.clerk.seen entry }
        ensures totals { self.new.totals ≡ slice_set (one_more_at (made_place self.old.core.setup.conits client)
            (one_more_at (turns_place self.old.core.setup.conits client) self.old.totals)) conit (reserved (part_in self.new) conit) }
        ensures grows { IsPrefix self.old.clerk.seen self.new.clerk.seen }
        ensures run { IsRun desk.now.setup self.new.clerk.seen }
        ensures left { self.old.room ≤ self.new.room + 1 }
    {
        self.replica = replica;
        draw(&mut self.clerk, &mut self.stored, desk, entry);
        count_call(&mut self.totals, self.conits, client);
        set_reserved(&mut self.totals, &self.replica, conit);
    }

    // The same for any other act, which counts for client 0.
    fn redraw_other(&mut self, desk: &Desk, replica: Replica, entry: Entry)
        requires desk { IsOfDesk desk.now self.old }
        requires run { IsRun desk.now.setup self.old.clerk.seen }
        requires same { IsSameReplica self.old.core replica.core }
        requires stands { Stands (part_in self.old ++ entry ∷ []) replica.core }
        requires other { IsNoCall entry.act }
        requires sent { WasSent self.old.clerk.seen entry.act }
        requires room { 0 < self.old.room }
        ensures kept { IsLocked self.new }
        ensures label { (self.new.core.setup ≡ self.old.core.setup) × (self.new.core.replica ≡ self.old.core.replica) × (self.new.clerk.table ≡ self.old.clerk.table) }
        ensures entered { HasEntered self.old self.new self.old.clerk.seen entry }
        ensures totals { self.new.totals ≡ one_more_at (made_place self.old.core.setup.conits 0) self.old.totals }
        ensures grows { IsPrefix self.old.clerk.seen self.new.clerk.seen }
        ensures run { IsRun desk.now.setup self.new.clerk.seen }
        ensures left { self.old.room ≤ self.new.room + 1 }
    {
        self.replica = replica;
        draw(&mut self.clerk, &mut self.stored, desk, entry);
        count_entry(&mut self.totals, self.conits, 0);
    }
}

// Restarts.
impl Locked {
    /// Makes a Restart, for a session that has seen what a note has, where nothing is in doubt; the journal isn't halted
    /// any more then. The clerk learns the note; where it isn't refused the Restart is drawn and stored; then the note
    /// sees what the clerk has seen. There is room for so many own writes then, and for each stored entry for which there
    /// was some.
    ///
    /// `Full` comes first, exactly where the replica is full, then `NoMemory`, then `JournalFault`, only where the journal
    /// failed in this call: after it the journal is halted and the Restart is in doubt. None makes an entry.
    pub fn restart<J: Journal>(
        &mut self,
        journal: &mut EntryJournal<J>,
        desk: &Desk,
        note: &mut Note,
        moment: u64,
        client: u32,
        spare: u64,
    ) -> Result<(), RestartFault>
        requires desk { IsOfDesk desk.now self.old }
        requires note { note.old.table ≡ desk.now.table }
        requires moment { moment ≤ MOMENT_MAX }
        requires client { client < CLIENTS }
        requires journaled { IsJournaled self.old journal.old }
        requires sure { journal.old.doubt ≡ None }
        ensures kept { IsLocked self.new }
        ensures label { (self.new.core.setup ≡ self.old.core.setup) × (self.new.core.replica ≡ self.old.core.replica) × (self.new.clerk.table ≡ self.old.clerk.table) }
        ensures note { (note.new.table ≡ note.old.table) × (note.new.seen ≡ self.new.clerk.seen) }
        ensures run { IsRun desk.now.setup note.new.seen }
        ensures entered { OnOk result (HasEntered self.old self.new note.old.seen (entry_in self.old moment act.Restart)) }
        ensures rooms { OnOk result (slice_index self.old.totals (made_place self.old.core.setup.conits client) + 1 < 2 ^ 64) }
        ensures totals { OnOk result (self.new.totals ≡ one_more_at (made_place self.old.core.setup.conits client) self.old.totals) }
        ensures journaled { IsJournaled self.new journal.new }
        ensures going { OnOk result ((journal.new.halted ≡ false) × (journal.new.doubt ≡ None)) }
        ensures doubt { IfErr result (HasRestartDoubt self.old moment journal.new) }
        ensures tells { journal.new.tells ≡ journal.old.tells }
        ensures never_falls { journal.old.faults ≤ journal.new.faults }
        ensures fault { IfErr result (IsRestartRefusal self.old.core journal.old journal.new) }
        ensures met { IfErr result (OnlyWhereRestarted J.tells ((met : J) × (J.faults met ≢ 0))) }
        ensures spare { OnOk result (spare ≤ self.new.spare) }
        ensures room { self.old.room ≤ self.new.room + 1 }
        ensures journal_room { journal.old.room ≤ journal.new.room + 1 }
        ensures err { OnErr result ((self.new.core ≡ self.old.core) × (self.new.stored ≡ self.old.stored) × (self.new.totals ≡ self.old.totals)) }
        ensures learnt { IsPrefix self.old.clerk.seen note.new.seen × IsPrefix note.old.seen note.new.seen }
    {
        self.learn(desk, note);
        let answer = self.kept_restart(journal, desk, moment, client, spare);
        self.tell(desk, note);
        answer
    }

    // Makes a Restart, once it is kept.
    fn kept_restart<J: Journal>(
        &mut self,
        journal: &mut EntryJournal<J>,
        desk: &Desk,
        moment: u64,
        client: u32,
        spare: u64,
    ) -> Result<(), RestartFault>
        requires desk { IsOfDesk desk.now self.old }
        requires moment { moment ≤ MOMENT_MAX }
        requires client { client < CLIENTS }
        requires journaled { IsJournaled self.old journal.old }
        requires sure { journal.old.doubt ≡ None }
        ensures kept { IsLocked self.new }
        ensures label { (self.new.core.setup ≡ self.old.core.setup) × (self.new.core.replica ≡ self.old.core.replica) × (self.new.clerk.table ≡ self.old.clerk.table) }
        ensures spare { OnOk result (spare ≤ self.new.spare) }
        ensures room { self.old.room ≤ self.new.room + 1 }
        ensures journal_room { journal.old.room ≤ journal.new.room + 1 }
        ensures entered { OnOk result (HasEntered self.old self.new self.old.clerk.seen (entry_in self.old moment act.Restart)) }
        ensures rooms { OnOk result (slice_index self.old.totals (made_place self.old.core.setup.conits client) + 1 < 2 ^ 64) }
        ensures totals { OnOk result (self.new.totals ≡ one_more_at (made_place self.old.core.setup.conits client) self.old.totals) }
        ensures grows { IsPrefix self.old.clerk.seen self.new.clerk.seen }
        ensures run { IsRun desk.now.setup self.old.clerk.seen → IsRun desk.now.setup self.new.clerk.seen }
        ensures err { OnErr result ((self.new.core ≡ self.old.core) × (self.new.stored ≡ self.old.stored) × (self.new.totals ≡ self.old.totals) × (self.new.clerk ≡ self.old.clerk)) }
        ensures journaled { IsJournaled self.new journal.new }
        ensures going { OnOk result ((journal.new.halted ≡ false) × (journal.new.doubt ≡ None)) }
        ensures doubt { IfErr result (HasRestartDoubt self.old moment journal.new) }
        ensures tells { journal.new.tells ≡ journal.old.tells }
        ensures never_falls { journal.old.faults ≤ journal.new.faults }
        ensures fault { IfErr result (IsRestartRefusal self.old.core journal.old journal.new) }
        ensures met { IfErr result (OnlyWhereRestarted J.tells ((met : J) × (J.faults met ≢ 0))) }
    {
        self.keep_restart(journal, moment, spare)?;
        self.enter_restart(desk, moment, client);
        Ok(())
    }

    // Appends a Restart, once there is room for so many own writes.
    fn keep_restart<J: Journal>(
        &mut self,
        journal: &mut EntryJournal<J>,
        moment: u64,
        spare: u64,
    ) -> Result<(), RestartFault>
        requires moment { moment ≤ MOMENT_MAX }
        requires journaled { IsJournaled self.old journal.old }
        requires sure { journal.old.doubt ≡ None }
        ensures value { self.new ≡ record self.old { spare = self.new.spare; beside = self.new.beside; room = self.new.room } }
        ensures kept { IsLocked self.new }
        ensures free { OnOk result (is_full self.old.core ≡ false) }
        ensures spare { OnOk result (spare ≤ self.new.spare) }
        ensures room { OnOk result (0 < self.new.room) }
        ensures no_less { self.old.room ≤ self.new.room }
        ensures journal_room { journal.old.room ≤ journal.new.room + 1 }
        ensures has { OnOk result (HasKept journal.old journal.new (entry_in self.old moment act.Restart)) }
        ensures journaled { OnErr result (IsJournaled self.new journal.new) }
        ensures doubt { IfErr result (HasRestartDoubt self.old moment journal.new) }
        ensures tells { journal.new.tells ≡ journal.old.tells }
        ensures never_falls { journal.old.faults ≤ journal.new.faults }
        ensures fault { IfErr result (IsRestartRefusal self.old.core journal.old journal.new) }
        ensures met { IfErr result (OnlyWhereRestarted J.tells ((met : J) × (J.faults met ≢ 0))) }
    {
        self.replica.may_enter()?;
        self.replica.reserve(spare)?;
        self.store_room()?;
        let entry = self.next_restart(moment);
        let piece = journal.prepare(&entry)?;
        journal.append(piece.items(), entry)?;
        Ok(())
    }

    // A Restart as its entry would be now.
    fn next_restart(&self, moment: u64) -> Entry
        requires kept { IsLocked self.now }
        requires free { is_full self.now.core ≡ false }
        requires sound { IsKept self.now.core }
        requires moment { moment ≤ MOMENT_MAX }
        ensures entry { result ≡ entry_in self.now moment act.Restart }
        ensures next { MayComeNext self.now result }
        ensures put { CanBePut result }
    {
        due_can_be_put();
        Entry {
            replica: self.replica_number(),
            moment: self.moment_after(moment),
            act: Act::Restart,
        }
    }

    // Makes a Restart. There is room for it.
    fn enter_restart(&mut self, desk: &Desk, moment: u64, client: u32)
        requires desk { IsOfDesk desk.now self.old }
        requires moment { moment ≤ MOMENT_MAX }
        requires client { client < CLIENTS }
        requires free { is_full self.old.core ≡ false }
        requires room { 0 < self.old.room }
        ensures kept { IsLocked self.new }
        ensures label { (self.new.core.setup ≡ self.old.core.setup) × (self.new.core.replica ≡ self.old.core.replica) × (self.new.clerk.table ≡ self.old.clerk.table) }
        ensures entered { HasEntered self.old self.new self.old.clerk.seen (entry_in self.old moment act.Restart) }
        ensures rooms { slice_index self.old.totals (made_place self.old.core.setup.conits client) + 1 < 2 ^ 64 }
        ensures totals { self.new.totals ≡ one_more_at (made_place self.old.core.setup.conits client) self.old.totals }
        ensures grows { IsPrefix self.old.clerk.seen self.new.clerk.seen }
        ensures run { IsRun desk.now.setup self.old.clerk.seen → IsRun desk.now.setup self.new.clerk.seen }
        ensures spare { self.new.spare ≡ self.old.spare }
        ensures left { self.old.room ≤ self.new.room + 1 }
    {
        let replica = self.replica_number();
        let at = self.moment_after(moment);
        begin_anew(&mut self.replica, moment);
        let entry = Entry {
            replica,
            moment: at,
            act: Act::Restart,
        };
        draw(&mut self.clerk, &mut self.stored, desk, entry);
        count_entry(&mut self.totals, self.conits, client);
    }
}

// The replica makes a Restart, which it may.
fn begin_anew(replica: &mut Replica, moment: u64)
    requires moment { moment ≤ MOMENT_MAX }
    requires free { is_full replica.old.core ≡ false }
    ensures goes_on { GoesOn replica.old.core replica.new.core moment (λ part. act.Restart) }
    ensures same { IsSameReplica replica.old.core replica.new.core }
    ensures spare { replica.new.spare ≡ replica.old.spare }
{
    match replica.restart(moment) {
        Ok(()) => {}
        Err(_) => unreachable!(),
    }
}

// How an entry counts that a journal gave back.
fn found_of(act: &Act) -> Found
    ensures { result ≡ found_of act.now }
{
    match act {
        Act::Call {
            client,
            request,
            reply,
            ..
        } => Found {
            client: *client,
            call: true,
            granted: granted_to(request, reply),
        },
        Act::Send { .. } | Act::Take { .. } | Act::Lend { .. } | Act::Back { .. } | Act::Restart =>
            Found {
                client: 0,
                call: false,
                granted: None,
            },
    }
}

// What a reserve was granted.
fn granted_to(request: &Request, reply: &Reply) -> Option<u64>
    ensures { result ≡ granted_to request.now reply.now }
{
    match request {
        Request::Reserve { amount, .. } => match reply {
            Reply::Granted => Some(*amount),
            _ => None,
        },
        Request::Write { .. }
        | Request::Held { .. }
        | Request::Release { .. }
        | Request::Read { .. } => None,
    }
}

/// On which conit a request is that has to do with what is reserved; a write or a read counts for the first.
pub fn conit_of(request: &Request) -> u32
    ensures { result ≡ conit_of request.now }
{
    match request {
        Request::Held { weight, .. } => weight.conit,
        Request::Reserve { conit, .. } | Request::Release { conit, .. } => *conit,
        Request::Write { .. } | Request::Read { .. } => 0,
    }
}

/// What a request takes out of an allowance: a held write its size, a release its amount.
pub fn given_up(request: &Request) -> Option<u64>
    ensures { result ≡ given_up request.now }
{
    match request {
        Request::Held { weight, .. } => Some(weight.nweight.unsigned_abs()),
        Request::Release { amount, .. } => Some(*amount),
        Request::Reserve { .. } | Request::Write { .. } | Request::Read { .. } => None,
    }
}

//! Entries as their journal gets them: each is known before the replica makes it, and is appended first. All memory is
//! taken before that; after a good append nothing can fail.
ghost use Rattle.std.specs.Prelude.{◌≡◌, ◌≢◌, ◌+◌, ◌<◌, ◌≤◌, ◌^◌, false, None, length, IsTrue, IsErrOf, IfOk, IfErr, OnErr, OnOk, slice_index, slice_set};
ghost use Rattle.tact_base.specs.declared.limits.TheConstants.{CLIENTS, MOMENT_MAX};
ghost use Rattle.run_model.specs.Histories.{moment_at, calls_in, IsPrefix};
ghost use Rattle.run_model.specs.Missing.{reserved};
ghost use Rattle.run_model.specs.Ranges.{IsRequestInRange};
ghost use Rattle.run_model.specs.Runs.{IsRun};
ghost use Rattle.run_model.specs.declared.entry.Act.TheVariants as act;
ghost use Rattle.replica_core.specs.States.{IsKept, is_full};
ghost use Rattle.restart_journal.specs.Pieces.{CanBePut, IsCall, piece_bytes};
ghost use Rattle.entry_journal.specs.EntryJournals.{HasDoubt, HasKept, HasRoomFor};
ghost use Rattle.locked_replica.specs.Asking.{MayAskWith};
ghost use Rattle.locked_replica.specs.Journals.{IsInDoubtAfter, IsJournaled, IsRefusal, IsRequestOf, IsSending, MayComeNext, OnlyWhere, call_in, send_in};
ghost use Rattle.locked_replica.specs.Locks.{HasEntered, IsLocked, IsOfDesk, entry_in, made_place, one_more_at, part_in, turns_place};
ghost use Rattle.locked_replica.specs.Parcels.{HasSending, message_to};
ghost use Rattle.locked_replica.specs.declared.fault.NodeFault.TheVariants as fault;

mod loans;

use crate::locked::Locked;
use crate::parcel::Parcel;
use crate::{NodeFault, TakeFault};
use entry_journal::EntryJournal;
use restart_journal::{call_piece, due_can_be_put};
use run_history::Desk;
use run_model::{Act, Entry, Message, Reply, Request};
use tact_base::NoMemory;
use tact_io::Journal;

// Calls of clients.
impl Locked {
    // Answers a call of a client that changes what is reserved on no other conit, once it is kept.
    pub(crate) fn kept_call<J: Journal>(
        &mut self,
        journal: &mut EntryJournal<J>,
        desk: &Desk,
        moment: u64,
        client: u32,
        conit: u32,
        request: Request,
    ) -> Result<Reply, NodeFault>
        requires desk { IsOfDesk desk.now self.old }
        requires moment { moment ≤ MOMENT_MAX }
        requires client { client < CLIENTS }
        requires conit { conit < self.old.core.setup.conits }
        requires in_range { IsRequestInRange self.old.core.setup request }
        requires asked { MayAskWith self.old.core.setup conit (reserved (part_in self.old) conit) request }
        requires journaled { IsJournaled self.old journal.old }
        ensures kept { IsLocked self.new }
        ensures label { (self.new.core.setup ≡ self.old.core.setup) × (self.new.core.replica ≡ self.old.core.replica) × (self.new.clerk.table ≡ self.old.clerk.table) }
        ensures entered { IfOk result (λ reply. HasEntered self.old self.new self.old.clerk.seen (record {
          replica = self.old.core.replica;
          moment = moment_at (part_in self.old) moment;
          act = act.Call client (calls_in (part_in self.old) client) request reply;
        })) }
        ensures rooms { OnOk result ((slice_index self.old.totals (turns_place self.old.core.setup.conits client) + 1 < 2 ^ 64) ×
            (slice_index self.old.totals (made_place self.old.core.setup.conits client) + 1 < 2 ^ 64)) }
        ensures totals { OnOk result (self.new.totals ≡ slice_set (one_more_at (made_place self.old.core.setup.conits client)
            (one_more_at (turns_place self.old.core.setup.conits client) self.old.totals)) conit (reserved (part_in self.new) conit)) }
        ensures grows { IsPrefix self.old.clerk.seen self.new.clerk.seen }
        ensures run { IsRun desk.now.setup self.old.clerk.seen → IsRun desk.now.setup self.new.clerk.seen }
        ensures spare { self.old.spare ≤ self.new.spare + 1 }
        ensures room { self.old.room ≤ self.new.room + 1 }
        ensures err { OnErr result ((self.new.core ≡ self.old.core) × (self.new.stored ≡ self.old.stored) × (self.new.totals ≡ self.old.totals) × (self.new.clerk ≡ self.old.clerk)) }
        ensures journaled { IsJournaled self.new journal.new }
        ensures going { OnOk result ((journal.old.halted ≡ false) × (journal.new.halted ≡ false)) }
        ensures fault { IfErr result (IsRefusal self.old.core journal.old journal.new) }
        ensures met { IfErr result (OnlyWhere (IsTrue J.tells → (met : J) × (J.faults met ≢ 0))) }
        ensures enough { 0 < self.old.spare → 0 < self.old.room → 0 < journal.old.room → IsErrOf result NodeFault.NoMemory → ⊥ }
        ensures journal_room { journal.old.room ≤ journal.new.room + 1 }
        ensures doubt { IfErr result (IsInDoubtAfter journal.new (call_in self.old moment client request)) }
        ensures counts { (journal.new.tells ≡ journal.old.tells) × (journal.old.faults ≤ journal.new.faults) }
    {
        let request = self.keep_call(journal, moment, client, request)?;
        Ok(self.enter_call(desk, moment, client, conit, request))
    }

    // Appends a call of a client, and gives its request back.
    fn keep_call<J: Journal>(
        &mut self,
        journal: &mut EntryJournal<J>,
        moment: u64,
        client: u32,
        request: Request,
    ) -> Result<Request, NodeFault>
        requires moment { moment ≤ MOMENT_MAX }
        requires client { client < CLIENTS }
        requires in_range { IsRequestInRange self.old.core.setup request }
        requires journaled { IsJournaled self.old journal.old }
        ensures value { self.new ≡ record self.old { spare = self.new.spare; beside = self.new.beside; room = self.new.room } }
        ensures kept { IsLocked self.new }
        ensures back { IfOk result (λ back. back ≡ request) }
        ensures free { OnOk result ((journal.old.halted ≡ false) × (is_full self.old.core ≡ false)) }
        ensures rooms { OnOk result ((0 < self.new.spare) × (0 < self.new.room)) }
        ensures no_less { (self.old.spare ≤ self.new.spare) × (self.old.room ≤ self.new.room) }
        ensures has { OnOk result (HasKept journal.old journal.new (call_in self.old moment client request)) }
        ensures journaled { OnErr result (IsJournaled self.new journal.new) }
        ensures fault { IfErr result (IsRefusal self.old.core journal.old journal.new) }
        ensures met { IfErr result (OnlyWhere (IsTrue J.tells → (met : J) × (J.faults met ≢ 0))) }
        ensures enough { 0 < self.old.spare → 0 < self.old.room → 0 < journal.old.room → IsErrOf result NodeFault.NoMemory → ⊥ }
        ensures journal_room { journal.old.room ≤ journal.new.room + 1 }
        ensures doubt { IfErr result (IsInDoubtAfter journal.new (call_in self.old moment client request)) }
        ensures counts { (journal.new.tells ≡ journal.old.tells) × (journal.old.faults ≤ journal.new.faults) }
    {
        self.may_keep(journal)?;
        self.make_room(1)?;
        journal.make_room(1)?;
        let entry = self.next_call(moment, client, request);
        let piece = call_piece(&entry);
        let entry = keep(journal, piece.bytes(), entry)?;
        Ok(request_of(entry))
    }

    // A call of a client as its entry would be now, with the reply that is due.
    fn next_call(&mut self, moment: u64, client: u32, request: Request) -> Entry
        requires kept { IsLocked self.old }
        requires free { is_full self.old.core ≡ false }
        requires sound { IsKept self.old.core }
        requires moment { moment ≤ MOMENT_MAX }
        requires client { client < CLIENTS }
        requires in_range { IsRequestInRange self.old.core.setup request }
        ensures entry { result ≡ call_in self.old moment client request }
        ensures next { MayComeNext self.old result }
        ensures put { CanBePut result }
        ensures call { IsCall result.act }
        ensures same { self.new ≡ self.old }
    {
        due_can_be_put();
        let replica = self.replica_number();
        let at = self.moment_after(moment);
        let number = self.calls_of(client);
        let reply = self.replica.reply(moment, &request);
        Entry {
            replica,
            moment: at,
            act: Act::Call {
                client,
                number,
                request,
                reply,
            },
        }
    }

    // Whether an entry may be kept: the journal isn't halted, and the replica isn't full.
    fn may_keep<J: Journal>(&self, journal: &EntryJournal<J>) -> Result<(), NodeFault>
        ensures ok { OnOk result ((journal.now.halted ≡ false) × (journal.now.doubt ≡ None) × (is_full self.now.core ≡ false)) }
        ensures sound { IsKept self.now.core }
        ensures kept { IsLocked self.now }
        ensures fault { IfErr result (IsRefusal self.now.core journal.now journal.now) }
        ensures early { IsErrOf result NodeFault.NoMemory → ⊥ }
        ensures met { IfErr result (OnlyWhere (IsTrue J.tells → (met : J) × (J.faults met ≢ 0))) }
    {
        let may = self.replica.may_enter();
        if journal.is_halted() {
            return Err(NodeFault::Halted);
        }
        Ok(may?)
    }
}

// Appends the piece of an entry, and gives the entry back.
fn keep<J: Journal>(
    journal: &mut EntryJournal<J>,
    piece: &[u8],
    entry: Entry,
) -> Result<Entry, NodeFault>
    requires sure { journal.old.doubt ≡ None }
    requires spelled { piece.now ≡ piece_bytes entry }
    requires room { HasRoomFor (length piece.now) journal.old }
    ensures back { IfOk result (λ back. back ≡ entry) }
    ensures has { OnOk result (HasKept journal.old journal.new entry) }
    ensures doubt { OnErr result (HasDoubt journal.old journal.new entry) }
    ensures fault { IfErr result (λ told. told ≡ fault.JournalFault) }
    ensures met { OnErr result (IsTrue J.tells → (met : J) × (J.faults met ≢ 0)) }
    ensures counts { (journal.new.tells ≡ journal.old.tells) × (journal.old.faults ≤ journal.new.faults) }
    ensures room { journal.old.room ≤ journal.new.room + 1 }
{
    Ok(journal.append(piece, entry)?)
}

// The request of a call.
fn request_of(entry: Entry) -> Request
    requires { IsCall entry.act }
    ensures { IsRequestOf entry.act result }
{
    let Entry { act, .. } = entry;
    match act {
        Act::Call { request, .. } => request,
        _ => unreachable!(),
    }
}

// Sendings and takings.
impl Locked {
    // Sends a message to another replica, once it is kept.
    pub(crate) fn kept_send<J: Journal>(
        &mut self,
        journal: &mut EntryJournal<J>,
        desk: &Desk,
        moment: u64,
        client: u32,
        to: u32,
    ) -> Result<Parcel, NodeFault>
        requires desk { IsOfDesk desk.now self.old }
        requires moment { moment ≤ MOMENT_MAX }
        requires client { client < CLIENTS }
        requires to { to < self.old.core.setup.replicas }
        requires other { to ≢ self.old.core.replica }
        requires journaled { IsJournaled self.old journal.old }
        ensures kept { IsLocked self.new }
        ensures label { (self.new.core.setup ≡ self.old.core.setup) × (self.new.core.replica ≡ self.old.core.replica) × (self.new.clerk.table ≡ self.old.clerk.table) }
        ensures entered { IfOk result (λ parcel. HasEntered self.old self.new self.old.clerk.seen (entry_in self.old moment (act.Send parcel.message))) }
        ensures message { IfOk result (λ parcel. parcel.message ≡ message_to self.old.core.setup self.old.core.replica (part_in self.old) moment to) }
        ensures parcel { IfOk result (λ parcel. (parcel.desk ≡ desk.now.table) × (parcel.seen ≡ self.new.clerk.seen)) }
        ensures rooms { OnOk result (slice_index self.old.totals (made_place self.old.core.setup.conits client) + 1 < 2 ^ 64) }
        ensures totals { OnOk result (self.new.totals ≡ one_more_at (made_place self.old.core.setup.conits client) self.old.totals) }
        ensures grows { IsPrefix self.old.clerk.seen self.new.clerk.seen }
        ensures run { IsRun desk.now.setup self.old.clerk.seen → IsRun desk.now.setup self.new.clerk.seen }
        ensures spare { self.old.spare ≤ self.new.spare }
        ensures room { self.old.room ≤ self.new.room + 1 }
        ensures err { OnErr result ((self.new.core ≡ self.old.core) × (self.new.stored ≡ self.old.stored) × (self.new.totals ≡ self.old.totals) × (self.new.clerk ≡ self.old.clerk)) }
        ensures journaled { IsJournaled self.new journal.new }
        ensures going { OnOk result ((journal.old.halted ≡ false) × (journal.new.halted ≡ false)) }
        ensures fault { IfErr result (IsRefusal self.old.core journal.old journal.new) }
        ensures met { IfErr result (OnlyWhere (IsTrue J.tells → (met : J) × (J.faults met ≢ 0))) }
        ensures journal_room { journal.old.room ≤ journal.new.room + 1 }
        ensures doubt { IfErr result (IsInDoubtAfter journal.new (send_in self.old moment to)) }
        ensures counts { (journal.new.tells ≡ journal.old.tells) × (journal.old.faults ≤ journal.new.faults) }
    {
        let (message, carried) = self.keep_send(journal, moment, to)?;
        Ok(self.enter_send(desk, moment, client, to, message, carried))
    }

    // Appends the sending of the message that is due, and gives the message twice.
    fn keep_send<J: Journal>(
        &mut self,
        journal: &mut EntryJournal<J>,
        moment: u64,
        to: u32,
    ) -> Result<(Message, Message), NodeFault>
        requires moment { moment ≤ MOMENT_MAX }
        requires to { to < self.old.core.setup.replicas }
        requires other { to ≢ self.old.core.replica }
        requires journaled { IsJournaled self.old journal.old }
        ensures value { self.new ≡ record self.old { spare = self.new.spare; beside = self.new.beside; room = self.new.room } }
        ensures kept { IsLocked self.new }
        ensures sound { IsKept self.old.core }
        ensures message { IfOk result (λ both. both.0 ≡ message_to self.old.core.setup self.old.core.replica (part_in self.old) moment to) }
        ensures carried { IfOk result (λ both. both.1 ≡ both.0) }
        ensures free { OnOk result ((journal.old.halted ≡ false) × (is_full self.old.core ≡ false)) }
        ensures rooms { OnOk result (0 < self.new.room) }
        ensures no_less { (self.old.spare ≤ self.new.spare) × (self.old.room ≤ self.new.room) }
        ensures has { OnOk result (HasKept journal.old journal.new (send_in self.old moment to)) }
        ensures journaled { OnErr result (IsJournaled self.new journal.new) }
        ensures fault { IfErr result (IsRefusal self.old.core journal.old journal.new) }
        ensures met { IfErr result (OnlyWhere (IsTrue J.tells → (met : J) × (J.faults met ≢ 0))) }
        ensures journal_room { journal.old.room ≤ journal.new.room + 1 }
        ensures doubt { IfErr result (IsInDoubtAfter journal.new (send_in self.old moment to)) }
        ensures counts { (journal.new.tells ≡ journal.old.tells) × (journal.old.faults ≤ journal.new.faults) }
    {
        self.may_keep(journal)?;
        let entry = self.next_send(moment, to)?;
        let carried = copy_of(&entry)?;
        self.store_room()?;
        let piece = journal.prepare(&entry)?;
        let entry = keep(journal, piece.items(), entry)?;
        Ok((message_of(entry), carried))
    }

    // A sending as its entry would be now.
    fn next_send(&self, moment: u64, to: u32) -> Result<Entry, NoMemory>
        requires kept { IsLocked self.now }
        requires free { is_full self.now.core ≡ false }
        requires sound { IsKept self.now.core }
        requires moment { moment ≤ MOMENT_MAX }
        requires to { to < self.now.core.setup.replicas }
        requires other { to ≢ self.now.core.replica }
        ensures entry { IfOk result (λ entry. entry ≡ send_in self.now moment to) }
        ensures next { IfOk result (MayComeNext self.now) }
        ensures put { IfOk result CanBePut }
    {
        due_can_be_put();
        let message = self.replica.message(moment, to, &self.firsts)?;
        Ok(Entry {
            replica: self.replica_number(),
            moment: self.moment_after(moment),
            act: Act::Send { message },
        })
    }

    // Takes a parcel whose message the clerk has seen sent to its replica, once it is kept.
    pub(crate) fn kept_take<J: Journal>(
        &mut self,
        journal: &mut EntryJournal<J>,
        desk: &Desk,
        moment: u64,
        client: u32,
        parcel: Parcel,
    ) -> Result<(), TakeFault>
        requires desk { IsOfDesk desk.now self.old }
        requires moment { moment ≤ MOMENT_MAX }
        requires client { client < CLIENTS }
        requires addressed { parcel.message.to ≡ self.old.core.replica }
        requires sent { HasSending self.old.clerk.seen parcel.message }
        requires run { IsRun desk.now.setup self.old.clerk.seen }
        requires journaled { IsJournaled self.old journal.old }
        ensures kept { IsLocked self.new }
        ensures label { (self.new.core.setup ≡ self.old.core.setup) × (self.new.core.replica ≡ self.old.core.replica) × (self.new.clerk.table ≡ self.old.clerk.table) }
        ensures entered { OnOk result (HasEntered self.old self.new self.old.clerk.seen (entry_in self.old moment (act.Take parcel.message))) }
        ensures rooms { OnOk result (slice_index self.old.totals (made_place self.old.core.setup.conits client) + 1 < 2 ^ 64) }
        ensures totals { OnOk result (self.new.totals ≡ one_more_at (made_place self.old.core.setup.conits client) self.old.totals) }
        ensures grows { IsPrefix self.old.clerk.seen self.new.clerk.seen }
        ensures run { IsRun desk.now.setup self.new.clerk.seen }
        ensures spare { self.old.spare ≤ self.new.spare }
        ensures room { self.old.room ≤ self.new.room + 1 }
        ensures back { IfErr result (λ refused. refused.parcel ≡ parcel) }
        ensures err { OnErr result ((self.new.core ≡ self.old.core) × (self.new.stored ≡ self.old.stored) × (self.new.totals ≡ self.old.totals) × (self.new.clerk ≡ self.old.clerk)) }
        ensures journaled { IsJournaled self.new journal.new }
        ensures going { OnOk result ((journal.old.halted ≡ false) × (journal.new.halted ≡ false)) }
        ensures fault { IfErr result (λ refused. IsRefusal self.old.core journal.old journal.new refused.fault) }
        ensures met { IfErr result (λ refused. OnlyWhere (IsTrue J.tells → (met : J) × (J.faults met ≢ 0)) refused.fault) }
        ensures journal_room { journal.old.room ≤ journal.new.room + 1 }
        ensures doubt { IfErr result (λ refused. IsInDoubtAfter journal.new (entry_in self.old moment (act.Take parcel.message)) refused.fault) }
        ensures counts { (journal.new.tells ≡ journal.old.tells) × (journal.old.faults ≤ journal.new.faults) }
    {
        if let Err(fault) = self.keep_take(journal, desk, moment, &parcel.message) {
            return Err(TakeFault { fault, parcel });
        }
        self.enter_take(desk, moment, client, parcel);
        Ok(())
    }

    // Appends the taking of a message that was sent to its replica.
    fn keep_take<J: Journal>(
        &mut self,
        journal: &mut EntryJournal<J>,
        desk: &Desk,
        moment: u64,
        message: &Message,
    ) -> Result<(), NodeFault>
        requires desk { IsOfDesk desk.now self.old }
        requires moment { moment ≤ MOMENT_MAX }
        requires addressed { message.now.to ≡ self.old.core.replica }
        requires sent { HasSending self.old.clerk.seen message.now }
        requires run { IsRun desk.now.setup self.old.clerk.seen }
        requires journaled { IsJournaled self.old journal.old }
        ensures value { self.new ≡ record self.old { spare = self.new.spare; beside = self.new.beside; room = self.new.room } }
        ensures kept { IsLocked self.new }
        ensures free { OnOk result ((journal.old.halted ≡ false) × (is_full self.old.core ≡ false)) }
        ensures rooms { OnOk result ((length message.now.writes ≤ self.new.beside) × (0 < self.new.room)) }
        ensures no_less { (self.old.spare ≤ self.new.spare) × (self.old.room ≤ self.new.room) }
        ensures has { OnOk result (HasKept journal.old journal.new (entry_in self.old moment (act.Take message.now))) }
        ensures journaled { OnErr result (IsJournaled self.new journal.new) }
        ensures fault { IfErr result (IsRefusal self.old.core journal.old journal.new) }
        ensures met { IfErr result (OnlyWhere (IsTrue J.tells → (met : J) × (J.faults met ≢ 0))) }
        ensures journal_room { journal.old.room ≤ journal.new.room + 1 }
        ensures doubt { IfErr result (IsInDoubtAfter journal.new (entry_in self.old moment (act.Take message.now))) }
        ensures counts { (journal.new.tells ≡ journal.old.tells) × (journal.old.faults ≤ journal.new.faults) }
    {
        self.may_keep(journal)?;
        self.store_room()?;
        self.replica.reserve_told(message.writes.len() as u64)?;
        let entry = self.next_take(desk, moment, message)?;
        let piece = journal.prepare(&entry)?;
        keep(journal, piece.items(), entry)?;
        Ok(())
    }

    // A taking as its entry would be now.
    fn next_take(&self, desk: &Desk, moment: u64, message: &Message) -> Result<Entry, NoMemory>
        requires desk { IsOfDesk desk.now self.now }
        requires kept { IsLocked self.now }
        requires free { is_full self.now.core ≡ false }
        requires sound { IsKept self.now.core }
        requires moment { moment ≤ MOMENT_MAX }
        requires addressed { message.now.to ≡ self.now.core.replica }
        requires sent { HasSending self.now.clerk.seen message.now }
        requires run { IsRun desk.now.setup self.now.clerk.seen }
        ensures entry { IfOk result (λ entry. entry ≡ entry_in self.now moment (act.Take message.now)) }
        ensures next { IfOk result (MayComeNext self.now) }
        ensures put { IfOk result CanBePut }
    {
        due_can_be_put();
        Ok(Entry {
            replica: self.replica_number(),
            moment: self.moment_after(moment),
            act: Act::Take {
                message: message.clone()?,
            },
        })
    }

    // Room to store an entry.
    pub(crate) fn store_room(&mut self) -> Result<(), NoMemory>
        ensures kept { IsLocked self.new }
        ensures value { self.new ≡ record self.old { room = self.new.room } }
        ensures room { OnOk result (0 < self.new.room) }
        ensures no_less { self.old.room ≤ self.new.room }
    {
        self.stored.reserve(1)
    }
}

// The message of a sending, out of its entry.
fn message_of(entry: Entry) -> Message
    requires { IsSending entry.act }
    ensures { entry.act ≡ act.Send result }
{
    let Entry { act, .. } = entry;
    match act {
        Act::Send { message } => message,
        _ => unreachable!(),
    }
}

// A second message of a sending.
fn copy_of(entry: &Entry) -> Result<Message, NoMemory>
    requires { IsSending entry.now.act }
    ensures { IfOk result (λ copy. entry.now.act ≡ act.Send copy) }
{
    match &entry.act {
        Act::Send { message } => Ok(message.clone()?),
        _ => unreachable!(),
    }
}

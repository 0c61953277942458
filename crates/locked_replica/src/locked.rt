//! The value behind a node's lock, and the entries that are made with it.
ghost use Rattle.std.specs.Prelude.{[], ◌≡◌, ◌+◌, ◌*◌, ◌<◌, ◌≤◌, ◌^◌, ◌≢◌, false, length, slice_index, slice_set, IsTrue, IsErrOf, IfOk, IfErr, IsOk, OnErr, OnOk};
ghost use Rattle.tact_base.specs.Setup.{IsSetup};
ghost use Rattle.tact_base.specs.declared.limits.TheConstants.{CLIENTS, MOMENT_MAX};
ghost use Rattle.run_model.specs.Histories.{moment_at, calls_in, IsPrefix};
ghost use Rattle.run_model.specs.Missing.{reserved};
ghost use Rattle.run_model.specs.Ranges.{IsRequestInRange};
ghost use Rattle.run_model.specs.Runs.{IsDue, IsRun, WasSent};
ghost use Rattle.run_model.specs.declared.entry.Act.TheVariants as act;
ghost use Rattle.run_history.specs.Ticks.{entries_of};
ghost use Rattle.split_budget.specs.Budgets.{reserved_on};
ghost use Rattle.replica_core.specs.States.{is_full};
ghost use Rattle.replica_core.specs.Stands.{GoesOn, IsSameReplica};
ghost use Rattle.weight_ledger.specs.Amounts.{zeros};
ghost use Rattle.locked_replica.specs.Asking.{MayAskWith};
ghost use Rattle.locked_replica.specs.Journals.{IsInDoubtAfter, IsJournaled, IsRefusal, OnlyWhere, call_in};
ghost use Rattle.locked_replica.specs.declared.fault.NodeFault.TheVariants as fault;
ghost use Rattle.locked_replica.specs.Locks.{HasDrawn, HasEntered, IsLocked, IsOfDesk, made_place, one_more_at, part_in, turns_place};

use crate::NodeFault;
use entry_journal::EntryJournal;
use replica_core::Replica;
use run_history::{Clerk, Desk, Note};
use run_model::{Act, Config, Entry, Reply, Request};
use std::alloc::{AllocError, Global};
use std::marker::Model;
use tact_base::{CLIENTS, Numbers, RoomyList};
use tact_io::Journal;

/// The value behind a node's lock: the setup, its replica, the clerk that draws the replica's entries, the entries that were drawn
/// with their ticks, the totals by place that tallies outside add up, and the zeros that a sending is handed as firsts.
#[derive(Drop)]
pub struct Locked {
    pub(crate) config: Config,
    pub(crate) replica: Replica,
    pub(crate) clerk: Clerk,
    pub(crate) stored: RoomyList<(u64, Entry)>,
    pub(crate) conits: u32,
    pub(crate) totals: Vec<u64>,
    pub(crate) firsts: Numbers,
}

impl Model for Locked {
    ghost use Rattle.std.specs.Prelude.{◌≡◌, replicate};
    ghost use Rattle.locked_replica.specs.Locks.{IsLocked, LockedView};

    ghost Value = { LockedView };

    ghost view = { λ l. record {
      core = l.replica.core;
      clerk = l.clerk;
      stored = l.stored.items;
      totals = l.totals.items;
      spare = l.replica.spare;
      beside = l.replica.beside;
      room = l.stored.room;
    } };

    ghost invariant = { λ l. IsLocked (view l) × (l.conits ≡ l.replica.core.setup.conits) × (l.firsts ≡ replicate l.replica.core.setup.replicas 0)
        × (l.config ≡ l.replica.core.setup) };
}

impl Locked {
    /// The value of a node that made no entry. Want of memory is the only error, and gives the clerk back.
    pub fn new(alloc: Global, config: &Config, clerk: Clerk) -> Result<Locked, Clerk>
        requires among { clerk.replica < config.now.replicas }
        requires drawn { clerk.pairs ≡ [] }
        ensures core { IfOk result (λ made. (made.core.setup ≡ config.now) × (made.core.replica ≡ clerk.replica)) }
        ensures clerk { IfOk result (λ made. made.clerk ≡ clerk) }
        ensures totals { IfOk result (λ made. made.totals ≡ zeros (config.now.conits + 2 * CLIENTS)) }
        ensures refused { IfErr result (λ back. back ≡ clerk) }
    {
        let number = clerk.replica();
        let conits = config.conits();
        let Ok(own) = config.copy(alloc) else {
            return Err(clerk);
        };
        let Ok(replica) = Replica::new(alloc, config, number) else {
            return Err(clerk);
        };
        let Ok(totals) = zeros(alloc, conits as usize + 2 * CLIENTS as usize) else {
            return Err(clerk);
        };
        let Ok(firsts) = Numbers::filled(alloc, 0, config.replicas()) else {
            return Err(clerk);
        };
        Ok(Locked {
            config: own,
            replica,
            clerk,
            stored: RoomyList::new(alloc),
            conits,
            totals,
            firsts,
        })
    }

    /// The clerk, where the value isn't needed any more.
    pub fn into_clerk(self) -> Clerk
        ensures { result ≡ self.clerk }
    {
        let Locked { clerk, .. } = self;
        clerk
    }

    /// Tells what it keeps, and changes nothing.
    pub fn stand(&self)
        ensures { IsLocked self.now }
    {
        let _ = &self.conits;
    }

    /// Answers a call of a client, for a session that has seen what a note has. It takes nothing out of what is
    /// reserved but on the conit, and there no more than there is. The clerk learns the note; where it isn't refused
    /// the call is drawn and stored; then the note sees what the clerk has seen.
    pub fn call<J: Journal>(
        &mut self,
        journal: &mut EntryJournal<J>,
        desk: &Desk,
        note: &mut Note,
        moment: u64,
        client: u32,
        conit: u32,
        request: Request,
    ) -> Result<Reply, NodeFault>
        requires desk { IsOfDesk desk.now self.old }
        requires sound { IsSetup desk.now.setup }
        requires note { note.old.table ≡ desk.now.table }
        requires moment { moment ≤ MOMENT_MAX }
        requires client { client < CLIENTS }
        requires conit { conit < self.old.core.setup.conits }
        requires asked { MayAskWith self.old.core.setup conit (reserved (part_in self.old) conit) request }
        requires journaled { IsJournaled self.old journal.old }
        ensures kept { IsLocked self.new }
        ensures label { (self.new.core.setup ≡ self.old.core.setup) × (self.new.core.replica ≡ self.old.core.replica) × (self.new.clerk.table ≡ self.old.clerk.table) }
        ensures note { (note.new.table ≡ note.old.table) × (note.new.seen ≡ self.new.clerk.seen) }
        ensures run { IsRun desk.now.setup note.new.seen }
        ensures entered { IfOk result (λ reply. HasEntered self.old self.new note.old.seen (record {
          replica = self.old.core.replica;
          moment = moment_at (part_in self.old) moment;
          act = act.Call client (calls_in (part_in self.old) client) request reply;
        })) }
        ensures rooms { OnOk result ((slice_index self.old.totals (turns_place self.old.core.setup.conits client) + 1 < 2 ^ 64) ×
            (slice_index self.old.totals (made_place self.old.core.setup.conits client) + 1 < 2 ^ 64)) }
        ensures totals { OnOk result (self.new.totals ≡ slice_set (one_more_at (made_place self.old.core.setup.conits client)
            (one_more_at (turns_place self.old.core.setup.conits client) self.old.totals)) conit (reserved (part_in self.new) conit)) }
        ensures spare { self.old.spare ≤ self.new.spare + 1 }
        ensures room { self.old.room ≤ self.new.room + 1 }
        ensures journaled { IsJournaled self.new journal.new }
        ensures going { OnOk result ((journal.old.halted ≡ false) × (journal.new.halted ≡ false)) }
        ensures fault { IfErr result (IsRefusal self.old.core journal.old journal.new) }
        ensures met { IfErr result (OnlyWhere (IsTrue J.tells → (met : J) × (J.faults met ≢ 0))) }
        ensures enough { 0 < self.old.spare → 0 < self.old.room → 0 < journal.old.room → IsErrOf result NodeFault.NoMemory → ⊥ }
        ensures journal_room { journal.old.room ≤ journal.new.room + 1 }
        ensures doubt { IfErr result (IsInDoubtAfter journal.new (call_in self.old moment client request)) }
        ensures counts { (journal.new.tells ≡ journal.old.tells) × (journal.old.faults ≤ journal.new.faults) }
        ensures err { OnErr result ((self.new.core ≡ self.old.core) × (self.new.stored ≡ self.old.stored) × (self.new.totals ≡ self.old.totals)) }
        ensures learnt { IsPrefix self.old.clerk.seen note.new.seen × IsPrefix note.old.seen note.new.seen }
    {
        self.learn(desk, note);
        let answer = self.kept_call(journal, desk, moment, client, conit, request);
        self.tell(desk, note);
        answer
    }
}

impl Locked {
    /// For how many own writes there is room.
    pub fn spare(&self) -> u64
        ensures { result ≡ self.now.spare }
    {
        self.replica.spare()
    }

    /// Makes room for so many own writes and stored entries. Want of memory is its only error.
    pub fn make_room(&mut self, count: u64) -> Result<(), NodeFault>
        ensures kept { IsLocked self.new }
        ensures value { self.new ≡ record self.old { spare = self.new.spare; beside = self.new.beside; room = self.new.room } }
        ensures room { OnOk result ((count ≤ self.new.spare) × (count ≤ self.new.room)) }
        ensures no_less { (self.old.spare ≤ self.new.spare) × (self.old.room ≤ self.new.room) }
        ensures enough { count ≤ self.old.spare → count ≤ self.old.room → IsOk result }
        ensures fault { IfErr result (λ told. told ≡ fault.NoMemory) }
    {
        self.stored.reserve(count)?;
        self.replica.reserve(count)?;
        Ok(())
    }

    /// The clerk learns what two notes have seen, of which the first then sees what the clerk has seen.
    pub fn hear(&mut self, desk: &Desk, note: &mut Note, mut other: Note)
        requires desk { IsOfDesk desk.now self.old }
        requires note { note.old.table ≡ desk.now.table }
        requires other { other.table ≡ desk.now.table }
        ensures kept { IsLocked self.new }
        ensures value { self.new ≡ record self.old { clerk = record self.old.clerk { seen = self.new.clerk.seen } } }
        ensures note { (note.new.table ≡ note.old.table) × (note.new.seen ≡ self.new.clerk.seen) }
        ensures run { IsRun desk.now.setup note.new.seen }
        ensures learnt { IsPrefix self.old.clerk.seen note.new.seen × IsPrefix note.old.seen note.new.seen }
        ensures heard { IsPrefix other.seen note.new.seen }
    {
        self.learn(desk, note);
        self.learn(desk, &mut other);
        self.tell(desk, note);
    }

    /// The clerk learns what a note has seen, and the note sees what the clerk has seen.
    pub fn hear_own(&mut self, desk: &Desk, note: &mut Note)
        requires desk { IsOfDesk desk.now self.old }
        requires note { note.old.table ≡ desk.now.table }
        ensures kept { IsLocked self.new }
        ensures value { self.new ≡ record self.old { clerk = record self.old.clerk { seen = self.new.clerk.seen } } }
        ensures note { (note.new.table ≡ note.old.table) × (note.new.seen ≡ self.new.clerk.seen) }
        ensures run { IsRun desk.now.setup note.new.seen }
        ensures learnt { IsPrefix self.old.clerk.seen note.new.seen × IsPrefix note.old.seen note.new.seen }
    {
        self.learn(desk, note);
        self.tell(desk, note);
    }

    /// The clerk and the stored entries, where the node ends.
    pub fn into_parts(self) -> (Clerk, RoomyList<(u64, Entry)>)
        ensures clerk { result.0 ≡ self.clerk }
        ensures stored { result.1.items ≡ self.stored }
        ensures kept { IsLocked self }
    {
        let Locked { clerk, stored, .. } = self;
        (clerk, stored)
    }

    // The clerk learns what a note has seen.
    pub(crate) fn learn(&mut self, desk: &Desk, note: &mut Note)
        requires desk { IsOfDesk desk.now self.old }
        requires note { note.old.table ≡ desk.now.table }
        ensures kept { IsLocked self.new }
        ensures note { note.new ≡ note.old }
        ensures value { self.new ≡ record self.old { clerk = self.new.clerk } }
        ensures clerk { self.new.clerk ≡ record self.old.clerk { seen = self.new.clerk.seen } }
        ensures mine { IsPrefix self.old.clerk.seen self.new.clerk.seen }
        ensures told { IsPrefix note.old.seen self.new.clerk.seen }
        ensures run { IsRun desk.now.setup self.new.clerk.seen }
        ensures among { self.new.core.replica < desk.now.setup.replicas }
    {
        self.clerk.learn(desk, note.twin(desk));
    }

    // A note sees what the clerk has seen.
    pub(crate) fn tell(&mut self, desk: &Desk, note: &mut Note)
        requires { self.old.clerk.table ≡ desk.now.table }
        ensures value { self.new ≡ self.old }
        ensures note { note.new ≡ record { table = desk.now.table; seen = self.old.clerk.seen } }
    {
        *note = self.clerk.note(desk);
    }
}

impl Locked {
    /// What is reserved on a conit, which is the total of the allowances out there.
    pub fn reserved(&self, conit: u32) -> u64
        requires conit { conit < self.now.core.setup.conits }
        ensures total { result ≡ slice_index self.now.totals conit }
        ensures reserved { result ≡ reserved (part_in self.now) conit }
    {
        self.totals[conit as usize]
    }

    // The number of its replica.
    pub(crate) fn replica_number(&self) -> u32
        ensures { result ≡ self.now.core.replica }
    {
        self.clerk.replica()
    }

    // The moment of an entry that is made now, where this one is handed.
    pub(crate) fn moment_after(&self, handed: u64) -> u64
        ensures { result ≡ moment_at (part_in self.now) handed }
    {
        handed.max(self.replica.last())
    }

    // How many calls of a client its part has.
    pub(crate) fn calls_of(&self, client: u32) -> u64
        requires { client < CLIENTS }
        ensures { result ≡ calls_in (part_in self.now) client }
    {
        self.replica.calls(client)
    }

    // Answers a call of a client that changes what is reserved on no other conit. There is room for it.
    pub(crate) fn enter_call(
        &mut self,
        desk: &Desk,
        moment: u64,
        client: u32,
        conit: u32,
        request: Request,
    ) -> Reply
        requires desk { IsOfDesk desk.now self.old }
        requires moment { moment ≤ MOMENT_MAX }
        requires client { client < CLIENTS }
        requires conit { conit < self.old.core.setup.conits }
        requires in_range { IsRequestInRange self.old.core.setup request }
        requires asked { MayAskWith self.old.core.setup conit (reserved (part_in self.old) conit) request }
        requires free { is_full self.old.core ≡ false }
        requires rooms { (0 < self.old.spare) × (0 < self.old.room) }
        ensures kept { IsLocked self.new }
        ensures label { (self.new.core.setup ≡ self.old.core.setup) × (self.new.core.replica ≡ self.old.core.replica) × (self.new.clerk.table ≡ self.old.clerk.table) }
        ensures entered { HasEntered self.old self.new self.old.clerk.seen (record {
          replica = self.old.core.replica;
          moment = moment_at (part_in self.old) moment;
          act = act.Call client (calls_in (part_in self.old) client) request result;
        }) }
        ensures rooms { (slice_index self.old.totals (turns_place self.old.core.setup.conits client) + 1 < 2 ^ 64) ×
            (slice_index self.old.totals (made_place self.old.core.setup.conits client) + 1 < 2 ^ 64) }
        ensures totals { self.new.totals ≡ slice_set (one_more_at (made_place self.old.core.setup.conits client)
            (one_more_at (turns_place self.old.core.setup.conits client) self.old.totals)) conit (reserved (part_in self.new) conit) }
        ensures grows { IsPrefix self.old.clerk.seen self.new.clerk.seen }
        ensures run { IsRun desk.now.setup self.old.clerk.seen → IsRun desk.now.setup self.new.clerk.seen }
        ensures spare { self.old.spare ≤ self.new.spare + 1 }
        ensures room { self.old.room ≤ self.new.room + 1 }
    {
        let replica = self.replica_number();
        let at = self.moment_after(moment);
        let number = self.calls_of(client);
        let reply = answer(&mut self.replica, moment, client, &request);
        let given = copied(&reply);
        let entry = Entry {
            replica,
            moment: at,
            act: Act::Call {
                client,
                number,
                request,
                reply,
            },
        };
        draw(&mut self.clerk, &mut self.stored, desk, entry);
        count_call(&mut self.totals, self.conits, client);
        set_reserved(&mut self.totals, &self.replica, conit);
        given
    }
}

// The replica answers a call, for which there is room.
fn answer(replica: &mut Replica, moment: u64, client: u32, request: &Request) -> Reply
    requires moment { moment ≤ MOMENT_MAX }
    requires client { client < CLIENTS }
    requires in_range { IsRequestInRange replica.old.core.setup request.now }
    requires free { is_full replica.old.core ≡ false }
    requires room { 0 < replica.old.spare }
    ensures goes_on { GoesOn replica.old.core replica.new.core moment (λ part. act.Call client (calls_in part client) request.now result) }
    ensures same { IsSameReplica replica.old.core replica.new.core }
    ensures spare { replica.old.spare ≤ replica.new.spare + 1 }
{
    match replica.call(moment, client, request) {
        Ok(reply) => reply,
        Err(_) => unreachable!(),
    }
}

// Draws an entry, and stores it with its tick.
pub(crate) fn draw(
    clerk: &mut Clerk,
    stored: &mut RoomyList<(u64, Entry)>,
    desk: &Desk,
    entry: Entry,
)
    requires desk { clerk.old.table ≡ desk.now.table }
    requires replica { entry.replica ≡ clerk.old.replica }
    requires drawn { clerk.old.pairs ≡ stored.old.items }
    requires due { IsDue desk.now.setup (entries_of stored.old.items) entry }
    requires sent { WasSent clerk.old.seen entry.act }
    requires room { 0 < stored.old.room }
    ensures drawn { HasDrawn desk.now.setup clerk.old clerk.new entry }
    ensures stored { stored.new.items ≡ clerk.new.pairs }
    ensures room { stored.old.room ≤ stored.new.room + 1 }
{
    let tick = clerk.draw(desk, &entry);
    stored.push((tick, entry));
}

// Counts a call among a client's turns, and among the entries made for it.
pub(crate) fn count_call(totals: &mut Vec<u64>, conits: u32, client: u32)
    requires client { client < CLIENTS }
    requires places { length totals.old.items ≡ conits + 2 * CLIENTS }
    requires turns { slice_index totals.old.items (turns_place conits client) + 1 < 2 ^ 64 }
    requires made { slice_index totals.old.items (made_place conits client) + 1 < 2 ^ 64 }
    ensures { totals.new.items ≡ one_more_at (made_place conits client) (one_more_at (turns_place conits client) totals.old.items) }
{
    let place = conits as usize + client as usize;
    totals[place] += 1;
    totals[place + CLIENTS as usize] += 1;
}

// Sets the total of the allowances out on a conit to what a replica has reserved there.
pub(crate) fn set_reserved(totals: &mut Vec<u64>, replica: &Replica, conit: u32)
    requires conit { conit < replica.now.core.setup.conits }
    requires places { replica.now.core.setup.conits ≤ length totals.old.items }
    ensures { totals.new.items ≡ slice_set totals.old.items conit (reserved_on replica.now.core.budgets conit) }
{
    totals[conit as usize] = replica.budgets().reserved(conit);
}

// Counts an entry that is no call among those made for a client.
pub(crate) fn count_entry(totals: &mut Vec<u64>, conits: u32, client: u32)
    requires client { client < CLIENTS }
    requires places { length totals.old.items ≡ conits + 2 * CLIENTS }
    requires made { slice_index totals.old.items (made_place conits client) + 1 < 2 ^ 64 }
    ensures { totals.new.items ≡ one_more_at (made_place conits client) totals.old.items }
{
    totals[conits as usize + CLIENTS as usize + client as usize] += 1;
}

// The same reply, which takes no memory.
pub(crate) fn copied(reply: &Reply) -> Reply
    ensures { result ≡ reply.now }
{
    match reply.clone() {
        Ok(copy) => copy,
        Err(_) => unreachable!(),
    }
}

// So many zeros.
fn zeros(alloc: Global, count: usize) -> Result<Vec<u64>, AllocError>
    ensures { IfOk result (λ list. list.items ≡ zeros count) }
{
    vec![in alloc; 0; count]
}

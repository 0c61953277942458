//! The messages that one replica sent.
ghost use Rattle.std.specs.Prelude.{◌≡◌, ◌≢◌, ◌<◌, ◌≤◌, [], ◌∷◌, ◌++◌, length, slice_get, slice_set, vec_len, Some, OnOk};
ghost use Rattle.std.specs.Vec.{vec_capacity};
ghost use Rattle.tact_base.specs.declared.limits.TheConstants.{MOMENT_MAX};
ghost use Rattle.run_model.specs.declared.entry.Act.TheVariants.{Send, Take};
ghost use Rattle.run_model.specs.declared.entry.Entry.{Entry as Taking};
ghost use Rattle.script_run.specs.Stages.{IsSentBy};

use replica_set::ReplicaSet;
use run_model::{Act, Entry, Message};
use std::alloc::Global;
use std::marker::Model;
use std::mem;
use tact_base::{NoMemory, Numbers};

/// The messages that one replica sent, by their numbers, each within the entry of its taking: so a message that is taken
/// needn't be moved. Each is made in that place, within the entry of its sending at first.
#[derive(Drop)]
pub(crate) struct Outbox {
    alloc: Global,
    takings: Vec<Entry>,
}

impl Model for Outbox {
    ghost use Rattle.std.specs.Prelude.{List};
    ghost use Rattle.run_model.specs.declared.entry.Entry.{Entry as Taking};

    ghost Value = { List Taking };

    ghost view = { λ o. o.takings.items };
}

impl Outbox {
    /// The messages of a replica that sent none.
    pub(crate) fn new(alloc: Global) -> Outbox
        ensures { result ≡ [] }
    {
        Outbox {
            alloc,
            takings: Vec::new(alloc),
        }
    }

    /// How many there are.
    pub(crate) fn len(&self) -> usize
        ensures { result ≡ length self.now }
    {
        self.takings.len()
    }

    /// Has the replica send to another at this moment, where these firsts are given. The entry of the sending stands then
    /// where that of the taking is to be.
    pub(crate) fn send(
        &mut self,
        set: &mut ReplicaSet,
        from: u32,
        moment: u64,
        handed: u64,
        to: u32,
        firsts: &Numbers,
    ) -> Result<(), NoMemory>
        requires from { from < set.old.setup.replicas }
        requires handed { handed ≤ MOMENT_MAX }
        requires to { to < set.old.setup.replicas }
        requires other { to ≢ from }
        requires firsts { length firsts.now ≡ set.old.setup.replicas }
        ensures sent { OnOk result ((sending : Taking) × (self.new ≡ self.old ++ sending ∷ [])
            × IsSentBy set.old set.new from moment handed to firsts.now sending) }
        ensures setup { set.new.setup ≡ set.old.setup }
    {
        make_room(&mut self.takings)?;
        let place = self.len();
        self.takings.push_reserved(Entry {
            replica: from,
            moment,
            act: Act::Send {
                message: Message::blank(self.alloc),
            },
        });
        fill(set, &mut self.takings[place], handed, to, firsts)
    }

    /// Puts the taking, by this replica, in the place of the sending under a number.
    pub(crate) fn turn(&mut self, number: usize, to: u32)
        requires { number < length self.old }
        ensures { (sending : Taking) (message : Message) → slice_get self.old number ≡ Some sending → sending.act ≡ Send message
            → self.new ≡ slice_set self.old number (record { replica = to; moment = 0; act = Take message }) }
    {
        let entry = &mut self.takings[number];
        entry.replica = to;
        entry.moment = 0;
        take_what_is_sent(&mut entry.act);
    }

    /// The taking of a number, by this replica at this moment.
    pub(crate) fn date(&mut self, number: usize, replica: u32, moment: u64)
        requires { number < length self.old }
        ensures { (taking : Taking) → slice_get self.old number ≡ Some taking
            → self.new ≡ slice_set self.old number (record taking { replica = replica; moment = moment }) }
    {
        let taking = &mut self.takings[number];
        taking.replica = replica;
        taking.moment = moment;
    }

    /// The entry under a number.
    pub(crate) fn at(&self, number: usize) -> &Entry
        requires { number < length self.now }
        ensures { slice_get self.now number ≡ Some result.now }
    {
        &self.takings[number]
    }
}

// Makes room for one more. Memory grows fourfold, and for 1,024 of them at first, where that can be had: it is then memory
// of its own, which the system moves without copying it.
fn make_room(takings: &mut Vec<Entry>) -> Result<(), NoMemory>
    ensures same { takings.new.items ≡ takings.old.items }
    ensures room { OnOk result (vec_len takings.new < vec_capacity takings.new) }
{
    if takings.len() < takings.capacity() {
        return Ok(());
    }
    let ample = takings.len().saturating_mul(3).max(1_024);
    if takings.reserve(ample).is_err() {
        takings.reserve(1)?;
    }
    Ok(())
}

// Has the replica of an entry send to another, where these firsts are given, and puts the message in the place of that of
// the entry. No replica of a script is full.
fn fill(
    set: &mut ReplicaSet,
    entry: &mut Entry,
    handed: u64,
    to: u32,
    firsts: &Numbers,
) -> Result<(), NoMemory>
    requires from { entry.old.replica < set.old.setup.replicas }
    requires sends { (message : Message) × (entry.old.act ≡ Send message) }
    requires handed { handed ≤ MOMENT_MAX }
    requires to { to < set.old.setup.replicas }
    requires other { to ≢ entry.old.replica }
    requires firsts { length firsts.now ≡ set.old.setup.replicas }
    ensures sent { OnOk result (IsSentBy set.old set.new entry.old.replica entry.old.moment handed to firsts.now entry.new) }
    ensures setup { set.new.setup ≡ set.old.setup }
{
    let from = entry.replica;
    match &mut entry.act {
        Act::Send { message } => match set.send_into(from, handed, to, firsts, message) {
            Ok(()) => Ok(()),
            Err(_) => Err(NoMemory),
        },
        Act::Call { .. } | Act::Take { .. } | Act::Lend { .. } | Act::Back { .. } | Act::Restart =>
            unreachable!(),
    }
}

// Makes of the act that sends a message the one that takes it.
fn take_what_is_sent(act: &mut Act)
    ensures { (message : Message) → act.old ≡ Send message → act.new ≡ Take message }
{
    let sending = mem::replace(act, Act::Restart);
    *act = taken(sending);
}

// The act that takes the message that another one sends.
fn taken(act: Act) -> Act
    ensures { (message : Message) → act ≡ Send message → result ≡ Take message }
{
    match act {
        Act::Send { message } => Act::Take { message },
        other => other,
    }
}

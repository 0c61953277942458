//! Messages that are sent and taken.
ghost use Rattle.std.specs.Prelude.{◌≡◌, ◌≢◌, ◌<◌, ◌≤◌, ◌∷◌, [], ◌++◌, Some, length, slice_get, slice_index_or, slice_set, OnOk};
ghost use Rattle.tact_base.specs.declared.limits.TheConstants.{MOMENT_MAX};
ghost use Rattle.run_model.specs.ScriptRuns.{sends, takes, passes};
ghost use Rattle.run_model.specs.declared.entry.Act.TheVariants.{Send, Take};
ghost use Rattle.run_model.specs.declared.entry.Entry.{Entry as Made};
ghost use Rattle.script_text.specs.Fronts.{IsNamed};
ghost use Rattle.script_run.specs.Stages.{IsSentBy};

use super::Stage;
use crate::outbox::Outbox;
use crate::page::Page;
use crate::witness::Witness;
use replica_set::ReplicaSet;
use run_model::{Act, Entry, Message};
use tact_base::{NoMemory, Numbers};

impl Stage {
    ghost use Rattle.script_run.specs.Stages.{Keeps, Enters, setup_in, played_in};

    // One sends to another, where these firsts are given.
    pub(super) fn send<W: Witness>(
        &mut self,
        from: u32,
        to: u32,
        firsts: &Numbers,
        witness: &mut W,
        out: &mut Page,
    ) -> Result<(), NoMemory>
        requires keeps { Keeps self.old }
        requires from { from < (setup_in self.old).replicas }
        requires to { to < (setup_in self.old).replicas }
        requires other { to ≢ from }
        requires firsts { length firsts.now ≡ (setup_in self.old).replicas }
        requires saw { W.saw witness.old self.old.history.items }
        ensures enters { OnOk result (Enters self.old self.new (sends (setup_in self.old) (played_in self.old) from to firsts.now) out.old out.new) }
        ensures setup { setup_in self.new ≡ setup_in self.old }
        ensures saw { OnOk result (W.saw witness.new self.new.history.items) }
    {
        let moment = self.moment_of(from);
        let number = self.sent[from as usize].len() as u64;
        send_from(
            &mut self.sent,
            &mut self.set,
            from,
            moment,
            self.handed,
            to,
            firsts,
        )?;
        self.history = self.tell(entry_at(&self.sent, from, number), witness, out)?;
        turn(&mut self.sent, from, number, to);
        Ok(())
    }

    // One takes the message that another sent under a number.
    pub(super) fn take<W: Witness>(
        &mut self,
        replica: u32,
        from: u32,
        number: u64,
        witness: &mut W,
        out: &mut Page,
    ) -> Result<(), NoMemory>
        requires keeps { Keeps self.old }
        requires replica { replica < (setup_in self.old).replicas }
        requires from { from < (setup_in self.old).replicas }
        requires message { (message : Message) × IsNamed (setup_in self.old) self.old.history.items replica from number message }
        requires saw { W.saw witness.old self.old.history.items }
        ensures enters { OnOk result (Enters self.old self.new (takes (played_in self.old) replica from number) out.old out.new) }
        ensures setup { setup_in self.new ≡ setup_in self.old }
        ensures saw { OnOk result (W.saw witness.new self.new.history.items) }
    {
        let moment = self.moment_of(replica);
        date(&mut self.sent, from, number, replica, moment);
        let entry = entry_at(&self.sent, from, number);
        let Ok(()) = self
            .set
            .take(replica, self.handed, message_taken(&entry.act))
        else {
            return Err(NoMemory);
        };
        self.history = self.tell(entry_at(&self.sent, from, number), witness, out)?;
        Ok(())
    }

    // One sends to another, which takes the message.
    pub(super) fn pass<W: Witness>(
        &mut self,
        from: u32,
        to: u32,
        witness: &mut W,
        out: &mut Page,
    ) -> Result<(), NoMemory>
        requires keeps { Keeps self.old }
        requires from { from < (setup_in self.old).replicas }
        requires to { to < (setup_in self.old).replicas }
        requires other { to ≢ from }
        requires saw { W.saw witness.old self.old.history.items }
        ensures enters { OnOk result (Enters self.old self.new (passes (setup_in self.old) (played_in self.old) from to) out.old out.new) }
        ensures setup { setup_in self.new ≡ setup_in self.old }
        ensures saw { OnOk result (W.saw witness.new self.new.history.items) }
    {
        let number = self.sent[from as usize].len() as u64;
        let firsts = self.zeros.clone()?;
        self.send(from, to, &firsts, witness, out)?;
        self.take(to, from, number, witness, out)
    }
}

// Has one send to another at this moment, where these firsts are given, and keeps the entry of the sending after all that
// it sent.
fn send_from(
    sent: &mut Vec<Outbox>,
    set: &mut ReplicaSet,
    from: u32,
    moment: u64,
    handed: u64,
    to: u32,
    firsts: &Numbers,
) -> Result<(), NoMemory>
    requires known { from < length sent.old.items }
    requires from { from < set.old.setup.replicas }
    requires handed { handed ≤ MOMENT_MAX }
    requires to { to < set.old.setup.replicas }
    requires other { to ≢ from }
    requires firsts { length firsts.now ≡ set.old.setup.replicas }
    ensures sent { OnOk result ((sending : Made)
        × (sent.new.items ≡ slice_set sent.old.items from (slice_index_or sent.old.items from [] ++ sending ∷ []))
        × IsSentBy set.old set.new from moment handed to firsts.now sending) }
    ensures setup { set.new.setup ≡ set.old.setup }
{
    let outbox = &mut sent[from as usize];
    outbox.send(set, from, moment, handed, to, firsts)
}

// Puts the taking, by this replica, in the place of the sending of the message that one sent under a number.
fn turn(sent: &mut Vec<Outbox>, from: u32, number: u64, to: u32)
    requires from { from < length sent.old.items }
    requires number { number < length (slice_index_or sent.old.items from []) }
    ensures { (sending : Made) (message : Message) → slice_get (slice_index_or sent.old.items from []) number ≡ Some sending
        → sending.act ≡ Send message
        → sent.new.items ≡ slice_set sent.old.items from (slice_set (slice_index_or sent.old.items from []) number (record { replica = to; moment = 0; act = Take message })) }
{
    let outbox = &mut sent[from as usize];
    outbox.turn(number as usize, to);
}

// Dates the taking of the message that one sent under a number.
fn date(sent: &mut Vec<Outbox>, from: u32, number: u64, replica: u32, moment: u64)
    requires from { from < length sent.old.items }
    requires number { number < length (slice_index_or sent.old.items from []) }
    ensures { (taking : Made) → slice_get (slice_index_or sent.old.items from []) number ≡ Some taking
        → sent.new.items ≡ slice_set sent.old.items from (slice_set (slice_index_or sent.old.items from []) number (record taking { replica = replica; moment = moment })) }
{
    let outbox = &mut sent[from as usize];
    outbox.date(number as usize, replica, moment);
}

// The entry of the message that one sent under a number.
fn entry_at(sent: &Vec<Outbox>, from: u32, number: u64) -> &Entry
    requires from { from < length sent.now.items }
    requires number { number < length (slice_index_or sent.now.items from []) }
    ensures { slice_get (slice_index_or sent.now.items from []) number ≡ Some result.now }
{
    sent[from as usize].at(number as usize)
}

// The message of an act that takes one.
fn message_taken(act: &Act) -> &Message
    requires { (message : Message) × (act.now ≡ Take message) }
    ensures { act.now ≡ Take result.now }
{
    match act {
        Act::Take { message } => message,
        Act::Call { .. } | Act::Send { .. } | Act::Lend { .. } | Act::Back { .. } | Act::Restart =>
            unreachable!(),
    }
}

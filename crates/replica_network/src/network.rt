//! The replicas of a setup, their entries, and the messages in these.
ghost use Rattle.std.specs.Prelude.{◌≡◌, ◌≢◌, ◌<◌, ◌≤◌, List, [], IfOk, OnErr, OnOk, Some, length, map, slice_get};
ghost use Rattle.tact_base.specs.Setup.{IsSetup};
ghost use Rattle.tact_base.specs.declared.limits.TheConstants.{CLIENTS, HISTORY_MAX, MOMENT_MAX};
ghost use Rattle.run_model.specs.Histories.{moment_at, part_of, sent_in};
ghost use Rattle.run_model.specs.Ranges.{IsRequestInRange};
ghost use Rattle.run_model.specs.Replies.{reply_of};
ghost use Rattle.run_model.specs.Runs.{IsRun};
ghost use Rattle.run_model.specs.declared.entry.Entry.{Entry};
ghost use Rattle.replica_core.specs.Stands.{Stands};
ghost use Rattle.replica_core.specs.declared.fault.CoreFault.TheVariants as CoreFault;
ghost use Rattle.replica_set.specs.Sets.{IsOneOf, StandsFor};
ghost use Rattle.replica_network.specs.Keeping.{message_at};
ghost use Rattle.replica_network.specs.Networks.{after_call, after_send, after_take};

use crate::{copied_reply, copied_request};
use replica_core::{CoreFault, Replica};
use replica_set::ReplicaSet;
use run_model::{Act, Config, Entry, Message, Reply, Request};
use std::alloc::Global;
use std::marker::Model;
use tact_base::{NoMemory, Numbers, RoomyList};

/// All replicas of a setup, and all entries that they made, in order. Each step makes the entry that is due there, so
/// the entries are a run, whichever messages are taken late, again or never. A message lies in the entries that send
/// and take it.
#[derive(Drop)]
pub struct Network {
    set: ReplicaSet,
    entries: RoomyList<Entry>,
    /// The places of the entries that send, by the numbers of the messages.
    sends: RoomyList<u64>,
    /// A zero for each replica: the firsts of each sending.
    zeros: Numbers,
}

impl Model for Network {
    ghost use Rattle.replica_network.specs.Keeping.{Keeps};
    ghost use Rattle.replica_network.specs.Networks.{NetworkState};

    ghost Value = { NetworkState };

    ghost view = { λ n. record { setup = n.set.setup; entries = n.entries.items } };

    ghost invariant = { λ n. Keeps n.set n.entries.items n.sends.items n.zeros };
}

impl Network {
    /// The replicas of a setup, which did nothing. They keep what they have in memory of `alloc`.
    pub fn new(alloc: Global, config: &Config) -> Result<Network, NoMemory>
        ensures { IfOk result (λ network. network ≡ record { setup = config.now; entries = [] }) }
    {
        Ok(Network {
            set: ReplicaSet::new(alloc, config)?,
            entries: RoomyList::new(alloc),
            sends: RoomyList::new(alloc),
            zeros: Numbers::filled(alloc, 0, config.replicas())?,
        })
    }

    /// The setup that they are the replicas of. Takes no memory.
    pub fn config(&self) -> &Config
        ensures { result.now ≡ self.now.setup }
    {
        self.set.config()
    }

    /// The replica of a number, which stands for its part of the entries. Takes no memory.
    pub fn at(&self, replica: u32) -> &Replica
        requires { replica < self.now.setup.replicas }
        ensures one { IsOneOf self.now.setup replica result.now.core }
        ensures stands { Stands (part_of self.now.entries replica) result.now.core }
    {
        self.set.at(replica)
    }

    /// All entries, in order: a run of a setup without a fault. Takes no memory.
    pub fn entries(&self) -> &[Entry]
        ensures entries { result.now ≡ self.now.entries }
        ensures good { IsSetup self.now.setup }
        ensures run { IsRun self.now.setup self.now.entries }
    {
        self.entries.items()
    }

    /// How many messages were sent. Takes no memory.
    pub fn sent(&self) -> u64
        ensures { result ≡ length (sent_in self.now.entries) }
    {
        self.sends.items().len() as u64
    }

    /// A client calls a replica at a moment, which answers with the reply that is due. The moment of the entry is the
    /// greater of the handed one and that of the replica's last entry. `NoMemory` is the only error, and leaves all as
    /// it was.
    pub fn call(
        &mut self,
        moment: u64,
        replica: u32,
        client: u32,
        request: &Request,
    ) -> Result<Reply, NoMemory>
        requires moment { moment ≤ MOMENT_MAX }
        requires replica { replica < self.old.setup.replicas }
        requires client { client < CLIENTS }
        requires in_range { IsRequestInRange self.old.setup request.now }
        requires few { length self.old.entries < HISTORY_MAX }
        ensures made { OnOk result (self.new ≡ after_call self.old moment replica client request.now) }
        ensures due { IfOk result (λ reply. reply ≡ reply_of self.old.setup replica (part_of self.old.entries replica)
            (moment_at (part_of self.old.entries replica) moment) request.now) }
        ensures run { IsRun self.new.setup self.new.entries }
        ensures err { OnErr result (self.new ≡ self.old) }
    {
        self.entries.reserve(1)?;
        let at = next_moment(&self.set, replica, moment);
        let number = self.set.at(replica).calls(client);
        let reply = match self.set.call(replica, moment, client, request) {
            Ok(reply) => reply,
            Err(fault) => return Err(want_of(fault)),
        };
        self.entries.push(Entry {
            replica,
            moment: at,
            act: Act::Call {
                client,
                number,
                request: copied_request(request),
                reply: copied_reply(&reply),
            },
        });
        Ok(reply)
    }

    /// A replica sends to another, with zeros as the firsts. `NoMemory` is the only error, and leaves all as it was.
    pub fn send(&mut self, moment: u64, from: u32, to: u32) -> Result<(), NoMemory>
        requires moment { moment ≤ MOMENT_MAX }
        requires from { from < self.old.setup.replicas }
        requires to { to < self.old.setup.replicas }
        requires other { to ≢ from }
        requires few { length self.old.entries < HISTORY_MAX }
        ensures made { OnOk result (self.new ≡ after_send self.old moment from to) }
        ensures run { IsRun self.new.setup self.new.entries }
        ensures err { OnErr result (self.new ≡ self.old) }
    {
        self.entries.reserve(1)?;
        self.sends.reserve(1)?;
        let at = next_moment(&self.set, from, moment);
        let message = match self.set.send(from, moment, to, &self.zeros) {
            Ok(message) => message,
            Err(fault) => return Err(want_of(fault)),
        };
        self.sends.push(self.entries.items().len() as u64);
        self.entries.push(Entry {
            replica: from,
            moment: at,
            act: Act::Send { message },
        });
        Ok(())
    }

    /// The message of a number is taken by its receiver, as often and as late as it comes; messages count from 0 over
    /// all sendings. `NoMemory` is the only error, and leaves all as it was.
    pub fn take(&mut self, moment: u64, number: u64) -> Result<(), NoMemory>
        requires moment { moment ≤ MOMENT_MAX }
        requires number { number < length (sent_in self.old.entries) }
        requires few { length self.old.entries < HISTORY_MAX }
        ensures made { OnOk result (self.new ≡ after_take self.old moment number) }
        ensures run { IsRun self.new.setup self.new.entries }
        ensures err { OnErr result (self.new ≡ self.old) }
    {
        self.entries.reserve(1)?;
        let message = message_of(self.entries.items(), self.sends.items(), number)?;
        let replica = message.to;
        let at = next_moment(&self.set, replica, moment);
        if let Err(fault) = self.set.take(replica, moment, &message) {
            return Err(want_of(fault));
        }
        self.entries.push(Entry {
            replica,
            moment: at,
            act: Act::Take { message },
        });
        Ok(())
    }
}

// The moment of the entry that a replica makes next, where one is handed.
fn next_moment(set: &ReplicaSet, replica: u32, moment: u64) -> u64
    requires { replica < set.now.setup.replicas }
    ensures { (history : List Entry) → StandsFor history set.now → result ≡ moment_at (part_of history replica) moment }
{
    moment.max(set.at(replica).last())
}

// The message of a number, among entries of which these places send.
fn message_of(entries: &[Entry], sends: &[u64], number: u64) -> Result<Message, NoMemory>
    requires sends { map (message_at entries.now) sends.now ≡ map Some (sent_in entries.now) }
    requires number { number < length (sent_in entries.now) }
    ensures { IfOk result (λ message. slice_get (sent_in entries.now) number ≡ Some message) }
{
    let place = sends[number as usize];
    match &entries[place as usize].act {
        Act::Send { message } => Ok(message.clone()?),
        _ => unreachable!(),
    }
}

// The want of memory that a fault is of a replica that isn't full.
fn want_of(fault: CoreFault) -> NoMemory
    requires { fault ≡ CoreFault.NoMemory }
{
    match fault {
        CoreFault::NoMemory => NoMemory,
        CoreFault::Full { .. } => unreachable!(),
    }
}

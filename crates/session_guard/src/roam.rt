//! Roaming clients and the replicas that they visit, step by step.
ghost use Rattle.std.specs.Prelude.{◌≡◌, ◌<◌, ◌≤◌, ◌∷◌, ◌++◌, [], IfOk, OnErr, OnOk, length};
ghost use Rattle.tact_base.specs.declared.limits.TheConstants.{CLIENTS, MOMENT_MAX};
ghost use Rattle.run_model.specs.Histories.{sent_in};
ghost use Rattle.run_model.specs.Promises.{IsKept};
ghost use Rattle.run_model.specs.Runs.{IsRun};
ghost use Rattle.session_guard.specs.Roaming.{MayStep, pass_at};
ghost use Rattle.session_guard.specs.Roams.{AreAllGuarded, entries_of, roamed_by, with_step};
ghost use Rattle.session_guard.specs.Trips.{trip_of};

use crate::journey::Journey;
use crate::pass::Pass;
use crate::steps::{Handed, Outcome, Step, keep};
use run_model::{Config, Entry};
use std::alloc::Global;
use std::marker::Model;
use tact_base::{NoMemory, Numbers, RoomyList};

/// How many steps roaming clients may make.
pub const STEPS_MAX: u64 = 10_000;

/// Clients that move between the replicas of a setup, all entries that they and the messages between the replicas make, and
/// all steps. Contracts see the setup, how many passes there are, and the steps; from these all follows that was made
/// (`roamed`).
#[derive(Drop)]
pub struct Roam {
    journey: Journey,
    steps: RoomyList<Handed>,
}

impl Model for Roam {
    ghost use Rattle.std.specs.Prelude.{length};
    ghost use Rattle.session_guard.specs.Roams.{HasRoamed, RoamState};

    ghost Value = { RoamState };

    ghost view = { λ r. record { setup = r.journey.network.setup; passes = length r.journey.clients.items; steps = r.steps.items } };

    ghost invariant = { λ r. HasRoamed (view r) r.journey };
}

impl Roam {
    /// So many clients that did nothing, among the replicas of a setup. `NoMemory` is the only error.
    pub fn new(alloc: Global, config: &Config, passes: u32) -> Result<Roam, NoMemory>
        requires some { 1 ≤ passes }
        requires few { passes ≤ CLIENTS }
        ensures { IfOk result (λ roam. roam ≡ record { setup = config.now; passes = passes; steps = [] }) }
    {
        Ok(Roam {
            journey: Journey::new(alloc, config, passes)?,
            steps: RoomyList::new(alloc),
        })
    }

    /// Makes one step at a moment: a client, whose number is that of its pass, visits a replica for a write or a read; a
    /// replica sends to another, with zeros as the firsts; or what was sent is taken. The moment of an entry is the greater
    /// of the handed one and that of the replica's last entry.
    ///
    /// Whatever is lost, repeated or reordered, the entries are a run that keeps its promises, and the trip of each client
    /// has the four session guarantees (Terry and others, 1994). `NoMemory` is the only error, and leaves all as it was.
    pub fn step(&mut self, moment: u64, step: &Step) -> Result<Outcome, NoMemory>
        requires moment { moment ≤ MOMENT_MAX }
        requires may { MayStep self.old.setup self.old.passes (entries_of self.old) step.now }
        requires few { length self.old.steps < STEPS_MAX }
        ensures stepped { OnOk result (self.new ≡ with_step self.old moment step.now) }
        ensures outcome { IfOk result (λ outcome. (roamed_by self.new).outcomes ≡ (roamed_by self.old).outcomes ++ outcome ∷ []) }
        ensures run { IsRun self.new.setup (entries_of self.new) }
        ensures kept { IsKept self.new.setup (entries_of self.new) }
        ensures guarded { AreAllGuarded self.new }
        ensures err { OnErr result (self.new ≡ self.old) }
    {
        self.steps.reserve(1)?;
        let outcome = self.journey.step(moment, step)?;
        keep(&mut self.steps, moment, step);
        Ok(outcome)
    }

    /// All entries, in order.
    pub fn entries(&self) -> &[Entry]
        ensures { result.now ≡ entries_of self.now }
    {
        self.journey.network.entries()
    }

    /// The trip of a client: the rising positions of its entries that accepted a write or answered a read.
    pub fn trip(&self, pass: u32) -> &Numbers
        requires { pass < self.now.passes }
        ensures { result.now ≡ trip_of (entries_of self.now) pass }
    {
        &self.journey.clients[pass as usize].trip
    }

    /// The pass of a client.
    pub fn pass(&self, pass: u32) -> &Pass
        requires { pass < self.now.passes }
        ensures { result.now ≡ pass_at (roamed_by self.now).passes pass }
    {
        &self.journey.clients[pass as usize].pass
    }

    /// How many messages were sent.
    pub fn sent(&self) -> u64
        ensures { result ≡ length (sent_in (entries_of self.now)) }
    {
        self.journey.network.sent()
    }

    /// All steps, in order, each with the moment that was handed to it.
    pub fn steps(&self) -> &[Handed]
        ensures { result.now ≡ self.now.steps }
    {
        self.steps.items()
    }
}

//! The replicas that clients roam among, and all that was done.
ghost use Rattle.std.specs.Prelude.{◌≡◌, ◌<◌, ◌≤◌, None, [], IfOk, OnErr, length};
ghost use Rattle.tact_base.specs.declared.limits.TheConstants.{CLIENTS, MOMENT_MAX};
ghost use Rattle.run_model.specs.Histories.{part_of};
ghost use Rattle.run_model.specs.Ranges.{IsRequestInRange};
ghost use Rattle.session_guard.specs.Passes.{haves_of, lack_of};
ghost use Rattle.session_guard.specs.Roaming.{MayStep, not_roamed, pass_at};
ghost use Rattle.session_guard.specs.Visits.{IsWriteOrRead};
ghost use Rattle.session_guard.specs.declared.steps.Outcome.TheVariants.{Visited};
ghost use Rattle.session_guard.specs.declared.steps.Step.TheVariants as step;
ghost use Rattle.session_guard.specs.declared.roam.TheConstants.{STEPS_MAX};

use crate::client::Client;
use crate::counts::haves_of;
use crate::steps::{Outcome, Step, Visit};
use replica_network::Network;
use run_model::{Config, Request};
use std::alloc::Global;
use tact_base::{NoMemory, Row};

/// The replicas of a setup with what happened, and the clients.
#[derive(Drop)]
pub(crate) struct Journey {
    pub(crate) network: Network,
    pub(crate) clients: Vec<Client>,
}

impl Journey {
    ghost use Rattle.session_guard.specs.Journeys.{GoesOnBy, Keeps, Stays, made_in};

    /// The replicas of a setup, and so many clients that did nothing.
    pub(crate) fn new(alloc: Global, config: &Config, passes: u32) -> Result<Journey, NoMemory>
        requires { passes ≤ CLIENTS }
        ensures keeps { IfOk result Keeps }
        ensures setup { IfOk result (λ journey. journey.network.setup ≡ config.now) }
        ensures made { IfOk result (λ journey. made_in journey [] ≡ not_roamed config.now passes) }
    {
        let n = config.replicas();
        let mut clients = Vec::new(alloc);
        for _pass in 0..passes {
            clients.push(Client::new(alloc, n)?)?;
        }
        Ok(Journey {
            network: Network::new(alloc, config)?,
            clients,
        })
    }

    /// Goes on by a step.
    pub(crate) fn step(&mut self, moment: u64, step: &Step) -> Result<Outcome, NoMemory>
        requires keeps { Keeps self.old }
        requires few { length self.old.network.entries < STEPS_MAX }
        requires moment { moment ≤ MOMENT_MAX }
        requires may { MayStep self.old.network.setup (length self.old.clients.items) self.old.network.entries step.now }
        ensures goes { IfOk result (GoesOnBy self.old self.new moment step.now) }
        ensures err { OnErr result (Stays self.old self.new) }
    {
        match step {
            Step::Visit {
                pass,
                replica,
                request,
            } => Ok(Outcome::Visited(self.visit(moment, *pass, *replica, request)?)),
            Step::Send { from, to } => {
                self.network.send(moment, *from, *to)?;
                Ok(Outcome::Moved)
            }
            Step::Take { message } => {
                self.network.take(moment, *message)?;
                Ok(Outcome::Moved)
            }
        }
    }

    // A client visits a replica.
    fn visit(
        &mut self,
        moment: u64,
        pass: u32,
        replica: u32,
        request: &Request,
    ) -> Result<Visit, NoMemory>
        requires keeps { Keeps self.old }
        requires few { length self.old.network.entries < STEPS_MAX }
        requires moment { moment ≤ MOMENT_MAX }
        requires pass { pass < length self.old.clients.items }
        requires replica { replica < self.old.network.setup.replicas }
        requires in_range { IsRequestInRange self.old.network.setup request.now }
        requires kind { IsWriteOrRead request.now }
        ensures goes { IfOk result (λ visit. GoesOnBy self.old self.new moment (step.Visit pass replica request.now) (Visited visit)) }
        ensures err { OnErr result (Stays self.old self.new) }
    {
        let haves = self.haves(replica);
        if let Some(lack) = self.clients[pass as usize].pass.lack(haves.items()) {
            return Ok(lack);
        }
        self.call(moment, pass, replica, request, haves)
    }

    // How many writes of each origin a replica has.
    fn haves(&self, replica: u32) -> Row
        requires keeps { Keeps self.now }
        requires replica { replica < self.now.network.setup.replicas }
        ensures { result ≡ haves_of self.now.network.setup replica (part_of self.now.network.entries replica) }
    {
        haves_of(self.network.at(replica), self.network.config().replicas())
    }

    // A client that lacks nothing calls a replica.
    fn call(
        &mut self,
        moment: u64,
        pass: u32,
        replica: u32,
        request: &Request,
        haves: Row,
    ) -> Result<Visit, NoMemory>
        requires keeps { Keeps self.old }
        requires few { length self.old.network.entries < STEPS_MAX }
        requires moment { moment ≤ MOMENT_MAX }
        requires pass { pass < length self.old.clients.items }
        requires replica { replica < self.old.network.setup.replicas }
        requires in_range { IsRequestInRange self.old.network.setup request.now }
        requires kind { IsWriteOrRead request.now }
        requires haves { haves ≡ haves_of self.old.network.setup replica (part_of self.old.network.entries replica) }
        requires lack { lack_of haves (pass_at (made_in self.old []).passes pass) ≡ None }
        ensures goes { IfOk result (λ visit. GoesOnBy self.old self.new moment (step.Visit pass replica request.now) (Visited visit)) }
        ensures err { OnErr result (Stays self.old self.new) }
    {
        let position = self.network.entries().len() as u64;
        let client = &mut self.clients[pass as usize];
        client.stop_at(position)?;
        let reply = match self.network.call(moment, replica, pass, request) {
            Ok(reply) => reply,
            Err(want) => {
                client.pass_by();
                return Err(want);
            }
        };
        client.settle(replica, haves.items(), &reply);
        Ok(Visit::Answered(reply))
    }
}

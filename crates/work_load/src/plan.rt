//! What a workload asks for.
ghost use Rattle.std.specs.Prelude.{◌≡◌, ◌<◌, ◌≤◌, get_or};
ghost use Rattle.link_faults.specs.Plans.{no_faults};
ghost use Rattle.work_load.specs.Workloads.{IsWorkload};
ghost use Rattle.work_load.specs.declared.plan.TheConstants.{SETTLE_MAX};

use link_faults::LinkPlan;
use run_model::Config;
use std::marker::Model;
use tact_base::{Needs, Op, Weight, Weights};

/// The greatest count of items of a client.
pub const ITEMS_MAX: usize = 1_000;

/// The greatest count of rounds that settle a run.
pub const SETTLE_MAX: u64 = 100;

/// What a client asks of its replica.
#[derive(Clone, Copy, Debug, PartialEq, Eq)]
pub enum Item {
    /// To make a write.
    Write {
        weights: Weights,
        op: Op,
    },
    /// To make a write of one weight out of what the client holds on its conit, where that is enough, or else as any
    /// write.
    Held {
        weight: Weight,
        op: Op,
    },
    /// To set an amount of the shares on a conit aside for writes to come.
    Reserve {
        conit: u32,
        amount: u64,
    },
    /// To give up all that the client holds on a conit.
    Release {
        conit: u32,
    },
    /// To read the value of a key.
    Read {
        key: u64,
        needs: Needs,
    },
    /// To lend another replica an amount on a conit.
    Lend {
        holder: u32,
        conit: u32,
        amount: u64,
    },
    /// To give back an amount of what another replica lent on a conit.
    Back {
        owner: u32,
        conit: u32,
        amount: u64,
    },
    /// To begin anew from its journal.
    Restart,
}

/// The items of a client, in order.
pub type Items = tact_base::Items<Item>;

/// A client of a run.
#[derive(Debug, Drop)]
pub struct Client {
    /// The replica that it is a client of.
    pub replica: u32,
    /// Its number among the clients of the replica, below 8.
    pub client: u32,
    /// What it asks for, at most 1,000 items.
    pub items: Items,
}

/// What a workload asks for: what the run is made for, what each inbox does with what is put, how many rounds settle
/// the run, and its clients.
#[derive(Debug, Drop)]
pub struct Plan {
    pub(crate) config: Config,
    pub(crate) links: tact_base::Items<LinkPlan>,
    pub(crate) settle: u64,
    pub(crate) clients: tact_base::Items<Client>,
}

impl Model for Plan {
    ghost use Rattle.work_load.specs.Workloads.{Workload, IsWorkload};

    ghost Value = { Workload };

    ghost view = { λ p. record { setup = p.config; links = p.links; settle = p.settle; clients = p.clients } };

    ghost invariant = { λ p. IsWorkload (record { setup = p.config; links = p.links; settle = p.settle; clients = p.clients }) };
}

impl Plan {
    /// What the run is made for.
    pub fn config(&self) -> &Config
        ensures config { result.now ≡ self.now.setup }
        ensures sound { IsWorkload self.now }
    {
        &self.config
    }

    /// What the inbox of a replica does with what is put.
    pub fn link(&self, to: u32) -> LinkPlan
        requires { to < self.now.setup.replicas }
        ensures { result ≡ get_or self.now.links to no_faults }
    {
        self.links.items()[to as usize]
    }

    /// How many rounds settle the run, at most 100.
    pub fn settle(&self) -> u64
        ensures rounds { result ≡ self.now.settle }
        ensures few { result ≤ SETTLE_MAX }
    {
        self.settle
    }

    /// The clients, in order, no two of which have both their replica and their number.
    pub fn clients(&self) -> &[Client]
        ensures clients { result.now ≡ self.now.clients }
        ensures sound { IsWorkload self.now }
    {
        self.clients.items()
    }
}

ghost use Rattle.std.specs.Prelude.{◌≡◌, All};
ghost use Rattle.run_record.specs.Records.{IsShortOf, IsHeld};

use crate::{Short, Shorts};
use run_model::Config;
use std::marker::Model;

/// A record of a run: what the run was made for, and what happened, step by step. Its entries are in range of
/// its setup. Whether they are a run's isn't asked here.
#[derive(Debug, Drop)]
pub struct Record {
    config: Config,
    entries: Shorts,
}

impl Model for Record {
    ghost use Rattle.std.specs.Prelude.{All};
    ghost use Rattle.run_record.specs.Records.{Held, IsShortOf};

    ghost Value = { Held };

    ghost view = { λ r. record { setup = r.config; entries = r.entries } };

    ghost invariant = { λ r. All (IsShortOf r.config) r.entries };
}

impl Record {
    /// The record of a setup and of entries in its range.
    pub fn new(config: Config, entries: Shorts) -> Record
        requires { All (IsShortOf config) entries }
        ensures setup { result.setup ≡ config }
        ensures entries { result.entries ≡ entries }
    {
        Record { config, entries }
    }

    /// What the run was made for.
    pub fn config(&self) -> &Config
        ensures { result.now ≡ self.now.setup }
    {
        &self.config
    }

    /// What happened, in order.
    pub fn entries(&self) -> &[Short]
        ensures entries { result.now ≡ self.now.entries }
        ensures held { IsHeld self.now }
    {
        let _replicas = self.config.replicas();
        self.entries.items()
    }
}

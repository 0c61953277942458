ghost use Rattle.std.specs.Prelude.{◌≡◌, ◌≤◌, ◌↔◌, IsTrue, IfOk};
ghost use Rattle.tact_io.specs.Faults.{HasRisen};

use std::alloc::Global;
use std::marker::Model;
use tact_base::{NoMemory, Numbers};

/// Which calls of a form in memory fail.
#[derive(Debug, Drop)]
pub struct FaultSchedule {
    calls: u64,
    fails: Numbers,
    faults: u64,
}

impl Model for FaultSchedule {
    ghost use Rattle.tact_io.specs.Memory.{Schedule};

    ghost Value = { Schedule };

    ghost view = { λ s. record { calls = s.calls; fails = s.fails; faults = s.faults } };
}

impl FaultSchedule {
    ghost use Rattle.tact_io.specs.Memory.{unused, FailsNext, after_success, after_fault};

    /// The calls with these numbers, counted from 0, fail.
    pub fn new(alloc: Global, fails: &[u64]) -> Result<Self, NoMemory>
        ensures { IfOk result (λ schedule. schedule ≡ unused fails.now) }
    {
        Ok(FaultSchedule {
            calls: 0,
            fails: Numbers::from_slice(alloc, fails)?,
            faults: 0,
        })
    }

    /// How many calls were made.
    pub fn calls(&self) -> u64
        ensures { result ≡ self.now.calls }
    {
        self.calls
    }

    /// How many calls failed.
    pub fn faults(&self) -> u64
        ensures { result ≡ self.now.faults }
    {
        self.faults
    }

    /// Whether the next call fails.
    pub fn fails_next(&self) -> bool
        ensures { IsTrue result ↔ FailsNext self.now }
    {
        self.fails.items().contains(&self.calls)
    }

    /// Counts a call that didn't fail.
    pub fn count_success(&mut self)
        ensures { self.new ≡ after_success self.old }
    {
        self.calls = self.calls.saturating_add(1);
    }

    /// Counts a call that failed.
    pub fn count_fault(&mut self)
        ensures after { self.new ≡ after_fault self.old }
        ensures never_falls { self.old.faults ≤ self.new.faults }
        ensures risen { HasRisen self.old.faults self.new.faults }
    {
        self.calls = self.calls.saturating_add(1);
        self.faults = self.faults.saturating_add(1);
    }
}

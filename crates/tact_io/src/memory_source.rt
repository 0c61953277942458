ghost use Rattle.std.specs.Prelude.{◌≡◌, ◌≤◌, ◌↔◌, ◌++◌, min, length, take, IfOk, IsOk, OnOk, IsErr, OnErr};

use crate::schedule::FaultSchedule;
use crate::{Failed, Source};
use std::alloc::Global;
use std::marker::Model;
use tact_base::{Bytes, NoMemory};

/// Bytes in memory, which are read without a fault. Contracts see it as the bytes left.
#[derive(Drop)]
pub struct SureSource {
    bytes: Bytes,
    read: usize,
}

impl Model for SureSource {
    ghost use Rattle.std.specs.Prelude.{List, ℕ, ◌≤◌, length, drop};

    ghost Value = { List ℕ };

    ghost view = { λ s. drop s.read s.bytes };

    ghost invariant = { λ s. s.read ≤ length s.bytes };
}

impl SureSource {
    /// A source of these bytes.
    pub fn new(alloc: Global, bytes: &[u8]) -> Result<Self, NoMemory>
        ensures { IfOk result (λ source. source ≡ bytes.now) }
    {
        Ok(SureSource {
            bytes: Bytes::from_slice(alloc, bytes)?,
            read: 0,
        })
    }
}

impl Source for SureSource {
    ghost use Rattle.std.specs.Prelude.{Some};

    ghost faults = { λ _. 0 };

    ghost left = { λ source. Some source };

    /// Gives as many bytes as are left and fit.
    fn read(&mut self, buf: &mut [u8]) -> Result<usize, Failed>
        ensures sure { IsOk result }
        ensures within { IfOk result (λ count. count ≤ length buf.new) }
        ensures count { IfOk result (λ count. count ≡ min (length buf.old) (length self.old)) }
        ensures gives { IfOk result (λ count. self.old ≡ take count buf.new ++ self.new) }
    {
        let left = &self.bytes.items()[self.read..];
        let count = buf.len().min(left.len());
        buf[..count].copy_from_slice(&left[..count]);
        self.read += count;
        Ok(count)
    }
}

/// Bytes in memory, whose listed reads fail. Contracts see it as the bytes left and how its reads fail.
#[derive(Drop)]
pub struct MemSource {
    source: SureSource,
    schedule: FaultSchedule,
}

impl Model for MemSource {
    ghost use Rattle.tact_io.specs.Memory.{SourceState};

    ghost Value = { SourceState };

    ghost view = { λ s. record { left = s.source; schedule = s.schedule } };
}

impl MemSource {
    ghost use Rattle.tact_io.specs.Memory.{unused};

    /// A source of these bytes, whose reads with the numbers `fails`, counted from 0, fail.
    pub fn new(alloc: Global, bytes: &[u8], fails: &[u64]) -> Result<Self, NoMemory>
        ensures { IfOk result (λ source. source ≡ record { left = bytes.now; schedule = unused fails.now }) }
    {
        Ok(MemSource {
            source: SureSource::new(alloc, bytes)?,
            schedule: FaultSchedule::new(alloc, fails)?,
        })
    }
}

impl Source for MemSource {
    ghost use Rattle.std.specs.Prelude.{Some};
    ghost use Rattle.tact_io.specs.Faults.{HasRisen};
    ghost use Rattle.tact_io.specs.Memory.{FailsNext, after_success, after_fault};

    ghost faults = { λ source. source.schedule.faults };

    ghost left = { λ source. Some source.left };

    /// Gives as many bytes as are left and fit, unless this read was listed as one that fails.
    fn read(&mut self, buf: &mut [u8]) -> Result<usize, Failed>
        ensures fails { IsErr result ↔ FailsNext self.old.schedule }
        ensures within { IfOk result (λ count. count ≤ length buf.new) }
        ensures count { IfOk result (λ count. count ≡ min (length buf.old) (length self.old.left)) }
        ensures gives { IfOk result (λ count. self.old.left ≡ take count buf.new ++ self.new.left) }
        ensures ok { OnOk result (self.new.schedule ≡ after_success self.old.schedule) }
        ensures err { OnErr result (self.new ≡ record self.old { schedule = after_fault self.old.schedule }) }

        // What each source ensures of its count.
        ensures never_falls { self.old.schedule.faults ≤ self.new.schedule.faults }
        ensures failed { OnErr result (HasRisen self.old.schedule.faults self.new.schedule.faults) }
    {
        if self.schedule.fails_next() {
            self.schedule.count_fault();
            return Err(Failed);
        }
        self.schedule.count_success();
        self.source.read(buf)
    }
}

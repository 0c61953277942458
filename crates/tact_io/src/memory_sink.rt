ghost use Rattle.std.specs.Prelude.{◌≡◌, ◌≤◌, ◌↔◌, [], ◌++◌, length, IfOk, IsErrOf, IsOkUnless, IsOkAnd, OnErr, OnOk};

use crate::schedule::FaultSchedule;
use crate::{OutFault, Sink};
use std::alloc::Global;
use std::marker::Model;
use tact_base::{Bytes, NoMemory};

/// Gathers what is written in memory, without a fault. Contracts see it as what was written.
#[derive(Drop)]
pub struct SureSink {
    bytes: Bytes,
}

impl Model for SureSink {
    ghost use Rattle.std.specs.Prelude.{List, ℕ};

    ghost Value = { List ℕ };

    ghost view = { λ s. s.bytes };
}

impl SureSink {
    /// An empty sink. It takes no memory before the first write.
    pub fn new(alloc: Global) -> Result<Self, NoMemory>
        ensures { IsOkAnd result (λ sink. sink ≡ []) }
    {
        Ok(SureSink {
            bytes: Bytes::new(alloc),
        })
    }

    /// What was written.
    pub fn bytes(&self) -> &[u8]
        ensures { result.now ≡ self.now }
    {
        self.bytes.items()
    }
}

impl Sink for SureSink {
    ghost use Rattle.std.specs.Prelude.{Some};

    ghost faults = { λ _. 0 };

    ghost written = { λ sink. Some sink };

    /// Takes the whole piece. `NoMemory` leaves the sink as it was.
    fn write(&mut self, piece: &[u8]) -> Result<usize, OutFault>
        ensures count { IfOk result (λ count. count ≡ length piece.now) }
        ensures gains { OnOk result (self.new ≡ self.old ++ piece.now) }
        ensures unchanged { OnErr result (self.new ≡ self.old) }
        ensures sure { IsOkUnless result OutFault.NoMemory }
    {
        self.bytes.append(piece)?;
        Ok(piece.len())
    }
}

/// Gathers what is written in memory, and its listed writes fail. Contracts see it as what was written and
/// how its writes fail.
#[derive(Drop)]
pub struct MemSink {
    sink: SureSink,
    schedule: FaultSchedule,
}

impl Model for MemSink {
    ghost use Rattle.tact_io.specs.Memory.{SinkState};

    ghost Value = { SinkState };

    ghost view = { λ s. record { written = s.sink; schedule = s.schedule } };
}

impl MemSink {
    ghost use Rattle.tact_io.specs.Memory.{unused};

    /// An empty sink, whose writes with the numbers `fails`, counted from 0, fail.
    pub fn new(alloc: Global, fails: &[u64]) -> Result<Self, NoMemory>
        ensures { IfOk result (λ sink. sink ≡ record { written = []; schedule = unused fails.now }) }
    {
        Ok(MemSink {
            sink: SureSink::new(alloc)?,
            schedule: FaultSchedule::new(alloc, fails)?,
        })
    }

    /// What was written.
    pub fn bytes(&self) -> &[u8]
        ensures { result.now ≡ self.now.written }
    {
        self.sink.bytes()
    }
}

impl Sink for MemSink {
    ghost use Rattle.std.specs.Prelude.{Some};
    ghost use Rattle.tact_io.specs.Faults.{HasRisen};
    ghost use Rattle.tact_io.specs.Memory.{FailsNext, after_success, after_fault};

    ghost faults = { λ sink. sink.schedule.faults };

    ghost written = { λ sink. Some sink.written };

    /// Takes the whole piece, unless this write was listed as one that fails. `NoMemory` leaves the sink as
    /// it was, and such a write isn't counted as a call.
    fn write(&mut self, piece: &[u8]) -> Result<usize, OutFault>
        ensures fails { IsErrOf result OutFault.Failed ↔ FailsNext self.old.schedule }
        ensures count { IfOk result (λ count. count ≡ length piece.now) }
        ensures gains { OnOk result (self.new.written ≡ self.old.written ++ piece.now) }
        ensures ok { OnOk result (self.new.schedule ≡ after_success self.old.schedule) }
        ensures err { IsErrOf result OutFault.Failed → self.new ≡ record self.old { schedule = after_fault self.old.schedule } }
        ensures no_memory { IsErrOf result OutFault.NoMemory → self.new ≡ self.old }

        // What each sink ensures of its count.
        ensures never_falls { self.old.schedule.faults ≤ self.new.schedule.faults }
        ensures failed { IsErrOf result OutFault.Failed → HasRisen self.old.schedule.faults self.new.schedule.faults }
    {
        if self.schedule.fails_next() {
            self.schedule.count_fault();
            return Err(OutFault::Failed);
        }
        let count = self.sink.write(piece)?;
        self.schedule.count_success();
        Ok(count)
    }
}

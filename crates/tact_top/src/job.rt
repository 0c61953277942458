//! What a command does that reads an input and writes a text: it reads to the end, makes the text, and
//! writes it.
ghost use Rattle.std.specs.Prelude.{◌≡◌, ◌⊎◌, ◌≤◌, ℕ, List, IfOk, IfErr, OnErr};
ghost use Rattle.run_model.specs.declared.status.InputKind.{InputKind as Kind};
ghost use Rattle.run_model.specs.declared.status.Status.{Status as Answer};
ghost use Rattle.run_model.specs.declared.status.Status.TheVariants.{Done as AllDone, NoMemory as OutOfMemory};
ghost use Rattle.tact_io.specs.Faults.{HasRisen};
ghost use Rattle.tact_top.specs.Answers.{Completes, HasCause, IsDrawn, IsEnd, IsWritten, Writes};
ghost use Rattle.tact_top.specs.Refusals.{IsRefusalBy};
ghost use Rattle.tact_top.specs.declared.job.Refusal.TheVariants as refusal;

use run_model::{InputKind, Status};
use std::alloc::Global;
use tact_base::{Bytes, INPUT_MAX, NoMemory};
use tact_io::{OutFault, ReadEnd, Sink, Source, read_all, write_all};

/// What a command makes of its input: the text that it writes, and the status once that is written.
#[derive(Drop)]
pub(crate) struct Output {
    pub(crate) text: Bytes,
    pub(crate) status: Status,
}

/// Why a command makes nothing of its input: its first fault, or want of memory.
#[derive(Clone, Copy)]
pub(crate) enum Refusal {
    Bad { place: u64, kind: InputKind },
    NoMemory,
}

impl From<NoMemory> for Refusal {
    ghost from_gives = { λ _ made. made ≡ refusal.NoMemory };

    fn from(_: NoMemory) -> Self {
        Refusal::NoMemory
    }
}

/// What a command makes of inputs.
pub(crate) trait Job {
    /// An input asks for a status, once a text is written.
    ghost asks: { List ℕ → Answer → List ℕ → Type 0 };

    /// An input isn't in its grammar: its first fault is at a place, of a kind.
    ghost faults: { List ℕ → ℕ → Kind → Type 0 };

    /// Makes what an input asks for, and gives the input up once it is read. It refuses what isn't in the grammar.
    fn make(alloc: Global, input: Bytes) -> Result<Output, Refusal>
        ensures asked { IfOk result (λ output. asks input output.status output.text) }
        ensures ends { IfOk result (λ output. IsEnd output.status) }
        ensures refused { IfErr result (λ refusal. IsRefusalBy faults input refusal) };
}

/// Reads an input to its end, makes what it asks for, and writes that.
pub(crate) fn done<J: Job, S: Source, K: Sink>(
    alloc: Global,
    source: &mut S,
    sink: &mut K,
) -> Status
    ensures cause { HasCause J.asks J.faults result (S.left source.old) (S.left source.new)
        (S.faults source.old) (S.faults source.new) (K.faults sink.old) (K.faults sink.new) }
    ensures written { Writes J.asks result (S.left source.old) (K.written sink.old) (K.written sink.new) }
    ensures complete { Completes J.asks J.faults result (S.left source.old)
        (S.faults source.old) (S.faults source.new) (K.faults sink.old) (K.faults sink.new) }
    ensures reads_never_fall { S.faults source.old ≤ S.faults source.new }
    ensures writes_never_fall { K.faults sink.old ≤ K.faults sink.new }
{
    let input = match read_all(alloc, source, INPUT_MAX) {
        Ok(input) => input,
        Err(ReadEnd::TooLong) => return Status::TooLong,
        Err(ReadEnd::Fault) => return Status::ReadFault,
        Err(ReadEnd::NoMemory) => return Status::NoMemory,
    };
    match J::make(alloc, input) {
        Ok(output) => written(output, sink),
        Err(Refusal::Bad { place, kind }) => Status::BadInput { place, kind },
        Err(Refusal::NoMemory) => Status::NoMemory,
    }
}

/// Writes the text, and answers the status that is due then: or that the sink failed, or want of memory,
/// where a front of the text was written.
pub(crate) fn written<K: Sink>(output: Output, sink: &mut K) -> Status
    requires { IsEnd output.status }
    ensures written { IsWritten output.text output.status result (K.written sink.old) (K.written sink.new)
        (K.faults sink.old) (K.faults sink.new) }
    ensures never_falls { K.faults sink.old ≤ K.faults sink.new }
{
    let Output { text, status } = output;
    match write_all(sink, text.items()) {
        Ok(()) => status,
        Err(OutFault::Failed) => Status::WriteFault,
        Err(OutFault::NoMemory) => Status::NoMemory,
    }
}

/// Writes a text that a number draws, which is all that is to be done then.
pub(crate) fn drawn<K: Sink>(text: Bytes, sink: &mut K) -> Status
    ensures written { IsDrawn text result (K.written sink.old) (K.written sink.new) (K.faults sink.old) (K.faults sink.new) }
    ensures complete { ¬ HasRisen (K.faults sink.old) (K.faults sink.new) → (result ≡ AllDone) ⊎ (result ≡ OutOfMemory) }
    ensures never_falls { K.faults sink.old ≤ K.faults sink.new }
{
    let status = Status::Done;
    written(Output { text, status }, sink)
}

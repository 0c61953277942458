//! Workloads are run on threads.
ghost use Rattle.std.specs.Prelude.{◌≡◌, ◌⊎◌, ◌≤◌, ◌<◌, IfErr, IfOk};
ghost use Rattle.run_model.specs.declared.status.Status.TheVariants as answer;
ghost use Rattle.tact_top.specs.Answers.{Completes, HasCause, IsEnd, Writes};
ghost use Rattle.tact_top.specs.Commands.{IsOfReading};
ghost use Rattle.tact_top.specs.Running.{AsksOfRun, HasEndedBy, HasFailedBy, IsLoadFault, IsRan, IsUnwritten};

use crate::job::{Output, Refusal, written};
use crate::reading::read_plan;
use run_model::Status;
use run_record::text_of;
use run_work::{Run, RunFault, run_plan};
use std::alloc::Global;
use std::sync::Wait;
use std::thread::Threads;
use tact_base::{Bytes, INPUT_MAX};
use tact_io::{Clock, Gate, ReadEnd, Shelf, Sink, Source, read_all};
use work_load::Plan;

/// Reads a workload to its end, runs it over journals out of a shelf, each item tried so often at most, and writes the
/// record of the run as text, without comments.
pub(crate) fn run<
    R: Threads + Wait + Sync,
    C: Clock + Sync,
    G: Gate + Sync,
    S: Source,
    K: Sink,
    B: Shelf,
>(
    rt: &R,
    alloc: Global,
    tries: u64,
    source: &mut S,
    sink: &mut K,
    clock: &C,
    gate: &G,
    shelf: &mut B,
) -> Status
where
    B::J: Drop + Send,
    requires tries { 0 < tries }
    ensures cause { HasCause (AsksOfRun (record { tells = B.J.tells; before = B.faults shelf.old; after = B.faults shelf.new; stored = B.stored shelf.new }) tries) IsLoadFault result (S.left source.old) (S.left source.new)
        (S.faults source.old) (S.faults source.new) (K.faults sink.old) (K.faults sink.new) }
    ensures written { Writes (AsksOfRun (record { tells = B.J.tells; before = B.faults shelf.old; after = B.faults shelf.new; stored = B.stored shelf.new }) tries) result (S.left source.old) (K.written sink.old) (K.written sink.new) }
    ensures complete { Completes (AsksOfRun (record { tells = B.J.tells; before = B.faults shelf.old; after = B.faults shelf.new; stored = B.stored shelf.new }) tries) IsLoadFault result (S.left source.old)
        (S.faults source.old) (S.faults source.new) (K.faults sink.old) (K.faults sink.new) }
    ensures reads_never_fall { S.faults source.old ≤ S.faults source.new }
    ensures writes_never_fall { K.faults sink.old ≤ K.faults sink.new }
    ensures shelf_never_falls { B.faults shelf.old ≤ B.faults shelf.new }
    ensures unread { IsOfReading result → shelf.new ≡ shelf.old }
{
    let input = match read_all(alloc, source, INPUT_MAX) {
        Ok(input) => input,
        Err(ReadEnd::TooLong) => return Status::TooLong,
        Err(ReadEnd::Fault) => return Status::ReadFault,
        Err(ReadEnd::NoMemory) => return Status::NoMemory,
    };
    match record_of(rt, alloc, input, tries, clock, gate, shelf) {
        Ok(output) => written(output, sink),
        Err(status) => status,
    }
}

// The record of a run of the workload that an input is, and the status once that is written; or the status where none is.
// The input is given up before the run.
fn record_of<R: Threads + Wait + Sync, C: Clock + Sync, G: Gate + Sync, B: Shelf>(
    rt: &R,
    alloc: Global,
    input: Bytes,
    tries: u64,
    clock: &C,
    gate: &G,
    shelf: &mut B,
) -> Result<Output, Status>
where
    B::J: Drop + Send,
    requires tries { 0 < tries }
    ensures asked { IfOk result (λ output. IsRan (record { tells = B.J.tells; before = B.faults shelf.old; after = B.faults shelf.new; stored = B.stored shelf.new }) tries input output.status output.text) }
    ensures ends { IfOk result (λ output. IsEnd output.status) }
    ensures unwritten { IfErr result (IsUnwritten (record { tells = B.J.tells; before = B.faults shelf.old; after = B.faults shelf.new; stored = B.stored shelf.new }) input) }
    ensures unread { IfErr result (λ status. IsOfReading status → shelf.new ≡ shelf.old) }
    ensures never_falls { B.faults shelf.old ≤ B.faults shelf.new }
{
    let plan = match read_plan(alloc, input.items()) {
        Ok(plan) => plan,
        Err(Refusal::Bad { place, kind }) => return Err(Status::BadInput { place, kind }),
        Err(Refusal::NoMemory) => return Err(Status::NoMemory),
    };
    drop(input);
    let Ended { run, status } = match run_on(rt, alloc, &plan, tries, clock, gate, shelf) {
        Ok(ended) => ended,
        Err(status) => return Err(status),
    };
    let mut text = Bytes::new(alloc);
    if text_of(plan.config(), run.entries(), &mut text).is_err() {
        return Err(Status::NoMemory);
    }
    Ok(Output { text, status })
}

// How a run ended: with what was done in it, and the status of that.
#[derive(Drop)]
struct Ended {
    run: Run,
    status: Status,
}

// Runs a plan to its end, or until a replica is full; or the status where there is no run.
fn run_on<R: Threads + Wait + Sync, C: Clock + Sync, G: Gate + Sync, B: Shelf>(
    rt: &R,
    alloc: Global,
    plan: &Plan,
    tries: u64,
    clock: &C,
    gate: &G,
    shelf: &mut B,
) -> Result<Ended, Status>
where
    B::J: Drop + Send,
    requires tries { 0 < tries }
    ensures ended { IfOk result (λ ended. HasEndedBy (record { tells = B.J.tells; before = B.faults shelf.old; after = B.faults shelf.new; stored = B.stored shelf.new }) plan.now tries ended.run ended.status) }
    ensures ends { IfOk result (λ ended. IsEnd ended.status) }
    ensures failed { IfErr result (λ status. (status ≡ answer.NoMemory) ⊎ HasFailedBy (record { tells = B.J.tells; before = B.faults shelf.old; after = B.faults shelf.new; stored = B.stored shelf.new }) status) }
    ensures never_falls { B.faults shelf.old ≤ B.faults shelf.new }
{
    match run_plan(rt, alloc, plan, tries, clock, gate, shelf) {
        Ok(run) => Ok(Ended {
            run,
            status: Status::Done,
        }),
        Err(
            RunFault::Full {
                replica,
                count,
                clock,
                run,
            },
        ) => Ok(Ended {
            run,
            status: Status::Full {
                replica,
                count,
                clock,
            },
        }),
        Err(RunFault::JournalFault { replica }) => Err(Status::JournalFault { replica }),
        Err(RunFault::JournalForeign { replica, place }) => {
            Err(Status::JournalForeign { replica, place })
        }
        Err(RunFault::NoMemory) => Err(Status::NoMemory),
    }
}

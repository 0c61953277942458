//! What the tests of runs share.
ghost use Rattle.std.specs.Prelude.{◌<◌};

use run_work::{Run, run_plan};
use std::alloc::Global;
use std::process::Abort;
use std::sync::Wait;
use std::thread::Threads;
use tact_io::{Gate, Shelf, StepClock, SureShelf};
use work_load::{Plan, parse_plan};

/// The run of a plan to its end over a shelf of journals. The clock tells another moment each time.
pub(crate) fn run_over<R: Threads + Wait + Sync + Abort, G: Gate + Sync, B: Shelf>(
    rt: &R,
    alloc: Global,
    plan: &Plan,
    tries: u64,
    gate: &G,
    shelf: &mut B,
) -> Run
where
    B::J: Drop + Send,
    requires { 0 < tries }
{
    let clock = StepClock::new(1, 1);
    match run_plan(rt, alloc, plan, tries, &clock, gate, shelf) {
        Ok(run) => run,
        Err(_) => panic!(rt; "it runs to its end"),
    }
}

/// The run of a workload to its end, over journals that don't fail.
pub(crate) fn run_surely<R: Threads + Wait + Sync + Abort, G: Gate + Sync>(
    rt: &R,
    alloc: Global,
    workload: &[u8],
    tries: u64,
    gate: &G,
) -> Run
    requires { 0 < tries }
{
    let plan = parse_plan(alloc, workload).expect(rt, "a plan");
    let mut shelf = SureShelf::new(alloc).expect(rt, "a shelf");
    run_over(rt, alloc, &plan, tries, gate, &mut shelf)
}

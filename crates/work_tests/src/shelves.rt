//! Runs over journals that fail.

use crate::kinds::kinds_of;
use crate::running::run_over;
use crate::runs::WORKED;
use run_check::{Verdict, check_record, put_verdict};
use run_model::{Config, Entry};
use run_record::{parse_text, text_of};
use run_work::Run;
use std::alloc::Global;
use std::process::Abort;
use std::sync::Wait;
use std::thread::Threads;
use tact_base::Bytes;
use tact_io::{FreeGate, JournalFail, MemShelf};
use work_load::{Plan, parse_plan};

// What the checker finds of a record.
fn judged(rt: &impl Abort, alloc: Global, text: &[u8]) -> Verdict {
    let record = parse_text(alloc, text).expect(rt, "a record");
    check_record(alloc, &record).expect(rt, "a verdict")
}

// The line that the checker says of the record of a run.
fn said_of(rt: &impl Abort, alloc: Global, config: &Config, entries: &[Entry]) -> Bytes {
    let mut text = Bytes::new(alloc);
    text_of(config, entries, &mut text).expect(rt, "a text");
    let verdict = judged(rt, alloc, text.items());
    let mut line = Bytes::new(alloc);
    put_verdict(alloc, &verdict, &mut line).expect(rt, "a line");
    line
}

// The checker says of a record that it is that of a run.
fn assert_runs(rt: &impl Abort, alloc: Global, config: &Config, entries: &[Entry]) {
    let said = said_of(rt, alloc, config, entries);
    assert!(rt; said.items().starts_with(b"run "));
}

// The run of a plan to its end over journals that each fail at one call, after which the piece was kept or lost.
fn run_failing<R: Threads + Wait + Sync + Abort>(
    rt: &R,
    alloc: Global,
    plan: &Plan,
    fail: JournalFail,
) -> Run {
    let mut shelf = MemShelf::new(alloc, &[fail]).expect(rt, "a shelf");
    run_over(rt, alloc, plan, 50, &FreeGate::new(), &mut shelf)
}

// Whether a journal failed in such a run of the worked workload.
fn fails<R: Threads + Wait + Sync + Abort>(
    rt: &R,
    alloc: Global,
    plan: &Plan,
    fail: JournalFail,
) -> bool {
    let run = run_failing(rt, alloc, plan, fail);
    assert_runs(rt, alloc, plan.config(), run.entries());
    let kinds = kinds_of(run.entries());
    assert_eq!(rt; kinds.calls, 10);
    kinds.restarts > 0
}

// From the first call to the first that no journal comes to, each fails in turn.
fn assert_fails<R: Threads + Wait + Sync + Abort>(rt: &R, alloc: Global, plan: &Plan, kept: bool) {
    let mut failed: u64 = 0;
    for call in 0..1_000 {
        if !fails(rt, alloc, plan, JournalFail { call, kept }) {
            break;
        }
        failed = failed.saturating_add(1);
    }
    assert!(rt; 10 < failed && failed < 1_000);
}

#[test]
fn a_journal_that_fails_once_leaves_a_run(rt: HostRuntime) {
    let plan = parse_plan(rt.alloc(), WORKED).expect(&rt, "a plan");
    assert_fails(&rt, rt.alloc(), &plan, false);
    assert_fails(&rt, rt.alloc(), &plan, true);
}

//! Runs to their end, and a run in which a replica becomes full.

use crate::kinds::kinds_of;
use crate::running::run_surely;
use run_model::{Act, Entry};
use run_work::{RunFault, run_plan};
use std::alloc::Global;
use std::process::Abort;
use std::sync::Wait;
use std::thread::Threads;
use tact_base::Bytes;
use tact_io::{FreeGate, StepClock, SureShelf};
use work_load::{Plan, parse_plan};

pub(crate) const WORKED: &[u8] = br#"{"replicas":3,"conits":1,
 "bounds":[[0,0,200,[0,100,100]],[1,0,200,[100,0,100]],[2,0,200,[100,100,0]]],
 "links":[[0,5,7,0],[1,5,7,0],[2,5,7,3]],"settle":4,
 "clients":[
  [0,0,[["write",["add",1,1],[[0,1,1]]],["write",["add",1,1],[[0,1,1]]],["read",1,[[0,200,50,1000000]]]]],
  [0,1,[["reserve",0,5],["held",["add",2,1],[0,5,1]],["release",0]]],
  [1,0,[["write",["shift",1,2,1],[[0,-1,1]]],["lend",0,0,0],["read",2,[[0,200,50,1000000]]]]],
  [2,0,[["write",["put",9,4],[[0,2,1]]],["back",0,0,10],["read",9,[]]]]]}"#;

#[test]
fn the_worked_workload_runs_to_its_end(rt: HostRuntime) {
    let run = run_surely(&rt, rt.alloc(), WORKED, 50, &FreeGate::new());
    let kinds = kinds_of(run.entries());
    assert!(rt; 0 < kinds.sends && 0 < kinds.takes);
    assert_eq!(rt;
        (kinds.calls, kinds.lends, kinds.backs, kinds.restarts),
        (10, 1, 1, 0)
    );
}

// A client of replica 0 that asks 1,000 times for what waits until its replica hears of the other.
fn append_reads(rt: &impl Abort, text: &mut Bytes) {
    append(rt, br#"{"replicas":2,"conits":1,"clients":[[0,0,["#, text);
    for read in 0..1_000 {
        if read > 0 {
            append(rt, b",", text);
        }
        append(rt, br#"["read",1,[[0,0,0,0]]]"#, text);
    }
    append(rt, b"]]]}", text);
}

fn append(rt: &impl Abort, part: &[u8], text: &mut Bytes) {
    text.append(part).expect(rt, "room for a part");
}

fn plan_of_reads(rt: &impl Abort, alloc: Global) -> Plan {
    let mut text = Bytes::new(alloc);
    append_reads(rt, &mut text);
    parse_plan(alloc, text.items()).expect(rt, "a plan")
}

// Each entry is of the moment 7, and there are as many as a replica may have.
fn assert_moments(rt: &impl Abort, entries: &[Entry]) {
    for entry in entries {
        assert_eq!(rt; entry.moment, 7);
    }
    assert_eq!(rt; entries.len(), 20_000);
}

fn assert_full<R: Threads + Wait + Sync + Abort>(
    rt: &R,
    alloc: Global,
    plan: &Plan,
    shelf: &mut SureShelf,
) {
    let clock = StepClock::new(7, 0);
    let gate = FreeGate::new();
    match run_plan(rt, alloc, plan, 20, &clock, &gate, shelf) {
        Err(
            RunFault::Full {
                replica,
                count,
                clock,
                run,
            },
        ) => {
            assert_eq!(rt; (replica, count, clock), (0, 20_000, 0));
            assert_moments(rt, run.entries());
        }
        _ => panic!(rt; "it becomes full"),
    }
}

#[test]
fn a_replica_becomes_full_at_the_moments_of_the_clock(rt: HostRuntime) {
    let plan = plan_of_reads(&rt, rt.alloc());
    let mut shelf = SureShelf::new(rt.alloc()).expect(&rt, "a shelf");
    assert_full(&rt, rt.alloc(), &plan, &mut shelf);
}

// How many calls there are: each is the first of client 4 of replica 1.
fn first_calls(rt: &impl Abort, entries: &[Entry]) -> u64 {
    let mut calls: u64 = 0;
    for entry in entries {
        if let Act::Call { client, number, .. } = &entry.act {
            assert_eq!(rt; (entry.replica, *client, *number), (1, 4, 0));
            calls = calls.saturating_add(1);
        }
    }
    calls
}

#[test]
fn sessions_of_replicas_without_clients_settle_a_run(rt: HostRuntime) {
    let text =
        br#"{"replicas":3,"conits":1,"settle":2,"clients":[[1,4,[["write",["put",1,7],[]],["restart"]]]]}"#;
    let run = run_surely(&rt, rt.alloc(), text, 1, &FreeGate::new());
    let kinds = kinds_of(run.entries());
    assert_eq!(rt;
        (
            first_calls(&rt, run.entries()),
            kinds.calls,
            kinds.sends,
            kinds.takes,
            kinds.restarts
        ),
        (1, 1, 16, 16, 1)
    );
}

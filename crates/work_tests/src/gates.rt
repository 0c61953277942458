//! Workers side by side: a gate holds a call of the one until one of the other has come.
ghost use Rattle.std.specs.Prelude.{◌<◌};

use crate::running::run_surely;
use run_model::{Act, Entry};
use std::sync::atomic::{AtomicBool, AtomicU64, Ordering};
use std::thread;
use tact_io::Gate;

const PLAN: &[u8] = br#"{"replicas":2,"conits":1,"clients":[
[0,0,[["write",["add",1,1],[]],["write",["add",1,1],[]]]],
[1,0,[["write",["add",1,1],[]],["write",["add",1,1],[]]]]]}"#;

// How often a held call looks before it gives up.
const TURNS: u64 = 50_000_000;

// It holds replica 0's first call until replica 1's second has come, and that one until replica 0's first has.
#[derive(Drop)]
struct Crossing {
    calls: [AtomicU64; 2],
    given_up: AtomicBool,
}

impl Crossing {
    // Waits until so many calls of a replica have come.
    fn hold(&self, replica: u32, count: u64)
        requires { replica < 2 }
    {
        for _turn in 0..TURNS {
            if self.calls[replica as usize].load(Ordering::SeqCst) >= count {
                return;
            }
            thread::yield_now();
        }
        self.given_up.store(true, Ordering::SeqCst);
    }
}

impl Gate for Crossing {
    fn reached(&self, replica: u32, _client: u32) {
        if replica >= 2 {
            return;
        }
        let before = self.calls[replica as usize].fetch_add(1, Ordering::SeqCst);
        match (replica, before) {
            (0, 0) => self.hold(1, 2),
            (1, 1) => self.hold(0, 1),
            _ => {}
        }
    }
}

// What a replica does for the first time: it sends to any other, or takes from this one.
#[derive(Clone, Copy)]
enum First {
    Send,
    TakeFrom(u32),
}

fn is_first(act: &Act, first: First) -> bool {
    match (first, act) {
        (First::Send, Act::Send { message }) => message.number == 0,
        (First::TakeFrom(other), Act::Take { message }) => {
            message.from == other && message.number == 0
        }
        _ => false,
    }
}

// How many calls a replica made before it first did that, and how many in all.
fn calls_before(entries: &[Entry], replica: u32, first: First) -> (Option<u64>, u64) {
    let mut calls: u64 = 0;
    let mut before = None;
    for entry in entries {
        if entry.replica != replica {
            continue;
        }
        if matches!(&entry.act, Act::Call { .. }) {
            calls = calls.saturating_add(1);
        } else if is_first(&entry.act, first) {
            before = Some(calls);
        }
    }
    (before, calls)
}

#[test]
fn workers_run_side_by_side_and_send_and_take_between_their_items(rt: HostRuntime) {
    let gate = Crossing {
        calls: [AtomicU64::new(0), AtomicU64::new(0)],
        given_up: AtomicBool::new(false),
    };
    let run = run_surely(&rt, rt.alloc(), PLAN, 20, &gate);
    assert!(rt;
        !gate.given_up.load(Ordering::SeqCst),
        "no call was held for too long"
    );
    assert_eq!(rt; calls_before(run.entries(), 1, First::Send), (Some(1), 2));
    assert_eq!(rt;
        calls_before(run.entries(), 0, First::TakeFrom(1)),
        (Some(1), 2)
    );
}

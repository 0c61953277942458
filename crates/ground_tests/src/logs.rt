//! Logs by origin: what they take of what is told, and what they lend once the first are given up.

use crate::checks::assert_numbers;
use std::alloc::Global;
use std::process::Abort;
use tact_base::{Op, Weights, Write};
use write_log::{Logs, Taken};

fn write(rt: &impl Abort, index: u64) -> Write {
    Write {
        origin: 1,
        index,
        stamp: 1,
        moment: 0,
        weights: Weights::new(&[]).expect(rt, "no weights"),
        op: Op::Add { key: 7, delta: 1 },
    }
}

// The first three writes of an origin.
fn writes(rt: &impl Abort) -> [Write; 3] {
    [write(rt, 0), write(rt, 1), write(rt, 2)]
}

// What logs of two origins answer that are told the first two of the writes, give up those before `upto`, and are told
// all of them as those from `first` on; and how many writes they count then, of the origin and of the other one.
fn told(
    rt: &impl Abort,
    alloc: Global,
    writes: &[Write; 3],
    upto: u64,
    first: u64,
) -> ([Taken; 2], [u64; 2]) {
    let mut logs = Logs::new(alloc, 2).expect(rt, "logs");
    logs.reserve(1, 2).expect(rt, "room for two");
    let before = logs.extend(1, 0, &writes[..2]);
    logs.trim(1, upto.min(logs.count(1)));
    logs.reserve(1, 3).expect(rt, "room for three");
    let answer = logs.extend(1, first, writes);
    ([before, answer], [logs.count(1), logs.count(0)])
}

static TOLD: [(u64, u64, Taken, u64); 8] = [
    (0, 0, Taken::Added(1), 3),
    (0, 1, Taken::Added(2), 4),
    (0, 2, Taken::Added(3), 5),
    (0, 3, Taken::Gap { have: 2, first: 3 }, 2),
    (1, 0, Taken::Added(1), 3),
    (2, 0, Taken::Added(1), 3),
    (2, 2, Taken::Added(3), 5),
    (2, 3, Taken::Gap { have: 2, first: 3 }, 2),
];

#[test]
fn takes_what_is_told(rt: HostRuntime) {
    let writes = writes(&rt);
    for &(upto, first, answer, count) in &TOLD {
        let due = ([Taken::Added(2), answer], [count, 0]);
        assert_eq!(rt; told(&rt, rt.alloc(), &writes, upto, first), due);
    }
}

// The indices of writes.
fn indices(rt: &impl Abort, alloc: Global, writes: &[Write]) -> Vec<u64> {
    let mut indices = Vec::new(alloc);
    for write in writes {
        indices.push(write.index).expect(rt, "room for an index");
    }
    indices
}

// What logs of eight origins answer that are told three writes of origin 7; and the first index that they lend once they
// gave up those before `upto` and then those before `then`, and the indices of all that they lend.
fn lent(
    rt: &impl Abort,
    alloc: Global,
    writes: &[Write; 3],
    upto: u64,
    then: u64,
) -> (Taken, u64, Vec<u64>) {
    let mut logs = Logs::new(alloc, 8).expect(rt, "logs");
    logs.reserve(7, 3).expect(rt, "room for three");
    let answer = logs.extend(7, 0, writes);
    logs.trim(7, upto.min(logs.count(7)));
    logs.trim(7, then.min(logs.count(7)));
    let first = logs.base(7);
    let held = logs.slice(7, first, logs.count(7) - first);
    (answer, first, indices(rt, alloc, held))
}

static LENT: [(u64, u64, u64, &[u64]); 5] = [
    (0, 0, 0, &[0, 1, 2]),
    (1, 0, 1, &[1, 2]),
    (2, 1, 2, &[2]),
    (1, 2, 2, &[2]),
    (3, 3, 3, &[]),
];

#[test]
fn lends_what_is_held(rt: HostRuntime) {
    let writes = writes(&rt);
    for &(upto, then, base, indices) in &LENT {
        let (answer, first, held) = lent(&rt, rt.alloc(), &writes, upto, then);
        assert_eq!(rt; (answer, first), (Taken::Added(3), base));
        assert_numbers(&rt, &held, indices);
    }
}

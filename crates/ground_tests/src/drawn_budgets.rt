//! The budgets of a replica through a long run whose steps are drawn: what a peer may miss, against sums from scratch.

use crate::opened::Opened;
use split_budget::Fit;
use std::process::Abort;
use tact_base::Weight;
use test_draws::{below, next};

// A small weight on conit 0 or 1, by a number.
fn weight_of(number: u64) -> Weight {
    Weight {
        conit: u32::from(below(number, 40, 2)),
        nweight: i64::from(below(number, 50, 16)) - 8,
        oweight: 0,
    }
}

// One step by a number: a write where it fits, or the same with an amount that is held, spent or freed. Whether a write
// was added.
fn take_step(rt: &impl Abort, opened: &mut Opened, number: u64, weight: Weight) -> bool {
    let size = weight.nweight.unsigned_abs();
    match below(number, 33, 5) {
        0 => {
            opened.hold(rt, weight.conit, size);
            false
        }
        1 => {
            opened.free_held(rt, weight.conit, size);
            false
        }
        2 => opened.spend(rt, weight),
        _ => opened.accept(rt, weight) == Fit::Fits,
    }
}

// The sums of the positive and of the negative nweights on the conit, of the writes from `known` on.
fn sums_from(log: &[Weight], known: u64, conit: u32) -> (u64, u64) {
    let mut plus = 0u64;
    let mut minus = 0u64;
    for weight in &log[(known as usize).min(log.len())..] {
        if weight.conit == conit {
            plus = plus.saturating_add(weight.nweight.max(0).unsigned_abs());
            minus = minus.saturating_add(weight.nweight.min(0).unsigned_abs());
        }
    }
    (plus, minus)
}

// What a peer may miss on each conit is what it isn't known to have.
fn assert_sums(rt: &impl Abort, opened: &Opened, log: &[Weight], peer: u32, known: u64) {
    for conit in 0..2 {
        assert_eq!(rt;
            opened.read(rt, peer, conit).missing,
            sums_from(log, known, conit),
            "{peer} on {conit}"
        );
    }
}

// One step by a number, after which a peer may be known to have more of the writes; then what it may miss.
fn turn(
    rt: &impl Abort,
    opened: &mut Opened,
    log: &mut Vec<Weight>,
    known: &mut [u64; 3],
    number: u64,
) {
    let weight = weight_of(number);
    if take_step(rt, opened, number, weight) {
        log.push(weight).expect(rt, "room for a weight");
    }
    let peer = 1 + below(number, 60, 2);
    if below(number, 62, 4) == 0 {
        let count = (log.len() as u64 + 2).saturating_sub(u64::from(below(number, 20, 12)));
        opened.acked(rt, u32::from(peer), count);
        known[peer as usize] = known[peer as usize].max(count);
    }
    assert_sums(rt, opened, log, u32::from(peer), known[peer as usize]);
}

static LOANS: [u64; 18] = [
    0, 40, 40, 0, 40, 40, 40, 0, 40, 40, 0, 40, 40, 40, 0, 40, 40, 0,
];

#[test]
fn kept_sums_are_those_from_scratch(rt: HostRuntime) {
    let mut opened = Opened::new(&rt, rt.alloc(), 3, 2, &[90; 6], &LOANS);
    let mut log = Vec::new(rt.alloc());
    let mut known = [0; 3];
    let mut number = 1;
    for _ in 0..1000 {
        number = next(number);
        turn(&rt, &mut opened, &mut log, &mut known, number);
    }
}

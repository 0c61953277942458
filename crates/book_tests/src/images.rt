//! What keys hold by the book, whatever order the writes came in.

use crate::writes::{accept_in_turn, fresh_book, write};
use std::alloc::Global;
use std::process::Abort;
use tact_base::Op;

// Both replicas wrote at the stamp 1. The book hears of replica 1 first, but that of replica 0 comes before it.
fn assert_image(rt: &impl Abort, alloc: Global, zero: Op, one: Op, held: (u64, i64)) {
    let late = write(rt, 1, 0, 1, 0, 1, one);
    let early = write(rt, 0, 0, 1, 0, 2, zero);
    let mut book = fresh_book(rt, alloc);
    accept_in_turn(rt, &mut book, &late, &early);
    assert_eq!(rt; book.image_value(held.0), Ok(held.1));
    assert_eq!(rt; book.value(0), 3);
}

const PUT_FIVE: Op = Op::Put { key: 1, value: 5 };

const PUT_SIX: Op = Op::Put { key: 1, value: 6 };

const ADD: Op = Op::Add { key: 1, delta: 5 };

const SHIFT: Op = Op::Shift {
    from: 1,
    to: 2,
    amount: 5,
};

static FOLDED: [(Op, Op, (u64, i64)); 5] = [
    (PUT_FIVE, PUT_SIX, (1, 6)),
    (PUT_SIX, PUT_FIVE, (1, 5)),
    (ADD, SHIFT, (2, 5)),
    (SHIFT, ADD, (2, 0)),
    (ADD, SHIFT, (3, 0)),
];

#[test]
fn folds_in_the_order_of_all_writes(rt: HostRuntime) {
    for &(zero, one, held) in &FOLDED {
        assert_image(&rt, rt.alloc(), zero, one, held);
    }
}

//! Lists, weights and needs.

use crate::checks::assert_numbers;
use std::alloc::Global;
use std::process::Abort;
use std::slice;
use tact_base::{
    ConitList, Cover, ListFault, Need, Needs, Numbers, OnConit, Op, Place, Row, Weight, Weights,
    Write, WriteList, first_index,
};

const GOOD_WEIGHT: Weight = Weight {
    conit: 9,
    nweight: 1_000_000,
    oweight: 1_000_000,
};

const LEAST_WEIGHT: Weight = Weight {
    conit: 2,
    nweight: -1_000_000,
    oweight: 0,
};

const OVER_WEIGHT: Weight = Weight {
    conit: 3,
    nweight: 1_000_001,
    oweight: 0,
};

#[rattlefmt::skip]
static WEIGHTS: [(&[Weight], Option<ListFault>); 12] = [
    (&[], None),
    (&[GOOD_WEIGHT], None),
    (&[Weight { conit: 0, nweight: 0, oweight: 0 }, LEAST_WEIGHT, Weight { conit: 4, nweight: 1, oweight: 1 }, GOOD_WEIGHT], None),
    (&[GOOD_WEIGHT, GOOD_WEIGHT, GOOD_WEIGHT, GOOD_WEIGHT, OVER_WEIGHT], Some(ListFault::TooMany)),
    (&[GOOD_WEIGHT, GOOD_WEIGHT], Some(ListFault::Unordered { place: 1 })),
    (&[OVER_WEIGHT, GOOD_WEIGHT, LEAST_WEIGHT], Some(ListFault::Unordered { place: 2 })),
    (&[Weight { conit: 1, nweight: 0, oweight: 0 }, LEAST_WEIGHT, Weight { conit: 0, nweight: 0, oweight: 0 }, LEAST_WEIGHT], Some(ListFault::Unordered { place: 2 })),
    (&[LEAST_WEIGHT, OVER_WEIGHT, Weight { conit: 4, nweight: i64::MIN, oweight: 0 }], Some(ListFault::Range { place: 1 })),
    (&[Weight { conit: 0, nweight: -1_000_001, oweight: 0 }], Some(ListFault::Range { place: 0 })),
    (&[Weight { conit: 0, nweight: i64::MIN, oweight: 0 }], Some(ListFault::Range { place: 0 })),
    (&[Weight { conit: 0, nweight: i64::MAX, oweight: 0 }], Some(ListFault::Range { place: 0 })),
    (&[LEAST_WEIGHT, Weight { conit: 3, nweight: 0, oweight: 1_000_001 }], Some(ListFault::Range { place: 1 })),
];

#[test]
fn refuses_weights(rt: HostRuntime) {
    for (items, want) in &WEIGHTS {
        assert_eq!(rt; refusal(&rt, Weights::new(items), items), *want);
    }
}

const MOST: u64 = 1_000_000_000_000;

const GOOD_NEED: Need = Need {
    conit: 5,
    num: MOST,
    order: MOST,
    stale: 1_152_921_504_606_846_976,
};

const LATE_NEED: Need = Need {
    conit: 6,
    num: 0,
    order: 0,
    stale: 1_152_921_504_606_846_977,
};

#[rattlefmt::skip]
static NEEDS: [(&[Need], Option<ListFault>); 9] = [
    (&[], None),
    (&[Need { conit: 0, num: 0, order: 0, stale: 0 }, Need { conit: 1, num: 1, order: 1, stale: 1 }, Need { conit: 2, num: 0, order: 0, stale: 0 }, GOOD_NEED], None),
    (&[LATE_NEED, GOOD_NEED, GOOD_NEED, GOOD_NEED, GOOD_NEED], Some(ListFault::TooMany)),
    (&[GOOD_NEED, GOOD_NEED], Some(ListFault::Unordered { place: 1 })),
    (&[LATE_NEED, GOOD_NEED], Some(ListFault::Unordered { place: 1 })),
    (&[GOOD_NEED, LATE_NEED], Some(ListFault::Range { place: 1 })),
    (&[Need { conit: 0, num: MOST + 1, order: 0, stale: 0 }], Some(ListFault::Range { place: 0 })),
    (&[Need { conit: 0, num: 0, order: MOST + 1, stale: 0 }], Some(ListFault::Range { place: 0 })),
    (&[Need { conit: 0, num: 0, order: 0, stale: u64::MAX }], Some(ListFault::Range { place: 0 })),
];

#[test]
fn refuses_needs(rt: HostRuntime) {
    for (items, want) in &NEEDS {
        assert_eq!(rt; refusal(&rt, Needs::new(items), items), *want);
    }
}

// The fault for which a list was refused, or none where it was made, and is of these items.
fn refusal<T: OnConit + PartialEq>(
    rt: &impl Abort,
    made: Result<ConitList<T>, ListFault>,
    items: &[T],
) -> Option<ListFault> {
    match made {
        Ok(list) => {
            assert!(rt; list.items() == items, "other items");
            None
        }
        Err(fault) => Some(fault),
    }
}

static EIGHT: [u64; 8] = [1, 2, 3, 4, 5, 6, 7, u64::MAX];

// Whether a row's copy is equal to it.
fn is_copied(rt: &impl Abort, row: &Row) -> bool {
    row.clone().expect(rt, "a copy") == *row
}

#[test]
fn holds_few_items(rt: HostRuntime) {
    let row = Row::new(&EIGHT);
    assert_numbers(&rt, row.items(), &EIGHT);
    assert!(rt; is_copied(&rt, &row));
    assert!(rt; Row::new(&[1, 2]) != row);
    assert_numbers(&rt, Row::new(&[]).items(), &[]);
}

fn grown(rt: &impl Abort, alloc: Global) -> Numbers {
    let mut list = Numbers::new(alloc);
    list.push(7).expect(rt, "room for one");
    list.append(&[8, 9]).expect(rt, "room for two");
    list
}

// Whether a list is equal to one of these numbers.
fn is_of(rt: &impl Abort, list: &Numbers, alloc: Global, numbers: &[u64]) -> bool {
    Numbers::from_slice(alloc, numbers).expect(rt, "numbers") == *list
}

#[test]
fn grows_a_list(rt: HostRuntime) {
    assert!(rt; Numbers::new(rt.alloc()).is_empty());
    let list = grown(&rt, rt.alloc());
    assert_eq!(rt; list.len(), 3);
    assert!(rt; !list.is_empty());
    assert_numbers(&rt, list.items(), &[7, 8, 9]);
    assert!(rt; is_of(&rt, &list, rt.alloc(), &[7, 8, 9]));
    assert!(rt; !is_of(&rt, &list, rt.alloc(), &[7, 8]));
}

fn shifting(rt: &impl Abort) -> Write {
    let weight = Weight {
        conit: 5,
        nweight: -6,
        oweight: 7,
    };
    Write {
        origin: 1,
        index: 2,
        stamp: 3,
        moment: 4,
        weights: Weights::new(&[weight]).expect(rt, "a weight"),
        op: Op::Shift {
            from: 8,
            to: 9,
            amount: 10,
        },
    }
}

// A copy of a write, with another operation.
fn changed(rt: &impl Abort, write: &Write) -> Write {
    let mut copy = write.clone().expect(rt, "a copy");
    assert_eq!(rt; copy, *write);
    copy.op = Op::Put { key: 8, value: -9 };
    copy
}

#[test]
fn copies_writes(rt: HostRuntime) {
    let first = shifting(&rt);
    let second = changed(&rt, &first);
    let both = [first, second];
    let mut list = WriteList::from_slice(rt.alloc(), slice::from_ref(&both[0])).expect(
        &rt, "a list",
    );
    list.append(slice::from_ref(&both[1]))
        .expect(&rt, "room for a write");
    assert!(rt; list.items() == both.as_slice());
}

// The numbers below a count.
fn below(rt: &impl Abort, alloc: Global, count: u64) -> Numbers {
    let mut list = Numbers::new(alloc);
    for number in 0..count {
        list.push(number).expect(rt, "room for a number");
    }
    list
}

// Whether a list's copy is equal to it.
fn is_cloned(rt: &impl Abort, list: &Numbers) -> bool {
    list.clone().expect(rt, "a copy") == *list
}

#[test]
fn goes_on_past_its_place(rt: HostRuntime) {
    let nine = below(&rt, rt.alloc(), 9);
    assert_numbers(&rt, nine.items(), &[0, 1, 2, 3, 4, 5, 6, 7, 8]);
    assert!(rt; is_cloned(&rt, &nine));
}

// A copy of a list, and the list once more behind it.
fn doubled(rt: &impl Abort, list: &Numbers) -> Numbers {
    let mut copy = list.copied().expect(rt, "a copy");
    copy.append(list.items()).expect(rt, "room for as many");
    copy
}

#[test]
fn appends_to_a_copy(rt: HostRuntime) {
    let list = doubled(&rt, &below(&rt, rt.alloc(), 2));
    assert_numbers(&rt, list.items(), &[0, 1, 0, 1]);
}

#[test]
fn changes_a_short_list(rt: HostRuntime) {
    let nine = [0, 1, 2, 3, 4, 5, 6, 7, 8];
    let mut list = Numbers::from_slice(rt.alloc(), &nine).expect(&rt, "a list");
    list.truncate(3);
    list.set(1, 7);
    assert_numbers(&rt, list.items(), &[0, 7, 2]);
    list.truncate(0);
    assert!(rt; list.is_empty());
}

#[test]
fn makes_lists_of_a_length(rt: HostRuntime) {
    let nines = Numbers::filled(rt.alloc(), 9, 3).expect(&rt, "nines");
    assert_numbers(&rt, nines.items(), &[9, 9, 9]);
}

#[rattlefmt::skip]
static PLACES: [(Place, Place); 3] = [
    (Place { stamp: 1, origin: 7, index: 9 }, Place { stamp: 2, origin: 0, index: 0 }),
    (Place { stamp: 1, origin: 0, index: 9 }, Place { stamp: 1, origin: 1, index: 0 }),
    (Place { stamp: 1, origin: 1, index: 0 }, Place { stamp: 1, origin: 1, index: 1 }),
];

#[test]
fn orders_places(rt: HostRuntime) {
    for (first, second) in &PLACES {
        assert!(rt; first < second, "{first:?} before {second:?}");
    }
}

const KEPT: Cover = Cover {
    count: 2,
    stamp: 5,
    moment: 7,
};

#[rattlefmt::skip]
static TOLD: [(Cover, Cover); 6] = [
    (KEPT, KEPT),
    (Cover { count: 3, stamp: 6, moment: 8 }, Cover { count: 3, stamp: 6, moment: 8 }),
    (Cover { count: 2, stamp: 6, moment: 7 }, Cover { count: 2, stamp: 6, moment: 7 }),
    (Cover { count: 1, stamp: 6, moment: 8 }, KEPT),
    (Cover { count: 3, stamp: 4, moment: 8 }, KEPT),
    (Cover { count: 3, stamp: 6, moment: 6 }, KEPT),
];

#[test]
fn keeps_the_later_cover(rt: HostRuntime) {
    for (told, after) in &TOLD {
        assert!(rt; KEPT.later(*told) == *after, "after {told:?}");
    }
}

static FIRSTS: [(u32, u64, u64, u64, u64); 5] = [
    (0, 5, 2, 0, 2),
    (0, 5, 2, 3, 3),
    (0, 5, 9, 0, 5),
    (0, 5, 0, 0, 0),
    (1, 5, 0, 0, 5),
];

#[test]
fn begins_past_what_the_receiver_has(rt: HostRuntime) {
    for &(origin, have, known, given, first) in &FIRSTS {
        assert_eq!(rt; first_index(1, origin, have, known, given), first);
    }
}

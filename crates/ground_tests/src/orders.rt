//! The writes of a replica in order: batches and commits in turn, against a plain list.

ghost use Rattle.std.specs.Prelude.{◌≡◌, ◌<◌, ◌≤◌, All};
ghost use Rattle.std.specs.List.Sorted.{IsStrictlySortedBy};
ghost use Rattle.tact_base.specs.WriteOrder.{write_cmp};

use commit_order::Ordered;
use std::alloc::Global;
use std::process::Abort;
use tact_base::{Op, Place, Weights, Write};
use test_draws::{below, next};

// Two writes with one stamp and one with a later stamp, all with one index, in order.
fn batch(rt: &impl Abort, first: u64, last: u64, index: u64) -> [Write; 3]
    requires { first < last }
    ensures sorted { IsStrictlySortedBy write_cmp result }
    ensures late { All (λ made. first ≤ made.stamp) result }
    ensures alike { All (λ made. made.index ≡ index) result }
{
    [
        write(rt, first, 0, index),
        write(rt, first, 1, index),
        write(rt, last, 0, index),
    ]
}

fn write(rt: &impl Abort, stamp: u64, origin: u32, index: u64) -> Write
    ensures { (result.stamp ≡ stamp) × (result.origin ≡ origin) × (result.index ≡ index) }
{
    Write {
        origin,
        index,
        stamp,
        moment: 0,
        weights: Weights::new(&[]).expect(rt, "no weights"),
        op: Op::Put { key: 1, value: 5 },
    }
}

// Puts the places of writes into a list of places in order.
fn put(rt: &impl Abort, places: &mut Vec<Place>, writes: &[Write]) {
    for write in writes {
        let place = write.place();
        let at = places.partition_point(|held| *held < place);
        places.insert(at, place).expect(rt, "room for a place");
    }
}

// The writes have these places.
fn assert_at(rt: &impl Abort, writes: &[Write], places: &[Place]) {
    assert_eq!(rt; writes.len(), places.len());
    for (write, place) in writes.iter().zip(places) {
        assert!(rt; write.place() == *place);
    }
}

fn assert_places(rt: &impl Abort, ordered: &Ordered, point: u64, places: &[Place]) {
    let committed = places.partition_point(|place| place.stamp <= point);
    assert_at(rt, ordered.committed(), &places[..committed]);
    assert_at(rt, ordered.tentative(), &places[committed..]);
}

#[test]
fn batches_go_in_one_by_one(rt: HostRuntime) {
    let mut ordered = Ordered::new(rt.alloc());
    let mut places = Vec::new(rt.alloc());
    let mut number = 1;
    let mut point = 0;
    for index in 0..60 {
        number = next(number);
        let first = point + 1 + u64::from(below(number, 33, 9));
        let last = first + 1 + u64::from(below(number, 43, 9));
        let writes = batch(&rt, first, last, index);
        ordered.reserve(3).expect(&rt, "room for three");
        ordered.insert_all(&writes);
        put(&rt, &mut places, &writes);
        point += u64::from(below(number, 53, 3));
        ordered.commit_to(point);
        assert_places(&rt, &ordered, point, &places);
    }
}

// Three writes that are put in, the last first, and the places that each was given.
fn put_in(rt: &impl Abort, alloc: Global) -> (Ordered, [u64; 3]) {
    let mut ordered = Ordered::new(alloc);
    ordered.reserve(3).expect(rt, "room for three");
    let third = ordered.insert(&write(rt, 3, 0, 1));
    let second = ordered.insert(&write(rt, 1, 1, 0));
    let first = ordered.insert(&write(rt, 1, 0, 0));
    (ordered, [third, second, first])
}

// The place of a write past the point of commit.
fn place(ordered: &Ordered, stamp: u64, origin: u32, index: u64) -> Option<u64> {
    if stamp <= ordered.point() {
        return None;
    }
    Some(ordered.place(stamp, origin, index))
}

// How many writes a commit up to a stamp leaves committed, unless it was before.
fn commit(ordered: &mut Ordered, stamp: u64) -> Option<u64> {
    if stamp < ordered.point() {
        return None;
    }
    Some(ordered.commit_to(stamp))
}

// A write would come to this place.
fn assert_place(rt: &impl Abort, ordered: &Ordered, stamp: u64, origin: u32, index: u64, due: u64) {
    let found = place(ordered, stamp, origin, index);
    assert_eq!(rt; found, Some(due), "{stamp}, {origin}, {index}");
}

// The committed and the tentative writes have these places.
fn assert_parts(rt: &impl Abort, ordered: &Ordered, committed: &[Place], tentative: &[Place]) {
    assert_at(rt, ordered.committed(), committed);
    assert_at(rt, ordered.tentative(), tentative);
}

static FOUND: [(u64, u32, u64, u64); 6] = [
    (1, 0, 0, 0),
    (1, 0, 1, 1),
    (1, 1, 0, 1),
    (1, 1, 1, 2),
    (2, 0, 0, 2),
    (3, 1, 0, 3),
];

#[rattlefmt::skip]
static IN_ORDER: [Place; 3] = [
    Place { stamp: 1, origin: 0, index: 0 },
    Place { stamp: 1, origin: 1, index: 0 },
    Place { stamp: 3, origin: 0, index: 1 },
];

#[test]
fn puts_writes_in_order(rt: HostRuntime) {
    let (mut ordered, places) = put_in(&rt, rt.alloc());
    assert_eq!(rt; places, [0, 0, 0]);
    for &(stamp, origin, index, due) in &FOUND {
        assert_place(&rt, &ordered, stamp, origin, index, due);
    }
    assert_parts(&rt, &ordered, &[], &IN_ORDER);
    assert_eq!(rt; commit(&mut ordered, 1), Some(2));
    assert_eq!(rt; commit(&mut ordered, 2), Some(2));
    assert_parts(&rt, &ordered, &IN_ORDER[..2], &IN_ORDER[2..]);
}

// Three writes that are put in, the first first, and the places that each was given.
fn put_behind(rt: &impl Abort, alloc: Global) -> (Ordered, [u64; 3]) {
    let mut ordered = Ordered::new(alloc);
    ordered.reserve(3).expect(rt, "room for three");
    let first = ordered.insert(&write(rt, 1, 0, 0));
    let second = ordered.insert(&write(rt, 2, 0, 1));
    let third = ordered.insert(&write(rt, 3, 1, 0));
    (ordered, [first, second, third])
}

// Gives up the first committed write, where there is one.
fn give_up(ordered: &mut Ordered) {
    let first = ordered.committed().len().min(1);
    ordered.drop_front(first as u64);
}

#[rattlefmt::skip]
static SECOND: [Place; 1] = [Place { stamp: 2, origin: 0, index: 1 }];

#[rattlefmt::skip]
static THIRD: [Place; 1] = [Place { stamp: 3, origin: 1, index: 0 }];

#[test]
fn gives_up_the_first(rt: HostRuntime) {
    let (mut ordered, places) = put_behind(&rt, rt.alloc());
    assert_eq!(rt; places, [0, 1, 2]);
    assert_eq!(rt; commit(&mut ordered, 2), Some(2));
    give_up(&mut ordered);
    assert_eq!(rt; ordered.dropped(), 1);
    assert_parts(&rt, &ordered, &SECOND, &THIRD);
    assert_place(&rt, &ordered, 4, 0, 0, 3);
    assert_eq!(rt; commit(&mut ordered, 3), Some(3));
    assert_at(&rt, ordered.tentative(), &[]);
}

//! Messages in range of a setup, and each way in which one isn't.

use run_model::{Config, Message, is_message_in_range};
use std::alloc::Global;
use std::process::Abort;
use tact_base::{
    Cover, Covers, Items, Numbers, Op, SharedWrites, Weight, Weights, Write, WriteList,
};

const ADD: Op = Op::Add { key: 7, delta: 1 };

const COVER: Cover = Cover {
    count: 1,
    stamp: 12,
    moment: 30,
};

// A told write with one weight.
#[derive(Clone, Copy)]
struct Told {
    origin: u32,
    index: u64,
    stamp: u64,
    moment: u64,
    conit: u32,
    op: Op,
}

const FIRST: Told = Told {
    origin: 0,
    index: 4,
    stamp: 9,
    moment: 20,
    conit: 0,
    op: ADD,
};

const SECOND: Told = Told {
    origin: 0,
    index: 5,
    stamp: 11,
    moment: 20,
    conit: 1,
    op: ADD,
};

const THIRD: Told = Told {
    origin: 2,
    index: 0,
    stamp: 10,
    moment: 21,
    conit: 0,
    op: ADD,
};

// What a message is made of.
#[derive(Clone, Copy)]
struct Parts<'a> {
    from: u32,
    to: u32,
    number: u64,
    haves: &'a [u64],
    covers: &'a [Cover],
    firsts: &'a [u64],
    writes: &'a [Told],
    lent: &'a [u64],
    returned: &'a [u64],
}

fn write_of(rt: &impl Abort, told: &Told) -> Write {
    let weight = Weight {
        conit: told.conit,
        nweight: 1,
        oweight: 1,
    };
    Write {
        origin: told.origin,
        index: told.index,
        stamp: told.stamp,
        moment: told.moment,
        weights: Weights::new(&[weight]).expect(rt, "a weight"),
        op: told.op,
    }
}

fn writes_of(rt: &impl Abort, alloc: Global, told: &[Told]) -> SharedWrites {
    let mut writes = WriteList::new(alloc);
    for told in told {
        writes
            .push(write_of(rt, told))
            .expect(rt, "room for a write");
    }
    SharedWrites::new(alloc, writes).expect(rt, "writes")
}

// Puts the lists into a message that has none.
fn fill(rt: &impl Abort, message: &mut Message, parts: &Parts) {
    message.haves.append(parts.haves).expect(rt, "haves");
    message.covers.append(parts.covers).expect(rt, "covers");
    message.firsts.append(parts.firsts).expect(rt, "firsts");
    message.lent.append(parts.lent).expect(rt, "what is lent");
    message
        .returned
        .append(parts.returned)
        .expect(rt, "what is returned");
}

fn message_of(rt: &impl Abort, alloc: Global, parts: &Parts) -> Message {
    let mut message = Message {
        from: parts.from,
        to: parts.to,
        number: parts.number,
        haves: Numbers::new(alloc),
        covers: Covers::new(alloc),
        firsts: Numbers::new(alloc),
        writes: writes_of(rt, alloc, parts.writes),
        lent: Numbers::new(alloc),
        returned: Numbers::new(alloc),
    };
    fill(rt, &mut message, parts);
    message
}

// Replica 0 of 3 replicas and 2 conits tells replica 1 two of its own writes and one of replica 2.
const GOOD: Parts<'static> = Parts {
    from: 0,
    to: 1,
    number: 3,
    haves: &[6, 2, 1],
    covers: &[COVER, COVER, COVER],
    firsts: &[4, 2, 0],
    writes: &[FIRST, SECOND, THIRD],
    lent: &[5, 0],
    returned: &[0, 2],
};

fn of_covers(covers: &[Cover]) -> Parts<'_> {
    Parts { covers, ..GOOD }
}

// The message with these writes, of a sender that has more of replicas 0 and 2.
fn of_writes(writes: &[Told]) -> Parts<'_> {
    Parts {
        writes,
        haves: &[9, 2, 9],
        ..GOOD
    }
}

// A second write with the index of the first.
const TWICE: Told = Told { index: 4, ..SECOND };

// Whether the message is in range of 3 replicas and 2 conits.
fn is_good(rt: &impl Abort, alloc: Global, parts: &Parts) -> bool {
    let config = Config::new(alloc, 3, 2, &[9; 6], &[0; 18]).expect(rt, "a setup");
    is_message_in_range(&config, &message_of(rt, alloc, parts))
}

#[rattlefmt::skip]
static ENDS_AND_LISTS: [(Parts<'static>, bool, &str); 16] = [
    (GOOD, true, "in range"),
    (Parts { from: 2, ..GOOD }, true, "the last sender"),
    (Parts { from: 3, ..GOOD }, false, "a sender past the count"),
    (Parts { to: 3, ..GOOD }, false, "a receiver past the count"),
    (Parts { from: 1, ..GOOD }, false, "to itself"),
    (Parts { number: 19_999, ..GOOD }, true, "the last number"),
    (Parts { number: 20_000, ..GOOD }, false, "a number too many"),
    (Parts { haves: &[6, 2], ..GOOD }, false, "haves too short"),
    (Parts { haves: &[6, 2, 1, 0], ..GOOD }, false, "haves too long"),
    (Parts { covers: &[COVER, COVER], ..GOOD }, false, "covers too short"),
    (Parts { firsts: &[4, 2], ..GOOD }, false, "firsts too short"),
    (Parts { lent: &[5], ..GOOD }, false, "lent too short"),
    (Parts { lent: &[5, 100_000_000_000_000_000], ..GOOD }, true, "the most lent"),
    (Parts { lent: &[5, 100_000_000_000_000_001], ..GOOD }, false, "too much lent"),
    (Parts { returned: &[0, 0, 2], ..GOOD }, false, "returned too long"),
    (Parts { returned: &[100_000_000_000_000_001, 0], ..GOOD }, false, "too much returned"),
];

// Each message of a table is in range where it is due.
fn assert_good(rt: &impl Abort, alloc: Global, cases: &[(Parts<'static>, bool, &str)]) {
    for (parts, due, text) in cases {
        assert!(rt; is_good(rt, alloc, parts) == *due, "{text}");
    }
}

#[test]
fn knows_the_ends_and_the_lists(rt: HostRuntime) {
    assert_good(&rt, rt.alloc(), &ENDS_AND_LISTS);
}

#[rattlefmt::skip]
static ORIGINS: [(Parts<'static>, bool, &str); 6] = [
    (Parts { haves: &[6, 20_000, 1], ..GOOD }, true, "the most writes"),
    (Parts { haves: &[6, 20_001, 1], ..GOOD }, false, "too many writes"),
    (Parts { haves: &[5, 2, 1], ..GOOD }, false, "more told than had"),
    (Parts { firsts: &[4, 1, 0], ..GOOD }, true, "a first within"),
    (Parts { firsts: &[4, 3, 0], ..GOOD }, false, "a first past all"),
    (Parts { firsts: &[4, 2, 1], ..GOOD }, false, "a first past the told"),
];

#[test]
fn knows_what_is_told_of_an_origin(rt: HostRuntime) {
    assert_good(&rt, rt.alloc(), &ORIGINS);
}

#[rattlefmt::skip]
static COVERS: [(Cover, bool); 4] = [
    (Cover { count: 2, stamp: 1_099_511_627_776, moment: 1_152_921_504_606_846_976 }, true),
    (Cover { count: 3, stamp: 1_099_511_627_776, moment: 1_152_921_504_606_846_976 }, false),
    (Cover { count: 2, stamp: 1_099_511_627_777, moment: 1_152_921_504_606_846_976 }, false),
    (Cover { count: 2, stamp: 1_099_511_627_776, moment: 1_152_921_504_606_846_977 }, false),
];

#[test]
fn knows_what_a_cover_vouches_for(rt: HostRuntime) {
    for (cover, due) in &COVERS {
        let covers = [COVER, *cover, COVER];
        assert!(rt;
            is_good(&rt, rt.alloc(), &of_covers(&covers)) == *due,
            "{cover:?}"
        );
    }
}

#[rattlefmt::skip]
static WRITES: [([Told; 3], bool, &str); 8] = [
    ([FIRST, SECOND, THIRD], true, "by origin and index"),
    ([FIRST, Told { index: 6, ..SECOND }, THIRD], false, "an index skipped"),
    ([FIRST, TWICE, THIRD], false, "an index twice"),
    ([Told { index: 3, ..FIRST }, TWICE, THIRD], false, "an index before the first"),
    ([FIRST, SECOND, Told { index: 6, ..THIRD }], false, "an index of another origin"),
    ([THIRD, FIRST, SECOND], false, "origins fall"),
    ([FIRST, THIRD, SECOND], false, "an origin parted"),
    ([FIRST, SECOND, Told { origin: 3, ..THIRD }], false, "an origin past the count"),
];

#[test]
fn knows_the_order_of_writes(rt: HostRuntime) {
    for (writes, due, text) in &WRITES {
        assert!(rt;
            is_good(&rt, rt.alloc(), &of_writes(writes)) == *due,
            "{text}"
        );
    }
    assert!(rt; is_good(&rt, rt.alloc(), &of_writes(&[])));
}

static OWN: [Told; 3] = [
    FIRST,
    SECOND,
    Told {
        origin: 1,
        index: 1,
        ..FIRST
    },
];

#[test]
fn knows_the_receivers_own_writes(rt: HostRuntime) {
    for (to, due) in [(1, false), (2, true)] {
        let parts = Parts {
            to,
            firsts: &[4, 1, 0],
            ..of_writes(&OWN)
        };
        assert!(rt; is_good(&rt, rt.alloc(), &parts) == due, "to {to}");
    }
}

#[rattlefmt::skip]
static OPS: [(Op, bool, &str); 10] = [
    (Op::Add { key: 1_000_000_000, delta: 1 }, true, "the last key"),
    (Op::Add { key: 1_000_000_001, delta: 1 }, false, "a key too great"),
    (Op::Add { key: 1, delta: 1_000_000_000_000_001 }, false, "too much added"),
    (Op::Put { key: 1_000_000_001, value: 1 }, false, "a key too great to put"),
    (Op::Put { key: 1, value: -1_000_000_000_000_000 }, true, "the least value"),
    (Op::Put { key: 1, value: -1_000_000_000_000_001 }, false, "a value too small"),
    (Op::Shift { from: 1_000_000_001, to: 1, amount: 1 }, false, "a key too great to shift from"),
    (Op::Shift { from: 1, to: 1_000_000_001, amount: 1 }, false, "a key too great to shift to"),
    (Op::Shift { from: 1, to: 2, amount: 1_000_000_000_000_000 }, true, "the most shifted"),
    (Op::Shift { from: 1, to: 2, amount: 1_000_000_000_000_001 }, false, "too much shifted"),
];

#[rattlefmt::skip]
static NUMBERS: [(Told, bool, &str); 7] = [
    (Told { stamp: 1, ..FIRST }, true, "the first stamp"),
    (Told { stamp: 0, ..FIRST }, false, "no stamp"),
    (Told { stamp: 1_099_511_627_776, ..FIRST }, true, "the last stamp"),
    (Told { stamp: 1_099_511_627_777, ..FIRST }, false, "a stamp too late"),
    (Told { moment: 1_152_921_504_606_846_976, ..FIRST }, true, "the last moment"),
    (Told { moment: 1_152_921_504_606_846_977, ..FIRST }, false, "a moment too late"),
    (Told { conit: 2, ..FIRST }, false, "a conit past the count"),
];

// A message whose first write is this one is in range where it is due.
fn assert_told(rt: &impl Abort, alloc: Global, told: Told, due: bool, text: &str) {
    let writes = [told, SECOND, THIRD];
    assert!(rt; is_good(rt, alloc, &of_writes(&writes)) == due, "{text}");
}

#[test]
fn knows_the_numbers_of_a_write(rt: HostRuntime) {
    for (told, due, text) in &NUMBERS {
        assert_told(&rt, rt.alloc(), *told, *due, text);
    }
    for (op, due, text) in &OPS {
        assert_told(&rt, rt.alloc(), Told { op: *op, ..FIRST }, *due, text);
    }
}

// So many writes of replica 0, from its first on.
fn many(rt: &impl Abort, alloc: Global, count: u64) -> Items<Told> {
    let mut writes = Items::new(alloc);
    for index in 0..count {
        writes
            .push(Told { index, ..FIRST })
            .expect(rt, "room for a write");
    }
    writes
}

// Whether a message with so many writes is in range.
fn is_good_with(rt: &impl Abort, alloc: Global, count: u64) -> bool {
    let writes = many(rt, alloc, count);
    let parts = Parts {
        haves: &[65, 2, 1],
        firsts: &[0, 2, 0],
        writes: writes.items(),
        ..GOOD
    };
    is_good(rt, alloc, &parts)
}

#[test]
fn knows_how_many_writes_a_message_has(rt: HostRuntime) {
    assert!(rt; is_good_with(&rt, rt.alloc(), 64));
    assert!(rt; !is_good_with(&rt, rt.alloc(), 65));
}

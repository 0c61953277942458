//! Texts that are no scripts: the first line at fault, and its fault.

use crate::playing::{assert_plays, bad_line};
use run_model::LineKind;

#[rattlefmt::skip]
static REFUSALS: [(&str, u64, LineKind); 38] = [
    ("", 1, LineKind::NoStart),
    ("# nothing\n\n", 3, LineKind::NoStart),
    ("\nwrite 0 0 put 1 1", 2, LineKind::NoStart),
    ("hello", 1, LineKind::NoStart),
    ("start 2 1 0 0\nstart 2 1 0 0", 2, LineKind::SecondStart),
    ("start 2 1 10 10\nwrite 0 0 ad", 2, LineKind::UnknownWord),
    ("start 2 1 0 0\nwrites 0 0 put 1 1", 2, LineKind::UnknownWord),
    ("start 2 1 0", 1, LineKind::Missing),
    ("start 2 1 0 0\nwrite 0 0 put 1", 2, LineKind::Missing),
    ("start 2 1 0 0\nshow", 2, LineKind::Missing),
    ("start 2 x 0 0", 1, LineKind::NotNumber),
    ("start 2 1 0 0\nwrite 0 0 put 1 --1", 2, LineKind::NotNumber),
    ("start 2 1 0 0\nwrite 0 -1 put 1 1", 2, LineKind::NotNumber),
    ("start 1 1 0 0", 1, LineKind::OutOfRange),
    ("start 9 1 0 0", 1, LineKind::OutOfRange),
    ("start 2 0 0 0", 1, LineKind::OutOfRange),
    ("start 2 17 0 0", 1, LineKind::OutOfRange),
    ("start 2 1 1000000000001 0", 1, LineKind::OutOfRange),
    ("start 2 1 0 0\nwrite 2 0 put 1 1", 2, LineKind::OutOfRange),
    ("start 2 1 0 0\nwrite 0 8 put 1 1", 2, LineKind::OutOfRange),
    ("start 2 1 0 0\nwrite 0 0 put 1000000001 1", 2, LineKind::OutOfRange),
    ("start 2 1 0 0\nwrite 0 0 add 1 -1000000000000001", 2, LineKind::OutOfRange),
    ("start 2 1 0 0\ntake 1 0 18446744073709551616", 2, LineKind::OutOfRange),
    ("start 2 1 0 0\nsend 1 1", 2, LineKind::SameReplica),
    ("start 2 1 0 0\ntake 0 0 0", 2, LineKind::SameReplica),
    ("start 2 1 0 0 0", 1, LineKind::Extra),
    ("start 2 1 0 0\nshow 1 1", 2, LineKind::Extra),
    ("start 3 1 10 6", 1, LineKind::LoansOver),
    ("start 2 1 0 0\ntake 1 0 0", 2, LineKind::NoMessage),
    ("start 3 1 0 0\nsend 0 1\ntake 2 0 0", 3, LineKind::NoMessage),
    ("start 2 1 0 0\nread 0 0 1 0:1:1", 2, LineKind::NotNumber),
    ("start 2 1 0 0\nwrite 0 0 put 1 1 1:1:1", 2, LineKind::OutOfRange),
    ("start 2 1 0 0\nsend 0 1 0", 2, LineKind::Missing),
    ("start 2 1 0 0\nsync 9 9", 2, LineKind::OutOfRange),
    ("start 2 1 0 0\nshow 1\nbound 0 0 1 1", 3, LineKind::LateBound),
    ("start 2 1 0 0\nshow\t1", 2, LineKind::BadByte),
    ("start 2 1 0 0\n# \u{e9}", 2, LineKind::BadByte),
    ("start 2 1 0 0\nshow 9\nshow", 2, LineKind::OutOfRange),
];

#[test]
fn the_first_fault_is_named(rt: HostRuntime) {
    for &(script, place, kind) in &REFUSALS {
        assert_plays(&rt, rt.alloc(), script, &bad_line(place, kind), "");
    }
}

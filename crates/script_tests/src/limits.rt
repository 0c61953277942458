//! The limits of a script's lines.

use crate::playing::{bad_line, played};
use run_model::{LineKind, Status};
use std::alloc::Global;
use std::process::Abort;

// A script of so many blank lines after its first, each of so many spaces.
fn padded(rt: &impl Abort, alloc: Global, lines: usize, spaces: usize) -> Vec<u8> {
    let mut script = Vec::from_slice(alloc, b"start 2 1 0 0").expect(rt, "a script");
    push_blanks(rt, &mut script, lines, spaces);
    script
}

fn push_blanks(rt: &impl Abort, script: &mut Vec<u8>, lines: usize, spaces: usize) {
    for _ in 0..lines {
        script.push(b'\n').expect(rt, "room for a line");
        for _ in 0..spaces {
            script.push(b' ').expect(rt, "room for a space");
        }
    }
}

// Such a script ends so.
fn assert_padded(rt: &impl Abort, alloc: Global, lines: usize, spaces: usize, wanted: Status) {
    let script = padded(rt, alloc, lines, spaces);
    let (status, _sink) = played(rt, alloc, &script, &[], &[]);
    assert_eq!(rt; status, wanted, "{lines} lines of {spaces} spaces");
}

#[test]
fn up_to_the_limit_and_past_it(rt: HostRuntime) {
    let alloc = rt.alloc();
    assert_padded(&rt, alloc, 1, 400, Status::Done);
    assert_padded(&rt, alloc, 1, 401, bad_line(2, LineKind::LongLine));
    assert_padded(&rt, alloc, 9_999, 1, Status::Done);
    assert_padded(
        &rt,
        alloc,
        10_000,
        1,
        bad_line(10_001, LineKind::TooManyLines),
    );
}

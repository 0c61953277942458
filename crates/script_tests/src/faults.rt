//! Sources and sinks that fail in mid-stream.

use crate::playing::played;
use run_model::Status;
use std::alloc::Global;
use std::process::Abort;

const SCRIPT: &str = "start 2 1 0 0\n";

// What is read at the second read is the end of input.
const NO_SCRIPT: &str = "start 2 1 10 10\nwrite 0 0 ad";

// Where these reads and writes fail, a script ends so, and something is written where it is done.
fn assert_ends(
    rt: &impl Abort,
    alloc: Global,
    script: &str,
    reads: &[u64],
    writes: &[u64],
    wanted: Status,
) {
    let (status, sink) = played(rt, alloc, script.as_bytes(), reads, writes);
    assert_eq!(rt; status, wanted, "{script} {reads:?} {writes:?}");
    let is_written = !sink.bytes().is_empty();
    assert_eq!(rt;
        is_written,
        wanted == Status::Done,
        "{script} {reads:?} {writes:?}"
    );
}

#[test]
fn the_outside_is_named(rt: HostRuntime) {
    let alloc = rt.alloc();
    assert_ends(&rt, alloc, SCRIPT, &[0], &[], Status::ReadFault);
    assert_ends(&rt, alloc, SCRIPT, &[1], &[], Status::ReadFault);
    assert_ends(&rt, alloc, SCRIPT, &[2], &[], Status::Done);
    assert_ends(&rt, alloc, SCRIPT, &[], &[0], Status::WriteFault);
    assert_ends(&rt, alloc, SCRIPT, &[], &[1], Status::Done);
    // A fault goes before what is wrong with the lines that were read.
    assert_ends(&rt, alloc, NO_SCRIPT, &[1], &[], Status::ReadFault);
}

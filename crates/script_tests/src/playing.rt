//! What the tests of scripts share.

use run_model::{InputKind, LineKind, Status};
use script_run::play;
use std::alloc::Global;
use std::process::Abort;
use tact_io::{MemSink, MemSource};

/// What a text begins with where three replicas lend each other 5 of 10.
pub(crate) const THREE: &str = "tact 1 3 1
bound 0 0 10 0 5 5
bound 1 0 10 5 0 5
bound 2 0 10 5 5 0
";

/// What a text begins with where two replicas lend each other all of 10.
pub(crate) const TWO: &str = "tact 1 2 1
bound 0 0 10 0 10
bound 1 0 10 10 0
";

/// The status of a script that is played in memory, where the listed reads and writes fail, and the sink
/// with what was written.
pub(crate) fn played(
    rt: &impl Abort,
    alloc: Global,
    script: &[u8],
    reads: &[u64],
    writes: &[u64],
) -> (Status, MemSink) {
    let mut source = MemSource::new(alloc, script, reads).expect(rt, "a source");
    let mut sink = MemSink::new(alloc, writes).expect(rt, "a sink");
    let status = play(alloc, &mut source, &mut sink);
    (status, sink)
}

/// A script ends so, and this is written.
pub(crate) fn assert_plays(
    rt: &impl Abort,
    alloc: Global,
    script: &str,
    wanted: &Status,
    text: &str,
) {
    let (status, sink) = played(rt, alloc, script.as_bytes(), &[], &[]);
    assert_eq!(rt; &status, wanted, "{script}");
    assert_eq!(rt; sink.bytes(), text.as_bytes(), "{script}");
}

/// The status of a script whose first line at fault is this one, with this fault.
pub(crate) fn bad_line(place: u64, kind: LineKind) -> Status {
    Status::BadInput {
        place,
        kind: InputKind::Line(kind),
    }
}

/// Whether a script is done, and its text is a header and then these lines.
pub(crate) fn prints(
    rt: &impl Abort,
    alloc: Global,
    script: &str,
    header: &str,
    lines: &str,
) -> bool {
    let (status, sink) = played(rt, alloc, script.as_bytes(), &[], &[]);
    let text = sink.bytes();
    status == Status::Done
        && text.len() == header.len() + lines.len()
        && text.starts_with(header.as_bytes())
        && text.ends_with(lines.as_bytes())
}

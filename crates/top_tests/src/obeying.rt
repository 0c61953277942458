//! What the tests of commands share.

use run_model::Status;
use std::alloc::Global;
use std::process::Abort;
use std::sync::Wait;
use std::thread::Threads;
use tact_io::{FreeGate, MemSink, MemSource, Shelf, StepClock, SureShelf};
use tact_top::tact;

// The words of a line.
fn words_of(rt: &impl Abort, alloc: Global, line: &str) -> Vec<String> {
    let mut words = Vec::new(alloc);
    push_words(rt, alloc, line, &mut words);
    words
}

fn push_words(rt: &impl Abort, alloc: Global, line: &str, words: &mut Vec<String>) {
    for word in line.split_whitespace() {
        let word = String::from_str(alloc, word).expect(rt, "a word");
        words.push(word).expect(rt, "room for a word");
    }
}

// What a command reads and writes.
#[derive(Drop)]
struct Ends {
    source: MemSource,
    sink: MemSink,
}

fn open(rt: &impl Abort, alloc: Global, input: &[u8], reads: &[u64], writes: &[u64]) -> Ends {
    let source = MemSource::new(alloc, input, reads).expect(rt, "a source");
    let sink = MemSink::new(alloc, writes).expect(rt, "a sink");
    Ends { source, sink }
}

// Does what the words say. The clock stands at 7.
fn obey<R: Threads + Wait + Sync + AllocGlobal, B: Shelf>(
    rt: &R,
    words: &[String],
    ends: &mut Ends,
    shelf: &mut B,
) -> Status
where
    B::J: Drop + Send,
{
    let clock = StepClock::new(7, 0);
    let gate = FreeGate::new();
    tact(
        rt,
        rt.alloc(),
        words,
        &mut ends.source,
        &mut ends.sink,
        &clock,
        &gate,
        shelf,
    )
}

/// The status of a command line on an input in memory, where the listed reads and writes fail, and the sink
/// with what was written. The clock stands at 7, and no journal fails.
pub(crate) fn obeyed<R: Threads + Wait + Sync + AllocGlobal + Abort>(
    rt: &R,
    line: &str,
    input: &[u8],
    reads: &[u64],
    writes: &[u64],
) -> (Status, MemSink) {
    let mut shelf = SureShelf::new(rt.alloc()).expect(rt, "a shelf");
    obeyed_over(rt, line, input, reads, writes, &mut shelf)
}

/// The same over a shelf of journals.
pub(crate) fn obeyed_over<R: Threads + Wait + Sync + AllocGlobal + Abort, B: Shelf>(
    rt: &R,
    line: &str,
    input: &[u8],
    reads: &[u64],
    writes: &[u64],
    shelf: &mut B,
) -> (Status, MemSink)
where
    B::J: Drop + Send,
{
    let words = words_of(rt, rt.alloc(), line);
    let mut ends = open(rt, rt.alloc(), input, reads, writes);
    let status = obey(rt, &words, &mut ends, shelf);
    let Ends { source: _, sink } = ends;
    (status, sink)
}

/// What a command line writes on an input: it ends Done.
pub(crate) fn done<R: Threads + Wait + Sync + AllocGlobal + Abort>(
    rt: &R,
    line: &str,
    input: &[u8],
) -> MemSink {
    let (status, sink) = obeyed(rt, line, input, &[], &[]);
    assert_eq!(rt; status, Status::Done, "{line}");
    sink
}

/// A command line on an input ends so, and this is written.
pub(crate) fn assert_obeys<R: Threads + Wait + Sync + AllocGlobal + Abort>(
    rt: &R,
    line: &str,
    input: &[u8],
    wanted: Status,
    written: &[u8],
) {
    let (status, sink) = obeyed(rt, line, input, &[], &[]);
    assert_eq!(rt; status, wanted, "{line}");
    assert_eq!(rt; sink.bytes(), written, "{line}");
}

/// Where these reads and writes fail, a command line ends so, and nothing is written.
pub(crate) fn assert_fails<R: Threads + Wait + Sync + AllocGlobal + Abort>(
    rt: &R,
    line: &str,
    input: &[u8],
    reads: &[u64],
    writes: &[u64],
    wanted: Status,
) {
    let (status, sink) = obeyed(rt, line, input, reads, writes);
    assert_eq!(rt; status, wanted, "{line}");
    assert_eq!(rt; sink.bytes().is_empty(), true, "{line}");
}

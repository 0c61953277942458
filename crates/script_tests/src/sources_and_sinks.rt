//! Sources and sinks: their forms in memory, the real edge, and reading and writing to the end; and clocks.

use std::alloc::Global;
use std::fmt::Display;
use std::io;
use std::io::{ErrorKind, Read};
use std::process::Abort;
use tact_io::{
    Clock, Failed, MemSink, MemSource, OutFault, ReadEnd, Sink, Source, StdClock, StdSink,
    StdSource, StepClock, SureSink, SureSource, read_all, write_all,
};

/// A stream that is closed: each call on it is an error.
#[derive(Drop)]
struct Closed;

impl Read for Closed {
    fn read(&mut self, _: &mut [u8]) -> io::Result<usize> {
        Err(ErrorKind::BrokenPipe.into())
    }
}

impl Print for Closed {
    fn print<D: Display + Drop>(&self, _: D) -> io::Result<()> {
        Err(ErrorKind::BrokenPipe.into())
    }

    fn println<D: Display + Drop>(&self, _: D) -> io::Result<()> {
        Err(ErrorKind::BrokenPipe.into())
    }

    fn write_all(&self, _: &[u8]) -> io::Result<()> {
        Err(ErrorKind::BrokenPipe.into())
    }
}

#[test]
fn the_real_source(rt: HostRuntime) {
    let mut block = [0; 8];
    assert!(rt; StdSource::new(rt.reader()).read(&mut block).is_ok());
    let mut source = StdSource::new(b"tact".as_slice());
    assert_eq!(rt; source.read(&mut block), Ok(4));
    assert_eq!(rt; block.as_slice(), b"tact\0\0\0\0".as_slice());
    assert_eq!(rt; source.read(&mut block), Ok(0));
    assert_eq!(rt; StdSource::new(Closed).read(&mut block), Err(Failed));
}

#[test]
fn the_real_sink(rt: HostRuntime) {
    assert_eq!(rt; write_all(&mut StdSink::new(&rt), b"tact\n"), Ok(()));
    assert_eq!(rt; StdSink::new(&rt).write(b""), Ok(0));
    assert_eq!(rt; StdSink::new(Closed).write(b"tact"), Err(OutFault::Failed));
}

/// What five reads of up to three bytes answer.
fn five_reads(source: &mut impl Source) -> [Option<usize>; 5] {
    let mut answers = [None; 5];
    for answer in &mut answers {
        *answer = source.read(&mut [0; 3]).ok();
    }
    answers
}

// The reads that fail, and what five reads of eight bytes answer.
static READS: [(&[u64], [Option<usize>; 5]); 4] = [
    (&[], [Some(3), Some(3), Some(2), Some(0), Some(0)]),
    (&[0], [None, Some(3), Some(3), Some(2), Some(0)]),
    (&[1], [Some(3), None, Some(3), Some(2), Some(0)]),
    (&[4, 2, 9], [Some(3), Some(3), None, Some(2), None]),
];

#[test]
fn sources_in_memory_fail_where_listed(rt: HostRuntime) {
    for (fails, want) in &READS {
        let mut source = MemSource::new(rt.alloc(), b"abcdefgh", fails).expect(&rt, "a source");
        assert_eq!(rt; &five_reads(&mut source), want, "fails {fails:?}");
    }
}

#[test]
fn a_sure_source_is_read(rt: HostRuntime) {
    let mut sure = SureSource::new(rt.alloc(), b"abcdefgh").expect(&rt, "a source");
    assert_eq!(rt;
        &five_reads(&mut sure),
        &[Some(3), Some(3), Some(2), Some(0), Some(0)]
    );
}

const FAILED: Result<(), OutFault> = Err(OutFault::Failed);

// The writes that fail, what the writes of two texts answer, and what is written.
static WRITES: [(&[u64], Result<(), OutFault>, Result<(), OutFault>, &[u8]); 4] = [
    (&[], Ok(()), Ok(()), b"onetwo"),
    (&[0], FAILED, Ok(()), b"two"),
    (&[1], Ok(()), FAILED, b"one"),
    (&[1, 0], FAILED, FAILED, b""),
];

fn two_writes(sink: &mut impl Sink) -> (Result<(), OutFault>, Result<(), OutFault>) {
    let first = write_all(sink, b"one");
    (first, write_all(sink, b"two"))
}

#[test]
fn sinks_in_memory_fail_where_listed(rt: HostRuntime) {
    for &(fails, first, second, want) in &WRITES {
        let mut sink = MemSink::new(rt.alloc(), fails).expect(&rt, "a sink");
        let answers = two_writes(&mut sink);
        assert_eq!(rt;
            (answers, sink.bytes()),
            ((first, second), want),
            "fails {fails:?}"
        );
    }
}

#[test]
fn a_sure_sink_is_written(rt: HostRuntime) {
    let mut sure = SureSink::new(rt.alloc()).expect(&rt, "a sink");
    assert_eq!(rt; write_all(&mut sure, b"one"), Ok(()));
    assert_eq!(rt; sure.bytes(), b"one".as_slice());
}

// How many bytes are there, how many are read at most, the reads that fail, and how many are read.
static ENDS: [(usize, u64, &[u64], Result<usize, ReadEnd>); 11] = [
    (0, 0, &[], Ok(0)),
    (5, 5, &[], Ok(5)),
    (6, 5, &[], Err(ReadEnd::TooLong)),
    (16_384, 16_384, &[], Ok(16_384)),
    (16_385, 16_384, &[], Err(ReadEnd::TooLong)),
    (40_000, 50_000, &[], Ok(40_000)),
    (40_000, 50_000, &[0], Err(ReadEnd::Fault)),
    (40_000, 50_000, &[1], Err(ReadEnd::Fault)),
    (40_000, 50_000, &[10], Err(ReadEnd::Fault)),
    (40_000, 50_000, &[11], Ok(40_000)),
    (40_000, 20_000, &[5], Err(ReadEnd::TooLong)),
];

// How many bytes are read to the end of a source.
fn read_of(
    rt: &impl Abort,
    alloc: Global,
    bytes: &[u8],
    most: u64,
    fails: &[u64],
) -> Result<usize, ReadEnd> {
    let mut source = MemSource::new(alloc, bytes, fails).expect(rt, "a source");
    read_all(alloc, &mut source, most).map(|bytes| bytes.len())
}

#[test]
fn reading_to_the_end(rt: HostRuntime) {
    let all = vec![in rt.alloc(); b'x'; 40_000].expect(&rt, "bytes");
    for &(length, most, fails, want) in &ENDS {
        let bytes = all.get(..length).unwrap_or(&[]);
        let answer = read_of(&rt, rt.alloc(), bytes, most, fails);
        assert_eq!(rt; answer, want, "{length} bytes, fails {fails:?}");
    }
}

#[test]
fn a_sure_source_is_read_to_its_end(rt: HostRuntime) {
    let mut sure = SureSource::new(rt.alloc(), b"tact 1 2 1\n").expect(&rt, "a source");
    let bytes = read_all(rt.alloc(), &mut sure, 11).expect(&rt, "bytes");
    assert_eq!(rt; bytes.items(), b"tact 1 2 1\n".as_slice());
}

// The first moment of a clock, its step, and what it tells then.
static MOMENTS: [(u64, u64, [u64; 3]); 3] = [
    (7, 0, [7, 7, 7]),
    (5, 3, [5, 8, 11]),
    (u64::MAX, 2, [u64::MAX, 1, 3]),
];

#[test]
fn clocks(rt: HostRuntime) {
    for &(first, step, want) in &MOMENTS {
        let clock = StepClock::new(first, step);
        assert_eq!(rt; [clock.now(), clock.now(), clock.now()], want);
    }
    // No clock of today tells less than the milliseconds up to 2020.
    assert!(rt; StdClock::new(&rt).now() > 1_577_836_800_000);
}

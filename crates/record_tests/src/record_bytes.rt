//! Records in bytes.

use run_model::{Act, ByteKind, Config, Entry, Message};
use run_record::{
    Record, RecordFault, Short, ShortAct, Shorts, bytes_of, parse_bytes, print, text_of,
};
use std::alloc::Global;
use std::process::Abort;
use std::test::Fail;
use tact_base::{Bytes, Covers, NoMemory, Numbers, SharedWrites};

// Two replicas and a conit, and an entry of each kind.
pub(crate) const WORKED: &[u8] = b"TACT\x01\x02\x01\
    \0\0\0\0\0\0\0\x0a\0\0\0\0\0\0\0\0\0\0\0\0\0\0\0\x0a\
    \0\0\0\0\0\0\0\x0a\0\0\0\0\0\0\0\x0a\0\0\0\0\0\0\0\0\
    \x01\0\0\0\0\0\0\0\0\0\0\0\0\0\0\0\0\0\0\
    \x01\x01\0\0\0\0\0\0\0\0\x05\0\0\0\0\0\0\0\x01\x02\0\0\0\0\0\0\0\x07\0\0\0\0\0\0\0\x01\
    \x01\0\0\0\0\0\0\0\0\0\0\0\0\0\0\0\x01\
    \x02\0\0\0\0\0\0\0\0\x01\x01\0\0\0\0\0\0\0\0\0\0\0\0\0\0\0\0\0\0\0\0\0\0\0\0\
    \x03\x01\0\0\0\0\0\0\0\x02\0\0\0\0\0\0\0\0\0\
    \x05\x01\0\0\0\0\0\0\0\x03\0\0\0\0\0\0\0\0\0\x0a\
    \x04\0\0\0\0\0\0\0\0\x04\x01\0\0\0\0\0\0\0\0\x01\
    \x06\x01\0\0\0\0\0\0\0\x05\
    \xff\0\0\0\0\0\0\0\x06";

// The same as text.
pub(crate) const WORKED_TEXT: &[u8] = b"tact 1 2 1\nbound 0 0 10 0 10\nbound 1 0 10 10 0\n\
    e 0 0 call 0 0 write add 7 1 0:5:1 = done 0 1\n\
    e 0 1 send 1 0 0 0\n\
    e 1 2 take 0 0\n\
    e 1 3 back 0 0 10\n\
    e 0 4 lend 1 0 1\n\
    e 1 5 restart\n\
    end 6\n";

// Two replicas, a conit and nothing lent, as bytes: nothing happened.
const EMPTY: &[u8] = b"TACT\x01\x02\x01\
    \0\0\0\0\0\0\0\0\0\0\0\0\0\0\0\0\0\0\0\0\0\0\0\0\
    \0\0\0\0\0\0\0\0\0\0\0\0\0\0\0\0\0\0\0\0\0\0\0\0\
    \xff\0\0\0\0\0\0\0\0";

// The record that the bytes are.
fn record_of(alloc: Global, bytes: &[u8]) -> Result<Record, RecordFault> {
    parse_bytes(alloc, bytes)
}

// Why the bytes aren't a record.
fn fault_of(alloc: Global, bytes: &[u8]) -> Option<RecordFault> {
    record_of(alloc, bytes).err()
}

// Why the bytes with another one at a place, if there is a byte, aren't a record.
fn fault_with(
    alloc: Global,
    bytes: &[u8],
    at: usize,
    byte: u8,
) -> Result<Option<RecordFault>, NoMemory> {
    let mut other = Vec::from_slice(alloc, bytes)?;
    set(&mut other, at, byte);
    Ok(fault_of(alloc, &other))
}

fn set(bytes: &mut [u8], at: usize, byte: u8) {
    if at < bytes.len() {
        bytes[at] = byte;
    }
}

fn as_bytes(alloc: Global, held: &Record) -> Result<Bytes, Fail> {
    let mut bytes = Bytes::new(alloc);
    bytes_of(held, &mut bytes)?;
    Ok(bytes)
}

fn as_text(alloc: Global, held: &Record) -> Result<Bytes, Fail> {
    let mut text = Bytes::new(alloc);
    print(held, &mut text)?;
    Ok(text)
}

// A record is spelled by these bytes, and by this text.
pub(crate) fn assert_spelled(
    rt: &(impl Abort + AllocGlobal),
    held: &Record,
    bytes: &[u8],
    text: &[u8],
) -> Result<(), Fail> {
    assert!(rt; as_bytes(rt.alloc(), held)?.items() == bytes, "as bytes");
    assert_text(rt, held, text)
}

// A record is spelled by this text.
pub(crate) fn assert_text(
    rt: &(impl Abort + AllocGlobal),
    held: &Record,
    text: &[u8],
) -> Result<(), Fail> {
    assert!(rt; as_text(rt.alloc(), held)?.items() == text, "as text");
    Ok(())
}

#[test]
fn the_worked_record(rt: HostRuntime) -> Result<(), Fail> {
    let held = record_of(rt.alloc(), WORKED)?;
    assert_worked(&rt, &held);
    assert_spelled(&rt, &held, WORKED, WORKED_TEXT)
}

fn assert_worked(rt: &impl Abort, held: &Record) {
    assert!(rt; held.config().replicas() == 2);
    assert!(rt; alpha(held.config(), 1, 0) == Some(10));
    assert!(rt; held.entries().len() == 6);
    assert!(rt; is_lent(held.entries()));
}

fn alpha(config: &Config, owner: u32, conit: u32) -> Option<u64> {
    if owner < config.replicas() && conit < config.conits() {
        Some(config.alpha(owner, conit))
    } else {
        None
    }
}

// Whether the fifth entry is a loan of 1 by replica 0 to replica 1, at the moment 4.
fn is_lent(entries: &[Short]) -> bool {
    match entries.get(4) {
        Some(
            Short {
                replica: 0,
                moment: 4,
                act: ShortAct::Lend {
                    to: 1,
                    conit: 0,
                    amount: 1,
                },
            },
        ) => true,
        _ => false,
    }
}

#[test]
fn fronts_of_a_record(rt: HostRuntime) {
    for end in 0..WORKED.len() {
        let short = RecordFault::Bytes {
            place: end as u64,
            kind: ByteKind::Short,
        };
        assert!(rt;
            fault_of(rt.alloc(), &WORKED[..end]) == Some(short),
            "{end}"
        );
    }
}

#[rattlefmt::skip]
static FAULTS: [(usize, u8, u64, ByteKind, &str); 24] = [
    (3, 0, 0, ByteKind::BadField, "another mark"),
    (4, 2, 4, ByteKind::BadField, "another version"),
    (5, 9, 5, ByteKind::BadField, "nine replicas"),
    (6, 0, 6, ByteKind::BadField, "no conit"),
    (7, 1, 7, ByteKind::BadField, "an alpha too great"),
    (22, 1, 15, ByteKind::BadField, "a loan to itself"),
    (23, 1, 23, ByteKind::BadField, "a loan too great"),
    (30, 11, 7, ByteKind::LoansOver, "loans that pass the alpha"),
    (55, 7, 55, ByteKind::BadField, "another tag"),
    (55, 255, 64, ByteKind::AfterEnd, "an end before the entries"),
    (56, 2, 56, ByteKind::BadField, "an entry of no replica"),
    (57, 17, 57, ByteKind::BadField, "a moment too great"),
    (65, 8, 65, ByteKind::BadField, "a call of no client"),
    (74, 6, 74, ByteKind::BadField, "another request"),
    (110, 12, 110, ByteKind::BadField, "another reply"),
    (137, 0, 137, ByteKind::BadField, "a send to itself"),
    (152, 79, 146, ByteKind::BadField, "a first too great"),
    (172, 1, 172, ByteKind::BadField, "a take of its own"),
    (191, 1, 191, ByteKind::BadField, "a return to itself"),
    (192, 1, 192, ByteKind::BadField, "a conit past the last"),
    (193, 1, 193, ByteKind::BadField, "an amount too great"),
    (211, 0, 211, ByteKind::BadField, "a loan to the owner"),
    (231, 254, 231, ByteKind::BadField, "neither an entry nor the end"),
    (239, 5, 232, ByteKind::WrongCount, "another count"),
];

#[test]
fn faults_of_a_record(rt: HostRuntime) -> Result<(), Fail> {
    for &(at, byte, place, kind, text) in &FAULTS {
        let fault = fault_with(rt.alloc(), WORKED, at, byte)?;
        assert!(rt; fault == Some(RecordFault::Bytes { place, kind }), "{text}");
    }
    Ok(())
}

// Why an empty record with one byte more is none.
fn fault_past_the_end(alloc: Global) -> Result<Option<RecordFault>, NoMemory> {
    let mut bytes = Bytes::from_slice(alloc, EMPTY)?;
    bytes.push(0)?;
    Ok(fault_of(alloc, bytes.items()))
}

#[test]
fn one_byte_too_many(rt: HostRuntime) -> Result<(), Fail> {
    assert!(rt; fault_of(rt.alloc(), EMPTY).is_none());
    let after = RecordFault::Bytes {
        place: 64,
        kind: ByteKind::AfterEnd,
    };
    assert!(rt; fault_past_the_end(rt.alloc())? == Some(after));
    Ok(())
}

// A record of nothing.
fn empty(alloc: Global) -> Result<Record, Fail> {
    let config = Config::new(alloc, 2, 1, &[0, 0], &[0, 0, 0, 0])?;
    Ok(Record::new(config, Shorts::new(alloc)))
}

#[test]
fn an_empty_record_is_made(rt: HostRuntime) -> Result<(), Fail> {
    let held = empty(rt.alloc())?;
    let text = b"tact 1 2 1\nbound 0 0 0 0 0\nbound 1 0 0 0 0\nend 0\n";
    assert_spelled(&rt, &held, EMPTY, text)
}

// A message without anything in it but its ends and its number.
fn bare(alloc: Global) -> Result<Message, NoMemory> {
    Ok(Message {
        from: 0,
        to: 1,
        number: 2,
        haves: Numbers::new(alloc),
        covers: Covers::new(alloc),
        firsts: Numbers::from_slice(alloc, &[0, 3])?,
        writes: SharedWrites::empty(),
        lent: Numbers::new(alloc),
        returned: Numbers::new(alloc),
    })
}

// Replica 0 sends it, and replica 1 takes it.
fn sent(alloc: Global) -> Result<Entry, NoMemory> {
    let message = bare(alloc)?;
    Ok(Entry {
        replica: 0,
        moment: 7,
        act: Act::Send { message },
    })
}

fn taken(alloc: Global) -> Result<Entry, NoMemory> {
    let message = bare(alloc)?;
    Ok(Entry {
        replica: 1,
        moment: 8,
        act: Act::Take { message },
    })
}

// The run in a vector, since that is let go in one step.
fn run(alloc: Global) -> Result<Vec<Entry>, NoMemory> {
    let mut run = Vec::new(alloc);
    run.push(sent(alloc)?)?;
    run.push(taken(alloc)?)?;
    Ok(run)
}

fn printed(alloc: Global, config: &Config, run: &[Entry]) -> Result<Bytes, NoMemory> {
    let mut text = Bytes::new(alloc);
    text_of(config, run, &mut text)?;
    Ok(text)
}

fn run_text(alloc: Global) -> Result<Bytes, Fail> {
    let run = run(alloc)?;
    let config = Config::new(alloc, 2, 1, &[5, 0], &[0, 5, 0, 0])?;
    Ok(printed(alloc, &config, &run)?)
}

const RUN_TEXT: &[u8] = b"tact 1 2 1\nbound 0 0 5 0 5\nbound 1 0 0 0 0\n\
    e 0 7 send 1 2 0 3\ne 1 8 take 0 2\nend 2\n";

#[test]
fn a_run_as_text(rt: HostRuntime) -> Result<(), Fail> {
    let text = run_text(rt.alloc())?;
    assert!(rt; text.items() == RUN_TEXT);
    Ok(())
}

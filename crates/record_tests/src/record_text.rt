//! Records in text.

use crate::record_bytes::{WORKED, WORKED_TEXT, assert_spelled, assert_text};
use run_model::LineKind;
use run_record::{RecordFault, parse_text};
use std::alloc::Global;
use std::process::Abort;
use std::test::Fail;
use tact_base::{Bytes, NoMemory};

// The worked record with comments, blank lines, more spaces and leading zeros.
const COMMENTED: &[u8] = b"# made by play\n\n  tact   1 02 1 \nbound 00 0 10 0 10\n   \n\
    bound 1 000 10 10 0\n# show 0 have 0 0 clock 0\n#\n\
    e 0 0 call 0 0 write add 7 1 0:5:01 = done 0 1\n\
    e  0 1  send 1 0 0 0\n  # lend 0 1 0 5 home 0\n\
    e 1 2 take 0 0\n\
    e 1 3 back 0 0 10\n\
    e 0 04 lend 1 0 1\n\
    e 1 5 restart\n\
    end 0006\n# done\n   \n";

// What `play` writes of two writes with equal stamps, and the same without its comments.
const PLAYED: &[u8] = b"tact 1 2 1\nbound 0 0 0 0 0\nbound 1 0 0 0 0\n\
    e 0 0 call 0 0 write put 1 5 = done 0 1\n\
    e 1 0 call 0 0 write put 1 6 = done 0 1\n\
    e 0 0 send 1 0 0 0\n\
    e 1 0 take 0 0\n\
    e 1 0 send 0 0 1 0\n\
    e 0 0 take 1 0\n\
    # show 0 have 1 1 clock 1 point 1 committed 2 last 1.0 tentative 0\n\
    # show 1 have 1 1 clock 1 point 1 committed 2 last 1.0 tentative 0\n\
    end 6\n";

const PLAYED_ALONE: &[u8] = b"tact 1 2 1\nbound 0 0 0 0 0\nbound 1 0 0 0 0\n\
    e 0 0 call 0 0 write put 1 5 = done 0 1\n\
    e 1 0 call 0 0 write put 1 6 = done 0 1\n\
    e 0 0 send 1 0 0 0\n\
    e 1 0 take 0 0\n\
    e 1 0 send 0 0 1 0\n\
    e 0 0 take 1 0\n\
    end 6\n";

// An entry with each request and each reply.
const EACH_FORM: &[u8] = b"tact 1 2 5\n\
    bound 0 0 10 0 10\nbound 0 1 0 0 0\nbound 0 2 0 0 0\nbound 0 3 0 0 0\nbound 0 4 0 0 0\n\
    bound 1 0 10 10 0\nbound 1 1 0 0 0\nbound 1 2 0 0 0\nbound 1 3 0 0 0\nbound 1 4 0 0 0\n\
    e 0 0 call 0 0 write put 1 -1000000000000000 0:-1000000:1000000 1:1:0 2:0:0 4:0:1 = done 0 1\n\
    e 0 0 call 7 1 write shift 1 2 0 = wait-lent 255 0 1 2 18446744073709551615\n\
    e 0 0 call 7 2 held add 1000000000 2 0:5:1 = wait-held 0 1 2 3 4\n\
    e 0 0 call 7 3 reserve 4 1000000000000 = granted\n\
    e 0 0 call 7 4 reserve 0 5 = wait-share 0 1 2 3 4 5\n\
    e 0 0 call 7 5 reserve 0 5 = too-heavy 0 255 5 4\n\
    e 0 0 call 7 6 release 0 5 = released\n\
    e 0 0 call 7 7 release 0 5 = not-held 0 4 5\n\
    e 0 0 call 7 8 read 1 0:1:2:3 1:0:0:1152921504606846976 = value 9223372036854775807 -9223372036854775808 0 1 2\n\
    e 0 0 call 7 9 read 1 = wait-order 0 1 2 3\n\
    e 0 1152921504606846976 call 7 18446744073709551615 read 1 = wait-stale 0 1 2 3\n\
    end 11\n";

// A record up to its bounds, up to its entries, and whole.
const HEADED: &[u8] = b"tact 1 2 1\n";

const BOUNDED: &[u8] = b"tact 1 2 1\nbound 0 0 10 0 10\nbound 1 0 10 10 0\n";

const ENDED: &[u8] = b"tact 1 2 1\nbound 0 0 10 0 10\nbound 1 0 10 10 0\nend 0\n";

// Up to its entries, with five conits.
const WIDE: &[u8] = b"tact 1 2 5\n\
    bound 0 0 0 0 0\nbound 0 1 0 0 0\nbound 0 2 0 0 0\nbound 0 3 0 0 0\nbound 0 4 0 0 0\n\
    bound 1 0 0 0 0\nbound 1 1 0 0 0\nbound 1 2 0 0 0\nbound 1 3 0 0 0\nbound 1 4 0 0 0\n";

// A line of as many bytes as one may have, and of one more.
const LONGEST: [u8; 400] = [b' '; 400];

const TOO_LONG: [u8; 401] = [b'#'; 401];

// Why a text, in two parts, isn't a record.
fn fault_of(alloc: Global, front: &[u8], rest: &[u8]) -> Result<Option<RecordFault>, NoMemory> {
    let mut text = Bytes::from_slice(alloc, front)?;
    text.append(rest)?;
    Ok(parse_text(alloc, text.items()).err())
}

// The first fault of a text, in two parts, is in this line and of this kind.
fn assert_fault(
    rt: &(impl Abort + AllocGlobal),
    front: &[u8],
    rest: &[u8],
    place: u64,
    kind: LineKind,
) -> Result<(), NoMemory> {
    let fault = fault_of(rt.alloc(), front, rest)?;
    assert_eq!(rt; fault, Some(RecordFault::Text { place, kind }));
    Ok(())
}

// A text is the worked record.
fn assert_worked(rt: &(impl Abort + AllocGlobal), text: &[u8]) -> Result<(), Fail> {
    let held = parse_text(rt.alloc(), text)?;
    assert_spelled(rt, &held, WORKED, WORKED_TEXT)
}

// A text is a record that is printed so.
fn assert_printed(
    rt: &(impl Abort + AllocGlobal),
    text: &[u8],
    printed: &[u8],
) -> Result<(), Fail> {
    let held = parse_text(rt.alloc(), text)?;
    assert_text(rt, &held, printed)
}

#[test]
fn records_are_read(rt: HostRuntime) -> Result<(), Fail> {
    assert_worked(&rt, WORKED_TEXT)?;
    assert_worked(&rt, COMMENTED)?;
    assert_printed(&rt, PLAYED, PLAYED_ALONE)?;
    assert_printed(&rt, EACH_FORM, EACH_FORM)
}

#[rattlefmt::skip]
static LINE_FAULTS: [(&[u8], &[u8], u64, LineKind); 9] = [
    (b"", &TOO_LONG, 1, LineKind::LongLine),
    (ENDED, &TOO_LONG, 5, LineKind::LongLine),
    (BOUNDED, &LONGEST, 5, LineKind::MissingEnd),
    (b"", b"# \x7f", 1, LineKind::BadByte),
    (ENDED, b"\n\t", 6, LineKind::BadByte),
    (ENDED, b"end 0", 5, LineKind::AfterEnd),
    (ENDED, b"#\nx\xff", 6, LineKind::BadByte),
    (ENDED, b"x", 5, LineKind::AfterEnd),
    (BOUNDED, b"", 4, LineKind::MissingEnd),
];

#[test]
fn faults_of_any_line(rt: HostRuntime) -> Result<(), Fail> {
    for &(front, rest, place, kind) in &LINE_FAULTS {
        assert_fault(&rt, front, rest, place, kind)?;
    }
    Ok(())
}

#[rattlefmt::skip]
static SETUP_FAULTS: [(&[u8], &[u8], u64, LineKind); 20] = [
    (b"", b"", 1, LineKind::BadHeader),
    (b"", b"# nothing\n\n", 3, LineKind::BadHeader),
    (b"", b"TACT 1 2 1", 1, LineKind::BadHeader),
    (b"", b"tact 2 2 1", 1, LineKind::BadHeader),
    (b"", b"tact 01 2 1", 1, LineKind::BadHeader),
    (b"", b"tact 1 2", 1, LineKind::Missing),
    (b"", b"tact 1 9 1", 1, LineKind::OutOfRange),
    (b"", b"tact 1 2 x", 1, LineKind::NotNumber),
    (b"", b"tact 1 2 1 0", 1, LineKind::Extra),
    (HEADED, b"", 2, LineKind::BadHeader),
    (HEADED, b"bound 0 0 10 0 10\n#\n", 4, LineKind::BadHeader),
    (HEADED, b"e 0 0 restart", 2, LineKind::BadHeader),
    (HEADED, b"bound 1 0 10 10 0", 2, LineKind::BadHeader),
    (HEADED, b"bound 0 x 10 0 10", 2, LineKind::BadHeader),
    (HEADED, b"bound 0", 2, LineKind::Missing),
    (HEADED, b"bound 0 0 10 1 9", 2, LineKind::OutOfRange),
    (HEADED, b"bound 0 0 1000000000001 0 0", 2, LineKind::OutOfRange),
    (HEADED, b"bound 0 0 10 0 11 0", 2, LineKind::Extra),
    (HEADED, b"bound 0 0 10 0 11", 2, LineKind::LoansOver),
    (HEADED, b"bound 0 0 0 0 0\nbound 1 0 0 1 0", 3, LineKind::LoansOver),
];

#[test]
fn faults_of_a_setup(rt: HostRuntime) -> Result<(), Fail> {
    for &(front, rest, place, kind) in &SETUP_FAULTS {
        assert_fault(&rt, front, rest, place, kind)?;
    }
    Ok(())
}

// Lines after the bounds of one conit, and after those of five.
#[rattlefmt::skip]
static ENTRY_FAULTS: [(&[u8], LineKind); 20] = [
    (b"bound 1 0 10 10 0", LineKind::UnknownWord),
    (b"e 0 0 sleep", LineKind::UnknownWord),
    (b"e 0 0 call 0 0 show = granted", LineKind::UnknownWord),
    (b"e 0 0 call 0 0 release 0 1 = gone", LineKind::UnknownWord),
    (b"e 0 0 call 0 0 release 0 1 2 = released", LineKind::UnknownWord),
    (b"e 0 0 call 0 0 write add 1 1 granted", LineKind::NotNumber),
    (b"e", LineKind::Missing),
    (b"e 0 0 call 0 0 release 0 1", LineKind::Missing),
    (b"e 0 0 send 1 0 0", LineKind::Missing),
    (b"e 2 0 restart", LineKind::OutOfRange),
    (b"e 0 0 send 1 0 0 20001", LineKind::OutOfRange),
    (b"e 0 0 call 0 0 read 1 = value -9223372036854775809", LineKind::OutOfRange),
    (b"e 0 0 call 0 0 release 0 1 = not-held 256 0 0", LineKind::OutOfRange),
    (b"e 0 0 take 0 1", LineKind::SameReplica),
    (b"e 1 0 lend 1 x", LineKind::SameReplica),
    (b"e 0 0 restart 0", LineKind::Extra),
    (b"e 0 0 call 0 0 read 1 = value 0 1 2 3 4 5", LineKind::Extra),
    (b"end 0 0", LineKind::Extra),
    (b"end 1", LineKind::WrongCount),
    (b"end 18446744073709551615", LineKind::WrongCount),
];

#[rattlefmt::skip]
static WIDE_ENTRY_FAULTS: [(&[u8], LineKind); 6] = [
    (b"e 0 0 call 0 0 write add 1 1 0:0:0 1:0:0 2:0:0 3:0:0 4:0:0 = done 0 1", LineKind::UnknownWord),
    (b"e 0 0 call 0 0 read 1 0:0:0:0 1:x:0:0 = value 0 0 0", LineKind::NotNumber),
    (b"e 0 0 call 0 0 write add 1 1 1:0:0 0:x:0", LineKind::NotNumber),
    (b"e 0 0 call 0 0 write add 1 1 1:0:0 5:0:0", LineKind::OutOfRange),
    (b"e 0 0 call 0 0 write add 1 1 1:0:0 1:0:0", LineKind::Unordered),
    (b"e 0 0 call 0 0 read 1 1:0:0:0 0:0:0:0", LineKind::Unordered),
];

#[test]
fn faults_of_entries(rt: HostRuntime) -> Result<(), Fail> {
    for &(rest, kind) in &ENTRY_FAULTS {
        assert_fault(&rt, BOUNDED, rest, 4, kind)?;
    }
    for &(rest, kind) in &WIDE_ENTRY_FAULTS {
        assert_fault(&rt, WIDE, rest, 12, kind)?;
    }
    Ok(())
}

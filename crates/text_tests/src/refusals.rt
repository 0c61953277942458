//! Texts that are no scripts: the first line at fault, and its first fault.

use run_model::LineKind;
use script_text::{ScriptFault, parse_script};
use std::alloc::Global;
use std::test::Fail;
use tact_base::Bytes;

// Two replicas and five conits, and three.
const TWO: &[u8] = b"start 2 5 100 10\n";

const THREE: &[u8] = b"start 3 1 100 10\nsend 0 1\n";

// Why a text, in two parts, is no script.
pub(crate) fn fault_of(
    alloc: Global,
    front: &[u8],
    rest: &[u8],
) -> Result<Option<ScriptFault>, Fail> {
    let mut text = Bytes::from_slice(alloc, front)?;
    text.append(rest)?;
    match parse_script(alloc, text.items()) {
        Ok(_) => Ok(None),
        Err(fault) => Ok(Some(fault)),
    }
}

#[test]
fn where_a_line_stands(rt: HostRuntime) -> Result<(), Fail> {
    let cases: [(&[u8], &[u8], u64, LineKind); 19] = [
        (b"", b"", 1, LineKind::NoStart),
        (b"", b"# nothing\n\n", 3, LineKind::NoStart),
        (b"", b"\nwrite 0 0 put 1 1", 2, LineKind::NoStart),
        (TWO, b"start 2 5 100 10", 2, LineKind::SecondStart),
        (TWO, b"\nstart", 3, LineKind::SecondStart),
        (b"", b"start 3 1 100 51", 1, LineKind::LoansOver),
        (TWO, b"bound 0 4 9 10", 2, LineKind::LoansOver),
        (TWO, b"at 0\nbound 0 4 9 10", 3, LineKind::LoansOver),
        (TWO, b"at 0\nbound 0 4 9 9", 3, LineKind::LateBound),
        (
            TWO,
            b"bound 0 0 9 9\nshow 0\n#\nbound 0 0 9 9",
            5,
            LineKind::LateBound,
        ),
        (TWO, b"take 1 0 0", 2, LineKind::NoMessage),
        (TWO, b"sync 0 1\ntake 0 1 1", 3, LineKind::NoMessage),
        (THREE, b"take 2 0 0", 3, LineKind::NoMessage),
        (THREE, b"take 1 0 1", 3, LineKind::NoMessage),
        (TWO, b"# \x7f", 2, LineKind::BadByte),
        (TWO, b"show\t0", 2, LineKind::BadByte),
        (TWO, b"\n\nshow 2\nshow", 4, LineKind::OutOfRange),
        (TWO, b"show 0 0\n\xff", 2, LineKind::Extra),
        (TWO, b"bound 0 4 9 10 0", 2, LineKind::Extra),
    ];
    for (front, rest, place, kind) in cases {
        let fault = ScriptFault::Bad { place, kind };
        assert_eq!(rt; fault_of(rt.alloc(), front, rest)?, Some(fault), "{place}");
    }
    Ok(())
}

#[test]
fn words_and_numbers(rt: HostRuntime) -> Result<(), Fail> {
    let cases: [(&[u8], LineKind); 20] = [
        (b"writes 0 0 put 1 1", LineKind::UnknownWord),
        (b"write 0 0 get 1", LineKind::UnknownWord),
        (b"e 0 0 restart", LineKind::UnknownWord),
        (b"write 0 0 put 1", LineKind::Missing),
        (b"held 0 0 put 1 1", LineKind::Missing),
        (b"send 0 1 0", LineKind::Missing),
        (b"sync 0", LineKind::Missing),
        (b"write 0 0 put 1 --1", LineKind::NotNumber),
        (b"write 0 0 put 1 1 0:1", LineKind::NotNumber),
        (b"read 0 0 1 0:1:1:1:1", LineKind::NotNumber),
        (b"at -1", LineKind::NotNumber),
        (b"at 1152921504606846977", LineKind::OutOfRange),
        (b"write 0 8 put 1 1", LineKind::OutOfRange),
        (b"write 0 0 put 1000000001 1", LineKind::OutOfRange),
        (b"write 0 0 add 1 -1000000000000001", LineKind::OutOfRange),
        (b"write 0 0 put 1 1 5:0:0", LineKind::OutOfRange),
        (b"lend 0 1 0 1000000000001", LineKind::OutOfRange),
        (b"send 0 1 20001 0", LineKind::OutOfRange),
        (b"take 1 0 18446744073709551616", LineKind::OutOfRange),
        (b"ref 5", LineKind::OutOfRange),
    ];
    for (line, kind) in cases {
        let fault = ScriptFault::Bad { place: 2, kind };
        assert_eq!(rt; fault_of(rt.alloc(), TWO, line)?, Some(fault));
    }
    Ok(())
}

#[test]
fn replicas_order_and_more(rt: HostRuntime) -> Result<(), Fail> {
    let cases: [(&[u8], LineKind); 14] = [
        (b"send 1 1", LineKind::SameReplica),
        (b"take 0 0 x", LineKind::SameReplica),
        (b"lend 0 0 9 1", LineKind::SameReplica),
        (b"back 1 1 0 1", LineKind::SameReplica),
        (b"sync 1 1 1", LineKind::SameReplica),
        (b"write 0 0 put 1 1 1:0:0 1:0:0", LineKind::Unordered),
        (b"read 0 0 1 2:0:0:0 0:0:0:0", LineKind::Unordered),
        (b"write 0 0 put 1 1 2:0:0 1:x:0", LineKind::NotNumber),
        (b"write 0 0 put 1 1 2:0:0 1:0:1000001", LineKind::OutOfRange),
        (
            b"write 0 0 put 1 1 0:0:0 1:0:0 2:0:0 3:0:0 4:0:0",
            LineKind::Extra,
        ),
        (
            b"read 0 0 1 0:0:0:0 1:0:0:0 2:0:0:0 3:0:0:0 x",
            LineKind::Extra,
        ),
        (b"send 0 1 0 0 0", LineKind::Extra),
        (b"held 0 0 put 1 1 0:0:0 1:0:0", LineKind::Extra),
        (b"restart 0 0", LineKind::Extra),
    ];
    for (line, kind) in cases {
        let fault = ScriptFault::Bad { place: 2, kind };
        assert_eq!(rt; fault_of(rt.alloc(), TWO, line)?, Some(fault));
    }
    Ok(())
}

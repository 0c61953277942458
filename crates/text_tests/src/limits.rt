//! The limits of a script's lines.

use crate::refusals::fault_of;
use run_model::LineKind;
use script_text::ScriptFault;
use std::alloc::Global;
use std::test::Fail;
use tact_base::Bytes;

// So many lines after the first, each of so many spaces.
fn padded(alloc: Global, lines: usize, spaces: usize) -> Result<Bytes, Fail> {
    let mut text = Bytes::from_slice(alloc, b"start 2 1 0 0")?;
    for _ in 0..lines {
        text.push(b'\n')?;
        for _ in 0..spaces {
            text.push(b' ')?;
        }
    }
    Ok(text)
}

#[test]
fn long_lines_and_many(rt: HostRuntime) -> Result<(), Fail> {
    let cases: [(usize, usize, u64, LineKind); 5] = [
        (1, 401, 2, LineKind::LongLine),
        (3, 500, 2, LineKind::LongLine),
        (10_000, 1, 10_001, LineKind::TooManyLines),
        (10_001, 1, 10_001, LineKind::TooManyLines),
        (9_999, 1, 10_001, LineKind::TooManyLines),
    ];
    for (lines, spaces, place, kind) in cases {
        let text = padded(rt.alloc(), lines, spaces)?;
        let rest: &[u8] = if lines < 10_000 { b"\n#" } else { b"" };
        let fault = ScriptFault::Bad { place, kind };
        assert_eq!(rt;
            fault_of(rt.alloc(), text.items(), rest)?,
            Some(fault),
            "{lines}"
        );
    }
    Ok(())
}

#[test]
fn up_to_the_limits(rt: HostRuntime) -> Result<(), Fail> {
    for (lines, spaces) in [(1, 400), (9_999, 1)] {
        let text = padded(rt.alloc(), lines, spaces)?;
        assert_eq!(rt; fault_of(rt.alloc(), text.items(), b"")?, None, "{lines}");
    }
    Ok(())
}

//! What the tests of the checker share.

use run_check::{check_record, put_verdict};
use run_record::{Record, parse_text};
use std::alloc::Global;
use std::test::Fail;
use tact_base::{Bytes, NoMemory};

/// The line that is said of a record whose text is in two parts.
pub(crate) fn said_of(alloc: Global, front: &[u8], rest: &[u8]) -> Result<Bytes, Fail> {
    let mut text = Bytes::from_slice(alloc, front)?;
    text.append(rest)?;
    let held = parse_text(alloc, text.items()).map_err(|_| "a record")?;
    let mut line = Bytes::new(alloc);
    match put_line(alloc, &held, &mut line) {
        Ok(()) => Ok(line),
        Err(fault) => Err(fault.into()),
    }
}

// Puts the line on a record.
fn put_line(alloc: Global, held: &Record, line: &mut Bytes) -> Result<(), NoMemory> {
    match check_record(alloc, held) {
        Ok(verdict) => put_verdict(alloc, &verdict, line),
        Err(fault) => Err(fault),
    }
}

//! What a journal gives back, and where it is refused.

use crate::journaled::Journaled;
use crate::pieces::{KINDS, again, of_kind, restart, take};
use restart_journal::RecoverFault;
use std::alloc::Global;
use std::process::Abort;
use std::test::Fail;
use tact_base::{Bytes, HISTORY_MAX};
use tact_io::JournalFail;

// Puts a piece with one byte more.
fn put_longer(alloc: Global, journal: &mut Journaled, piece: &[u8]) -> Result<(), Fail> {
    let mut longer = Bytes::from_slice(alloc, piece)?;
    longer.push(0)?;
    journal.put(longer.items())
}

// Nothing is read from an empty journal; then the first piece is that of an entry, and the second one has a byte more.
fn assert_longer(rt: &(impl Abort + AllocGlobal), journal: &mut Journaled) -> Result<(), Fail> {
    assert!(rt; journal.gives(0));
    journal.put(take())?;
    assert!(rt; journal.gives(1));
    put_longer(rt.alloc(), journal, again())?;
    assert!(rt; journal.fails(RecoverFault::Foreign { place: 1 }));
    Ok(())
}

#[test]
fn a_byte_more(rt: HostRuntime) -> Result<(), Fail> {
    let mut journal = Journaled::new(rt.alloc(), &[])?;
    assert_longer(&rt, &mut journal)
}

// A byte of the piece at a place, and another that can't stand there after the pieces before.
struct Change {
    place: usize,
    at: usize,
    byte: u8,
}

#[rattlefmt::skip]
static CHANGES: [(Change, &str); 10] = [
    (Change { place: 2, at: 18, byte: 1 }, "a call's number"),
    (Change { place: 2, at: 71, byte: 3 }, "its reply"),
    (Change { place: 4, at: 18, byte: 1 }, "a send's number"),
    (Change { place: 4, at: 26, byte: 2 }, "its first"),
    (Change { place: 5, at: 19, byte: 7 }, "a loan past what is at home"),
    (Change { place: 6, at: 19, byte: 6 }, "a return past what is free"),
    (Change { place: 7, at: 1, byte: 0 }, "another replica"),
    (Change { place: 7, at: 9, byte: 4 }, "an earlier moment"),
    (Change { place: 7, at: 0, byte: 7 }, "a tag that is none"),
    (Change { place: 0, at: 15, byte: 0 }, "a message to another"),
];

// The piece of each kind at a place, with the change if it stands there.
fn piece_with(alloc: Global, place: usize, change: &Change) -> Result<Vec<u8>, Fail> {
    let mut piece = Vec::from_slice(alloc, of_kind(place))?;
    if place == change.place {
        set(&mut piece, change.at, change.byte);
    }
    Ok(piece)
}

fn set(bytes: &mut [u8], at: usize, byte: u8) {
    if at < bytes.len() {
        bytes[at] = byte;
    }
}

// Puts a piece of each kind, one of which has this change.
fn put_changed(alloc: Global, journal: &mut Journaled, change: &Change) -> Result<(), Fail> {
    for place in 0..KINDS {
        let piece = piece_with(alloc, place, change)?;
        journal.put(&piece)?;
    }
    Ok(())
}

// Whether a journal of these is refused just where the change is.
fn is_refused(alloc: Global, change: &Change) -> Result<bool, Fail> {
    let mut journal = Journaled::new(alloc, &[])?;
    put_changed(alloc, &mut journal, change)?;
    let place = change.place as u64;
    Ok(journal.fails(RecoverFault::Foreign { place }))
}

#[test]
fn changed_pieces(rt: HostRuntime) -> Result<(), Fail> {
    for (change, text) in &CHANGES {
        assert!(rt; is_refused(rt.alloc(), change)?, "{text}");
    }
    Ok(())
}

// The read of the second piece fails, and the next time none does.
fn assert_failing(rt: &impl Abort, journal: &mut Journaled) -> Result<(), Fail> {
    journal.put(take())?;
    journal.put(again())?;
    assert!(rt; journal.fails(RecoverFault::JournalReadFault));
    assert!(rt; journal.gives(2));
    Ok(())
}

#[test]
fn a_failing_read(rt: HostRuntime) -> Result<(), Fail> {
    let fail = JournalFail {
        call: 3,
        kept: false,
    };
    let mut journal = Journaled::new(rt.alloc(), &[fail])?;
    assert_failing(&rt, &mut journal)
}

// As many entries as there can be.
fn fill(journal: &mut Journaled) -> Result<(), Fail> {
    for _ in 0..HISTORY_MAX {
        journal.put(restart())?;
    }
    Ok(())
}

// Then one piece more, whatever it holds.
fn assert_full(rt: &impl Abort, journal: &mut Journaled) -> Result<(), Fail> {
    assert!(rt; journal.gives(20_000));
    journal.put(b"whatever")?;
    assert!(rt; journal.fails(RecoverFault::Full { place: 20_000 }));
    Ok(())
}

#[test]
fn as_many_as_there_can_be(rt: HostRuntime) -> Result<(), Fail> {
    let mut journal = Journaled::new(rt.alloc(), &[])?;
    fill(&mut journal)?;
    assert_full(&rt, &mut journal)
}

//! Journals and shelves in memory: which of their calls fail, what a failed append leaves, and what is put back.

use std::alloc::Global;
use std::process::Abort;
use tact_base::Bytes;
use tact_io::{
    Failed, Journal, JournalFail, MemJournal, MemShelf, OutFault, Shelf, SureJournal, SureShelf,
};

const LOST_FIRST: JournalFail = JournalFail {
    call: 0,
    kept: false,
};

const LOST_SECOND: JournalFail = JournalFail {
    call: 1,
    kept: false,
};

const KEPT_SECOND: JournalFail = JournalFail {
    call: 1,
    kept: true,
};

const THIRD: JournalFail = JournalFail {
    call: 2,
    kept: false,
};

/// Appends a piece, for which it makes room.
fn put<J: Journal>(rt: &impl Abort, journal: &mut J, piece: &[u8]) -> Result<(), Failed> {
    let made = journal.make_room(1, piece.len() as u64);
    made.expect(rt, "room for a piece");
    journal.append(piece)
}

/// The first three pieces, each ended by a semicolon.
fn pieces(rt: &impl Abort, alloc: Global, journal: &mut MemJournal) -> Bytes {
    let mut text = Bytes::new(alloc);
    append_pieces(rt, journal, &mut text);
    text
}

fn append_pieces(rt: &impl Abort, journal: &mut MemJournal, text: &mut Bytes) {
    for at in 0..3 {
        append_piece(rt, journal, at, text);
    }
}

fn append_piece(rt: &impl Abort, journal: &mut MemJournal, at: u64, text: &mut Bytes) {
    if let Some(piece) = journal.read(at).expect(rt, "what stands there") {
        text.append(piece.items()).expect(rt, "room for a piece");
        text.append(b";").expect(rt, "room for its end");
    }
}

// The calls that fail, what the appends of two pieces answer, how often the journal has failed, and what it has.
#[rattlefmt::skip]
static FAULTS: [(&[JournalFail], Result<(), Failed>, Result<(), Failed>, u64, &[u8]); 4] = [
    (&[], Ok(()), Ok(()), 0, b"one;two;"),
    (&[LOST_FIRST], Err(Failed), Ok(()), 1, b"two;"),
    (&[LOST_SECOND], Ok(()), Err(Failed), 1, b"one;"),
    (&[KEPT_SECOND, LOST_FIRST], Err(Failed), Err(Failed), 2, b"two;"),
];

#[test]
fn journals_fail_where_listed(rt: HostRuntime) {
    for &(fails, first, second, faults, want) in &FAULTS {
        let mut journal = MemJournal::new(rt.alloc(), fails).expect(&rt, "a journal");
        assert_eq!(rt; put(&rt, &mut journal, b"one"), first);
        assert_eq!(rt; put(&rt, &mut journal, b"two"), second);
        assert_eq!(rt; journal.faults(), faults);
        let text = pieces(&rt, rt.alloc(), &mut journal);
        assert_eq!(rt; text.items(), want, "fails {fails:?}");
    }
}

#[test]
fn a_sure_journal_keeps_its_pieces(rt: HostRuntime) {
    let one = Bytes::from_slice(rt.alloc(), b"one").expect(&rt, "a piece");
    let mut sure = SureJournal::new(rt.alloc());
    assert_eq!(rt; put(&rt, &mut sure, b"one"), Ok(()));
    assert_eq!(rt; sure.read(0), Ok(Some(one)));
    assert_eq!(rt; sure.read(1), Ok(None));
}

// Two pieces are put in, and the third call fails.
fn fill(rt: &impl Abort, journal: &mut MemJournal) {
    assert_eq!(rt; put(rt, journal, b"one"), Ok(()));
    assert_eq!(rt; put(rt, journal, b"two"), Ok(()));
    assert_eq!(rt; journal.read(0), Err(OutFault::Failed));
}

#[test]
fn journals_are_put_back(rt: HostRuntime) {
    let mut shelf = MemShelf::new(rt.alloc(), &[THIRD]).expect(&rt, "a shelf");
    let mut journal = shelf.fetch(7).expect(&rt, "a journal");
    fill(&rt, &mut journal);
    assert_eq!(rt; shelf.journal(7).is_none(), true);
    shelf.put_back(7, journal);
    assert_eq!(rt; shelf.journal(7).map(MemJournal::faults), Some(1));
    assert_eq!(rt; shelf.journal(6).is_none(), true);
}

#[test]
fn sure_journals_are_put_back(rt: HostRuntime) {
    let mut shelf = SureShelf::new(rt.alloc()).expect(&rt, "a shelf");
    let journal = shelf.fetch(0).expect(&rt, "a journal");
    shelf.put_back(0, journal);
    assert_eq!(rt; shelf.journal(0).is_some(), true);
}

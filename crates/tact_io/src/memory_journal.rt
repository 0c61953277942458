ghost use Rattle.std.specs.Prelude.{◌≡◌, ◌-◌, ◌<◌, ◌≤◌, ◌↔◌, [], map, max, length, slice_get, true, IsTrue, IfOk, IsOk, OnOk, IsErr, OnErr, IsErrOf, IsOkUnless};
ghost use Rattle.tact_io.specs.Faults.{HasRisen};
ghost use Rattle.tact_io.specs.Journals.{with_piece, MayHave};
ghost use Rattle.tact_io.specs.Memory.{call_of};

use crate::piece_list::PieceList;
use crate::schedule::FaultSchedule;
use crate::{Failed, Journal, OutFault};
use std::alloc::Global;
use std::marker::Model;
use tact_base::{Bytes, Items, NoMemory, Numbers};

/// Keeps pieces in memory, without a fault. Contracts see it as its pieces and its room.
#[derive(Debug, Drop)]
pub struct SureJournal {
    alloc: Global,
    list: PieceList,
}

impl Model for SureJournal {
    ghost use Rattle.tact_io.specs.Journals.{Pieces};

    ghost Value = { Pieces };

    ghost view = { λ s. s.list };
}

impl SureJournal {
    /// A journal without pieces, and without room. It takes no memory before it is asked for room.
    pub fn new(alloc: Global) -> Self
        ensures { result ≡ record { pieces = []; spare_pieces = 0; spare_bytes = 0 } }
    {
        SureJournal {
            alloc,
            list: PieceList::new(alloc),
        }
    }
}

impl Journal for SureJournal {
    ghost tells = { true };

    ghost pieces = { λ journal. journal.pieces };

    ghost faults = { λ _. 0 };

    ghost spare_pieces = { λ journal. journal.spare_pieces };

    ghost spare_bytes = { λ journal. journal.spare_bytes };

    /// Makes room for at least so many more pieces, and for so many more bytes in all. `NoMemory` leaves everything as
    /// it was.
    fn make_room(&mut self, count: u64, bytes: u64) -> Result<(), NoMemory>
        ensures ok { OnOk result (self.new ≡ record self.old {
          spare_pieces = max count self.old.spare_pieces;
          spare_bytes = max bytes self.old.spare_bytes;
        }) }
        ensures err { OnErr result (self.new ≡ self.old) }
    {
        self.list.make_room(count, bytes)
    }

    /// Appends a piece.
    fn append(&mut self, piece: &[u8]) -> Result<(), Failed>
        requires a_piece { 0 < self.old.spare_pieces }
        requires its_bytes { length piece.now ≤ self.old.spare_bytes }
        ensures sure { IsOk result }
        ensures after { self.new ≡ record {
          pieces = with_piece self.old.pieces piece.now;
          spare_pieces = self.old.spare_pieces - 1;
          spare_bytes = self.old.spare_bytes - length piece.now;
        } }
    {
        self.list.append(piece);
        Ok(())
    }

    /// The piece at this place, if there is one.
    fn read(&mut self, at: u64) -> Result<Option<Bytes>, OutFault>
        ensures found { IfOk result (λ found. found ≡ slice_get self.old.pieces at) }
        ensures stays { self.new ≡ self.old }
        ensures sure { IsOkUnless result OutFault.NoMemory }
    {
        Ok(self.list.read(self.alloc, at)?)
    }
}

/// A call of a journal in memory that fails, by its number, counted from 0 over appends and reads together; and
/// whether an append that fails there leaves its piece.
#[derive(Clone, Copy, Debug, PartialEq, Eq, Drop)]
pub struct JournalFail {
    pub call: u64,
    pub kept: bool,
}

/// Keeps pieces in memory, and its listed appends and reads fail. Contracts see it as its pieces and its room, how its
/// calls fail, and which of them leave their piece.
#[derive(Debug, Drop)]
pub struct MemJournal {
    journal: SureJournal,
    schedule: FaultSchedule,
    fails: Items<JournalFail>,
}

impl Model for MemJournal {
    ghost use Rattle.tact_io.specs.Memory.{JournalState};

    ghost Value = { JournalState };

    ghost view = { λ s. record { held = s.journal; schedule = s.schedule; fails = s.fails } };
}

impl MemJournal {
    ghost use Rattle.tact_io.specs.Memory.{unused};

    /// A journal without pieces, and without room, of which these calls fail. Of a call that is listed twice, a failed
    /// append leaves its piece if one of both says so.
    pub fn new(alloc: Global, fails: &[JournalFail]) -> Result<Self, NoMemory>
        ensures { IfOk result (λ journal. journal ≡ record {
          held = record { pieces = []; spare_pieces = 0; spare_bytes = 0 };
          schedule = unused (map call_of fails.now);
          fails = fails.now;
        }) }
    {
        let calls = calls_of(alloc, fails)?;
        Ok(MemJournal {
            journal: SureJournal::new(alloc),
            schedule: FaultSchedule::new(alloc, calls.items())?,
            fails: Items::from_slice(alloc, fails)?,
        })
    }

    /// How often it has failed.
    pub fn faults(&self) -> u64
        ensures { result ≡ self.now.schedule.faults }
    {
        self.schedule.faults()
    }
}

fn calls_of(alloc: Global, fails: &[JournalFail]) -> Result<Numbers, NoMemory>
    ensures { IfOk result (λ calls. calls ≡ map call_of fails.now) }
{
    let mut calls = Numbers::new(alloc);
    for fail in fails {
        calls.push(fail.call)?;
    }
    Ok(calls)
}

impl Journal for MemJournal {
    ghost use Rattle.tact_io.specs.Memory.{FailsNext, KeepsNext, after_success, after_fault};

    ghost tells = { true };

    ghost pieces = { λ journal. journal.held.pieces };

    ghost faults = { λ journal. journal.schedule.faults };

    ghost spare_pieces = { λ journal. journal.held.spare_pieces };

    ghost spare_bytes = { λ journal. journal.held.spare_bytes };

    /// Makes room for at least so many more pieces, and for so many more bytes in all. `NoMemory` leaves everything as
    /// it was. It is no call that could be listed.
    fn make_room(&mut self, count: u64, bytes: u64) -> Result<(), NoMemory>
        ensures ok { OnOk result (self.new ≡ record self.old {
          held = record self.old.held {
            spare_pieces = max count self.old.held.spare_pieces;
            spare_bytes = max bytes self.old.held.spare_bytes;
          };
        }) }
        ensures err { OnErr result (self.new ≡ self.old) }
    {
        self.journal.make_room(count, bytes)
    }

    /// Appends a piece, unless this call was listed as one that fails. Then the piece is there where it was listed so.
    fn append(&mut self, piece: &[u8]) -> Result<(), Failed>
        requires a_piece { 0 < self.old.held.spare_pieces }
        requires its_bytes { length piece.now ≤ self.old.held.spare_bytes }
        ensures fails { IsErr result ↔ FailsNext self.old.schedule }
        ensures spare_pieces { self.new.held.spare_pieces ≡ self.old.held.spare_pieces - 1 }
        ensures spare_bytes { self.new.held.spare_bytes ≡ self.old.held.spare_bytes - length piece.now }
        ensures ok { OnOk result (self.new.held.pieces ≡ with_piece self.old.held.pieces piece.now) }
        ensures kept { OnErr result (KeepsNext self.old → self.new.held.pieces ≡ with_piece self.old.held.pieces piece.now) }
        ensures lost { OnErr result (¬ (KeepsNext self.old) → self.new.held.pieces ≡ self.old.held.pieces) }
        ensures success { OnOk result (self.new.schedule ≡ after_success self.old.schedule) }
        ensures fault { OnErr result (self.new.schedule ≡ after_fault self.old.schedule) }
        ensures same { self.new.fails ≡ self.old.fails }

        // What each journal ensures of a failed append, and of its count.
        ensures err { OnErr result (MayHave self.old.held.pieces piece.now self.new.held.pieces) }
        ensures never_falls { self.old.schedule.faults ≤ self.new.schedule.faults }
        ensures failed { OnErr result (HasRisen self.old.schedule.faults self.new.schedule.faults) }
    {
        if !self.schedule.fails_next() {
            self.schedule.count_success();
            return self.journal.append(piece);
        }
        if self.keeps_next() {
            self.journal.list.append(piece);
        } else {
            self.journal.list.use_room(piece);
        }
        self.schedule.count_fault();
        Err(Failed)
    }

    /// The piece at this place, if there is one, unless this call was listed as one that fails. `NoMemory` leaves
    /// everything as it was, and such a read isn't counted as a call.
    fn read(&mut self, at: u64) -> Result<Option<Bytes>, OutFault>
        ensures fails { IsErrOf result OutFault.Failed ↔ FailsNext self.old.schedule }
        ensures found { IfOk result (λ found. found ≡ slice_get self.old.held.pieces at) }
        ensures ok { OnOk result (self.new ≡ record self.old { schedule = after_success self.old.schedule }) }
        ensures err { IsErrOf result OutFault.Failed → self.new ≡ record self.old { schedule = after_fault self.old.schedule } }
        ensures no_memory { IsErrOf result OutFault.NoMemory → self.new ≡ self.old }

        // What each journal ensures of what it holds and of its count.
        ensures stays { self.new.held ≡ self.old.held }
        ensures never_falls { self.old.schedule.faults ≤ self.new.schedule.faults }
        ensures failed { IsErrOf result OutFault.Failed → HasRisen self.old.schedule.faults self.new.schedule.faults }
    {
        if self.schedule.fails_next() {
            self.schedule.count_fault();
            return Err(OutFault::Failed);
        }
        let found = self.journal.read(at)?;
        self.schedule.count_success();
        Ok(found)
    }
}

impl MemJournal {
    ghost use Rattle.tact_io.specs.Memory.{KeepsNext};

    // Whether the next append leaves its piece if it fails.
    fn keeps_next(&self) -> bool
        ensures { IsTrue result ↔ KeepsNext self.now }
    {
        let next = JournalFail {
            call: self.schedule.calls(),
            kept: true,
        };
        self.fails.items().contains(&next)
    }
}

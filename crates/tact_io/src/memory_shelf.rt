ghost use Rattle.std.specs.Prelude.{◌≡◌, ◌≢◌, ◌<◌, ◌≤◌, ℕ, [], None, Some, map, replicate, length, IfOk, IsOkUnless, MatchOption};
ghost use Rattle.tact_base.specs.declared.limits.TheConstants.{REPLICAS_MAX};
ghost use Rattle.tact_io.specs.Faults.{HasRisen};
ghost use Rattle.tact_io.specs.Shelves.{journal_at};

use crate::{JournalFail, MemJournal, OutFault, Shelf, SureJournal};
use std::alloc::Global;
use std::marker::Model;
use tact_base::{Items, NoMemory, REPLICAS_MAX};

// A place for a journal of each replica. Contracts see the journal at each.
#[derive(Debug, Drop)]
struct Places<J> {
    journals: Vec<Option<J>>,
}

impl<J> Model for Places<J> {
    ghost use Rattle.std.specs.Prelude.{◌≡◌, List, Option, length};
    ghost use Rattle.tact_base.specs.declared.limits.TheConstants.{REPLICAS_MAX};

    ghost Value = { List (Option J) };

    ghost view = { λ s. s.journals.items };

    ghost invariant = { λ s. length s.journals.items ≡ REPLICAS_MAX };
}

impl<J: Drop> Places<J> {
    fn new(alloc: Global) -> Result<Self, NoMemory>
        ensures { IfOk result (λ places. places ≡ replicate REPLICAS_MAX None) }
    {
        let mut journals = Vec::with_capacity(alloc, REPLICAS_MAX as usize)?;
        for _replica in 0..REPLICAS_MAX {
            journals.push(None)?;
        }
        Ok(Places { journals })
    }

    // The journal at a place, if one was put there.
    fn at(&self, replica: u32) -> Option<&J>
        requires { replica < REPLICAS_MAX }
        ensures { MatchOption result (journal_at self.now replica ≡ None) (λ journal. journal_at self.now replica ≡ Some journal.now) }
    {
        self.journals[replica as usize].as_ref()
    }

    fn put(&mut self, replica: u32, journal: J)
        requires { replica < REPLICAS_MAX }
        ensures put { journal_at self.new replica ≡ Some journal }
        ensures others { (of : ℕ) → of ≢ replica → journal_at self.new of ≡ journal_at self.old of }
    {
        self.journals[replica as usize] = Some(journal);
    }
}

/// Gives journals in memory that don't fail, and keeps those that are put back. Contracts see the journal of each replica.
#[derive(Debug, Drop)]
pub struct SureShelf {
    alloc: Global,
    places: Places<SureJournal>,
}

impl Model for SureShelf {
    ghost use Rattle.std.specs.Prelude.{List, Option};
    ghost use Rattle.tact_io.specs.Journals.{Pieces};

    ghost Value = { List (Option Pieces) };

    ghost view = { λ s. s.places };
}

impl SureShelf {
    /// A shelf to which no journal was put back.
    pub fn new(alloc: Global) -> Result<Self, NoMemory>
        ensures { IfOk result (λ shelf. shelf ≡ replicate REPLICAS_MAX None) }
    {
        Ok(SureShelf {
            alloc,
            places: Places::new(alloc)?,
        })
    }

    /// The journal that was put back last for a replica, if one was.
    pub fn journal(&self, replica: u32) -> Option<&SureJournal>
        requires { replica < REPLICAS_MAX }
        ensures { MatchOption result (journal_at self.now replica ≡ None) (λ journal. journal_at self.now replica ≡ Some journal.now) }
    {
        self.places.at(replica)
    }
}

impl Shelf for SureShelf {
    ghost use Rattle.tact_io.specs.Shelves.{sure_at};

    type J = SureJournal;

    ghost faults = { λ _. 0 };

    ghost stored = { sure_at };

    /// An empty journal.
    fn fetch(&mut self, replica: u32) -> Result<SureJournal, OutFault>
        requires { replica < REPLICAS_MAX }
        ensures empty { IfOk result (λ journal. journal.pieces ≡ []) }
        ensures stays { self.new ≡ self.old }
        ensures sure { IsOkUnless result OutFault.NoMemory }
    {
        let _replica = replica;
        Ok(SureJournal::new(self.alloc))
    }

    /// Keeps the journal in place of the one that was put back before.
    fn put_back(&mut self, replica: u32, journal: SureJournal)
        requires { replica < REPLICAS_MAX }
        ensures put { journal_at self.new replica ≡ Some journal }
        ensures others { (of : ℕ) → of ≢ replica → journal_at self.new of ≡ journal_at self.old of }
    {
        self.places.put(replica, journal);
    }
}

/// Gives journals in memory whose listed calls fail, and keeps those that are put back. Contracts see the journal of each
/// replica, the listed calls and how often one had failed that was put back.
#[derive(Debug, Drop)]
pub struct MemShelf {
    alloc: Global,
    places: Places<MemJournal>,
    fails: Items<JournalFail>,
    faults: u64,
}

impl Model for MemShelf {
    ghost use Rattle.tact_io.specs.Shelves.{ShelfState};

    ghost Value = { ShelfState };

    ghost view = { λ s. record { places = s.places; fails = s.fails; faults = s.faults } };
}

impl MemShelf {
    /// A shelf to which no journal was put back, and whose journals fail at these calls, each by its own count.
    pub fn new(alloc: Global, fails: &[JournalFail]) -> Result<Self, NoMemory>
        ensures { IfOk result (λ shelf. shelf ≡ record { places = replicate REPLICAS_MAX None; fails = fails.now; faults = 0 }) }
    {
        Ok(MemShelf {
            alloc,
            places: Places::new(alloc)?,
            fails: Items::from_slice(alloc, fails)?,
            faults: 0,
        })
    }

    /// The journal that was put back last for a replica, if one was.
    pub fn journal(&self, replica: u32) -> Option<&MemJournal>
        requires { replica < REPLICAS_MAX }
        ensures { MatchOption result (journal_at self.now.places replica ≡ None) (λ journal. journal_at self.now.places replica ≡ Some journal.now) }
    {
        self.places.at(replica)
    }
}

impl Shelf for MemShelf {
    ghost use Rattle.tact_io.specs.Memory.{call_of, unused};
    ghost use Rattle.tact_io.specs.Shelves.{stored_at};

    type J = MemJournal;

    ghost faults = { λ shelf. shelf.faults };

    ghost stored = { stored_at };

    /// A journal without pieces whose listed calls fail. It never answers `Failed`.
    fn fetch(&mut self, replica: u32) -> Result<MemJournal, OutFault>
        requires { replica < REPLICAS_MAX }
        ensures fetched { IfOk result (λ journal. journal ≡ record {
          held = record { pieces = []; spare_pieces = 0; spare_bytes = 0 };
          schedule = unused (map call_of self.old.fails);
          fails = self.old.fails;
        }) }
        ensures stays { self.new ≡ self.old }
        ensures sure { IsOkUnless result OutFault.NoMemory }
    {
        let _replica = replica;
        Ok(MemJournal::new(self.alloc, self.fails.items())?)
    }

    /// Keeps the journal in place of the one that was put back before.
    fn put_back(&mut self, replica: u32, journal: MemJournal)
        requires { replica < REPLICAS_MAX }
        ensures put { journal_at self.new.places replica ≡ Some journal }
        ensures others { (of : ℕ) → of ≢ replica → journal_at self.new.places of ≡ journal_at self.old.places of }
        ensures same { self.new.fails ≡ self.old.fails }

        // What each shelf ensures of its count.
        ensures never_falls { self.old.faults ≤ self.new.faults }
        ensures sound { journal.schedule.faults ≡ 0 → self.new.faults ≡ self.old.faults }
        ensures failed { journal.schedule.faults ≢ 0 → HasRisen self.old.faults self.new.faults }
    {
        if journal.faults() != 0 {
            self.faults = self.faults.saturating_add(1);
        }
        self.places.put(replica, journal);
    }
}

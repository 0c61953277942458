//! A journal that loses its first piece.
ghost use Rattle.std.specs.Prelude.{[], false};

use std::alloc::Global;
use tact_base::{Bytes, NoMemory};
use tact_io::{Failed, Journal, OutFault, SureJournal};

/// A journal in memory that takes all pieces, and gives back all but the first. It doesn't tell them.
#[derive(Drop)]
pub struct Headless {
    whole: SureJournal,
}

impl Headless {
    pub fn new(alloc: Global) -> Headless {
        Headless {
            whole: SureJournal::new(alloc),
        }
    }
}

impl Journal for Headless {
    ghost tells = { false };

    ghost pieces = { λ _. [] };

    ghost faults = { λ _. 0 };

    ghost spare_pieces = { λ journal. journal.whole.spare_pieces };

    ghost spare_bytes = { λ journal. journal.whole.spare_bytes };

    fn make_room(&mut self, count: u64, bytes: u64) -> Result<(), NoMemory> {
        self.whole.make_room(count, bytes)
    }

    fn append(&mut self, piece: &[u8]) -> Result<(), Failed> {
        self.whole.append(piece)
    }

    fn read(&mut self, at: u64) -> Result<Option<Bytes>, OutFault> {
        self.whole.read(at.saturating_add(1))
    }
}

//! A replica's journal, with the setup that it is read by.

ghost use Rattle.std.specs.Prelude.{◌≡◌, All, IfOk};
ghost use Rattle.restart_journal.specs.Pieces.{CanBePut};

use restart_journal::{RecoverFault, Recovered, recover};
use run_model::Config;
use std::alloc::Global;
use std::test::Fail;
use tact_base::NoMemory;
use tact_io::{Journal, JournalFail, MemJournal};

/// The journal of replica 1 of two on one conit. Each is boxed, since a box is let go in one step.
#[derive(Drop)]
pub(crate) struct Journaled {
    alloc: Global,
    config: Config,
    journal: MemJournal,
}

impl Journaled {
    /// An empty one, of which these calls fail.
    pub(crate) fn new(alloc: Global, fails: &[JournalFail]) -> Result<Box<Journaled>, Fail> {
        let journaled = Journaled {
            alloc,
            config: Config::new(alloc, 2, 1, &[10; 2], &[0, 10, 4, 0])?,
            journal: MemJournal::new(alloc, fails)?,
        };
        Ok(Box::new(alloc, journaled)?)
    }

    /// Puts a piece at its end.
    pub(crate) fn put(&mut self, piece: &[u8]) -> Result<(), Fail> {
        self.journal.make_room(1, piece.len() as u64)?;
        self.journal.append(piece)?;
        Ok(())
    }

    /// What it gives back.
    pub(crate) fn recovered(&mut self) -> Result<Box<Recovered>, RecoverFault>
        ensures { IfOk result (λ made. All CanBePut made.value.stored) }
    {
        let _replicas = self.config.replicas();
        let made = recover(self.alloc, &self.config, 1, &mut self.journal)?;
        Ok(boxed(self.alloc, made)?)
    }

    // How many entries it gives back.
    fn count(&mut self) -> Result<usize, RecoverFault> {
        let made = self.recovered()?;
        Ok(made.stored.len())
    }

    /// Whether it gives back so many entries.
    pub(crate) fn gives(&mut self, count: usize) -> bool {
        self.count() == Ok(count)
    }

    /// Whether it is refused so.
    pub(crate) fn fails(&mut self, fault: RecoverFault) -> bool {
        self.count() == Err(fault)
    }
}

fn boxed(alloc: Global, made: Recovered) -> Result<Box<Recovered>, NoMemory>
    ensures { IfOk result (λ boxed. boxed.value ≡ made) }
{
    Ok(Box::new(alloc, made)?)
}

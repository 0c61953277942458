ghost use Rattle.std.specs.Prelude.{◌≡◌, ◌+◌, ◌*◌, ◌<◌, [], IsTrue, IfOk, IfErr, slice_index};
ghost use Rattle.run_model.specs.Missing.{reserved};
ghost use Rattle.locked_replica.specs.Journals.{IsJournaled};
ghost use Rattle.tact_base.specs.declared.limits.TheConstants.{CLIENTS};
ghost use Rattle.weight_ledger.specs.Amounts.{zeros};
ghost use Rattle.replica_lock.specs.Ledgers.{IsAccounted};
ghost use Rattle.locked_replica.specs.Locks.{IsLocked, part_in};

use crate::NewFault;
use crate::label::Label;
use crate::ledger::Ledger;
use entry_journal::EntryJournal;
use locked_replica::Locked;
use std::alloc::{AllocFailed, Global};
use std::marker::Model;
use tact_io::Journal;
use weight_ledger::Counted;

/// The value behind a node's lock as its cell has it: that of its replica, in memory of its own, and the journal.
#[derive(Drop)]
pub struct LockedBox<J: Journal> {
    pub(crate) locked: Box<Locked>,
    pub(crate) journal: EntryJournal<J>,
    pub(crate) ledger: Ledger,
}

impl<J: Journal> Model for LockedBox<J> {
    ghost use Rattle.std.specs.Prelude.{◌≡◌};
    ghost use Rattle.locked_replica.specs.Journals.{IsJournaled};
    ghost use Rattle.replica_lock.specs.Ledgers.{IsAccounted};
    ghost use Rattle.replica_lock.specs.Nodes.{KeptView};

    ghost Value = { KeptView };

    ghost view = { λ b. record { state = b.locked.value; journal = b.journal; book = b.ledger.book; owes = b.ledger.owes } };

    ghost invariant = { λ b. IsJournaled b.locked.value b.journal × IsAccounted b.locked.value b.journal b.ledger.book b.ledger.owes
        × (b.journal.tells ≡ J.tells) };
}

impl<J: Journal> Counted for LockedBox<J> {
    type Label = Label;

    ghost use Rattle.replica_lock.specs.Nodes.{label_of};

    ghost label = { λ kept. label_of kept.state };

    ghost totals = { λ kept. kept.book };
}

impl<J: Journal> LockedBox<J> {
    /// Puts the value of a node that made no entry into memory of `alloc`, with its journal, which has no piece where it
    /// tells them. Want of memory is the only error, and gives its clerk and the journal back.
    pub fn new(alloc: Global, conits: u32, locked: Locked, journal: J) -> Result<Self, NewFault<J>>
        requires none { locked.stored ≡ [] }
        requires totals { locked.totals ≡ zeros (locked.core.setup.conits + 2 * CLIENTS) }
        requires conits { conits ≡ locked.core.setup.conits }
        requires empty { IsTrue J.tells → J.pieces journal ≡ [] }
        ensures made { IfOk result (λ made. made.state ≡ locked) }
        ensures book { IfOk result (λ made. made.book ≡ zeros (conits + 5 * CLIENTS)) }
        ensures pieces { IfOk result (λ made. made.journal.pieces ≡ J.pieces journal) }
        ensures faults { IfOk result (λ made. made.journal.faults ≡ J.faults journal) }
        ensures refused { IfErr result (λ fault. (fault.clerk ≡ locked.clerk) × (fault.journal ≡ journal)) }
    {
        let Ok(ledger) = Ledger::new(alloc, conits) else {
            return Err(NewFault {
                clerk: locked.into_clerk(),
                journal,
            });
        };
        match Box::new(alloc, locked) {
            Ok(locked) => Ok(LockedBox {
                locked,
                journal: EntryJournal::new(alloc, journal),
                ledger,
            }),
            Err(AllocFailed { value }) => Err(NewFault {
                clerk: value.into_clerk(),
                journal,
            }),
        }
    }

    /// The value, out of its memory, and the journal.
    pub fn into_parts(self) -> (Locked, J)
        ensures locked { result.0 ≡ self.state }
        ensures pieces { J.pieces result.1 ≡ self.journal.pieces }
        ensures faults { J.faults result.1 ≡ self.journal.faults }
        ensures tells { self.journal.tells ≡ J.tells }
        ensures journaled { IsJournaled self.state self.journal }
        ensures accounted { IsAccounted self.state self.journal self.book self.owes }
    {
        let LockedBox {
            locked,
            journal,
            ledger: _,
        } = self;
        (Box::into_inner(locked), journal.into_journal())
    }
}

/// Tells what the value keeps, and changes nothing.
pub fn stand(locked: &Box<Locked>)
    ensures { IsLocked locked.now.value }
{
    locked.stand();
}

/// What is reserved on a conit, which is the total of the allowances out there.
pub fn reserved(locked: &Box<Locked>, conit: u32) -> u64
    requires { conit < locked.now.value.core.setup.conits }
    ensures total { result ≡ slice_index locked.now.value.totals conit }
    ensures reserved { result ≡ reserved (part_in locked.now.value) conit }
{
    locked.reserved(conit)
}

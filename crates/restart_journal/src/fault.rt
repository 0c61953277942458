ghost use Rattle.std.specs.Prelude.{◌≡◌};
ghost use Rattle.restart_journal.specs.declared.fault.StepFault.TheVariants as step;
ghost use Rattle.restart_journal.specs.declared.fault.RecoverFault.TheVariants as fault;
ghost use Rattle.restart_journal.specs.StepFaults.{read_fault, step_of};

use replica_core::CoreFault;
use tact_base::NoMemory as NoMoreMemory;
use tact_io::OutFault;

/// Why a journal gives no replica back.
#[derive(Clone, Copy, Debug, PartialEq, Eq)]
pub enum RecoverFault {
    /// The piece at this place, counted from 0, isn't that of an entry which may follow those of the pieces before it.
    Foreign { place: u64 },
    /// The journal failed: its count of faults rose.
    JournalReadFault,
    /// There is a piece at this place, past as many as a replica can have entries.
    Full { place: u64 },
    /// An allocation was refused, here or in the journal.
    NoMemory,
}

/// Why a piece is no further entry.
#[derive(Clone, Copy, Debug)]
pub(crate) enum StepFault {
    /// It isn't that of an entry which may follow.
    Foreign,
    /// An allocation was refused.
    NoMemory,
}

impl From<NoMoreMemory> for RecoverFault {
    ghost from_gives = { λ _ made. made ≡ fault.NoMemory };

    fn from(_: NoMoreMemory) -> Self {
        RecoverFault::NoMemory
    }
}

impl From<OutFault> for RecoverFault {
    ghost from_gives = { λ out made. made ≡ read_fault out };

    fn from(fault: OutFault) -> Self {
        match fault {
            OutFault::Failed => RecoverFault::JournalReadFault,
            OutFault::NoMemory => RecoverFault::NoMemory,
        }
    }
}

impl From<NoMoreMemory> for StepFault {
    ghost from_gives = { λ _ made. made ≡ step.NoMemory };

    fn from(_: NoMoreMemory) -> Self {
        StepFault::NoMemory
    }
}

impl From<CoreFault> for StepFault {
    ghost from_gives = { λ core made. made ≡ step_of core };

    fn from(fault: CoreFault) -> Self {
        match fault {
            CoreFault::Full { .. } => StepFault::Foreign,
            CoreFault::NoMemory => StepFault::NoMemory,
        }
    }
}

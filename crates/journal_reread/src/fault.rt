ghost use Rattle.std.specs.Prelude.{◌≡◌};
ghost use Rattle.journal_reread.specs.Rereading.{reread_fault};
ghost use Rattle.journal_reread.specs.declared.fault.RereadFault.TheVariants as reread;

use tact_base::NoMemory as NoMoreMemory;
use tact_io::OutFault;

/// Why a journal doesn't give back what was stored.
#[derive(Clone, Copy, Debug, PartialEq, Eq)]
pub enum RereadFault {
    /// The piece at this place, counted from 0, isn't the one that was stored there, or there is none.
    Foreign { place: u64 },
    /// The journal failed: its count of faults rose.
    JournalReadFault,
    /// An allocation was refused, here or in the journal.
    NoMemory,
}

impl From<NoMoreMemory> for RereadFault {
    ghost from_gives = { λ _ made. made ≡ reread.NoMemory };

    fn from(_: NoMoreMemory) -> Self {
        RereadFault::NoMemory
    }
}

impl From<OutFault> for RereadFault {
    ghost from_gives = { λ out made. made ≡ reread_fault out };

    fn from(fault: OutFault) -> Self {
        match fault {
            OutFault::Failed => RereadFault::JournalReadFault,
            OutFault::NoMemory => RereadFault::NoMemory,
        }
    }
}

use std::alloc::AllocError;
use tact_base::NoMemory;

/// Why a replica made no entry. It is as it was.
#[derive(Clone, Copy, Debug, PartialEq, Eq)]
pub enum CoreFault {
    /// It made 20,000 entries, or its clock stands at 2^40: how many entries, and the clock.
    Full { count: u64, clock: u64 },
    /// An allocation was refused.
    NoMemory,
}

/// Why a replica neither lent nor gave back. It is as it was.
#[derive(Clone, Copy, Debug, PartialEq, Eq)]
pub enum LoanFault {
    /// It made 20,000 entries, or its clock stands at 2^40: how many entries, and the clock.
    Full { count: u64, clock: u64 },
    /// So much of its own bound on the conit is at home, which is less than the amount.
    Home { conit: u32, home: u64 },
    /// So much of its share of the owner's bound on the conit covers nothing, which is less than the amount.
    Free { conit: u32, free: u64 },
}

impl From<NoMemory> for CoreFault {
    ghost use Rattle.std.specs.Prelude.{◌≡◌};
    ghost use Rattle.replica_core.specs.declared.fault.CoreFault.{CoreFault};
    ghost use Rattle.replica_core.specs.declared.fault.CoreFault.TheVariants as fault;

    ghost from_gives = { λ _ made. made ≡ fault.NoMemory };

    fn from(_fault: NoMemory) -> Self {
        CoreFault::NoMemory
    }
}

impl From<AllocError> for CoreFault {
    ghost use Rattle.std.specs.Prelude.{◌≡◌};
    ghost use Rattle.replica_core.specs.declared.fault.CoreFault.{CoreFault};
    ghost use Rattle.replica_core.specs.declared.fault.CoreFault.TheVariants as fault;

    ghost from_gives = { λ _ made. made ≡ fault.NoMemory };

    fn from(_fault: AllocError) -> Self {
        CoreFault::NoMemory
    }
}

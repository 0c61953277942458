ghost use Rattle.std.specs.Prelude.{◌≡◌};
ghost use Rattle.tact_io.specs.declared.fault.OutFault.TheVariants as faults;

use tact_base::NoMemory;

/// The outside failed.
#[derive(Clone, Copy, Debug, PartialEq, Eq)]
pub struct Failed;

/// Why nothing was written: the outside failed, or an allocation was refused.
#[derive(Clone, Copy, Debug, PartialEq, Eq)]
pub enum OutFault {
    Failed,
    NoMemory,
}

impl From<NoMemory> for OutFault {
    ghost from_gives = { λ _ fault. fault ≡ faults.NoMemory };

    fn from(_: NoMemory) -> Self {
        OutFault::NoMemory
    }
}

use run_model::Cause;
use std::alloc::AllocError;
use tact_base::NoMemory;

/// Whose entry it is, and when it was made.
#[derive(Clone, Copy, Debug)]
pub(crate) struct At {
    /// The replica.
    pub replica: u32,
    /// The moment.
    pub moment: u64,
}

/// Why an entry did not pass.
#[derive(Debug, Drop)]
pub(crate) enum Refusal {
    /// It may not stand after those before it.
    Unlawful(Cause),
    /// An allocation was refused.
    NoMemory,
}

impl From<NoMemory> for Refusal {
    ghost use Rattle.std.specs.Prelude.{◌≡◌};
    ghost use Rattle.run_check.specs.declared.refusal.Refusal.{Refusal};
    ghost use Rattle.run_check.specs.declared.refusal.Refusal.TheVariants as refusal;

    ghost from_gives = { λ _ made. made ≡ refusal.NoMemory };

    fn from(_fault: NoMemory) -> Self {
        Refusal::NoMemory
    }
}

impl From<AllocError> for Refusal {
    ghost use Rattle.std.specs.Prelude.{◌≡◌};
    ghost use Rattle.run_check.specs.declared.refusal.Refusal.{Refusal};
    ghost use Rattle.run_check.specs.declared.refusal.Refusal.TheVariants as refusal;

    ghost from_gives = { λ _ made. made ≡ refusal.NoMemory };

    fn from(_fault: AllocError) -> Self {
        Refusal::NoMemory
    }
}

ghost use Rattle.std.specs.Prelude.{◌≡◌};
ghost use Rattle.tact_base.specs.declared.setup.ConfigFault.TheVariants.{NoMemory as OutOfMemory};

use crate::NoMemory;

/// Why a setup was refused: the counts of replicas and conits, each owner's alphas, and what it lends of
/// them at the opening.
#[derive(Clone, Copy, Debug, PartialEq, Eq)]
pub enum ConfigFault {
    /// There are fewer than 2 or more than 8 replicas, no conit or more than 16, or a list hasn't as many
    /// numbers as the counts ask for.
    BadCount,
    /// The alpha of the owner on the conit is over 10^12.
    AlphaOver { owner: u32, conit: u32 },
    /// The owner lends to itself on the conit.
    OwnLoan { owner: u32, conit: u32 },
    /// What the owner lends on the conit passes its alpha.
    LoansOver { owner: u32, conit: u32 },
    /// Want of memory.
    NoMemory,
}

impl From<NoMemory> for ConfigFault {
    ghost from_gives = { λ _ fault. fault ≡ OutOfMemory };

    fn from(_: NoMemory) -> Self {
        ConfigFault::NoMemory
    }
}

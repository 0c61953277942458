//! Why a text isn't read as a script.
ghost use Rattle.std.specs.Prelude.{◌≡◌};
ghost use Rattle.script_text.specs.declared.fault.ScriptFault.TheVariants as script;

use run_model::LineKind;
use tact_base::NoMemory;

/// Why a text isn't read as a script.
#[derive(Clone, Copy, Debug, PartialEq, Eq)]
pub enum ScriptFault {
    /// The first line at fault, counted from 1, and its first fault.
    Bad { place: u64, kind: LineKind },
    /// Want of memory.
    NoMemory,
}

impl From<NoMemory> for ScriptFault {
    ghost from_gives = { λ _ fault. fault ≡ script.NoMemory };

    fn from(_: NoMemory) -> Self {
        ScriptFault::NoMemory
    }
}

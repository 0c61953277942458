//! Why a line wasn't read.
ghost use Rattle.std.specs.Prelude.{◌≡◌};
ghost use Rattle.run_record.specs.declared.line_fault.LineFault.TheVariants as line;

use run_model::LineKind;
use tact_base::NoMemory;

/// Why a line wasn't read.
#[derive(Clone, Copy, Debug, PartialEq, Eq)]
pub enum LineFault {
    /// Want of memory.
    NoMemory,
    /// The first fault of the line.
    Kind(LineKind),
}

impl From<NoMemory> for LineFault {
    ghost from_gives = { λ _ fault. fault ≡ line.NoMemory };

    fn from(_: NoMemory) -> Self {
        LineFault::NoMemory
    }
}

impl From<LineKind> for LineFault {
    ghost from_gives = { λ kind fault. fault ≡ line.Kind kind };

    fn from(kind: LineKind) -> Self {
        LineFault::Kind(kind)
    }
}

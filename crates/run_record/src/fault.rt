ghost use Rattle.std.specs.Prelude.{◌≡◌};
ghost use Rattle.run_record.specs.declared.fault.RecordFault.TheVariants as fault;
ghost use Rattle.run_record.specs.declared.fault.PartFault.TheVariants as part;

use run_model::{ByteKind, FieldFault, LineKind};
use tact_base::NoMemory as NoMoreMemory;

/// Why an input isn't a record.
#[derive(Clone, Copy, Debug, PartialEq, Eq)]
pub enum RecordFault {
    /// The text isn't in the grammar of records. Its first fault is in the line `place`, counted from 1.
    Text { place: u64, kind: LineKind },
    /// The bytes aren't in the grammar of records. Their first fault is at `place`, a byte counted from 0.
    Bytes { place: u64, kind: ByteKind },
    /// Want of memory.
    NoMemory,
}

impl From<NoMoreMemory> for RecordFault {
    ghost from_gives = { λ _ made. made ≡ fault.NoMemory };

    fn from(_: NoMoreMemory) -> Self {
        RecordFault::NoMemory
    }
}

/// Why a part of a record isn't read: the fault of a field, or want of memory.
#[derive(Clone, Copy, Debug)]
pub enum PartFault {
    /// The fault of a field.
    Field(FieldFault),
    /// Want of memory.
    NoMemory,
}

impl From<FieldFault> for PartFault {
    ghost from_gives = { λ field made. made ≡ part.Field field };

    fn from(fault: FieldFault) -> Self {
        PartFault::Field(fault)
    }
}

impl From<NoMoreMemory> for PartFault {
    ghost from_gives = { λ _ made. made ≡ part.NoMemory };

    fn from(_: NoMoreMemory) -> Self {
        PartFault::NoMemory
    }
}

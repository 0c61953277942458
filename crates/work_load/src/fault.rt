//! Why an input isn't a workload.
ghost use Rattle.std.specs.Prelude.{◌≡◌};
ghost use Rattle.work_load.specs.Entries.{kind_fault};
ghost use Rattle.work_load.specs.declared.fault.LoadFault.TheVariants as fault;
ghost use Rattle.work_load.specs.declared.fault.EntryFault.TheVariants as entry;

use run_model::LoadKind;
use tact_base::NoMemory as NoMoreMemory;

/// Why an input isn't a workload.
#[derive(Clone, Copy, Debug, PartialEq, Eq)]
pub enum LoadFault {
    /// The first fault of the input. The place is 0 outside the entries of `clients`, else 1 and the position of the
    /// client, counted from 0.
    Bad { place: u64, kind: LoadKind },
    /// Want of memory.
    NoMemory,
}

impl From<NoMoreMemory> for LoadFault {
    ghost from_gives = { λ _ made. made ≡ fault.NoMemory };

    fn from(_: NoMoreMemory) -> Self {
        LoadFault::NoMemory
    }
}

/// Why an entry of a list isn't read: it is at fault, or want of memory.
#[derive(Clone, Copy, Debug)]
pub(crate) enum EntryFault {
    /// The first fault of the entry.
    Kind(LoadKind),
    /// Want of memory.
    NoMemory,
}

impl From<LoadKind> for EntryFault {
    ghost from_gives = { λ kind made. made ≡ entry.Kind kind };

    fn from(kind: LoadKind) -> Self {
        EntryFault::Kind(kind)
    }
}

impl From<NoMoreMemory> for EntryFault {
    ghost from_gives = { λ _ made. made ≡ entry.NoMemory };

    fn from(_: NoMoreMemory) -> Self {
        EntryFault::NoMemory
    }
}

impl From<LoadFault> for EntryFault {
    ghost from_gives = { λ fault made. made ≡ kind_fault fault };

    fn from(fault: LoadFault) -> Self {
        match fault {
            LoadFault::Bad { kind, .. } => EntryFault::Kind(kind),
            LoadFault::NoMemory => EntryFault::NoMemory,
        }
    }
}

//! Lists whose entries are judged one after the other: the first one at fault counts.
ghost use Rattle.std.specs.Prelude.{◌≡◌, ◌≤◌, ◌<◌, [], IfOk, length, map};
ghost use Rattle.tact_base.specs.declared.limits.TheConstants.{REPLICAS_MAX};
ghost use Rattle.serde_json.specs.View.{view};
ghost use Rattle.work_load.specs.Entries.{Tells, TellsAt, EachAfter, entries, placed_fault};

use crate::fault::{EntryFault, LoadFault};
use serde_json::Value;
use std::alloc::Global;
use tact_base::Items;

/// What an entry of a list is read as.
pub(crate) trait Entry: Drop + Sized {
    ghost use Rattle.std.specs.Prelude.{ℕ, List};
    ghost use Rattle.serde_json.specs.Data.{Data};
    ghost use Rattle.work_load.specs.Values.{Reading};
    ghost use Rattle.work_load.specs.declared.entries.Counts.{Counts};

    /// How one is read by itself and by those before it.
    ghost read_after: { Counts → List Self → Data → Reading Self };

    /// What one that was read is within.
    ghost fits: { Counts → List Self → Self → Type 0 };

    /// Reads one.
    fn read_after(
        alloc: Global,
        counts: Counts,
        before: &[Self],
        value: &Value,
    ) -> Result<Self, EntryFault>
        requires replicas { 0 < counts.replicas }
        requires few { counts.replicas ≤ REPLICAS_MAX }
        requires conits { 0 < counts.conits }
        ensures read { Tells (read_after counts before.now (view value.now)) result }
        ensures within { IfOk result (λ entry. fits counts before.now entry) };
}

/// What a workload's numbers are judged by.
#[derive(Clone, Copy, Debug)]
pub(crate) struct Counts {
    /// The count of replicas.
    pub(crate) replicas: u32,
    /// The count of conits.
    pub(crate) conits: u32,
    /// The replica of the client whose items are read.
    pub(crate) replica: u32,
}

/// The entries of a list, in order. The place of a fault is the position of the entry, counted from `first`.
pub(crate) fn entries<T: Entry>(
    alloc: Global,
    first: u64,
    counts: Counts,
    values: &[Value],
) -> Result<Items<T>, LoadFault>
    requires first { first ≤ 1 }
    requires replicas { 0 < counts.replicas }
    requires few { counts.replicas ≤ REPLICAS_MAX }
    requires conits { 0 < counts.conits }
    ensures read { TellsAt (entries first (T.read_after counts) (map view values.now)) result }
    ensures length { IfOk result (λ list. length list ≡ length values.now) }
    ensures within { IfOk result (λ list. EachAfter (T.fits counts) [] list) }
{
    let mut list = Items::with_capacity(alloc, values.len())?;
    for place in 0..values.len() {
        match T::read_after(alloc, counts, list.items(), &values[place]) {
            Ok(entry) => list.push(entry)?,
            Err(fault) => return Err(placed(fault, first + place as u64)),
        }
    }
    Ok(list)
}

/// The fault of an entry, at its place.
pub(crate) fn placed(fault: EntryFault, place: u64) -> LoadFault
    ensures { result ≡ placed_fault place fault }
{
    match fault {
        EntryFault::Kind(kind) => LoadFault::Bad { place, kind },
        EntryFault::NoMemory => LoadFault::NoMemory,
    }
}

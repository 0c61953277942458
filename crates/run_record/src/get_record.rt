//! Records in bytes, read field by field.

ghost use Rattle.std.specs.Prelude.{◌≡◌, ◌≢◌, ◌≤◌, IfOk, Err, Ok, length};
ghost use Rattle.tact_base.specs.declared.limits.TheConstants.{REPLICAS_MAX};
ghost use Rattle.run_record.specs.declared.fault.RecordFault.TheVariants as fault;
ghost use Rattle.run_record.specs.Records.{Held, IsHeld};
ghost use Rattle.run_record.specs.RecordAt.{Tells, body_at, count_at, part_of, record_at};
ghost use Rattle.run_record.specs.EntriesAt.{shorts_at};
ghost use Rattle.run_record.specs.RecordBytes.{record_bytes};

use crate::fault::PartFault;
use crate::get_acts::shorts_at;
use crate::get_setup::{part_of, setup_at};
use crate::parts::Counts;
use crate::{Record, RecordFault, Short, Shorts};
use run_model::{ByteKind, any_number_at};
use std::alloc::Global;

/// Reads a record from bytes, as `bytes_of` writes it. The fields are read from the left, and each is judged once
/// all its bytes are there: the first that breaks its rule is `BadField` with the place of its first byte, and
/// `Short`, at the length of the bytes, means that these end before the record does, all whole fields being
/// good. `LoansOver`, at the place of the alpha, means that the loans of an owner on a conit are there and pass
/// its alpha; `WrongCount`, at the place of the count, that it isn't the number of entries; `AfterEnd`, at the
/// first byte too many, that more follows. Memory of `alloc` is taken only for what was read.
pub fn parse_bytes(alloc: Global, bytes: &[u8]) -> Result<Record, RecordFault>
    // What is read is a record in range, and the bytes are its spelling.
    ensures found { IfOk result (λ held. IsHeld held × (bytes.now ≡ record_bytes held)) }
    // The spelling of a record in range is read, if there is memory.
    ensures only { (held : Held) → IsHeld held → bytes.now ≡ record_bytes held
        → result ≢ Err fault.NoMemory → result ≡ Ok held }
    // Which fault it is.
    ensures exact { Tells (record_at bytes.now) result }
{
    record_at(alloc, bytes)
}

#[tactic(auto, unfolding(crate::specs::RecordAt::record_at))]
fn record_at(alloc: Global, bytes: &[u8]) -> Result<Record, RecordFault>
    ensures { Tells (record_at bytes.now) result }
{
    let (held, end) = body_at(alloc, bytes, 0)?;
    if end < bytes.len() {
        return Err(RecordFault::Bytes {
            place: end as u64,
            kind: ByteKind::AfterEnd,
        });
    }
    Ok(held)
}

// A record, and the place behind it.
#[tactic(auto, unfolding(crate::specs::RecordAt::body_at))]
fn body_at(alloc: Global, bytes: &[u8], place: usize) -> Result<(Record, usize), RecordFault>
    requires { place ≤ length bytes.now }
    ensures { Tells (body_at bytes.now place) result }
{
    let (config, place) = setup_at(alloc, bytes, place)?;
    let counts = Counts {
        replicas: config.replicas(),
        conits: config.conits(),
    };
    let (entries, place) = entries_at(alloc, counts, bytes, place)?;
    let (_count, end) = count_at(entries.items(), bytes, place)?;
    Ok((Record::new(config, entries), end))
}

// The count of these entries.
#[tactic(auto, unfolding(crate::specs::RecordAt::count_at))]
fn count_at(entries: &[Short], bytes: &[u8], place: usize) -> Result<(u64, usize), RecordFault>
    requires { place ≤ length bytes.now }
    ensures { result ≡ count_at entries.now bytes.now place }
{
    let (count, end) = part_of(bytes, any_number_at(bytes, place))?;
    if count == entries.len() as u64 {
        Ok((count, end))
    } else {
        Err(RecordFault::Bytes {
            place: place as u64,
            kind: ByteKind::WrongCount,
        })
    }
}

// The entries.
fn entries_at(
    alloc: Global,
    counts: Counts,
    bytes: &[u8],
    place: usize,
) -> Result<(Shorts, usize), RecordFault>
    requires few { counts.replicas ≤ REPLICAS_MAX }
    requires within { place ≤ length bytes.now }
    ensures within { IfOk result (λ read. read.1 ≤ length bytes.now) }
    ensures exact { Tells (part_of (length bytes.now)
        (shorts_at counts.replicas counts.conits (length bytes.now) bytes.now place)) result }
{
    match shorts_at(alloc, counts, bytes, place) {
        Ok(found) => Ok(found),
        Err(PartFault::Field(fault)) => part_of(bytes, Err(fault)),
        Err(PartFault::NoMemory) => Err(RecordFault::NoMemory),
    }
}

//! Whether what was found is what was stored: entries are compared by their pieces.

ghost use Rattle.std.specs.Prelude.{◌≡◌, ◌↔◌, Some, All, IsTrue, IfOk, IfErr, map, slice_get};
ghost use Rattle.std.specs.Option.{option_copied};
ghost use Rattle.restart_journal.specs.Pieces.{CanBePut, piece_bytes};
ghost use Rattle.journal_reread.specs.Rereading.{IsUnlike, entries_in, kept_where, with_kept};

use crate::RereadFault;
use restart_journal::put_entry;
use run_model::Entry;
use std::alloc::Global;
use tact_base::{Bytes, NoMemory};

// Whether what was found has the pieces of the stored entries and of the one in doubt. Where it has neither these nor
// those of the stored entries alone, the first place at which it differs.
pub(crate) fn is_kept(
    alloc: Global,
    found: &[Entry],
    stored: &[(u64, Entry)],
    doubt: &Option<Entry>,
) -> Result<bool, RereadFault>
    requires found { All CanBePut found.now }
    requires due { All CanBePut (with_kept (entries_in stored.now) doubt.now) }
    ensures kept { IfOk result (λ kept. map piece_bytes found.now ≡ map piece_bytes (with_kept (entries_in stored.now) (kept_where kept doubt.now))) }
    ensures unlike { IfErr result (IsUnlike (map piece_bytes found.now) (entries_in stored.now) doubt.now) }
{
    for place in 0..found.len() {
        let piece = piece_of(alloc, &found[place])?;
        if !is_due_at(alloc, stored, doubt, place, piece.items())? {
            return Err(RereadFault::Foreign {
                place: place as u64,
            });
        }
    }
    if found.len() > stored.len() {
        Ok(true)
    } else if found.len() == stored.len() {
        Ok(false)
    } else {
        Err(RereadFault::Foreign {
            place: found.len() as u64,
        })
    }
}

// Whether a piece is that of the entry that is due at a place.
pub(crate) fn is_due_at(
    alloc: Global,
    stored: &[(u64, Entry)],
    doubt: &Option<Entry>,
    place: usize,
    piece: &[u8],
) -> Result<bool, NoMemory>
    requires { All CanBePut (with_kept (entries_in stored.now) doubt.now) }
    ensures { IfOk result (λ same. IsTrue same ↔ (slice_get (map piece_bytes (with_kept (entries_in stored.now) doubt.now)) place ≡ Some piece.now)) }
{
    match due_at(stored, doubt, place) {
        None => Ok(false),
        Some(entry) => {
            let due = piece_of(alloc, entry)?;
            Ok(are_same(due.items(), piece))
        }
    }
}

// The entry that is due at a place: one of the stored, or behind them the one in doubt.
fn due_at<'a>(
    stored: &'a [(u64, Entry)],
    doubt: &'a Option<Entry>,
    place: usize,
) -> Option<&'a Entry>
    ensures { option_copied result ≡ slice_get (with_kept (entries_in stored.now) doubt.now) place }
{
    match stored.get(place) {
        Some(pair) => Some(&pair.1),
        None if place == stored.len() => doubt.as_ref(),
        None => None,
    }
}

// The piece of an entry, in memory of `alloc`.
fn piece_of(alloc: Global, entry: &Entry) -> Result<Bytes, NoMemory>
    requires { CanBePut entry.now }
    ensures { IfOk result (λ piece. piece ≡ piece_bytes entry.now) }
{
    let mut piece = Bytes::new(alloc);
    put_entry(entry, &mut piece)?;
    Ok(piece)
}

// Whether two lists of bytes are the same.
fn are_same(one: &[u8], other: &[u8]) -> bool
    ensures { IsTrue result ↔ (one.now ≡ other.now) }
{
    one == other
}

//! The replica that a journal gives back, where its pieces are those of the stored entries.

ghost use Rattle.std.specs.Prelude.{◌≡◌, ◌↔◌, ℕ, ◌<◌, ◌≤◌, All, IsTrue, IfOk, IfErr, IsErrOf, Err, length, map};
ghost use Rattle.tact_io.specs.Faults.{HasRisen};
ghost use Rattle.run_model.specs.Runs.{IsPart};
ghost use Rattle.replica_core.specs.Stands.{Stands};
ghost use Rattle.restart_journal.specs.Pieces.{CanBePut, piece_bytes};
ghost use Rattle.journal_reread.specs.Rereading.{HasPiecesOf, IsDueAt, IsFirstOther, IsWithin, MayBeNext, NamesNoPlace, entries_in, kept_where, with_kept};
ghost use Rattle.journal_reread.specs.declared.fault.RereadFault.TheVariants as fault;

use crate::comparing::{is_due_at, is_kept};
use crate::spelling::{are_due_spellable, are_spellable};
use crate::{Reread, RereadFault};
use restart_journal::{RecoverFault, Recovered, recover};
use run_model::{Config, Entry};
use std::alloc::Global;
use tact_io::Journal;

/// Makes the replica of this number of a setup again from its journal, whose pieces are to be those of the stored
/// entries, or of these and of the one in doubt: the one entry that may be there or not, since its append failed. The
/// answer tells whether it is. Each entry is made again in memory of `alloc`, and compared with the one that was stored
/// by its piece. The journal's pieces and its room stay.
///
/// `Foreign` tells the first piece that is another than was stored there, or is missing. It never comes where the journal
/// tells its pieces. `JournalReadFault` comes only where the journal failed.
pub fn reread<J: Journal>(
    alloc: Global,
    config: &Config,
    replica: u32,
    stored: &[(u64, Entry)],
    doubt: &Option<Entry>,
    journal: &mut J,
) -> Result<Reread, RereadFault>
    requires among { replica < config.now.replicas }
    requires part { IsPart config.now replica (entries_in stored.now) }
    requires next { MayBeNext config.now replica (entries_in stored.now) doubt.now }
    requires has { IsTrue J.tells → HasPiecesOf (J.pieces journal.old) (entries_in stored.now) doubt.now }
    ensures setup { IfOk result (λ read. read.replica.core.setup ≡ config.now) }
    ensures replica { IfOk result (λ read. read.replica.core.replica ≡ replica) }
    ensures stands { IfOk result (λ read. Stands (with_kept (entries_in stored.now) (kept_where read.kept doubt.now)) read.replica.core) }
    ensures told { IfOk result (λ read. IsTrue J.tells
        → J.pieces journal.old ≡ map piece_bytes (with_kept (entries_in stored.now) (kept_where read.kept doubt.now))) }
    ensures failed { IsErrOf result RereadFault.JournalReadFault → HasRisen (J.faults journal.old) (J.faults journal.new) }
    ensures foreign { (place : ℕ) → result ≡ Err (fault.Foreign place) → IsTrue J.tells → ⊥ }
    ensures placed { IfErr result (IsWithin (length (with_kept (entries_in stored.now) doubt.now))) }
    ensures stays { IsTrue J.tells → J.pieces journal.new ≡ J.pieces journal.old }
    ensures room_pieces { J.spare_pieces journal.new ≡ J.spare_pieces journal.old }
    ensures room_bytes { J.spare_bytes journal.new ≡ J.spare_bytes journal.old }
    ensures never_falls { J.faults journal.old ≤ J.faults journal.new }
{
    let _replicas = config.replicas();
    are_due_spellable(stored, doubt);
    match recover(alloc, config, replica, journal) {
        Ok(
            Recovered {
                replica,
                stored: found,
            },
        ) => {
            are_spellable(found.items());
            match is_kept(alloc, found.items(), stored, doubt) {
                Ok(kept) => Ok(Reread { replica, kept }),
                Err(fault) => Err(fault),
            }
        }
        Err(RecoverFault::NoMemory) => Err(RereadFault::NoMemory),
        Err(RecoverFault::JournalReadFault) => Err(RereadFault::JournalReadFault),
        Err(RecoverFault::Foreign { place }) => {
            Err(first_other(alloc, stored, doubt, place, journal))
        }
        Err(RecoverFault::Full { place }) => Err(first_other(alloc, stored, doubt, place, journal)),
    }
}

// The first piece, up to a bad one, that isn't what was stored there.
fn first_other<J: Journal>(
    alloc: Global,
    stored: &[(u64, Entry)],
    doubt: &Option<Entry>,
    bad: u64,
    journal: &mut J,
) -> RereadFault
    requires { All CanBePut (with_kept (entries_in stored.now) doubt.now) }
    ensures first { IsTrue J.tells → IsFirstOther (J.pieces journal.old) (map piece_bytes (with_kept (entries_in stored.now) doubt.now)) bad result }
    ensures placed { IsWithin (length (with_kept (entries_in stored.now) doubt.now)) result }
    ensures failed { result ≡ fault.JournalReadFault → HasRisen (J.faults journal.old) (J.faults journal.new) }
    ensures stays { IsTrue J.tells → J.pieces journal.new ≡ J.pieces journal.old }
    ensures room_pieces { J.spare_pieces journal.new ≡ J.spare_pieces journal.old }
    ensures room_bytes { J.spare_bytes journal.new ≡ J.spare_bytes journal.old }
    ensures never_falls { J.faults journal.old ≤ J.faults journal.new }
{
    for place in 0..bad {
        match has_due_at(alloc, stored, doubt, place, journal) {
            Ok(true) => {}
            Ok(false) => return RereadFault::Foreign { place },
            Err(fault) => return fault,
        }
    }
    RereadFault::Foreign { place: bad }
}

// Whether a journal has at a place the piece of the entry that is due there.
fn has_due_at<J: Journal>(
    alloc: Global,
    stored: &[(u64, Entry)],
    doubt: &Option<Entry>,
    place: u64,
    journal: &mut J,
) -> Result<bool, RereadFault>
    requires { All CanBePut (with_kept (entries_in stored.now) doubt.now) }
    ensures within { IfOk result (λ same. IsTrue same → place < length (with_kept (entries_in stored.now) doubt.now)) }
    ensures due { IfOk result (λ same. IsTrue J.tells
        → (IsTrue same ↔ IsDueAt (J.pieces journal.old) (map piece_bytes (with_kept (entries_in stored.now) doubt.now)) place)) }
    ensures unplaced { IfErr result NamesNoPlace }
    ensures failed { IsErrOf result RereadFault.JournalReadFault → HasRisen (J.faults journal.old) (J.faults journal.new) }
    ensures stays { IsTrue J.tells → J.pieces journal.new ≡ J.pieces journal.old }
    ensures room_pieces { J.spare_pieces journal.new ≡ J.spare_pieces journal.old }
    ensures room_bytes { J.spare_bytes journal.new ≡ J.spare_bytes journal.old }
    ensures never_falls { J.faults journal.old ≤ J.faults journal.new }
{
    match journal.read(place)? {
        None => Ok(false),
        Some(piece) => Ok(is_due_at(alloc, stored, doubt, place as usize, piece.items())?),
    }
}

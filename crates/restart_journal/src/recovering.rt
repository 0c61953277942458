//! The replica that a journal gives back.

ghost use Rattle.std.specs.Prelude.{◌≡◌, ◌≢◌, ℕ, ◌<◌, ◌≤◌, List, All, IsTrue, IfErr, IfOk, IsErrOf, IsOkUnless, Err};
ghost use Rattle.tact_io.specs.Faults.{HasRisen};
ghost use Rattle.tact_base.specs.Setup.{IsSetup};
ghost use Rattle.run_model.specs.declared.entry.Entry.{Entry};
ghost use Rattle.replica_core.specs.Stands.{Stands};
ghost use Rattle.restart_journal.specs.declared.fault.RecoverFault.TheVariants as fault;
ghost use Rattle.restart_journal.specs.Pieces.{CanBePut};
ghost use Rattle.restart_journal.specs.Recovery.{IsAtPlace, IsJournalOf, IsForeignAt, IsFullAt, TellsOf};

use crate::fault::{RecoverFault, StepFault};
use crate::recovered::Recovered;
use run_model::Config;
use std::alloc::Global;
use tact_base::HISTORY_MAX;
use tact_io::Journal;

/// Makes the replica of this number of a setup again from its journal: each piece is read as `put_entry` writes it, and
/// its entry is made again by the replica, in memory of `alloc`. The answer is the replica and its entries, where each
/// piece is that of an entry which is due after those before it, as moment, number, reply, first, what is at home and
/// what is free go, and each taken message fits there. The journal's pieces and its room stay.
///
/// `Foreign` tells the first piece that is no such one, and `Full` one past the 20,000 that a replica can have, whatever
/// it holds. `JournalReadFault` comes only where the journal failed.
pub fn recover<J: Journal>(
    alloc: Global,
    config: &Config,
    replica: u32,
    journal: &mut J,
) -> Result<Recovered, RecoverFault>
    requires { replica < config.now.replicas }
    // The replica is the one that was asked for, and stands for the entries, each of which has a piece, whether the
    // journal tells its pieces or not.
    ensures setup { IfOk result (λ made. made.replica.core.setup ≡ config.now) }
    ensures replica { IfOk result (λ made. made.replica.core.replica ≡ replica) }
    ensures stands { IfOk result (λ made. Stands made.stored made.replica.core) }
    ensures stored { IfOk result (λ made. All CanBePut made.stored) }
    ensures placed { IfErr result IsAtPlace }

    // Of a journal that tells its pieces it answers what holds of them: they are those of the entries, or one is bad, or
    // they are too many.
    ensures told { IsTrue J.tells → TellsOf config.now replica (J.pieces journal.old) result }
    // And where neither the journal nor memory fails, it answers which of these holds.
    ensures good { IsTrue J.tells → ¬ HasRisen (J.faults journal.old) (J.faults journal.new)
        → (entries : List Entry) → IsJournalOf config.now replica (J.pieces journal.old) entries
        → IsOkUnless result RecoverFault.NoMemory }
    ensures foreign { IsTrue J.tells → ¬ HasRisen (J.faults journal.old) (J.faults journal.new)
        → (place : ℕ) → IsForeignAt config.now replica (J.pieces journal.old) place
        → result ≢ Err fault.NoMemory → result ≡ Err (fault.Foreign place) }
    ensures full { IsTrue J.tells → ¬ HasRisen (J.faults journal.old) (J.faults journal.new)
        → (place : ℕ) → IsFullAt config.now replica (J.pieces journal.old) place
        → result ≢ Err fault.NoMemory → result ≡ Err (fault.Full place) }

    ensures stays { IsTrue J.tells → J.pieces journal.new ≡ J.pieces journal.old }
    ensures room_pieces { J.spare_pieces journal.new ≡ J.spare_pieces journal.old }
    ensures room_bytes { J.spare_bytes journal.new ≡ J.spare_bytes journal.old }
    ensures never_falls { J.faults journal.old ≤ J.faults journal.new }
    ensures failed { IsErrOf result RecoverFault.JournalReadFault → HasRisen (J.faults journal.old) (J.faults journal.new) }
{
    let _replicas = config.replicas();
    read_all(alloc, config, replica, journal)
}

// The same, piece by piece.
fn read_all<J: Journal>(
    alloc: Global,
    config: &Config,
    replica: u32,
    journal: &mut J,
) -> Result<Recovered, RecoverFault>
    requires replica { replica < config.now.replicas }
    requires sound { IsSetup config.now }
    ensures setup { IfOk result (λ made. made.replica.core.setup ≡ config.now) }
    ensures replica { IfOk result (λ made. made.replica.core.replica ≡ replica) }
    ensures stands { IfOk result (λ made. Stands made.stored made.replica.core) }
    ensures stored { IfOk result (λ made. All CanBePut made.stored) }
    ensures placed { IfErr result IsAtPlace }
    ensures told { IsTrue J.tells → TellsOf config.now replica (J.pieces journal.old) result }
    ensures stays { IsTrue J.tells → J.pieces journal.new ≡ J.pieces journal.old }
    ensures room_pieces { J.spare_pieces journal.new ≡ J.spare_pieces journal.old }
    ensures room_bytes { J.spare_bytes journal.new ≡ J.spare_bytes journal.old }
    ensures never_falls { J.faults journal.old ≤ J.faults journal.new }
    ensures failed { IsErrOf result RecoverFault.JournalReadFault → HasRisen (J.faults journal.old) (J.faults journal.new) }
{
    let mut made = Recovered::new(alloc, config, replica)?;
    for place in 0..HISTORY_MAX {
        let Some(piece) = journal.read(place)? else {
            return Ok(made);
        };
        match made.read(alloc, config, replica, piece.items()) {
            Ok(()) => {}
            Err(StepFault::Foreign) => return Err(RecoverFault::Foreign { place }),
            Err(StepFault::NoMemory) => return Err(RecoverFault::NoMemory),
        }
    }
    match journal.read(HISTORY_MAX)? {
        None => Ok(made),
        Some(_) => Err(RecoverFault::Full { place: HISTORY_MAX }),
    }
}

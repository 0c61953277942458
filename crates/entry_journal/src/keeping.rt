ghost use Rattle.std.specs.Prelude.{◌≡◌, ◌≢◌, ℕ, ◌+◌, ◌<◌, ◌≤◌, true, false, None, Err, IsTrue, IfOk, IsOk, IsErrOf, OnOk, OnErr, length, map};
ghost use Rattle.tact_io.specs.Faults.{HasRisen};
ghost use Rattle.run_model.specs.Runs.{IsPart};
ghost use Rattle.replica_core.specs.Stands.{Stands};
ghost use Rattle.restart_journal.specs.Pieces.{CanBePut, piece_bytes};
ghost use Rattle.journal_reread.specs.Rereading.{MayBeNext, entries_in, with_kept};
ghost use Rattle.journal_reread.specs.declared.fault.RereadFault.TheVariants as fault;
ghost use Rattle.entry_journal.specs.EntryJournals.{HasDoubt, HasKept, HasPiecesOf, HasRoomFor, IsKeptOf, IsUntouched};

use journal_reread::{Reread, RereadFault, reread};
use replica_core::Replica;
use restart_journal::put_entry;
use run_model::{Config, Entry};
use std::alloc::Global;
use std::marker::Model;
use tact_base::{Bytes, NoMemory};
use tact_io::{Failed, Journal};

/// The most bytes that the piece of a call of a client has.
pub(crate) const CALL_BYTES: u64 = 171;

/// The journal of a replica's entries. Where an append fails it is halted, and keeps the entry as the one in doubt: it
/// may have that entry's piece or not. Contracts see what the journal tells, and nothing of its type.
#[derive(Drop)]
pub struct EntryJournal<J: Journal> {
    journal: J,
    halted: bool,
    doubt: Option<Entry>,
    // For how many calls room was made.
    room: u64,
    alloc: Global,
}

/// What a journal gave back: the replica, made again, and the entry in doubt where the journal has it.
#[derive(Drop)]
pub struct Restarted {
    pub replica: Replica,
    pub kept: Option<Entry>,
}

impl<J: Journal> Model for EntryJournal<J> {
    ghost use Rattle.std.specs.Prelude.{◌≡◌, ◌≢◌, true, false, None, IsTrue};
    ghost use Rattle.entry_journal.specs.EntryJournals.{HasRoom, JournalView};

    ghost Value = { JournalView };

    ghost view = { λ l. record {
      tells = J.tells;
      pieces = J.pieces l.journal;
      spare_pieces = J.spare_pieces l.journal;
      spare_bytes = J.spare_bytes l.journal;
      faults = J.faults l.journal;
      halted = l.halted;
      doubt = l.doubt;
      room = l.room;
    } };

    ghost invariant = { λ l. HasRoom l.room (J.spare_pieces l.journal) (J.spare_bytes l.journal)
        × (l.halted ≡ false → l.doubt ≡ None)
        × (l.halted ≡ true → IsTrue J.tells → J.faults l.journal ≢ 0) };
}

impl<J: Journal> EntryJournal<J> {
    /// A journal that isn't halted, over this one. Takes no memory; pieces are made in memory of `alloc`.
    pub fn new(alloc: Global, journal: J) -> Self
        ensures { result ≡ record {
          tells = J.tells;
          pieces = J.pieces journal;
          spare_pieces = J.spare_pieces journal;
          spare_bytes = J.spare_bytes journal;
          faults = J.faults journal;
          halted = false;
          doubt = None;
          room = 0;
        } }
    {
        EntryJournal {
            journal,
            halted: false,
            doubt: None,
            room: 0,
            alloc,
        }
    }

    /// The journal itself.
    pub fn into_journal(self) -> J
        ensures tells { self.tells ≡ J.tells }
        ensures pieces { J.pieces result ≡ self.pieces }
        ensures faults { J.faults result ≡ self.faults }
    {
        let EntryJournal {
            journal,
            halted: _,
            doubt: _,
            room: _,
            alloc: _,
        } = self;
        journal
    }

    /// Whether it is halted: an append failed. Of a journal that tells its pieces that is only where one of its type has
    /// counted a fault.
    pub fn is_halted(&self) -> bool
        ensures halted { result ≡ self.now.halted }
        ensures met { IsTrue result → IsTrue J.tells → (met : J) × (J.faults met ≢ 0) }
        ensures counted { IsTrue result → IsTrue self.now.tells → self.now.faults ≢ 0 }
        ensures certain { self.now.halted ≡ false → self.now.doubt ≡ None }
    {
        self.halted
    }

    /// Makes room for the pieces of so many more calls of clients. It lasts until so many pieces were appended.
    /// `NoMemory` leaves the room as it was.
    pub fn make_room(&mut self, count: u64) -> Result<(), NoMemory>
        ensures ok { OnOk result (count ≤ self.new.room) }
        ensures call { OnOk result (0 < count → (long : ℕ) → long ≤ 171 → HasRoomFor long self.new) }
        ensures no_less { self.old.room ≤ self.new.room }
        ensures enough { count ≤ self.old.room → IsOk result }
        ensures untouched { IsUntouched self.old self.new }
    {
        if count <= self.room {
            return Ok(());
        }
        let Some(bytes) = count.checked_mul(CALL_BYTES) else {
            return Err(NoMemory);
        };
        self.journal.make_room(count, bytes)?;
        self.room = count;
        Ok(())
    }

    /// The piece of an entry, and room for it beside that for all calls but one. `NoMemory` leaves the room as it was,
    /// or more.
    pub fn prepare(&mut self, entry: &Entry) -> Result<Bytes, NoMemory>
        requires { CanBePut entry.now }
        ensures piece { IfOk result (λ piece. piece ≡ piece_bytes entry.now) }
        ensures room { IfOk result (λ piece. HasRoomFor (length piece) self.new) }
        ensures same_room { self.new.room ≡ self.old.room }
        ensures untouched { IsUntouched self.old self.new }
    {
        let mut piece = Bytes::new(self.alloc);
        put_entry(entry, &mut piece)?;
        let left = self.room.saturating_sub(1);
        let Some(bytes) = (left * CALL_BYTES).checked_add(piece.len() as u64) else {
            return Err(NoMemory);
        };
        self.journal.make_room(left + 1, bytes)?;
        Ok(piece)
    }

    /// Makes the replica of this number of a setup again from the journal, whose pieces are to be those of the stored
    /// entries, or of these and of the one in doubt. Then it is known whether that one is there, and none is in doubt.
    /// It stays halted if it was.
    ///
    /// `Foreign` tells the first piece that is another than was stored there, or is missing; it never comes where the
    /// journal tells its pieces. After it, and after `JournalReadFault`, the journal is halted. All faults leave in doubt
    /// what was.
    pub fn reread(
        &mut self,
        config: &Config,
        replica: u32,
        stored: &[(u64, Entry)],
    ) -> Result<Restarted, RereadFault>
        requires among { replica < config.now.replicas }
        requires part { IsPart config.now replica (entries_in stored.now) }
        requires next { MayBeNext config.now replica (entries_in stored.now) self.old.doubt }
        requires has { IsTrue self.old.tells → HasPiecesOf self.old.pieces (entries_in stored.now) self.old.doubt }
        ensures setup { IfOk result (λ read. (read.replica.core.setup ≡ config.now) × (read.replica.core.replica ≡ replica)) }
        ensures stands { IfOk result (λ read. Stands (with_kept (entries_in stored.now) read.kept) read.replica.core) }
        ensures kept { IfOk result (λ read. IsKeptOf self.old.doubt read.kept) }
        ensures told { IfOk result (λ read. IsTrue self.old.tells → self.old.pieces ≡ map piece_bytes (with_kept (entries_in stored.now) read.kept)) }
        ensures sure { OnOk result ((self.new.halted ≡ self.old.halted) × (self.new.doubt ≡ None)) }
        ensures doubt { OnErr result (self.new.doubt ≡ self.old.doubt) }
        ensures no_memory { IsErrOf result RereadFault.NoMemory → self.new.halted ≡ self.old.halted }
        ensures failed { IsErrOf result RereadFault.JournalReadFault → (self.new.halted ≡ true) × HasRisen self.old.faults self.new.faults }
        ensures foreign { (place : ℕ) → result ≡ Err (fault.Foreign place) → (self.new.halted ≡ true) × (IsTrue self.old.tells → ⊥) }
        ensures met { IsErrOf result RereadFault.JournalReadFault → IsTrue J.tells → (met : J) × (J.faults met ≢ 0) }
        ensures told_foreign { (place : ℕ) → result ≡ Err (fault.Foreign place) → IsTrue J.tells → ⊥ }
        ensures tells { self.new.tells ≡ self.old.tells }
        ensures stays { IsTrue self.old.tells → self.new.pieces ≡ self.old.pieces }
        ensures room { self.new.room ≡ self.old.room }
        ensures never_falls { self.old.faults ≤ self.new.faults }
    {
        match reread(
            self.alloc,
            config,
            replica,
            stored,
            &self.doubt,
            &mut self.journal,
        ) {
            Ok(
                Reread {
                    replica,
                    kept: true,
                },
            ) => Ok(Restarted {
                replica,
                kept: self.doubt.take(),
            }),
            Ok(
                Reread {
                    replica,
                    kept: false,
                },
            ) => {
                self.doubt = None;
                Ok(Restarted {
                    replica,
                    kept: None,
                })
            }
            Err(RereadFault::NoMemory) => Err(RereadFault::NoMemory),
            Err(fault) => {
                self.halted = true;
                Err(fault)
            }
        }
    }

    /// Appends the piece of an entry, for which there is room, and gives the entry back. No entry may be in doubt before.
    /// After that it isn't halted; after `Failed` it is, and the entry is in doubt. Takes no memory.
    pub fn append(&mut self, piece: &[u8], entry: Entry) -> Result<Entry, Failed>
        requires sure { self.old.doubt ≡ None }
        requires spelled { piece.now ≡ piece_bytes entry }
        requires room { HasRoomFor (length piece.now) self.old }
        ensures back { IfOk result (λ back. back ≡ entry) }
        ensures has { OnOk result (HasKept self.old self.new entry) }
        ensures doubt { OnErr result (HasDoubt self.old self.new entry) }
        ensures met { OnErr result (IsTrue J.tells → (met : J) × (J.faults met ≢ 0)) }
        ensures never_falls { self.old.faults ≤ self.new.faults }
        ensures room { self.old.room ≤ self.new.room + 1 }
    {
        self.room = self.room.saturating_sub(1);
        match self.journal.append(piece) {
            Ok(()) => {
                self.halted = false;
                Ok(entry)
            }
            Err(Failed) => {
                self.halted = true;
                self.doubt = Some(entry);
                Err(Failed)
            }
        }
    }
}

//! What holds of the pieces of a journal. Each function states it by its clauses and does nothing.

ghost use Rattle.std.specs.Prelude.{◌≡◌, ℕ, List, Some};
ghost use Rattle.tact_base.specs.Setup.{Setup, IsSetup};
ghost use Rattle.run_model.specs.Runs.{IsDue};
ghost use Rattle.run_model.specs.declared.entry.Entry.{Entry};
ghost use Rattle.restart_journal.specs.PieceAt.{entry_in};
ghost use Rattle.restart_journal.specs.Pieces.{CanBePut, IsPieceOf};

/// A piece is read as just the entry that it is of, after the entries of the replica after which that entry is due. Of a
/// sent message a piece tells the receiver, the number and the firsts, from which the rule of sending makes it again.
/// Does nothing, and takes no memory.
pub fn put_is_read()
    ensures { (setup : Setup) (part : List Entry) (piece : List ℕ) (entry : Entry) → IsSetup setup
        → IsPieceOf piece entry → IsDue setup part entry → entry_in setup part piece ≡ Some entry }
{}

/// No two entries have one piece: of those that are due after the same entries of a replica, the piece tells which it is.
/// Does nothing, and takes no memory.
pub fn one_entry_of_piece()
    ensures { (setup : Setup) (part : List Entry) (piece : List ℕ) (a b : Entry) → IsSetup setup
        → IsPieceOf piece a → IsPieceOf piece b → IsDue setup part a → IsDue setup part b → a ≡ b }
{}

/// Each entry that is due after others of its replica can be put into a journal. Does nothing, and takes no memory.
pub fn due_can_be_put()
    ensures { (setup : Setup) (part : List Entry) (entry : Entry) → IsSetup setup
        → IsDue setup part entry → CanBePut entry }
{}

ghost use Rattle.std.specs.Prelude.{◌≡◌, ℕ, ◌+◌, ◌<◌, ◌≤◌, Bool, IsTrue, List, length, slice_get, IfOk, OnOk, OnErr, IsErrOf};
ghost use Rattle.tact_io.specs.Faults.{HasRisen};
ghost use Rattle.tact_io.specs.Journals.{with_piece, MayHave};

use crate::{Failed, OutFault};
use tact_base::{Bytes, NoMemory};

/// What keeps pieces of bytes in their order, to be read after a restart.
pub trait Journal {
    /// Whether its list of pieces is told: the type says so, for all its values.
    ghost tells: { Bool };

    /// The pieces that it has, where they are told.
    ghost pieces: { Self → List (List ℕ) };

    /// How often it has failed. A count ends at the greatest u64 and stays there.
    ghost faults: { Self → ℕ };

    /// How many pieces can still be appended, and how many bytes in all.
    ghost spare_pieces: { Self → ℕ };

    ghost spare_bytes: { Self → ℕ };

    /// Makes room for at least so many more pieces, and for so many more bytes in all. The pieces stay. `NoMemory`
    /// leaves the room as it was.
    fn make_room(&mut self, count: u64, bytes: u64) -> Result<(), NoMemory>
        ensures pieces { OnOk result (count ≤ spare_pieces self.new) }
        ensures bytes { OnOk result (bytes ≤ spare_bytes self.new) }
        ensures kept_pieces { spare_pieces self.old ≤ spare_pieces self.new }
        ensures kept_bytes { spare_bytes self.old ≤ spare_bytes self.new }
        ensures stays { IsTrue tells → pieces self.new ≡ pieces self.old }
        ensures no_fault { faults self.new ≡ faults self.old };

    /// Appends a piece, in room that was made. Takes no memory. After `Failed` the piece may be there or not; the room
    /// is used up.
    fn append(&mut self, piece: &[u8]) -> Result<(), Failed>
        requires a_piece { 0 < spare_pieces self.old }
        requires its_bytes { length piece.now ≤ spare_bytes self.old }
        ensures pieces { spare_pieces self.new + 1 ≡ spare_pieces self.old }
        ensures bytes { spare_bytes self.new + length piece.now ≡ spare_bytes self.old }
        ensures ok { OnOk result (IsTrue tells → pieces self.new ≡ with_piece (pieces self.old) piece.now) }
        ensures err { OnErr result (IsTrue tells → MayHave (pieces self.old) piece.now (pieces self.new)) }
        ensures never_falls { faults self.old ≤ faults self.new }
        ensures failed { OnErr result (HasRisen (faults self.old) (faults self.new)) };

    /// The piece at this place, counted from 0, and `None` at the list's end and past it. The pieces and the room stay.
    /// `NoMemory` may always come.
    fn read(&mut self, at: u64) -> Result<Option<Bytes>, OutFault>
        ensures found { IfOk result (λ found. IsTrue tells → found ≡ slice_get (pieces self.old) at) }
        ensures stays { IsTrue tells → pieces self.new ≡ pieces self.old }
        ensures pieces { spare_pieces self.new ≡ spare_pieces self.old }
        ensures bytes { spare_bytes self.new ≡ spare_bytes self.old }
        ensures never_falls { faults self.old ≤ faults self.new }
        ensures failed { IsErrOf result OutFault.Failed → HasRisen (faults self.old) (faults self.new) };
}

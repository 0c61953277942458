ghost use Rattle.std.specs.Prelude.{◌≡◌, ◌-◌, ◌<◌, ◌≤◌, [], max, length, slice_get, IfOk, OnOk, OnErr};
ghost use Rattle.tact_io.specs.Journals.{with_piece};

use std::alloc::Global;
use std::marker::Model;
use tact_base::{Bytes, NoMemory, RoomyList};

// Where a piece lies among the bytes: from which place on, and before which.
#[derive(Clone, Copy, Drop, Debug)]
struct Reach {
    start: usize,
    end: usize,
}

/// Pieces of bytes in memory, one behind the other, with room that is taken ahead.
#[derive(Debug, Drop)]
pub struct PieceList {
    reaches: RoomyList<Reach>,
    bytes: RoomyList<u8>,
    spare_pieces: u64,
    spare_bytes: u64,
}

impl Model for PieceList {
    ghost use Rattle.std.specs.Prelude.{map};
    ghost use Rattle.tact_io.specs.Journals.{Pieces};
    ghost use Rattle.tact_io.specs.Reaches.{piece_of, KeepsPieces};

    ghost Value = { Pieces };

    ghost view = { λ s. record {
      pieces = map (piece_of s.bytes.items) s.reaches.items;
      spare_pieces = s.spare_pieces;
      spare_bytes = s.spare_bytes;
    } };

    ghost invariant = { λ s. KeepsPieces s.reaches s.bytes s.spare_pieces s.spare_bytes };
}

impl PieceList {
    /// No pieces, and no room.
    pub fn new(alloc: Global) -> Self
        ensures { result ≡ record { pieces = []; spare_pieces = 0; spare_bytes = 0 } }
    {
        PieceList {
            reaches: RoomyList::new(alloc),
            bytes: RoomyList::new(alloc),
            spare_pieces: 0,
            spare_bytes: 0,
        }
    }

    /// Makes room for at least so many more pieces, and for so many more bytes in all. `NoMemory` leaves everything as
    /// it was.
    pub fn make_room(&mut self, count: u64, bytes: u64) -> Result<(), NoMemory>
        ensures ok { OnOk result (self.new ≡ record self.old {
          spare_pieces = max count self.old.spare_pieces;
          spare_bytes = max bytes self.old.spare_bytes;
        }) }
        ensures err { OnErr result (self.new ≡ self.old) }
    {
        let count = count.max(self.spare_pieces);
        let bytes = bytes.max(self.spare_bytes);
        self.reaches.reserve(count)?;
        self.bytes.reserve(bytes)?;
        self.spare_pieces = count;
        self.spare_bytes = bytes;
        Ok(())
    }

    /// Appends a piece, in room that was made. Takes no memory.
    #[tactic(auto, using(crate::proofs::PieceLemmas::one_piece_more, crate::proofs::PieceLemmas::all_in_more))]
    pub fn append(&mut self, piece: &[u8])
        requires a_piece { 0 < self.old.spare_pieces }
        requires its_bytes { length piece.now ≤ self.old.spare_bytes }
        ensures { self.new ≡ record {
          pieces = with_piece self.old.pieces piece.now;
          spare_pieces = self.old.spare_pieces - 1;
          spare_bytes = self.old.spare_bytes - length piece.now;
        } }
    {
        let start = self.bytes.items().len();
        self.bytes.append(piece);
        let end = self.bytes.items().len();
        self.reaches.push(Reach { start, end });
        self.spare_pieces -= 1;
        self.spare_bytes -= piece.len() as u64;
    }

    /// Uses up the room of a piece, which isn't appended.
    pub fn use_room(&mut self, piece: &[u8])
        requires a_piece { 0 < self.old.spare_pieces }
        requires its_bytes { length piece.now ≤ self.old.spare_bytes }
        ensures { self.new ≡ record self.old {
          spare_pieces = self.old.spare_pieces - 1;
          spare_bytes = self.old.spare_bytes - length piece.now;
        } }
    {
        self.spare_pieces -= 1;
        self.spare_bytes -= piece.len() as u64;
    }

    /// The piece at this place, counted from 0, if there is one.
    pub fn read(&self, alloc: Global, at: u64) -> Result<Option<Bytes>, NoMemory>
        ensures { IfOk result (λ found. found ≡ slice_get self.now.pieces at) }
    {
        match self.reaches.items().get(at as usize) {
            None => Ok(None),
            Some(reach) => {
                let piece = &self.bytes.items()[reach.start..reach.end];
                Ok(Some(Bytes::from_slice(alloc, piece)?))
            }
        }
    }
}

//! The piece of a journal, read field by field: each reader is given the bytes and a place, and answers its value
//! and the place after it, or the first fault. Memory is taken only for what was read.

ghost use Rattle.std.specs.Prelude.{◌≡◌, ◌≢◌, ◌≤◌, IfOk, length, drop};
ghost use Rattle.tact_base.specs.declared.limits.TheConstants.{REPLICAS_MAX};
ghost use Rattle.run_record.specs.PartFaults.{TellsPart};
ghost use Rattle.restart_journal.specs.PieceAt.{piece_at, piece_in, step_at, taken_at};

use crate::parts::{Piece, Told};
use run_model::{FieldFault, byte_at, number_at};
use run_record::{Counts, PartFault, short_at};
use std::alloc::Global;
use tact_base::{MOMENT_MAX, NoMemory};
use tact_msg::{MsgFault, decode};

// What these bytes tell as a piece of a setup with these counts: `None` where they aren't one.
pub(crate) fn piece_in(
    alloc: Global,
    counts: Counts,
    bytes: &[u8],
) -> Result<Option<Piece>, NoMemory>
    requires { counts.replicas ≤ REPLICAS_MAX }
    ensures { IfOk result (λ found. found ≡ piece_in counts.replicas counts.conits bytes.now) }
{
    match piece_at(alloc, counts, bytes) {
        Ok((piece, end)) => Ok(if end == bytes.len() {
            Some(piece)
        } else {
            None
        }),
        Err(PartFault::Field(_)) => Ok(None),
        Err(PartFault::NoMemory) => Err(NoMemory),
    }
}

// A piece at the front of bytes.
#[tactic(auto, unfolding(crate::specs::PieceAt::piece_at))]
fn piece_at(alloc: Global, counts: Counts, bytes: &[u8]) -> Result<(Piece, usize), PartFault>
    requires { counts.replicas ≤ REPLICAS_MAX }
    ensures { TellsPart (piece_at counts.replicas counts.conits bytes.now 0) result }
{
    let (tag, place) = byte_at(bytes, 0, 1, 7)?;
    if tag == 3 {
        taken_at(alloc, counts.replicas, bytes, place)
    } else {
        step_at(alloc, counts, tag, bytes, place)
    }
}

// A take, behind its tag.
#[tactic(auto, unfolding(crate::specs::PieceAt::taken_at))]
fn taken_at(
    alloc: Global,
    replicas: u32,
    bytes: &[u8],
    place: usize,
) -> Result<(Piece, usize), PartFault>
    requires { place ≤ length bytes.now }
    ensures { TellsPart (taken_at replicas bytes.now place) result }
{
    let (replica, place) = byte_at(bytes, place, 0, replicas)?;
    let (moment, place) = number_at(bytes, place, 0, MOMENT_MAX + 1)?;
    match decode(alloc, &bytes[place..]) {
        Ok((message, long)) => {
            let told = Told::Take { message };
            let piece = Piece {
                replica,
                moment,
                told,
            };
            Ok((piece, place + long))
        }
        Err(MsgFault::Short) => Err(PartFault::Field(FieldFault::Short)),
        Err(MsgFault::BadField(at)) => Err(PartFault::Field(FieldFault::BadField(at))),
        Err(MsgFault::NoMemory) => Err(PartFault::NoMemory),
    }
}

// Another entry, behind its tag.
#[tactic(auto, unfolding(crate::specs::PieceAt::step_at))]
fn step_at(
    alloc: Global,
    counts: Counts,
    tag: u32,
    bytes: &[u8],
    place: usize,
) -> Result<(Piece, usize), PartFault>
    requires few { counts.replicas ≤ REPLICAS_MAX }
    requires within { place ≤ length bytes.now }
    ensures { TellsPart (step_at counts.replicas counts.conits tag bytes.now place) result }
{
    let (short, place) = short_at(alloc, counts, tag, bytes, place)?;
    let piece = Piece {
        replica: short.replica,
        moment: short.moment,
        told: Told::Step(short.act),
    };
    Ok((piece, place))
}

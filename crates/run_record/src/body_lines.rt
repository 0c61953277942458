//! The lines behind the setup of a record in text.
ghost use Rattle.std.specs.Prelude.{◌<◌, [], IfOk};
ghost use Rattle.tact_base.specs.Setup.{setup};
ghost use Rattle.run_record.specs.Splitting.{tokens};
ghost use Rattle.run_record.specs.Fields.{Gives};
ghost use Rattle.run_record.specs.RecordLines.{IsBodyOf, end_line, body_line};

use crate::Short;
use crate::act_tokens::entry_line;
use crate::call_tokens::any_number_at;
use crate::fields::{end_at, token_at};
use crate::line_fault::LineFault;
use crate::parts::Counts;
use run_model::LineKind;
use std::alloc::Global;

/// What a line behind the setup says.
#[derive(Debug, Drop)]
pub(crate) enum BodyLine {
    /// An entry.
    Entry(Short),
    /// The record ends, with as many entries as the line says.
    End,
}

/// An entry, or the end after so many of them.
#[tactic(auto, unfolding(crate::specs::RecordLines::body_line))]
pub(crate) fn body_line(
    alloc: Global,
    line: &[u8],
    counts: Counts,
    entries: u64,
) -> Result<BodyLine, LineFault>
    requires replicas { 0 < counts.replicas }
    requires conits { 0 < counts.conits }
    ensures within { IfOk result (IsBodyOf (setup counts.replicas counts.conits [] [])) }
    ensures line { Gives (λ x. x) result
        (body_line counts.replicas counts.conits entries (tokens line.now)) }
{
    let (word, rest) = token_at(line)?;
    if word == b"e".as_slice() {
        let short = entry_line(alloc, rest, counts)?;
        Ok(BodyLine::Entry(short))
    } else if word == b"end".as_slice() {
        end_line(rest, entries)?;
        Ok(BodyLine::End)
    } else {
        Err(LineFault::Kind(LineKind::UnknownWord))
    }
}

// `end COUNT`, behind its word, with this count.
#[tactic(auto, unfolding(crate::specs::RecordLines::end_line))]
fn end_line(rest: &[u8], count: u64) -> Result<(), LineFault>
    ensures { Gives (λ _. tt) result (end_line count (tokens rest.now)) }
{
    let (told, rest) = any_number_at(rest)?;
    end_at(rest, LineKind::Extra)?;
    if told == count {
        Ok(())
    } else {
        Err(LineFault::Kind(LineKind::WrongCount))
    }
}

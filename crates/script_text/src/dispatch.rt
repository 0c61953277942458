//! A line by its first word.
ghost use Rattle.std.specs.Prelude.{◌≡◌, ◌<◌, IfOk, Some, vec_len};
ghost use Rattle.std.specs.Vec.{vec_capacity};
ghost use Rattle.run_record.specs.Splitting.{tokens};
ghost use Rattle.run_record.specs.Fields.{Gives};
ghost use Rattle.script_text.specs.Adding.{AddsLine};
ghost use Rattle.script_text.specs.LineRanges.{bare};
ghost use Rattle.script_text.specs.Forms.{first_at, later_at, later_by, AreStartNumbers};

use crate::call_forms::{held_line, read_line, release_line, reserve_line, write_line};
use crate::forms::{at_line, bound_line, ref_line, restart_line, show_line, start_line};
use crate::peer_forms::{back_line, lend_line, send_line, sync_line, take_line};
use crate::room::make_room;
use crate::word::{Word, word_at, word_of};
use run_model::{Line, LineKind};
use run_record::{LineFault, token_at};
use std::alloc::Global;

/// The first line that isn't skipped.
#[tactic(auto, unfolding(crate::specs::Forms::first_at))]
pub(crate) fn first_at(raw: &[u8]) -> Result<Line, LineFault>
    ensures start { IfOk result AreStartNumbers }
    ensures line { Gives (λ x. x) result (first_at (tokens raw.now)) }
{
    let (token, rest) = token_at(raw)?;
    match word_of(token) {
        Some(Word::Start) => start_line(rest),
        _ => Err(LineFault::Kind(LineKind::NoStart)),
    }
}

// Adds a later line that begins with this word.
fn later_by(
    lines: &mut Vec<Line>,
    alloc: Global,
    word: Word,
    rest: &[u8],
    replicas: u32,
    conits: u32,
) -> Result<(), LineFault>
    requires replicas { 0 < replicas }
    requires conits { 0 < conits }
    requires room { vec_len lines.old < vec_capacity lines.old }
    ensures { AddsLine (bare replicas conits) lines.old.items lines.new.items result (later_by replicas conits (Some word) (tokens rest.now)) }
{
    match word {
        Word::Start => Err(LineFault::Kind(LineKind::SecondStart)),
        Word::Bound => bound_line(lines, rest, replicas, conits),
        Word::At => at_line(lines, rest, replicas, conits),
        Word::Write => write_line(lines, rest, replicas, conits),
        Word::Held => held_line(lines, rest, replicas, conits),
        Word::Reserve => reserve_line(lines, rest, replicas, conits),
        Word::Release => release_line(lines, rest, replicas, conits),
        Word::Read => read_line(lines, rest, replicas, conits),
        Word::Send => send_line(lines, alloc, rest, replicas, conits),
        Word::Take => take_line(lines, rest, replicas, conits),
        Word::Sync => sync_line(lines, rest, replicas, conits),
        Word::Lend => lend_line(lines, rest, replicas, conits),
        Word::Back => back_line(lines, rest, replicas, conits),
        Word::Restart => restart_line(lines, rest, replicas, conits),
        Word::Show => show_line(lines, rest, replicas, conits),
        Word::Ref => ref_line(lines, rest, replicas, conits),
    }
}

/// Adds a later line to those before it, token by token.
#[tactic(auto, unfolding(crate::specs::Forms::later_at))]
pub(crate) fn later_at(
    lines: &mut Vec<Line>,
    alloc: Global,
    raw: &[u8],
    replicas: u32,
    conits: u32,
) -> Result<(), LineFault>
    requires replicas { 0 < replicas }
    requires conits { 0 < conits }
    ensures { AddsLine (bare replicas conits) lines.old.items lines.new.items result (later_at replicas conits (tokens raw.now)) }
{
    make_room(lines)?;
    let (word, rest) = word_at(raw)?;
    match word {
        None => Err(LineFault::Kind(LineKind::UnknownWord)),
        Some(word) => later_by(lines, alloc, word, rest, replicas, conits),
    }
}

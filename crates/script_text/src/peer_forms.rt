//! The forms of lines between two replicas: messages and loans. Each reader is given what is left of the
//! line after its first word, and the counts of replicas and conits, and adds the line to those before it.
ghost use Rattle.std.specs.Prelude.{◌<◌, vec_len};
ghost use Rattle.std.specs.Vec.{vec_capacity};
ghost use Rattle.run_record.specs.Splitting.{tokens};
ghost use Rattle.script_text.specs.Adding.{AddsLine};
ghost use Rattle.script_text.specs.LineRanges.{bare};
ghost use Rattle.script_text.specs.Forms.{send_line, take_line, sync_line, lend_line, back_line};

use crate::forms::conit_at;
use run_model::{Line, LineKind};
use run_record::{LineFault, end_at, firsts_at, number_at, other_replica_at, replica_at};
use std::alloc::Global;
use tact_base::AMOUNT_MAX;

/// `send A B`, whose firsts are zeros, or `send A B FIRST..`
#[tactic(auto, unfolding(crate::specs::Forms::send_line))]
pub(crate) fn send_line(
    lines: &mut Vec<Line>,
    alloc: Global,
    rest: &[u8],
    replicas: u32,
    conits: u32,
) -> Result<(), LineFault>
    requires replicas { 0 < replicas }
    requires room { vec_len lines.old < vec_capacity lines.old }
    ensures { AddsLine (bare replicas conits) lines.old.items lines.new.items result (send_line replicas (tokens rest.now)) }
{
    let (from, rest) = replica_at(rest, replicas)?;
    let (to, rest) = other_replica_at(rest, replicas, from)?;
    let (firsts, rest) = firsts_at(alloc, rest, replicas)?;
    end_at(rest, LineKind::Extra)?;
    lines.push_reserved(Line::Send { from, to, firsts });
    Ok(())
}

/// `take R F NUMBER`
#[tactic(auto, unfolding(crate::specs::Forms::take_line))]
pub(crate) fn take_line(
    lines: &mut Vec<Line>,
    rest: &[u8],
    replicas: u32,
    conits: u32,
) -> Result<(), LineFault>
    requires replicas { 0 < replicas }
    requires room { vec_len lines.old < vec_capacity lines.old }
    ensures { AddsLine (bare replicas conits) lines.old.items lines.new.items result (take_line replicas (tokens rest.now)) }
{
    let (replica, rest) = replica_at(rest, replicas)?;
    let (from, rest) = other_replica_at(rest, replicas, replica)?;
    let (number, rest) = number_at(rest, u64::MAX)?;
    end_at(rest, LineKind::Extra)?;
    lines.push_reserved(Line::Take {
        replica,
        from,
        number,
    });
    Ok(())
}

/// `sync A B`
#[tactic(auto, unfolding(crate::specs::Forms::sync_line))]
pub(crate) fn sync_line(
    lines: &mut Vec<Line>,
    rest: &[u8],
    replicas: u32,
    conits: u32,
) -> Result<(), LineFault>
    requires replicas { 0 < replicas }
    requires room { vec_len lines.old < vec_capacity lines.old }
    ensures { AddsLine (bare replicas conits) lines.old.items lines.new.items result (sync_line replicas (tokens rest.now)) }
{
    let (first, rest) = replica_at(rest, replicas)?;
    let (second, rest) = other_replica_at(rest, replicas, first)?;
    end_at(rest, LineKind::Extra)?;
    lines.push_reserved(Line::Sync { first, second });
    Ok(())
}

/// `lend O H C AMOUNT`
#[tactic(auto, unfolding(crate::specs::Forms::lend_line))]
pub(crate) fn lend_line(
    lines: &mut Vec<Line>,
    rest: &[u8],
    replicas: u32,
    conits: u32,
) -> Result<(), LineFault>
    requires replicas { 0 < replicas }
    requires conits { 0 < conits }
    requires room { vec_len lines.old < vec_capacity lines.old }
    ensures { AddsLine (bare replicas conits) lines.old.items lines.new.items result (lend_line replicas conits (tokens rest.now)) }
{
    let (owner, rest) = replica_at(rest, replicas)?;
    let (holder, rest) = other_replica_at(rest, replicas, owner)?;
    let (conit, rest) = conit_at(rest, conits)?;
    let (amount, rest) = number_at(rest, AMOUNT_MAX)?;
    end_at(rest, LineKind::Extra)?;
    lines.push_reserved(Line::Lend {
        owner,
        holder,
        conit,
        amount,
    });
    Ok(())
}

/// `back H O C AMOUNT`
#[tactic(auto, unfolding(crate::specs::Forms::back_line))]
pub(crate) fn back_line(
    lines: &mut Vec<Line>,
    rest: &[u8],
    replicas: u32,
    conits: u32,
) -> Result<(), LineFault>
    requires replicas { 0 < replicas }
    requires conits { 0 < conits }
    requires room { vec_len lines.old < vec_capacity lines.old }
    ensures { AddsLine (bare replicas conits) lines.old.items lines.new.items result (back_line replicas conits (tokens rest.now)) }
{
    let (holder, rest) = replica_at(rest, replicas)?;
    let (owner, rest) = other_replica_at(rest, replicas, holder)?;
    let (conit, rest) = conit_at(rest, conits)?;
    let (amount, rest) = number_at(rest, AMOUNT_MAX)?;
    end_at(rest, LineKind::Extra)?;
    lines.push_reserved(Line::Back {
        holder,
        owner,
        conit,
        amount,
    });
    Ok(())
}

//! The forms of lines in which a client calls. Each reader is given what is left of the line after its first
//! word, and the counts of replicas and conits, and adds the line to those before it.
ghost use Rattle.std.specs.Prelude.{◌≡◌, ◌<◌, vec_len};
ghost use Rattle.std.specs.Vec.{vec_capacity};
ghost use Rattle.run_record.specs.Splitting.{tokens};
ghost use Rattle.script_text.specs.Adding.{AddsLine};
ghost use Rattle.script_text.specs.LineRanges.{bare};
ghost use Rattle.script_text.specs.Forms.{write_line, held_line, reserve_line, release_line, read_line};

use crate::forms::conit_at;
use run_model::{Line, LineKind};
use run_record::{
    LineFault, ListEnd, client_at, end_at, needs_at, number_at, op_at, replica_at, weight_at,
    weights_at,
};
use tact_base::{AMOUNT_MAX, KEY_MAX, Weights};

/// `write R K OP WEIGHT..`
#[tactic(auto, unfolding(crate::specs::Forms::write_line))]
pub(crate) fn write_line(
    lines: &mut Vec<Line>,
    rest: &[u8],
    replicas: u32,
    conits: u32,
) -> Result<(), LineFault>
    requires replicas { 0 < replicas }
    requires conits { 0 < conits }
    requires room { vec_len lines.old < vec_capacity lines.old }
    ensures { AddsLine (bare replicas conits) lines.old.items lines.new.items result (write_line replicas conits (tokens rest.now)) }
{
    let (replica, rest) = replica_at(rest, replicas)?;
    let (client, rest) = client_at(rest)?;
    let (op, rest) = op_at(rest)?;
    if rest.is_empty() {
        lines.push_reserved(Line::Write {
            replica,
            client,
            op,
            weights: Weights::empty(),
        });
        return Ok(());
    }
    let (weights, rest) = match weights_at(rest, conits, ListEnd::Line) {
        Ok(read) => read,
        Err(fault) => return Err(fault),
    };
    end_at(rest, LineKind::Extra)?;
    lines.push_reserved(Line::Write {
        replica,
        client,
        op,
        weights,
    });
    Ok(())
}

/// `held R K OP WEIGHT`
#[tactic(auto, unfolding(crate::specs::Forms::held_line))]
pub(crate) fn held_line(
    lines: &mut Vec<Line>,
    rest: &[u8],
    replicas: u32,
    conits: u32,
) -> Result<(), LineFault>
    requires replicas { 0 < replicas }
    requires conits { 0 < conits }
    requires room { vec_len lines.old < vec_capacity lines.old }
    ensures { AddsLine (bare replicas conits) lines.old.items lines.new.items result (held_line replicas conits (tokens rest.now)) }
{
    let (replica, rest) = replica_at(rest, replicas)?;
    let (client, rest) = client_at(rest)?;
    let (op, rest) = op_at(rest)?;
    let (weight, rest) = weight_at(rest, conits)?;
    end_at(rest, LineKind::Extra)?;
    lines.push_reserved(Line::Held {
        replica,
        client,
        op,
        weight,
    });
    Ok(())
}

/// `reserve R K C AMOUNT`
#[tactic(auto, unfolding(crate::specs::Forms::reserve_line))]
pub(crate) fn reserve_line(
    lines: &mut Vec<Line>,
    rest: &[u8],
    replicas: u32,
    conits: u32,
) -> Result<(), LineFault>
    requires replicas { 0 < replicas }
    requires conits { 0 < conits }
    requires room { vec_len lines.old < vec_capacity lines.old }
    ensures { AddsLine (bare replicas conits) lines.old.items lines.new.items result (reserve_line replicas conits (tokens rest.now)) }
{
    let (replica, rest) = replica_at(rest, replicas)?;
    let (client, rest) = client_at(rest)?;
    let (conit, rest) = conit_at(rest, conits)?;
    let (amount, rest) = number_at(rest, AMOUNT_MAX)?;
    end_at(rest, LineKind::Extra)?;
    lines.push_reserved(Line::Reserve {
        replica,
        client,
        conit,
        amount,
    });
    Ok(())
}

/// `release R K C AMOUNT`
#[tactic(auto, unfolding(crate::specs::Forms::release_line))]
pub(crate) fn release_line(
    lines: &mut Vec<Line>,
    rest: &[u8],
    replicas: u32,
    conits: u32,
) -> Result<(), LineFault>
    requires replicas { 0 < replicas }
    requires conits { 0 < conits }
    requires room { vec_len lines.old < vec_capacity lines.old }
    ensures { AddsLine (bare replicas conits) lines.old.items lines.new.items result (release_line replicas conits (tokens rest.now)) }
{
    let (replica, rest) = replica_at(rest, replicas)?;
    let (client, rest) = client_at(rest)?;
    let (conit, rest) = conit_at(rest, conits)?;
    let (amount, rest) = number_at(rest, AMOUNT_MAX)?;
    end_at(rest, LineKind::Extra)?;
    lines.push_reserved(Line::Release {
        replica,
        client,
        conit,
        amount,
    });
    Ok(())
}

/// `read R K KEY NEED..`
#[tactic(auto, unfolding(crate::specs::Forms::read_line))]
pub(crate) fn read_line(
    lines: &mut Vec<Line>,
    rest: &[u8],
    replicas: u32,
    conits: u32,
) -> Result<(), LineFault>
    requires replicas { 0 < replicas }
    requires conits { 0 < conits }
    requires room { vec_len lines.old < vec_capacity lines.old }
    ensures { AddsLine (bare replicas conits) lines.old.items lines.new.items result (read_line replicas conits (tokens rest.now)) }
{
    let (replica, rest) = replica_at(rest, replicas)?;
    let (client, rest) = client_at(rest)?;
    let (key, rest) = number_at(rest, KEY_MAX)?;
    let (needs, rest) = match needs_at(rest, conits, ListEnd::Line) {
        Ok(read) => read,
        Err(fault) => return Err(fault),
    };
    end_at(rest, LineKind::Extra)?;
    lines.push_reserved(Line::Read {
        replica,
        client,
        key,
        needs,
    });
    Ok(())
}

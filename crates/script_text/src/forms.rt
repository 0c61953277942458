//! The forms of a script's lines. Each reader is given what is left of the line after its first word, and
//! the counts of replicas and conits, and adds the line to those before it.
ghost use Rattle.std.specs.Prelude.{◌≡◌, ◌<◌, ◌≤◌, IfOk, vec_len};
ghost use Rattle.std.specs.Vec.{vec_capacity};
ghost use Rattle.tact_base.specs.declared.limits.TheConstants.{ALPHA_MAX, AMOUNT_MAX, CONITS_MAX, REPLICAS_MAX};
ghost use Rattle.run_record.specs.Splitting.{tokens};
ghost use Rattle.run_record.specs.Fields.{Gives};
ghost use Rattle.script_text.specs.Adding.{AddsLine};
ghost use Rattle.script_text.specs.LineRanges.{bare};
ghost use Rattle.script_text.specs.Forms.{conit_at, start_line, bound_line, at_line, restart_line, show_line, ref_line, AreStartNumbers};

use run_model::{Line, LineKind};
use run_record::{LineFault, count_at, end_at, number_at, replica_at, small_at};
use tact_base::{ALPHA_MAX, AMOUNT_MAX, CONITS_MAX, MOMENT_MAX, REPLICAS_MAX, REPLICAS_MIN};

/// One of the conits.
pub(crate) fn conit_at(rest: &[u8], conits: u32) -> Result<(u32, &[u8]), LineFault>
    requires { 0 < conits }
    ensures within { IfOk result (λ x. x.0 < conits) }
    ensures conit { Gives (λ x. (x.0, tokens x.1.now)) result (conit_at conits (tokens rest.now)) }
{
    let (number, rest) = small_at(rest, u64::from(conits - 1))?;
    Ok((number as u32, rest))
}

/// `start N M ALPHA LOAN`
#[tactic(auto, unfolding(crate::specs::Forms::start_line))]
pub(crate) fn start_line(rest: &[u8]) -> Result<Line, LineFault>
    ensures start { IfOk result AreStartNumbers }
    ensures line { Gives (λ x. x) result (start_line (tokens rest.now)) }
{
    let (replicas, rest) = count_at(rest, REPLICAS_MIN, REPLICAS_MAX)?;
    let (conits, rest) = count_at(rest, 1, CONITS_MAX)?;
    let (alpha, rest) = number_at(rest, ALPHA_MAX)?;
    let (loan, rest) = number_at(rest, AMOUNT_MAX)?;
    end_at(rest, LineKind::Extra)?;
    Ok(Line::Start {
        replicas,
        conits,
        alpha,
        loan,
    })
}

/// `bound O C ALPHA LOAN`
#[tactic(auto, unfolding(crate::specs::Forms::bound_line))]
pub(crate) fn bound_line(
    lines: &mut Vec<Line>,
    rest: &[u8],
    replicas: u32,
    conits: u32,
) -> Result<(), LineFault>
    requires replicas { 0 < replicas }
    requires conits { 0 < conits }
    requires room { vec_len lines.old < vec_capacity lines.old }
    ensures { AddsLine (bare replicas conits) lines.old.items lines.new.items result (bound_line replicas conits (tokens rest.now)) }
{
    let (owner, rest) = replica_at(rest, replicas)?;
    let (conit, rest) = conit_at(rest, conits)?;
    let (alpha, rest) = number_at(rest, ALPHA_MAX)?;
    let (loan, rest) = number_at(rest, AMOUNT_MAX)?;
    end_at(rest, LineKind::Extra)?;
    lines.push_reserved(Line::Bound {
        owner,
        conit,
        alpha,
        loan,
    });
    Ok(())
}

/// `at T`
#[tactic(auto, unfolding(crate::specs::Forms::at_line))]
pub(crate) fn at_line(
    lines: &mut Vec<Line>,
    rest: &[u8],
    replicas: u32,
    conits: u32,
) -> Result<(), LineFault>
    requires room { vec_len lines.old < vec_capacity lines.old }
    ensures { AddsLine (bare replicas conits) lines.old.items lines.new.items result (at_line (tokens rest.now)) }
{
    let (moment, rest) = number_at(rest, MOMENT_MAX)?;
    end_at(rest, LineKind::Extra)?;
    lines.push_reserved(Line::At { moment });
    Ok(())
}

/// `restart R`
#[tactic(auto, unfolding(crate::specs::Forms::restart_line))]
pub(crate) fn restart_line(
    lines: &mut Vec<Line>,
    rest: &[u8],
    replicas: u32,
    conits: u32,
) -> Result<(), LineFault>
    requires replicas { 0 < replicas }
    requires room { vec_len lines.old < vec_capacity lines.old }
    ensures { AddsLine (bare replicas conits) lines.old.items lines.new.items result (restart_line replicas (tokens rest.now)) }
{
    let (replica, rest) = replica_at(rest, replicas)?;
    end_at(rest, LineKind::Extra)?;
    lines.push_reserved(Line::Restart { replica });
    Ok(())
}

/// `show R`
#[tactic(auto, unfolding(crate::specs::Forms::show_line))]
pub(crate) fn show_line(
    lines: &mut Vec<Line>,
    rest: &[u8],
    replicas: u32,
    conits: u32,
) -> Result<(), LineFault>
    requires replicas { 0 < replicas }
    requires room { vec_len lines.old < vec_capacity lines.old }
    ensures { AddsLine (bare replicas conits) lines.old.items lines.new.items result (show_line replicas (tokens rest.now)) }
{
    let (replica, rest) = replica_at(rest, replicas)?;
    end_at(rest, LineKind::Extra)?;
    lines.push_reserved(Line::Show { replica });
    Ok(())
}

/// `ref C`
#[tactic(auto, unfolding(crate::specs::Forms::ref_line))]
pub(crate) fn ref_line(
    lines: &mut Vec<Line>,
    rest: &[u8],
    replicas: u32,
    conits: u32,
) -> Result<(), LineFault>
    requires conits { 0 < conits }
    requires room { vec_len lines.old < vec_capacity lines.old }
    ensures { AddsLine (bare replicas conits) lines.old.items lines.new.items result (ref_line conits (tokens rest.now)) }
{
    let (conit, rest) = conit_at(rest, conits)?;
    end_at(rest, LineKind::Extra)?;
    lines.push_reserved(Line::Ref { conit });
    Ok(())
}

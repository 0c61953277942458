//! The reader of a script, line by line.
ghost use Rattle.std.specs.Prelude.{◌≡◌, ◌+◌, ◌<◌, ◌≤◌, ◌||◌, not, ℕ, List, [], ◌∷◌, ◌++◌, OnOk, IfOk, IfErr, IfNone, IfSome, IsTrue, false, Result, Ok, Err, Option, Some, None, length};
ghost use Rattle.std.specs.Option.{option_map};
ghost use Rattle.tact_base.specs.declared.limits.TheConstants.{SCRIPT_LINES};
ghost use Rattle.run_model.specs.declared.script_line.Line.{Line};
ghost use Rattle.run_model.specs.declared.status.LineKind.{LineKind};
ghost use Rattle.run_record.specs.Splitting.{tokens, raw_lines};
ghost use Rattle.run_record.specs.Fields.{Gives, Fails};
ghost use Rattle.run_record.specs.Lines.{fault_of_bytes};
ghost use Rattle.script_text.specs.Forms.{AreStartNumbers};
ghost use Rattle.script_text.specs.GoodLines.{IsGood};
ghost use Rattle.script_text.specs.LineRanges.{IsLineInRange};
ghost use Rattle.script_text.specs.Readings.{IsReading, IsBegun};
ghost use Rattle.script_text.specs.Scripts.{IsPlacedBy};
ghost use Rattle.script_text.specs.Sending.{sent_after};
ghost use Rattle.script_text.specs.Setups.{bounded, setup_after, sets_up};
ghost use Rattle.run_model.specs.declared.script_line.Line.TheVariants.{Bound};
ghost use Rattle.tact_base.specs.Setup.{IsSetup};
ghost use Rattle.script_text.specs.Texts.{fault_of, first_line, of_first, of_whole, with_line, lines_after, begun_by, read_from, goes_on, script_of, Reads};

use crate::dispatch::{first_at, later_at};
use crate::fault::ScriptFault;
use crate::good_lines::are_good;
use crate::room::{first_lines, last_of};
use crate::sent::Sent;
use crate::setups::{bounded, opening};
use run_model::{Config, Line, LineKind};
use run_record::{LineFault, fault_of_bytes, is_skipped, split_line};
use std::alloc::Global;
use tact_base::{LINE_MAX, NoMemory, SCRIPT_LINES};

/// The lines of a script so far, the setup that they made, whether they are past it, and the messages that
/// they sent.
#[derive(Drop)]
pub(crate) struct Reader {
    pub(crate) config: Config,
    pub(crate) past: bool,
    pub(crate) lines: Vec<Line>,
    pub(crate) sent: Sent,
}

// What is judged of every line, whatever it says. That all its bytes are good may be known.
#[tactic(auto, unfolding(crate::specs::Texts::fault_of))]
fn fault_of(number: u64, raw: &[u8], is_good: bool) -> Option<LineKind>
    requires { IsTrue is_good → IsGood raw.now }
    ensures few { IfNone result (number ≤ SCRIPT_LINES) }
    ensures fault { result ≡ fault_of number raw.now }
{
    if number > SCRIPT_LINES {
        Some(LineKind::TooManyLines)
    } else if is_good {
        fault_of_good(raw)
    } else {
        fault_of_bytes(raw)
    }
}

// What is judged of the bytes of a line that has good ones alone.
#[tactic(auto, unfolding(run_record::specs::Lines::fault_of_bytes))]
fn fault_of_good(raw: &[u8]) -> Option<LineKind>
    requires { IsGood raw.now }
    ensures { result ≡ fault_of_bytes raw.now }
{
    if raw.len() > LINE_MAX {
        Some(LineKind::LongLine)
    } else {
        None
    }
}

// The first line that isn't skipped, and the setup that it makes.
#[tactic(auto, unfolding(crate::specs::Texts::first_line))]
fn first_line(alloc: Global, raw: &[u8]) -> Result<(Line, Config), LineFault>
    ensures begun { IfOk result (λ x. IsBegun x.0 x.1) }
    ensures line { Gives (λ x. x.0) result (first_line (tokens raw.now)) }
{
    let line = first_at(raw)?;
    let config = setup_by(alloc, &line)?;
    Ok((line, config))
}

// The setup that a first line makes.
fn setup_by(alloc: Global, line: &Line) -> Result<Config, LineFault>
    requires { AreStartNumbers line.now }
    ensures begun { IfOk result (IsBegun line.now) }
    ensures whole { Gives (λ _. line.now) result (of_first line.now) }
{
    match line {
        Line::Start {
            replicas,
            conits,
            alpha,
            loan,
        } => {
            let config = opening(alloc, *replicas, *conits, *alpha, *loan)?;
            Ok(config)
        }
        _ => unreachable!(),
    }
}

// The fault of a line as one of its script.
fn on_line(number: u64, fault: LineFault) -> ScriptFault
    ensures { (lines : List Line) (read : Result (List Line) LineKind) (rest : List Line → Result (List Line) (ℕ × LineKind))
        → Fails fault read → Reads (Err result) (goes_on rest number read) }
{
    match fault {
        LineFault::NoMemory => ScriptFault::NoMemory,
        LineFault::Kind(kind) => ScriptFault::Bad {
            place: number,
            kind,
        },
    }
}

// Makes the setup of a `bound` line where it may stand.
fn bind(
    alloc: Global,
    config: &mut Config,
    past: bool,
    owner: u32,
    conit: u32,
    alpha: u64,
    loan: u64,
) -> Result<(), LineFault>
    requires owner_in { owner < config.old.replicas }
    requires conit_in { conit < config.old.conits }
    ensures placed { OnOk result (IsSetup (bounded config.old owner conit alpha loan) × (past ≡ false)) }
    ensures config { OnOk result (config.new ≡ bounded config.old owner conit alpha loan) }
    ensures whole { Gives (λ _. Bound owner conit alpha loan) result
        (of_whole config.old past [] (Bound owner conit alpha loan)) }
{
    let next = bounded(alloc, config, owner, conit, alpha, loan)?;
    if past {
        return Err(LineFault::Kind(LineKind::LateBound));
    }
    *config = next;
    Ok(())
}

// What a line makes of the setup, of whether a script is past it, and of the messages that were sent, where the line
// may stand.
fn note(
    alloc: Global,
    line: &Line,
    config: &mut Config,
    past: &mut bool,
    sent: &mut Sent,
) -> Result<(), LineFault>
    requires names { IsLineInRange config.old line.now }
    requires all { length sent.old.receivers.items ≡ config.old.replicas }
    ensures placed { OnOk result (IsPlacedBy config.old past.old sent.old.receivers.items line.now) }
    ensures config { OnOk result (config.new ≡ setup_after config.old line.now) }
    ensures past { OnOk result (past.new ≡ (past.old || not (sets_up line.now))) }
    ensures sent { OnOk result (sent.new.receivers.items ≡ sent_after sent.old.receivers.items line.now) }
    ensures whole { Gives (λ _. line.now) result (of_whole config.old past.old sent.old.receivers.items line.now) }
{
    match line {
        Line::Start { .. } => unreachable!(),
        Line::Bound {
            owner,
            conit,
            alpha,
            loan,
        } => return bind(alloc, config, *past, *owner, *conit, *alpha, *loan),
        Line::Take {
            replica,
            from,
            number,
        } => {
            if !sent.is_sent(*from, *number, *replica) {
                return Err(LineFault::Kind(LineKind::NoMessage));
            }
        }
        Line::Send {
            from,
            to,
            firsts: _,
        } => sent.add(*from, *to)?,
        Line::Sync { first, second } => {
            sent.add(*first, *second)?;
            sent.add(*second, *first)?;
        }
        _ => {}
    }
    *past = true;
    Ok(())
}

// A later line that isn't skipped, after those that were read.
#[tactic(auto, unfolding(crate::specs::Texts::later_line, crate::specs::Texts::with_line))]
fn read_tokens(reader: &mut Reader, alloc: Global, raw: &[u8]) -> Result<(), LineFault>
    requires { IsReading reader.old }
    ensures reading { OnOk result (IsReading reader.new) }
    ensures grows { OnOk result (length reader.new.lines.items ≤ length reader.old.lines.items + 1) }
    ensures read { Gives (λ _. reader.new.lines.items) result (with_line reader.old.lines.items (tokens raw.now)) }
{
    let replicas = reader.config.replicas();
    let conits = reader.config.conits();
    match later_at(&mut reader.lines, alloc, raw, replicas, conits) {
        Ok(()) => note(
            alloc,
            last_of(&reader.lines),
            &mut reader.config,
            &mut reader.past,
            &mut reader.sent,
        ),
        Err(fault) => Err(fault),
    }
}

// One more line of the text, after those that were read.
#[tactic(auto, unfolding(crate::specs::Texts::lines_after))]
fn read_line(
    reader: &mut Reader,
    alloc: Global,
    number: u64,
    raw: &[u8],
    is_good: bool,
) -> Result<(), LineFault>
    requires reading { IsReading reader.old }
    requires good { IsTrue is_good → IsGood raw.now }
    ensures reading { OnOk result (IsReading reader.new) }
    ensures few { OnOk result (number ≤ SCRIPT_LINES) }
    ensures grows { OnOk result (length reader.new.lines.items ≤ length reader.old.lines.items + 1) }
    ensures read { Gives (λ _. reader.new.lines.items) result (lines_after number reader.old.lines.items raw.now) }
{
    if let Some(kind) = fault_of(number, raw, is_good) {
        return Err(LineFault::Kind(kind));
    }
    if is_skipped(raw) {
        return Ok(());
    }
    read_tokens(reader, alloc, raw)
}

// The first line of the text, or a later one where all before it are skipped: what it begins, if it isn't
// skipped too.
#[tactic(auto, unfolding(crate::specs::Texts::lines_after, crate::specs::Texts::with_line, crate::specs::Texts::line_after))]
fn first_of(alloc: Global, number: u64, raw: &[u8]) -> Result<Option<(Line, Config)>, LineFault>
    ensures few { OnOk result (number ≤ SCRIPT_LINES) }
    ensures begun { IfOk result (λ found. IfSome found (λ x. IsBegun x.0 x.1)) }
    ensures read { Gives (λ found. begun_by (option_map (λ x. x.0) found)) result (lines_after number [] raw.now) }
{
    if let Some(kind) = fault_of(number, raw, false) {
        return Err(LineFault::Kind(kind));
    }
    if is_skipped(raw) {
        return Ok(None);
    }
    let (line, config) = first_line(alloc, raw)?;
    Ok(Some((line, config)))
}

// The reader that a first line begins.
fn begun(alloc: Global, line: Line, config: Config) -> Result<Reader, NoMemory>
    requires { IsBegun line config }
    ensures reading { IfOk result IsReading }
    ensures lines { IfOk result (λ reader. reader.lines.items ≡ line ∷ []) }
{
    let sent = Sent::new(alloc, config.replicas())?;
    let lines = first_lines(alloc, line)?;
    Ok(Reader {
        config,
        past: false,
        lines,
        sent,
    })
}

/// The reader that the text begins, the number of the line after it, and what is left of the text.
#[tactic(auto, unfolding(crate::specs::Texts::script_of))]
pub(crate) fn read_first(alloc: Global, bytes: &[u8]) -> Result<(Reader, u64, &[u8]), ScriptFault>
    ensures reading { IfOk result (λ x. IsReading x.0) }
    ensures few { IfOk result (λ x. x.1 ≤ SCRIPT_LINES + 1) }
    ensures lines { IfOk result (λ x. length x.0.lines.items < x.1) }
    ensures ok { IfOk result (λ x. read_from x.1 x.0.lines.items (raw_lines x.2.now) ≡ script_of bytes.now) }
    ensures err { IfErr result (λ fault. Reads (Err fault) (script_of bytes.now)) }
{
    let mut rest = bytes;
    let mut number = 1;
    while !rest.is_empty() {
        let (raw, after) = split_line(rest);
        match first_of(alloc, number, raw) {
            Err(fault) => return Err(on_line(number, fault)),
            Ok(None) => {}
            Ok(Some((line, config))) => {
                let reader = begun(alloc, line, config)?;
                return Ok((reader, number + 1, after));
            }
        }
        number += 1;
        rest = after;
    }
    Err(ScriptFault::Bad {
        place: number,
        kind: LineKind::NoStart,
    })
}

/// Reads what is left of the text, whose first line has this number.
pub(crate) fn read_later(
    reader: &mut Reader,
    alloc: Global,
    first: u64,
    text: &[u8],
) -> Result<(), ScriptFault>
    requires reading { IsReading reader.old }
    requires few { first ≤ SCRIPT_LINES + 1 }
    requires lines { length reader.old.lines.items < first }
    ensures reading { OnOk result (IsReading reader.new) }
    ensures few { OnOk result (length reader.new.lines.items ≤ SCRIPT_LINES) }
    ensures ok { OnOk result (read_from first reader.old.lines.items (raw_lines text.now) ≡ Ok reader.new.lines.items) }
    ensures err { IfErr result (λ fault. Reads (Err fault) (read_from first reader.old.lines.items (raw_lines text.now))) }
{
    let is_good = are_good(text);
    let mut rest = text;
    let mut number = first;
    while !rest.is_empty() {
        let (raw, after) = split_line(rest);
        match read_line(reader, alloc, number, raw, is_good) {
            Err(fault) => return Err(on_line(number, fault)),
            Ok(()) => {}
        }
        number += 1;
        rest = after;
    }
    Ok(())
}

//! The lines of the setup of a record in text.
ghost use Rattle.std.specs.Prelude.{◌≡◌, ◌≤◌, IfErr, IfOk, Err, Ok, length};
ghost use Rattle.tact_base.specs.declared.limits.TheConstants.{REPLICAS_MAX};
ghost use Rattle.run_record.specs.EntriesAt.{AreCounts};
ghost use Rattle.run_record.specs.Splitting.{tokens};
ghost use Rattle.run_record.specs.Fields.{Gives};
ghost use Rattle.run_record.specs.RecordLines.{header_line, says, number_due, loan_most, loans_at, bound_fields, bound_line};

use crate::call_tokens::word_due;
use crate::fields::{count_at, end_at, number_at, token_at};
use crate::line_fault::LineFault;
use crate::parts::{Bound, Counts};
use run_model::{LineKind, is_passed_by};
use tact_base::{ALPHA_MAX, CONITS_MAX, REPLICAS_MAX, REPLICAS_MIN, Row, whole_number};

/// `tact 1 REPLICAS CONITS`
#[tactic(auto, unfolding(crate::specs::RecordLines::header_line))]
pub(crate) fn header_line(line: &[u8]) -> Result<Counts, LineFault>
    ensures counts { IfOk result AreCounts }
    ensures header { Gives (λ x. x) result (header_line (tokens line.now)) }
{
    let rest = word_due(line, b"tact", LineKind::BadHeader)?;
    let rest = word_due(rest, b"1", LineKind::BadHeader)?;
    let (replicas, rest) = count_at(rest, REPLICAS_MIN, REPLICAS_MAX)?;
    let (conits, rest) = count_at(rest, 1, CONITS_MAX)?;
    end_at(rest, LineKind::Extra)?;
    Ok(Counts { replicas, conits })
}

// Whether a token is a number, leading zeros or not.
fn says(token: &[u8], due: u64) -> bool
    ensures { result ≡ says due token.now }
{
    match whole_number(token, due) {
        Ok(number) => number == due,
        Err(_) => false,
    }
}

// What is left after a number that must stand. Another token is `BadHeader`.
#[tactic(auto, unfolding(crate::specs::RecordLines::number_due))]
fn number_due(rest: &[u8], due: u32) -> Result<&[u8], LineFault>
    ensures { Gives (λ x. tokens x.now) result (number_due due (tokens rest.now)) }
{
    let (token, rest) = token_at(rest)?;
    if says(token, u64::from(due)) {
        Ok(rest)
    } else {
        Err(LineFault::Kind(LineKind::BadHeader))
    }
}

/// `bound OWNER CONIT ALPHA LOAN..` of this owner and conit, with a loan for each of so many holders.
#[tactic(auto, unfolding(crate::specs::RecordLines::bound_line))]
pub(crate) fn bound_line(
    line: &[u8],
    replicas: u32,
    owner: u32,
    conit: u32,
) -> Result<Bound, LineFault>
    requires { replicas ≤ REPLICAS_MAX }
    ensures { Gives (λ x. x) result (bound_line replicas owner conit (tokens line.now)) }
{
    let bound = bound_fields(line, replicas, owner, conit)?;
    if is_passed_by(bound.loans.items(), bound.alpha) {
        return Err(LineFault::Kind(LineKind::LoansOver));
    }
    Ok(bound)
}

// The same, whatever the loans add up to.
#[tactic(auto, unfolding(crate::specs::RecordLines::bound_fields))]
fn bound_fields(line: &[u8], replicas: u32, owner: u32, conit: u32) -> Result<Bound, LineFault>
    requires { replicas ≤ REPLICAS_MAX }
    ensures { Gives (λ x. x) result (bound_fields replicas owner conit (tokens line.now)) }
{
    let rest = word_due(line, b"bound", LineKind::BadHeader)?;
    let rest = number_due(rest, owner)?;
    let rest = number_due(rest, conit)?;
    let (alpha, rest) = number_at(rest, ALPHA_MAX)?;
    let (loans, rest) = match loans_at(rest, replicas, owner) {
        Ok(read) => read,
        Err(fault) => return Err(fault),
    };
    end_at(rest, LineKind::Extra)?;
    Ok(Bound { alpha, loans })
}

// The loans of an owner, by holder.
fn loans_at(rest: &[u8], replicas: u32, owner: u32) -> Result<(Row, &[u8]), LineFault>
    requires { replicas ≤ REPLICAS_MAX }
    ensures { Gives (λ x. (x.0, tokens x.1.now)) result (loans_at owner replicas 0 (tokens rest.now)) }
{
    let mut items = [0; REPLICAS_MAX as usize];
    let items = &mut items[..replicas as usize];
    let rest = fill_loans(items, rest, owner)?;
    Ok((Row::new(items), rest))
}

fn fill_loans<'a>(items: &mut [u64], line: &'a [u8], owner: u32) -> Result<&'a [u8], LineFault>
    requires { length items.old ≤ REPLICAS_MAX }
    ensures { Gives (λ x. (items.new, tokens x.now)) result
        (loans_at owner (length items.old) 0 (tokens line.now)) }
{
    let mut rest = line;
    let mut holder = 0;
    for item in items.iter_mut() {
        let most = loan_most(owner, holder);
        let (loan, after) = number_at(rest, most)?;
        holder += 1;
        rest = after;
        *item = loan;
    }
    Ok(rest)
}

// The most that an owner lends to a holder. To itself it lends nothing.
fn loan_most(owner: u32, holder: u32) -> u64
    ensures { result ≡ loan_most owner holder }
{
    if holder == owner { 0 } else { ALPHA_MAX }
}

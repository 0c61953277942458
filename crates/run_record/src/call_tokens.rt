//! Requests in the line of an entry, and the fields that they share with replies. Each reader is given what is
//! left of the line, and answers its value and what is left after it.
ghost use Rattle.std.specs.Prelude.{◌≡◌, ◌<◌, ◌≤◌, ◌^◌, IfOk, neg_ℤ, pos};
ghost use Rattle.run_model.specs.CallBytes.{IsRequestOf};
ghost use Rattle.run_record.specs.Splitting.{tokens};
ghost use Rattle.run_record.specs.Fields.{Gives, in_line};
ghost use Rattle.run_record.specs.CallTokens.{any_number_at, name_at, whole_wide, any_signed_at, word_due, conit_at, write_at, held_at, reserve_at, release_at, read_at, request_at};

use crate::entry_words::{RequestWord, request_word};
use crate::fields::{number_at, op_at, token_at};
use crate::fronts::wide_in_front;
use crate::line_fault::LineFault;
use crate::lists::{ListEnd, needs_at, weight_at, weights_at};
use run_model::{LineKind, Request};
use tact_base::{AMOUNT_MAX, KEY_MAX, TokenFault, whole_number};

/// Any number of 64 bits.
pub(crate) fn any_number_at(rest: &[u8]) -> Result<(u64, &[u8]), LineFault>
    ensures { Gives (λ x. (x.0, tokens x.1.now)) result (any_number_at (tokens rest.now)) }
{
    number_at(rest, u64::MAX)
}

/// A conit or a replica that a reply names.
pub(crate) fn name_at(rest: &[u8]) -> Result<(u32, &[u8]), LineFault>
    ensures within { IfOk result (λ x. x.0 < 256) }
    ensures name { Gives (λ x. (x.0, tokens x.1.now)) result (name_at (tokens rest.now)) }
{
    let (number, rest) = number_at(rest, 255)?;
    Ok((number as u32, rest))
}

/// The number with a minus before it.
pub(crate) fn negated(size: u64) -> i64
    requires { size ≤ 2 ^ 63 }
    ensures { result ≡ neg_ℤ (pos size) }
{
    if size == 0 { 0 } else { -1 - (size - 1) as i64 }
}

// The signed number of 64 bits that the whole token is.
fn whole_wide(token: &[u8]) -> Result<i64, TokenFault>
    ensures { result ≡ whole_wide token.now }
{
    match token {
        [b'-', digits @ ..] => Ok(negated(whole_number(digits, 1 << 63)?)),
        digits => Ok(whole_number(digits, i64::MAX as u64)? as i64),
    }
}

// The same in a line.
fn wide_of(token: &[u8]) -> Result<i64, LineFault>
    ensures { Gives (λ x. x) result (in_line (whole_wide token.now)) }
{
    match whole_wide(token) {
        Ok(number) => Ok(number),
        Err(TokenFault::NotNumber) => Err(LineFault::Kind(LineKind::NotNumber)),
        Err(TokenFault::OutOfRange) => Err(LineFault::Kind(LineKind::OutOfRange)),
    }
}

/// Any signed number of 64 bits.
#[tactic(auto, unfolding(crate::specs::CallTokens::any_signed_at))]
pub(crate) fn any_signed_at(rest: &[u8]) -> Result<(i64, &[u8]), LineFault>
    ensures { Gives (λ x. (x.0, tokens x.1.now)) result (any_signed_at (tokens rest.now)) }
{
    if let Some((number, after)) = wide_in_front(rest) {
        return Ok((number, after));
    }
    let (token, rest) = token_at(rest)?;
    let number = wide_of(token)?;
    Ok((number, rest))
}

/// What is left after a word that must stand. Another token is of this kind.
#[tactic(auto, unfolding(crate::specs::CallTokens::word_due))]
pub(crate) fn word_due<'a>(
    rest: &'a [u8],
    word: &[u8],
    kind: LineKind,
) -> Result<&'a [u8], LineFault>
    ensures { Gives (λ x. tokens x.now) result (word_due word.now kind (tokens rest.now)) }
{
    let (token, rest) = token_at(rest)?;
    if token == word {
        Ok(rest)
    } else {
        Err(LineFault::Kind(kind))
    }
}

/// One of the conits.
pub(crate) fn conit_at(rest: &[u8], conits: u32) -> Result<(u32, &[u8]), LineFault>
    requires { 0 < conits }
    ensures within { IfOk result (λ x. x.0 < conits) }
    ensures conit { Gives (λ x. (x.0, tokens x.1.now)) result (conit_at conits (tokens rest.now)) }
{
    let (number, rest) = number_at(rest, u64::from(conits - 1))?;
    Ok((number as u32, rest))
}

/// A request, by its word. `UnknownWord` at any other word.
#[tactic(auto, unfolding(crate::specs::CallTokens::request_at))]
pub(crate) fn request_at(rest: &[u8], conits: u32) -> Result<(Request, &[u8]), LineFault>
    requires { 0 < conits }
    ensures within { IfOk result (λ x. IsRequestOf conits x.0) }
    ensures request { Gives (λ x. (x.0, tokens x.1.now)) result (request_at conits (tokens rest.now)) }
{
    let (token, rest) = token_at(rest)?;
    match request_word(token) {
        Some(RequestWord::Write) => write_at(rest, conits),
        Some(RequestWord::Held) => held_at(rest, conits),
        Some(RequestWord::Reserve) => reserve_at(rest, conits),
        Some(RequestWord::Release) => release_at(rest, conits),
        Some(RequestWord::Read) => read_at(rest, conits),
        None => Err(LineFault::Kind(LineKind::UnknownWord)),
    }
}

// `write OP WEIGHT..`, behind its word.
#[tactic(auto, unfolding(crate::specs::CallTokens::write_at))]
fn write_at(rest: &[u8], conits: u32) -> Result<(Request, &[u8]), LineFault>
    requires { 0 < conits }
    ensures within { IfOk result (λ x. IsRequestOf conits x.0) }
    ensures request { Gives (λ x. (x.0, tokens x.1.now)) result (write_at conits (tokens rest.now)) }
{
    let (op, rest) = op_at(rest)?;
    let (weights, rest) = match weights_at(rest, conits, ListEnd::Equals) {
        Ok(read) => read,
        Err(fault) => return Err(fault),
    };
    Ok((Request::Write { weights, op }, rest))
}

// `held OP WEIGHT`
#[tactic(auto, unfolding(crate::specs::CallTokens::held_at))]
fn held_at(rest: &[u8], conits: u32) -> Result<(Request, &[u8]), LineFault>
    requires { 0 < conits }
    ensures within { IfOk result (λ x. IsRequestOf conits x.0) }
    ensures request { Gives (λ x. (x.0, tokens x.1.now)) result (held_at conits (tokens rest.now)) }
{
    let (op, rest) = op_at(rest)?;
    let (weight, rest) = weight_at(rest, conits)?;
    Ok((Request::Held { weight, op }, rest))
}

// `reserve C AMOUNT`
#[tactic(auto, unfolding(crate::specs::CallTokens::reserve_at))]
fn reserve_at(rest: &[u8], conits: u32) -> Result<(Request, &[u8]), LineFault>
    requires { 0 < conits }
    ensures within { IfOk result (λ x. IsRequestOf conits x.0) }
    ensures request { Gives (λ x. (x.0, tokens x.1.now)) result (reserve_at conits (tokens rest.now)) }
{
    let (conit, rest) = conit_at(rest, conits)?;
    let (amount, rest) = number_at(rest, AMOUNT_MAX)?;
    Ok((Request::Reserve { conit, amount }, rest))
}

// `release C AMOUNT`
#[tactic(auto, unfolding(crate::specs::CallTokens::release_at))]
fn release_at(rest: &[u8], conits: u32) -> Result<(Request, &[u8]), LineFault>
    requires { 0 < conits }
    ensures within { IfOk result (λ x. IsRequestOf conits x.0) }
    ensures request { Gives (λ x. (x.0, tokens x.1.now)) result (release_at conits (tokens rest.now)) }
{
    let (conit, rest) = conit_at(rest, conits)?;
    let (amount, rest) = number_at(rest, AMOUNT_MAX)?;
    Ok((Request::Release { conit, amount }, rest))
}

// `read KEY NEED..`
#[tactic(auto, unfolding(crate::specs::CallTokens::read_at))]
fn read_at(rest: &[u8], conits: u32) -> Result<(Request, &[u8]), LineFault>
    requires { 0 < conits }
    ensures within { IfOk result (λ x. IsRequestOf conits x.0) }
    ensures request { Gives (λ x. (x.0, tokens x.1.now)) result (read_at conits (tokens rest.now)) }
{
    let (key, rest) = number_at(rest, KEY_MAX)?;
    let (needs, rest) = match needs_at(rest, conits, ListEnd::Equals) {
        Ok(read) => read,
        Err(fault) => return Err(fault),
    };
    Ok((Request::Read { key, needs }, rest))
}

//! The fields of a line. Each reader is given what is left of the line, and answers its value and what
//! is left after it.
ghost use Rattle.std.specs.Prelude.{◌≡◌, ◌≢◌, ◌-◌, ◌<◌, ◌≤◌, ◌^◌, IfOk, unsigned_abs};
ghost use Rattle.tact_base.specs.Numbers.{whole_number, whole_signed};
ghost use Rattle.tact_base.specs.declared.limits.TheConstants.{CLIENTS};
ghost use Rattle.run_model.specs.Ranges.{IsOpInRange};
ghost use Rattle.run_record.specs.Splitting.{tokens};
ghost use Rattle.run_record.specs.Fields.{Gives, token_at, in_line, number_at, count_at, signed_at, replica_at, other_replica_at, client_at, put_at, add_at, shift_at, op_at, end_at};

use crate::fronts::{digit_in_front, number_in_front, past_word, whole_signed_in_front};
use crate::line_fault::LineFault;
use crate::splitting::next_token;
use run_model::LineKind;
use tact_base::{CLIENTS, KEY_MAX, Op, TokenFault, VALUE_MAX, whole_number, whole_signed};

/// The next token. `Missing` where the line ends.
#[tactic(auto, unfolding(crate::specs::Fields::token_at))]
pub fn token_at(rest: &[u8]) -> Result<(&[u8], &[u8]), LineFault>
    ensures { Gives (λ x. (x.0.now, tokens x.1.now)) result (token_at (tokens rest.now)) }
{
    match next_token(rest) {
        Some(next) => Ok(next),
        None => Err(LineFault::Kind(LineKind::Missing)),
    }
}

fn number_of(token: &[u8], most: u64) -> Result<u64, LineFault>
    ensures within { IfOk result (λ x. x ≤ most) }
    ensures number { Gives (λ x. x) result (in_line (whole_number token.now most)) }
{
    match whole_number(token, most) {
        Ok(number) => Ok(number),
        Err(TokenFault::NotNumber) => Err(LineFault::Kind(LineKind::NotNumber)),
        Err(TokenFault::OutOfRange) => Err(LineFault::Kind(LineKind::OutOfRange)),
    }
}

fn signed_of(token: &[u8], size: u64) -> Result<i64, LineFault>
    requires { size < 2 ^ 63 }
    ensures within { IfOk result (λ x. unsigned_abs x ≤ size) }
    ensures number { Gives (λ x. x) result (in_line (whole_signed token.now size)) }
{
    match whole_signed(token, size) {
        Ok(number) => Ok(number),
        Err(TokenFault::NotNumber) => Err(LineFault::Kind(LineKind::NotNumber)),
        Err(TokenFault::OutOfRange) => Err(LineFault::Kind(LineKind::OutOfRange)),
    }
}

/// A number of at most `most`.
pub fn number_at(rest: &[u8], most: u64) -> Result<(u64, &[u8]), LineFault>
    ensures within { IfOk result (λ x. x.0 ≤ most) }
    ensures number { Gives (λ x. (x.0, tokens x.1.now)) result (number_at most (tokens rest.now)) }
{
    match number_in_front(rest, most) {
        Some((number, after)) => Ok((number, after)),
        None => number_of_token_at(rest, most),
    }
}

// The same of any token.
#[tactic(auto, unfolding(crate::specs::Fields::number_at))]
fn number_of_token_at(rest: &[u8], most: u64) -> Result<(u64, &[u8]), LineFault>
    ensures within { IfOk result (λ x. x.0 ≤ most) }
    ensures number { Gives (λ x. (x.0, tokens x.1.now)) result (number_at most (tokens rest.now)) }
{
    let (token, rest) = token_at(rest)?;
    let number = number_of(token, most)?;
    Ok((number, rest))
}

/// The same of a number that almost always is one digit, which is read at once.
pub fn small_at(rest: &[u8], most: u64) -> Result<(u64, &[u8]), LineFault>
    ensures within { IfOk result (λ x. x.0 ≤ most) }
    ensures number { Gives (λ x. (x.0, tokens x.1.now)) result (number_at most (tokens rest.now)) }
{
    match digit_in_front(rest, most) {
        Some((number, after)) => Ok((number, after)),
        None => number_of_token_at(rest, most),
    }
}

/// A number from `least` to `most`.
#[tactic(auto, unfolding(crate::specs::Fields::count_at))]
pub fn count_at(rest: &[u8], least: u32, most: u32) -> Result<(u32, &[u8]), LineFault>
    ensures within { IfOk result (λ x. (least ≤ x.0) × (x.0 ≤ most)) }
    ensures count { Gives (λ x. (x.0, tokens x.1.now)) result (count_at least most (tokens rest.now)) }
{
    let (number, rest) = number_at(rest, u64::from(most))?;
    let number = number as u32;
    if number < least {
        return Err(LineFault::Kind(LineKind::OutOfRange));
    }
    Ok((number, rest))
}

/// A number from `-size` to `size`.
pub fn signed_at(rest: &[u8], size: u64) -> Result<(i64, &[u8]), LineFault>
    requires { size < 2 ^ 63 }
    ensures within { IfOk result (λ x. unsigned_abs x.0 ≤ size) }
    ensures number { Gives (λ x. (x.0, tokens x.1.now)) result (signed_at size (tokens rest.now)) }
{
    match whole_signed_in_front(rest, size) {
        Some((number, after)) => Ok((number, after)),
        None => signed_of_token_at(rest, size),
    }
}

// The same of any token.
#[tactic(auto, unfolding(crate::specs::Fields::signed_at))]
fn signed_of_token_at(rest: &[u8], size: u64) -> Result<(i64, &[u8]), LineFault>
    requires { size < 2 ^ 63 }
    ensures within { IfOk result (λ x. unsigned_abs x.0 ≤ size) }
    ensures number { Gives (λ x. (x.0, tokens x.1.now)) result (signed_at size (tokens rest.now)) }
{
    let (token, rest) = token_at(rest)?;
    let number = signed_of(token, size)?;
    Ok((number, rest))
}

/// One of the replicas below `replicas`.
pub fn replica_at(rest: &[u8], replicas: u32) -> Result<(u32, &[u8]), LineFault>
    requires { 0 < replicas }
    ensures within { IfOk result (λ x. x.0 < replicas) }
    ensures replica { Gives (λ x. (x.0, tokens x.1.now)) result (replica_at replicas (tokens rest.now)) }
{
    let (number, rest) = small_at(rest, u64::from(replicas - 1))?;
    Ok((number as u32, rest))
}

/// One of the replicas below `replicas` that isn't `first`: `SameReplica` where it is.
#[tactic(auto, unfolding(crate::specs::Fields::other_replica_at))]
pub fn other_replica_at(rest: &[u8], replicas: u32, first: u32) -> Result<(u32, &[u8]), LineFault>
    requires { 0 < replicas }
    ensures within { IfOk result (λ x. x.0 < replicas) }
    ensures other { IfOk result (λ x. x.0 ≢ first) }
    ensures replica { Gives (λ x. (x.0, tokens x.1.now)) result (other_replica_at replicas first (tokens rest.now)) }
{
    let (second, rest) = replica_at(rest, replicas)?;
    if second == first {
        return Err(LineFault::Kind(LineKind::SameReplica));
    }
    Ok((second, rest))
}

/// One of a replica's clients.
pub fn client_at(rest: &[u8]) -> Result<(u32, &[u8]), LineFault>
    ensures within { IfOk result (λ x. x.0 < CLIENTS) }
    ensures client { Gives (λ x. (x.0, tokens x.1.now)) result (client_at (tokens rest.now)) }
{
    let (number, rest) = small_at(rest, u64::from(CLIENTS - 1))?;
    Ok((number as u32, rest))
}

#[tactic(auto, unfolding(crate::specs::Fields::put_at))]
fn put_at(rest: &[u8]) -> Result<(Op, &[u8]), LineFault>
    ensures within { IfOk result (λ x. IsOpInRange x.0) }
    ensures op { Gives (λ x. (x.0, tokens x.1.now)) result (put_at (tokens rest.now)) }
{
    let (key, rest) = number_at(rest, KEY_MAX)?;
    let (value, rest) = signed_at(rest, VALUE_MAX)?;
    Ok((Op::Put { key, value }, rest))
}

#[tactic(auto, unfolding(crate::specs::Fields::add_at))]
fn add_at(rest: &[u8]) -> Result<(Op, &[u8]), LineFault>
    ensures within { IfOk result (λ x. IsOpInRange x.0) }
    ensures op { Gives (λ x. (x.0, tokens x.1.now)) result (add_at (tokens rest.now)) }
{
    let (key, rest) = number_at(rest, KEY_MAX)?;
    let (delta, rest) = signed_at(rest, VALUE_MAX)?;
    Ok((Op::Add { key, delta }, rest))
}

#[tactic(auto, unfolding(crate::specs::Fields::shift_at))]
fn shift_at(rest: &[u8]) -> Result<(Op, &[u8]), LineFault>
    ensures within { IfOk result (λ x. IsOpInRange x.0) }
    ensures op { Gives (λ x. (x.0, tokens x.1.now)) result (shift_at (tokens rest.now)) }
{
    let (from, rest) = number_at(rest, KEY_MAX)?;
    let (to, rest) = number_at(rest, KEY_MAX)?;
    let (amount, rest) = number_at(rest, VALUE_MAX)?;
    Ok((Op::Shift { from, to, amount }, rest))
}

/// `put KEY VALUE`, `add KEY DELTA` or `shift KEY KEY AMOUNT`. `UnknownWord` at any other word.
#[tactic(auto, unfolding(crate::specs::Fields::op_at))]
pub fn op_at(rest: &[u8]) -> Result<(Op, &[u8]), LineFault>
    ensures within { IfOk result (λ x. IsOpInRange x.0) }
    ensures op { Gives (λ x. (x.0, tokens x.1.now)) result (op_at (tokens rest.now)) }
{
    if let Some(after) = past_word(rest, b"put") {
        return put_at(after);
    }
    if let Some(after) = past_word(rest, b"add") {
        return add_at(after);
    }
    if let Some(after) = past_word(rest, b"shift") {
        return shift_at(after);
    }
    any_op_at(rest)
}

// The same of any token.
#[tactic(auto, unfolding(crate::specs::Fields::op_at))]
fn any_op_at(rest: &[u8]) -> Result<(Op, &[u8]), LineFault>
    ensures within { IfOk result (λ x. IsOpInRange x.0) }
    ensures op { Gives (λ x. (x.0, tokens x.1.now)) result (op_at (tokens rest.now)) }
{
    let (word, rest) = token_at(rest)?;
    if word == b"put".as_slice() {
        put_at(rest)
    } else if word == b"add".as_slice() {
        add_at(rest)
    } else if word == b"shift".as_slice() {
        shift_at(rest)
    } else {
        Err(LineFault::Kind(LineKind::UnknownWord))
    }
}

/// No token follows. One that does is a fault of this kind.
#[tactic(auto, unfolding(crate::specs::Fields::end_at))]
pub fn end_at(rest: &[u8], kind: LineKind) -> Result<(), LineFault>
    ensures { Gives (λ _. tt) result (end_at kind (tokens rest.now)) }
{
    match next_token(rest) {
        Some(_) => Err(LineFault::Kind(kind)),
        None => Ok(()),
    }
}

//! Numbers, words, weights and needs at the front of what is left of a line, read in one pass over their bytes. They
//! are found where they have their plain form; else the readers of fields say what stands there.
ghost use Rattle.std.specs.Prelude.{◌≡◌, ◌≢◌, ◌≤◌, ◌<◌, ◌^◌, ◌∷◌, ◌++◌, ℕ, List, IfSome, None, Ok, unsigned_abs};
ghost use Rattle.tact_base.specs.Numbers.{ReadsNumber, whole_number, whole_signed};
ghost use Rattle.run_record.specs.CallTokens.{whole_wide};
ghost use Rattle.run_record.specs.Fields.{in_line};
ghost use Rattle.run_record.specs.Fronts.{Begins, IsPast, IsNext};
ghost use Rattle.run_record.specs.Lists.{need_of, weight_of};

use crate::call_tokens::negated;
use tact_base::{AMOUNT_MAX, MOMENT_MAX, Need, WEIGHT_MAX, Weight};

// A number that passes this isn't read on here.
const DIGITS_MAX: u64 = 1_000_000_000_000_000_000;

// The number of the digits in front, and how many they are.
fn plain_digits(bytes: &[u8]) -> Option<(u64, usize)>
    ensures { IfSome result (λ x. ReadsNumber bytes.now 0 (Ok x.0) x.1) }
{
    if bytes.is_empty() || !bytes[0].is_ascii_digit() {
        return None;
    }
    let mut value = u64::from(bytes[0] - b'0');
    for place in 1..bytes.len() {
        if !bytes[place].is_ascii_digit() {
            return Some((value, place));
        }
        if value > DIGITS_MAX {
            return None;
        }
        value = 10 * value + u64::from(bytes[place] - b'0');
    }
    Some((value, bytes.len()))
}

// The same of a number that is at most `most`, and what follows it.
fn digits_in_front(bytes: &[u8], most: u64) -> Option<(u64, &[u8])>
    ensures within { IfSome result (λ x. x.0 ≤ most) }
    ensures begins { IfSome result (λ x. Begins (λ part. whole_number part most) bytes.now x.0 x.1.now) }
{
    let (value, count) = plain_digits(bytes)?;
    if value > most {
        return None;
    }
    Some((value, &bytes[count..]))
}

// The same, with a minus before the digits or without.
fn signed_in_front(bytes: &[u8], size: u64) -> Option<(i64, &[u8])>
    requires { size < 2 ^ 63 }
    ensures { IfSome result (λ x. Begins (λ part. whole_signed part size) bytes.now x.0 x.1.now) }
{
    match bytes {
        [b'-', digits @ ..] => negative_in_front(digits, size),
        _ => positive_in_front(bytes, size),
    }
}

fn positive_in_front(bytes: &[u8], size: u64) -> Option<(i64, &[u8])>
    requires { size < 2 ^ 63 }
    ensures { IfSome result (λ x. Begins (λ part. whole_signed part size) bytes.now x.0 x.1.now) }
{
    let (value, count) = plain_digits(bytes)?;
    if value > size {
        return None;
    }
    Some((value as i64, &bytes[count..]))
}

fn negative_in_front(digits: &[u8], size: u64) -> Option<(i64, &[u8])>
    requires { size < 2 ^ 63 }
    ensures { IfSome result (λ x. Begins (λ part. whole_signed part size) (45 ∷ digits.now) x.0 x.1.now) }
{
    let (value, count) = plain_digits(digits)?;
    if value > size {
        return None;
    }
    Some((negated(value), &digits[count..]))
}

/// What is left past a word in front and the space after it; `None` where they don't stand there.
#[inline(always)]
pub fn past_word<'a>(rest: &'a [u8], word: &[u8]) -> Option<&'a [u8]>
    ensures past { IfSome result (λ after. rest.now ≡ word.now ++ 32 ∷ after.now) }
    ensures none { result ≡ None → (after : List ℕ) → rest.now ≢ word.now ++ 32 ∷ after }
{
    let size = word.len();
    if rest.len() <= size {
        return None;
    }
    for (place, byte) in word.iter().enumerate() {
        if rest[place] != *byte {
            return None;
        }
    }
    if rest[size] != b' ' {
        return None;
    }
    Some(&rest[size + 1..])
}

// What is left past the space after a token, or past the end of the line, where this follows.
fn past_token(after: &[u8]) -> Option<&[u8]>
    ensures { IfSome result (λ rest. IsPast after.now rest.now) }
{
    match after {
        [] => Some(after),
        [b' ', rest @ ..] => Some(rest),
        _ => None,
    }
}

// The number in front that a colon follows, and what is left past that.
fn part_in_front(bytes: &[u8], most: u64) -> Option<(u64, &[u8])>
    ensures within { IfSome result (λ x. x.0 ≤ most) }
    ensures begins { IfSome result (λ x. Begins (λ part. whole_number part most) bytes.now x.0 (58 ∷ x.1.now)) }
{
    let (value, after) = digits_in_front(bytes, most)?;
    let rest = past_colon(after)?;
    Some((value, rest))
}

// What is left past a colon.
fn past_colon(after: &[u8]) -> Option<&[u8]>
    ensures { IfSome result (λ rest. after.now ≡ 58 ∷ rest.now) }
{
    match after {
        [b':', rest @ ..] => Some(rest),
        _ => None,
    }
}

/// The number that the token in front is, and what is left after it.
pub(crate) fn number_in_front(bytes: &[u8], most: u64) -> Option<(u64, &[u8])>
    ensures within { IfSome result (λ x. x.0 ≤ most) }
    ensures next { IfSome result (λ x. IsNext (λ token. in_line (whole_number token most)) bytes.now x.0 x.1.now) }
{
    let (value, after) = digits_in_front(bytes, most)?;
    let rest = past_token(after)?;
    Some((value, rest))
}

/// The same of a token that is one digit.
pub(crate) fn digit_in_front(bytes: &[u8], most: u64) -> Option<(u64, &[u8])>
    ensures within { IfSome result (λ x. x.0 ≤ most) }
    ensures next { IfSome result (λ x. IsNext (λ token. in_line (whole_number token most)) bytes.now x.0 x.1.now) }
{
    match bytes {
        [digit, b' ', rest @ ..] if digit.is_ascii_digit() && u64::from(*digit - b'0') <= most => {
            Some((u64::from(*digit - b'0'), rest))
        }
        [digit] if digit.is_ascii_digit() && u64::from(*digit - b'0') <= most => {
            Some((u64::from(*digit - b'0'), &[]))
        }
        _ => None,
    }
}

/// The signed number that the token in front is, and what is left after it.
pub(crate) fn whole_signed_in_front(bytes: &[u8], size: u64) -> Option<(i64, &[u8])>
    requires { size < 2 ^ 63 }
    ensures within { IfSome result (λ x. unsigned_abs x.0 ≤ size) }
    ensures next { IfSome result (λ x. IsNext (λ token. in_line (whole_signed token size)) bytes.now x.0 x.1.now) }
{
    let (value, after) = signed_in_front(bytes, size)?;
    let rest = past_token(after)?;
    Some((value, rest))
}

/// The signed number that the token in front is, and what is left after it. -2^63 isn't found.
pub(crate) fn wide_in_front(bytes: &[u8]) -> Option<(i64, &[u8])>
    ensures within { IfSome result (λ x. unsigned_abs x.0 < 2 ^ 63) }
    ensures next { IfSome result (λ x. IsNext (λ token. in_line (whole_wide token)) bytes.now x.0 x.1.now) }
{
    let (number, after) = signed_in_front(bytes, i64::MAX as u64)?;
    let rest = past_token(after)?;
    Some((number, rest))
}

/// The weight that the token in front is, and what is left after it.
pub(crate) fn weight_in_front(bytes: &[u8], conits: u32) -> Option<(Weight, &[u8])>
    requires { 0 < conits }
    ensures { IfSome result (λ x. IsNext (weight_of conits) bytes.now x.0 x.1.now) }
{
    let (conit, rest) = part_in_front(bytes, u64::from(conits - 1))?;
    let (nweight, after) = signed_in_front(rest, WEIGHT_MAX)?;
    let rest = past_colon(after)?;
    let (oweight, after) = digits_in_front(rest, WEIGHT_MAX)?;
    let rest = past_token(after)?;
    let weight = Weight {
        conit: conit as u32,
        nweight,
        oweight,
    };
    Some((weight, rest))
}

/// The need that the token in front is, and what is left after it.
pub(crate) fn need_in_front(bytes: &[u8], conits: u32) -> Option<(Need, &[u8])>
    requires { 0 < conits }
    ensures { IfSome result (λ x. IsNext (need_of conits) bytes.now x.0 x.1.now) }
{
    let (conit, rest) = part_in_front(bytes, u64::from(conits - 1))?;
    let (num, rest) = part_in_front(rest, AMOUNT_MAX)?;
    let (order, rest) = part_in_front(rest, AMOUNT_MAX)?;
    let (stale, after) = digits_in_front(rest, MOMENT_MAX)?;
    let rest = past_token(after)?;
    let need = Need {
        conit: conit as u32,
        num,
        order,
        stale,
    };
    Some((need, rest))
}

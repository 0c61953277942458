//! Lists in a line: of weights, of needs, and rows of numbers. Each reader is given what is left of the
//! line, and answers its list and what is left after it.
ghost use Rattle.std.specs.Int.{w64};
ghost use Rattle.std.specs.Prelude.{◌≡◌, ◌≤◌, ◌<◌, ◌-◌, ◌^◌, ℕ, suc, List, Result, Ok, IfOk, MatchOption, None, Some, All, FitsSigned, length, take, unsigned_abs, ◌∷◌, []};
ghost use Rattle.tact_base.specs.Numbers.{whole_number};
ghost use Rattle.tact_base.specs.declared.limits.TheConstants.{HISTORY_MAX, LIST_MAX, WEIGHT_MAX};
ghost use Rattle.run_model.specs.Bytes.{AreWeightsOf, AreNeedsOf};
ghost use Rattle.run_model.specs.declared.status.LineKind.{LineKind};
ghost use Rattle.run_record.specs.Splitting.{tokens};
ghost use Rattle.run_record.specs.CallTokens.{any_signed_at, sums_at};
ghost use Rattle.run_record.specs.Fields.{Gives, in_line};
ghost use Rattle.run_record.specs.Lists.{parts_of, three_of, four_of, both, weight_of, need_of, weight_at, need_at, is_end, list_at, weights_at, needs_at, numbers_at, firsts_at};

use crate::call_tokens::any_signed_at;
use crate::fields::{number_at, token_at};
use crate::fronts::{need_in_front, weight_in_front};
use crate::line_fault::LineFault;
use crate::splitting::{next_token, place_of};
use run_model::{LineKind, Sums};
use std::alloc::Global;
use tact_base::{
    AMOUNT_MAX, ConitList, HISTORY_MAX, LIST_MAX, MOMENT_MAX, Need, Needs, Numbers, OnConit,
    TokenFault, WEIGHT_MAX, Weight, Weights, whole_number, whole_signed,
};

/// Where a list of a line ends before it is full.
#[derive(Clone, Copy, Debug, PartialEq, Eq)]
pub enum ListEnd {
    /// At the end of the line.
    Line,
    /// At the token `=`, or at the end of the line.
    Equals,
}

// What stands before the first colon, and what stands after it, if there is one.
fn next_part(token: &[u8]) -> (&[u8], Option<&[u8]>)
    ensures { MatchOption result.1 (parts_of token.now ≡ result.0.now ∷ []) (λ rest. parts_of token.now ≡ result.0.now ∷ parts_of rest.now) }
{
    let place = place_of(token, b':');
    if place < token.len() {
        (&token[..place], Some(&token[place + 1..]))
    } else {
        (token, None)
    }
}

// The parts of a token, if there are just three.
fn three_parts(token: &[u8]) -> Option<(&[u8], &[u8], &[u8])>
    ensures { MatchOption result (three_of (parts_of token.now) ≡ None) (λ x. three_of (parts_of token.now) ≡ Some (x.0.now, x.1.now, x.2.now)) }
{
    let (first, rest) = next_part(token);
    let (second, rest) = next_part(rest?);
    let (third, rest) = next_part(rest?);
    match rest {
        None => Some((first, second, third)),
        Some(_) => None,
    }
}

// The parts of a token, if there are just four.
fn four_parts(token: &[u8]) -> Option<(&[u8], &[u8], &[u8], &[u8])>
    ensures { MatchOption result (four_of (parts_of token.now) ≡ None) (λ x. four_of (parts_of token.now) ≡ Some (x.0.now, x.1.now, x.2.now, x.3.now)) }
{
    let (first, rest) = next_part(token);
    let (second, third, fourth) = three_parts(rest?)?;
    Some((first, second, third, fourth))
}

// Two numbers of one token.
fn both<A: Copy, B: Copy>(
    first: Result<A, TokenFault>,
    second: Result<B, TokenFault>,
) -> Result<(A, B), TokenFault>
    ensures { result ≡ both first second }
{
    match first {
        Ok(x) => match second {
            Ok(y) => Ok((x, y)),
            Err(fault) => Err(fault),
        },
        Err(TokenFault::NotNumber) => Err(TokenFault::NotNumber),
        Err(TokenFault::OutOfRange) => match second {
            Err(TokenFault::NotNumber) => Err(TokenFault::NotNumber),
            _ => Err(TokenFault::OutOfRange),
        },
    }
}

// What the numbers of a token are in a line.
fn in_line<A: Copy>(numbers: Result<A, TokenFault>) -> Result<A, LineFault>
    ensures { Gives (λ x. x) result (in_line numbers) }
{
    match numbers {
        Ok(x) => Ok(x),
        Err(TokenFault::NotNumber) => Err(LineFault::Kind(LineKind::NotNumber)),
        Err(TokenFault::OutOfRange) => Err(LineFault::Kind(LineKind::OutOfRange)),
    }
}

// The number of a conit below `conits`.
fn conit_of(token: &[u8], conits: u32) -> Result<u32, TokenFault>
    requires { 0 < conits }
    ensures number { result ≡ whole_number token.now (conits - 1) }
    ensures within { IfOk result (λ conit. conit < conits) }
{
    let conit = whole_number(token, u64::from(conits - 1))?;
    Ok(conit as u32)
}

// The weight that a token is.
#[tactic(auto, unfolding(crate::specs::Lists::weight_of))]
fn weight_of(token: &[u8], conits: u32) -> Result<Weight, LineFault>
    requires { 0 < conits }
    ensures { Gives (λ x. x) result (weight_of conits token.now) }
{
    match three_parts(token) {
        None => Err(LineFault::Kind(LineKind::NotNumber)),
        Some((conit, nweight, oweight)) => {
            let change = whole_signed(nweight, WEIGHT_MAX);
            let order = whole_number(oweight, WEIGHT_MAX);
            let (conit, (nweight, oweight)) = in_line(both(
                conit_of(conit, conits),
                both(change, order),
            ))?;
            Ok(Weight {
                conit,
                nweight,
                oweight,
            })
        }
    }
}

// The need that a token is.
#[tactic(auto, unfolding(crate::specs::Lists::need_of))]
fn need_of(token: &[u8], conits: u32) -> Result<Need, LineFault>
    requires { 0 < conits }
    ensures { Gives (λ x. x) result (need_of conits token.now) }
{
    match four_parts(token) {
        None => Err(LineFault::Kind(LineKind::NotNumber)),
        Some((conit, num, order, stale)) => {
            let num = whole_number(num, AMOUNT_MAX);
            let order = whole_number(order, AMOUNT_MAX);
            let stale = whole_number(stale, MOMENT_MAX);
            let (conit, (num, (order, stale))) = in_line(both(
                conit_of(conit, conits),
                both(num, both(order, stale)),
            ))?;
            Ok(Need {
                conit,
                num,
                order,
                stale,
            })
        }
    }
}

// A weight whose conit is at least `least`.
#[tactic(auto, unfolding(crate::specs::Lists::weight_at))]
fn rising_weight_at(rest: &[u8], conits: u32, least: u32) -> Result<(Weight, &[u8]), LineFault>
    requires { 0 < conits }
    ensures within { IfOk result (λ x. suc x.0.conit < 2 ^ 32) }
    ensures weight { Gives (λ x. (x.0, tokens x.1.now)) result (weight_at conits least (tokens rest.now)) }
{
    let (token, rest) = token_at(rest)?;
    let weight = weight_of(token, conits)?;
    if weight.conit < least {
        return Err(LineFault::Kind(LineKind::Unordered));
    }
    Ok((weight, rest))
}

// A need whose conit is at least `least`.
#[tactic(auto, unfolding(crate::specs::Lists::need_at))]
fn rising_need_at(rest: &[u8], conits: u32, least: u32) -> Result<(Need, &[u8]), LineFault>
    requires { 0 < conits }
    ensures within { IfOk result (λ x. suc x.0.conit < 2 ^ 32) }
    ensures need { Gives (λ x. (x.0, tokens x.1.now)) result (need_at conits least (tokens rest.now)) }
{
    let (token, rest) = token_at(rest)?;
    let need = need_of(token, conits)?;
    if need.conit < least {
        return Err(LineFault::Kind(LineKind::Unordered));
    }
    Ok((need, rest))
}

// Whether a list ends where this is left of the line.
fn is_end(rest: &[u8], end: ListEnd) -> bool
    ensures { result ≡ is_end end (tokens rest.now) }
{
    match rest {
        [] => true,
        [first, ..] if *first != b' ' && *first != b'=' => false,
        _ => ends_by(rest, end),
    }
}

fn ends_by(rest: &[u8], end: ListEnd) -> bool
    ensures { result ≡ is_end end (tokens rest.now) }
{
    match next_token(rest) {
        None => true,
        Some((token, _)) => match end {
            ListEnd::Line => false,
            ListEnd::Equals => token == b"=".as_slice(),
        },
    }
}

// What stands in a list by conit.
trait Listed: Copy {
    // How one is read whose conit is at least some number.
    ghost item_at: { ℕ → ℕ → List (List ℕ) → Result (Self × List (List ℕ)) LineKind };

    // What the conit of the next one is at least.
    ghost after: { Self → ℕ };

    // Reads one.
    fn read_at(rest: &[u8], conits: u32, least: u32) -> Result<(Self, &[u8]), LineFault>
        requires { 0 < conits }
        ensures within { IfOk result (λ x. after x.0 < 2 ^ 32) }
        ensures exact { Gives (λ x. (x.0, tokens x.1.now)) result (item_at conits least (tokens rest.now)) };

    // What the conit of the next one is at least.
    fn least_after(&self) -> u32
        requires { after self.now < 2 ^ 32 }
        ensures { result ≡ after self.now };
}

impl Listed for Weight {
    ghost item_at = { weight_at };

    ghost after = { λ weight. suc weight.conit };

    fn read_at(rest: &[u8], conits: u32, least: u32) -> Result<(Self, &[u8]), LineFault> {
        match weight_in_front(rest, conits) {
            Some((weight, after)) if weight.conit >= least => Ok((weight, after)),
            _ => rising_weight_at(rest, conits, least),
        }
    }

    fn least_after(&self) -> u32 {
        self.conit + 1
    }
}

impl Listed for Need {
    ghost item_at = { need_at };

    ghost after = { λ need. suc need.conit };

    fn read_at(rest: &[u8], conits: u32, least: u32) -> Result<(Self, &[u8]), LineFault> {
        match need_in_front(rest, conits) {
            Some((need, after)) if need.conit >= least => Ok((need, after)),
            _ => rising_need_at(rest, conits, least),
        }
    }

    fn least_after(&self) -> u32 {
        self.conit + 1
    }
}

// Sums stand without a conit.
impl Listed for i64 {
    ghost item_at = { λ conits least. any_signed_at };

    ghost after = { λ sum. 0 };

    fn read_at(rest: &[u8], _conits: u32, _least: u32) -> Result<(Self, &[u8]), LineFault> {
        any_signed_at(rest)
    }

    fn least_after(&self) -> u32 {
        0
    }
}

// Reads items until the list ends or is full: how many there are, and what is left after them.
fn fill<'a, T: Listed>(
    items: &mut [T],
    line: &'a [u8],
    conits: u32,
    end: ListEnd,
) -> Result<(usize, &'a [u8]), LineFault>
    requires { 0 < conits }
    ensures within { IfOk result (λ x. x.0 ≤ length items.new) }
    ensures read { Gives (λ x. (take x.0 items.new, tokens x.1.now)) result
        (list_at (T.item_at conits) T.after (is_end end) (length items.old) 0 (tokens line.now)) }
{
    let mut rest = line;
    let mut least = 0;
    let count = items.len();
    for place in 0..count {
        if is_end(rest, end) {
            return Ok((place, rest));
        }
        let (item, after) = T::read_at(rest, conits, least)?;
        least = item.least_after();
        rest = after;
        items[place] = item;
    }
    Ok((count, rest))
}

/// One weight `CONIT:NWEIGHT:OWEIGHT`. Of its token `NotNumber`, then `OutOfRange`. Takes no memory.
pub fn weight_at(rest: &[u8], conits: u32) -> Result<(Weight, &[u8]), LineFault>
    requires { 0 < conits }
    ensures conit { IfOk result (λ x. x.0.conit < conits) }
    ensures nweight { IfOk result (λ x. unsigned_abs x.0.nweight ≤ WEIGHT_MAX) }
    ensures oweight { IfOk result (λ x. x.0.oweight ≤ WEIGHT_MAX) }
    ensures weight { Gives (λ x. (x.0, tokens x.1.now)) result (weight_at conits 0 (tokens rest.now)) }
{
    let (weight, rest) = Weight::read_at(rest, conits, 0)?;
    Ok((weight, rest))
}

/// At most 4 weights `CONIT:NWEIGHT:OWEIGHT` with rising conits below `conits`, up to where the list ends. Of
/// each token `NotNumber`, then `OutOfRange`, then `Unordered`. A fifth one isn't read. Takes no memory.
pub fn weights_at(rest: &[u8], conits: u32, end: ListEnd) -> Result<(Weights, &[u8]), LineFault>
    requires { 0 < conits }
    ensures within { IfOk result (λ x. AreWeightsOf conits x.0) }
    ensures weights { Gives (λ x. (x.0, tokens x.1.now)) result (weights_at conits end (tokens rest.now)) }
{
    if rest.is_empty() {
        return Ok((ConitList::empty(), rest));
    }
    some_weights_at(rest, conits, end)
}

// The same where there may be some.
fn some_weights_at(rest: &[u8], conits: u32, end: ListEnd) -> Result<(Weights, &[u8]), LineFault>
    requires { 0 < conits }
    ensures within { IfOk result (λ x. AreWeightsOf conits x.0) }
    ensures weights { Gives (λ x. (x.0, tokens x.1.now)) result (weights_at conits end (tokens rest.now)) }
{
    let mut items = [Weight::default(); LIST_MAX];
    let (count, rest) = fill(&mut items, rest, conits, end)?;
    match Weights::new(&items[..count]) {
        Ok(weights) => Ok((weights, rest)),
        Err(_) => unreachable!(),
    }
}

/// At most 4 needs `CONIT:NUM:ORDER:STALE` with rising conits below `conits`, alike.
pub fn needs_at(rest: &[u8], conits: u32, end: ListEnd) -> Result<(Needs, &[u8]), LineFault>
    requires { 0 < conits }
    ensures within { IfOk result (λ x. AreNeedsOf conits x.0) }
    ensures needs { Gives (λ x. (x.0, tokens x.1.now)) result (needs_at conits end (tokens rest.now)) }
{
    if rest.is_empty() {
        return Ok((ConitList::empty(), rest));
    }
    some_needs_at(rest, conits, end)
}

// The same where there may be some.
fn some_needs_at(rest: &[u8], conits: u32, end: ListEnd) -> Result<(Needs, &[u8]), LineFault>
    requires { 0 < conits }
    ensures within { IfOk result (λ x. AreNeedsOf conits x.0) }
    ensures needs { Gives (λ x. (x.0, tokens x.1.now)) result (needs_at conits end (tokens rest.now)) }
{
    let mut items = [Need::default(); LIST_MAX];
    let (count, rest) = fill(&mut items, rest, conits, end)?;
    match Needs::new(&items[..count]) {
        Ok(needs) => Ok((needs, rest)),
        Err(_) => unreachable!(),
    }
}

/// At most 4 sums, to the end of the line. A fifth one isn't read. Takes no memory.
pub(crate) fn sums_at(rest: &[u8]) -> Result<(Sums, &[u8]), LineFault>
    ensures few { IfOk result (λ x. length x.0 ≤ LIST_MAX) }
    ensures wide { IfOk result (λ x. All (FitsSigned w64) x.0) }
    ensures sums { Gives (λ x. (x.0, tokens x.1.now)) result (sums_at (tokens rest.now)) }
{
    let mut items = [0; LIST_MAX];
    let (count, rest) = fill(&mut items, rest, 1, ListEnd::Line)?;
    Ok((Sums::new(&items[..count]), rest))
}

/// Just `count` numbers of at most `most`.
pub fn numbers_at(
    alloc: Global,
    line: &[u8],
    count: u32,
    most: u64,
) -> Result<(Numbers, &[u8]), LineFault>
    ensures size { IfOk result (λ x. length x.0 ≡ count) }
    ensures within { IfOk result (λ x. All (λ number. number ≤ most) x.0) }
    ensures numbers { Gives (λ x. (x.0, tokens x.1.now)) result (numbers_at most count (tokens line.now)) }
{
    let mut numbers = Numbers::new(alloc);
    let mut rest = line;
    for _place in 0..count {
        let (number, after) = number_at(rest, most)?;
        numbers.push(number)?;
        rest = after;
    }
    Ok((numbers, rest))
}

/// The firsts of a sending, one for each replica and each at most 20,000: zeros where the line ends here.
#[tactic(auto, unfolding(crate::specs::Lists::firsts_at))]
pub fn firsts_at(alloc: Global, rest: &[u8], replicas: u32) -> Result<(Numbers, &[u8]), LineFault>
    ensures size { IfOk result (λ x. length x.0 ≡ replicas) }
    ensures within { IfOk result (λ x. All (λ first. first ≤ HISTORY_MAX) x.0) }
    ensures firsts { Gives (λ x. (x.0, tokens x.1.now)) result (firsts_at replicas (tokens rest.now)) }
{
    match next_token(rest) {
        Some(_) => numbers_at(alloc, rest, replicas, HISTORY_MAX),
        None => Ok((Numbers::filled(alloc, 0, replicas)?, rest)),
    }
}

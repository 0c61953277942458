//! Acts and entries in their lines. Each reader is given what is left of the line, and answers its value and what
//! is left after it.
ghost use Rattle.std.specs.Prelude.{◌≡◌, ◌<◌, [], IfOk};
ghost use Rattle.tact_base.specs.Setup.{setup};
ghost use Rattle.run_record.specs.Records.{IsActOf, IsShortOf};
ghost use Rattle.run_record.specs.Splitting.{tokens};
ghost use Rattle.run_record.specs.Fields.{Gives};
ghost use Rattle.run_record.specs.ActTokens.{call_at, send_at, take_at, lend_at, back_at, act_at, entry_line};

use crate::call_tokens::{any_number_at, conit_at, request_at, word_due};
use crate::entry_words::{ActWord, act_word};
use crate::fields::{client_at, end_at, number_at, other_replica_at, replica_at, token_at};
use crate::line_fault::LineFault;
use crate::lists::numbers_at;
use crate::parts::Counts;
use crate::reply_tokens::reply_at;
use crate::{Short, ShortAct};
use run_model::LineKind;
use std::alloc::Global;
use tact_base::{AMOUNT_MAX, HISTORY_MAX, MOMENT_MAX};

/// `e REPLICA MOMENT` and an act, behind `e`, to the end of the line.
#[tactic(auto, unfolding(crate::specs::ActTokens::entry_line))]
pub(crate) fn entry_line(alloc: Global, rest: &[u8], counts: Counts) -> Result<Short, LineFault>
    requires replicas { 0 < counts.replicas }
    requires conits { 0 < counts.conits }
    ensures within { IfOk result (IsShortOf (setup counts.replicas counts.conits [] [])) }
    ensures entry { Gives (λ x. x) result (entry_line counts.replicas counts.conits (tokens rest.now)) }
{
    let (replica, rest) = replica_at(rest, counts.replicas)?;
    let (moment, rest) = number_at(rest, MOMENT_MAX)?;
    let (act, rest) = act_at(alloc, rest, counts, replica)?;
    end_at(rest, LineKind::Extra)?;
    Ok(Short {
        replica,
        moment,
        act,
    })
}

// An act of a replica, by its word. `UnknownWord` at any other word.
#[tactic(auto, unfolding(crate::specs::ActTokens::act_at))]
fn act_at(
    alloc: Global,
    rest: &[u8],
    counts: Counts,
    replica: u32,
) -> Result<(ShortAct, &[u8]), LineFault>
    requires replicas { 0 < counts.replicas }
    requires conits { 0 < counts.conits }
    ensures within { IfOk result (λ x. IsActOf (setup counts.replicas counts.conits [] []) replica x.0) }
    ensures act { Gives (λ x. (x.0, tokens x.1.now)) result
        (act_at counts.replicas counts.conits replica (tokens rest.now)) }
{
    let (token, rest) = token_at(rest)?;
    match act_word(token) {
        Some(ActWord::Call) => call_at(rest, counts, replica),
        Some(ActWord::Send) => send_at(alloc, rest, counts, replica),
        Some(ActWord::Take) => take_at(rest, counts, replica),
        Some(ActWord::Lend) => lend_at(rest, counts, replica),
        Some(ActWord::Back) => back_at(rest, counts, replica),
        Some(ActWord::Restart) => Ok((ShortAct::Restart, rest)),
        None => Err(LineFault::Kind(LineKind::UnknownWord)),
    }
}

// `call CLIENT NUMBER REQUEST = REPLY`, behind its word.
#[tactic(auto, unfolding(crate::specs::ActTokens::call_at))]
fn call_at(rest: &[u8], counts: Counts, replica: u32) -> Result<(ShortAct, &[u8]), LineFault>
    requires { 0 < counts.conits }
    ensures within { IfOk result (λ x. IsActOf (setup counts.replicas counts.conits [] []) replica x.0) }
    ensures act { Gives (λ x. (x.0, tokens x.1.now)) result (call_at counts.conits (tokens rest.now)) }
{
    let (client, rest) = client_at(rest)?;
    let (number, rest) = any_number_at(rest)?;
    let (request, rest) = match request_at(rest, counts.conits) {
        Ok(read) => read,
        Err(fault) => return Err(fault),
    };
    let rest = word_due(rest, b"=", LineKind::UnknownWord)?;
    let (reply, rest) = match reply_at(rest) {
        Ok(read) => read,
        Err(fault) => return Err(fault),
    };
    Ok((
        ShortAct::Call {
            client,
            number,
            request,
            reply,
        },
        rest,
    ))
}

// `send TO NUMBER FIRST..`, a first for each replica.
#[tactic(auto, unfolding(crate::specs::ActTokens::send_at))]
fn send_at(
    alloc: Global,
    rest: &[u8],
    counts: Counts,
    replica: u32,
) -> Result<(ShortAct, &[u8]), LineFault>
    requires { 0 < counts.replicas }
    ensures within { IfOk result (λ x. IsActOf (setup counts.replicas counts.conits [] []) replica x.0) }
    ensures act { Gives (λ x. (x.0, tokens x.1.now)) result
        (send_at counts.replicas replica (tokens rest.now)) }
{
    let (to, rest) = other_replica_at(rest, counts.replicas, replica)?;
    let (number, rest) = any_number_at(rest)?;
    let (firsts, rest) = numbers_at(alloc, rest, counts.replicas, HISTORY_MAX)?;
    Ok((ShortAct::Send { to, number, firsts }, rest))
}

// `take FROM NUMBER`
#[tactic(auto, unfolding(crate::specs::ActTokens::take_at))]
fn take_at(rest: &[u8], counts: Counts, replica: u32) -> Result<(ShortAct, &[u8]), LineFault>
    requires { 0 < counts.replicas }
    ensures within { IfOk result (λ x. IsActOf (setup counts.replicas counts.conits [] []) replica x.0) }
    ensures act { Gives (λ x. (x.0, tokens x.1.now)) result
        (take_at counts.replicas replica (tokens rest.now)) }
{
    let (from, rest) = other_replica_at(rest, counts.replicas, replica)?;
    let (number, rest) = any_number_at(rest)?;
    Ok((ShortAct::Take { from, number }, rest))
}

// `lend HOLDER CONIT AMOUNT`
#[tactic(auto, unfolding(crate::specs::ActTokens::lend_at))]
fn lend_at(rest: &[u8], counts: Counts, replica: u32) -> Result<(ShortAct, &[u8]), LineFault>
    requires replicas { 0 < counts.replicas }
    requires conits { 0 < counts.conits }
    ensures within { IfOk result (λ x. IsActOf (setup counts.replicas counts.conits [] []) replica x.0) }
    ensures act { Gives (λ x. (x.0, tokens x.1.now)) result
        (lend_at counts.replicas counts.conits replica (tokens rest.now)) }
{
    let (to, rest) = other_replica_at(rest, counts.replicas, replica)?;
    let (conit, rest) = conit_at(rest, counts.conits)?;
    let (amount, rest) = number_at(rest, AMOUNT_MAX)?;
    Ok((ShortAct::Lend { to, conit, amount }, rest))
}

// `back OWNER CONIT AMOUNT`
#[tactic(auto, unfolding(crate::specs::ActTokens::back_at))]
fn back_at(rest: &[u8], counts: Counts, replica: u32) -> Result<(ShortAct, &[u8]), LineFault>
    requires replicas { 0 < counts.replicas }
    requires conits { 0 < counts.conits }
    ensures within { IfOk result (λ x. IsActOf (setup counts.replicas counts.conits [] []) replica x.0) }
    ensures act { Gives (λ x. (x.0, tokens x.1.now)) result
        (back_at counts.replicas counts.conits replica (tokens rest.now)) }
{
    let (owner, rest) = other_replica_at(rest, counts.replicas, replica)?;
    let (conit, rest) = conit_at(rest, counts.conits)?;
    let (amount, rest) = number_at(rest, AMOUNT_MAX)?;
    Ok((
        ShortAct::Back {
            owner,
            conit,
            amount,
        },
        rest,
    ))
}

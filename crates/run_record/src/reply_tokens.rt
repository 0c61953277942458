//! Replies in the line of an entry. Each reader is given what is left of the line, and answers its value and what
//! is left after it.
ghost use Rattle.std.specs.Prelude.{◌≡◌, IfOk};
ghost use Rattle.run_model.specs.CallBytes.{HasSmallNames, HasWideNumbers};
ghost use Rattle.run_record.specs.Splitting.{tokens};
ghost use Rattle.run_record.specs.Fields.{Gives};
ghost use Rattle.run_record.specs.CallTokens.{reply_at, done_at, sums_at, value_at, too_heavy_at, wait_held_at, wait_share_at, wait_lent_at, wait_order_at, wait_stale_at, not_held_at};

use crate::call_tokens::{any_number_at, any_signed_at, name_at};
use crate::entry_words::{ReplyWord, reply_word};
use crate::fields::token_at;
use crate::line_fault::LineFault;
use crate::lists::sums_at;
use run_model::{LineKind, Reply};

/// A reply, by its word. `UnknownWord` at any other word.
#[tactic(auto, unfolding(crate::specs::CallTokens::reply_at))]
pub(crate) fn reply_at(rest: &[u8]) -> Result<(Reply, &[u8]), LineFault>
    ensures names { IfOk result (λ x. HasSmallNames x.0) }
    ensures wide { IfOk result (λ x. HasWideNumbers x.0) }
    ensures reply { Gives (λ x. (x.0, tokens x.1.now)) result (reply_at (tokens rest.now)) }
{
    let (token, rest) = token_at(rest)?;
    match reply_word(token) {
        Some(ReplyWord::Done) => done_at(rest),
        Some(ReplyWord::Granted) => Ok((Reply::Granted, rest)),
        Some(ReplyWord::Released) => Ok((Reply::Released, rest)),
        Some(ReplyWord::Value) => value_at(rest),
        Some(ReplyWord::TooHeavy) => too_heavy_at(rest),
        Some(ReplyWord::WaitHeld) => wait_held_at(rest),
        Some(ReplyWord::WaitShare) => wait_share_at(rest),
        Some(ReplyWord::WaitLent) => wait_lent_at(rest),
        Some(ReplyWord::WaitOrder) => wait_order_at(rest),
        Some(ReplyWord::WaitStale) => wait_stale_at(rest),
        Some(ReplyWord::NotHeld) => not_held_at(rest),
        None => Err(LineFault::Kind(LineKind::UnknownWord)),
    }
}

// `value VALUE SUM..`, behind its word, with up to four sums.
#[tactic(auto, unfolding(crate::specs::CallTokens::value_at))]
fn value_at(rest: &[u8]) -> Result<(Reply, &[u8]), LineFault>
    ensures names { IfOk result (λ x. HasSmallNames x.0) }
    ensures wide { IfOk result (λ x. HasWideNumbers x.0) }
    ensures reply { Gives (λ x. (x.0, tokens x.1.now)) result (value_at (tokens rest.now)) }
{
    let (value, rest) = any_signed_at(rest)?;
    let (sums, rest) = match sums_at(rest) {
        Ok(read) => read,
        Err(fault) => return Err(fault),
    };
    Ok((Reply::Value { value, sums }, rest))
}

// `done INDEX STAMP`
#[tactic(auto, unfolding(crate::specs::CallTokens::done_at))]
fn done_at(rest: &[u8]) -> Result<(Reply, &[u8]), LineFault>
    ensures names { IfOk result (λ x. HasSmallNames x.0) }
    ensures wide { IfOk result (λ x. HasWideNumbers x.0) }
    ensures reply { Gives (λ x. (x.0, tokens x.1.now)) result (done_at (tokens rest.now)) }
{
    let (index, rest) = any_number_at(rest)?;
    let (stamp, rest) = any_number_at(rest)?;
    Ok((Reply::Done { index, stamp }, rest))
}

// `too-heavy CONIT PEER WEIGHT SHARE`
#[tactic(auto, unfolding(crate::specs::CallTokens::too_heavy_at))]
fn too_heavy_at(rest: &[u8]) -> Result<(Reply, &[u8]), LineFault>
    ensures names { IfOk result (λ x. HasSmallNames x.0) }
    ensures wide { IfOk result (λ x. HasWideNumbers x.0) }
    ensures reply { Gives (λ x. (x.0, tokens x.1.now)) result (too_heavy_at (tokens rest.now)) }
{
    let (conit, rest) = name_at(rest)?;
    let (peer, rest) = name_at(rest)?;
    let (weight, rest) = any_number_at(rest)?;
    let (share, rest) = any_number_at(rest)?;
    Ok((
        Reply::TooHeavy {
            conit,
            peer,
            weight,
            share,
        },
        rest,
    ))
}

// `wait-held CONIT PEER RESERVED WEIGHT SHARE`
#[tactic(auto, unfolding(crate::specs::CallTokens::wait_held_at))]
fn wait_held_at(rest: &[u8]) -> Result<(Reply, &[u8]), LineFault>
    ensures names { IfOk result (λ x. HasSmallNames x.0) }
    ensures wide { IfOk result (λ x. HasWideNumbers x.0) }
    ensures reply { Gives (λ x. (x.0, tokens x.1.now)) result (wait_held_at (tokens rest.now)) }
{
    let (conit, rest) = name_at(rest)?;
    let (peer, rest) = name_at(rest)?;
    let (reserved, rest) = any_number_at(rest)?;
    let (weight, rest) = any_number_at(rest)?;
    let (share, rest) = any_number_at(rest)?;
    Ok((
        Reply::WaitHeld {
            conit,
            peer,
            reserved,
            weight,
            share,
        },
        rest,
    ))
}

// `wait-share CONIT PEER MISSING RESERVED WEIGHT SHARE`
#[tactic(auto, unfolding(crate::specs::CallTokens::wait_share_at))]
fn wait_share_at(rest: &[u8]) -> Result<(Reply, &[u8]), LineFault>
    ensures names { IfOk result (λ x. HasSmallNames x.0) }
    ensures wide { IfOk result (λ x. HasWideNumbers x.0) }
    ensures reply { Gives (λ x. (x.0, tokens x.1.now)) result (wait_share_at (tokens rest.now)) }
{
    let (conit, rest) = name_at(rest)?;
    let (peer, rest) = name_at(rest)?;
    let (missing, rest) = any_number_at(rest)?;
    let (reserved, rest) = any_number_at(rest)?;
    let (weight, rest) = any_number_at(rest)?;
    let (share, rest) = any_number_at(rest)?;
    Ok((
        Reply::WaitShare {
            conit,
            peer,
            missing,
            reserved,
            weight,
            share,
        },
        rest,
    ))
}

// `wait-lent CONIT HOLDER OUT TOTAL NUM`
#[tactic(auto, unfolding(crate::specs::CallTokens::wait_lent_at))]
fn wait_lent_at(rest: &[u8]) -> Result<(Reply, &[u8]), LineFault>
    ensures names { IfOk result (λ x. HasSmallNames x.0) }
    ensures wide { IfOk result (λ x. HasWideNumbers x.0) }
    ensures reply { Gives (λ x. (x.0, tokens x.1.now)) result (wait_lent_at (tokens rest.now)) }
{
    let (conit, rest) = name_at(rest)?;
    let (holder, rest) = name_at(rest)?;
    let (out, rest) = any_number_at(rest)?;
    let (total, rest) = any_number_at(rest)?;
    let (num, rest) = any_number_at(rest)?;
    Ok((
        Reply::WaitLent {
            conit,
            holder,
            out,
            total,
            num,
        },
        rest,
    ))
}

// `wait-order CONIT REPLICA TENTATIVE ORDER`
#[tactic(auto, unfolding(crate::specs::CallTokens::wait_order_at))]
fn wait_order_at(rest: &[u8]) -> Result<(Reply, &[u8]), LineFault>
    ensures names { IfOk result (λ x. HasSmallNames x.0) }
    ensures wide { IfOk result (λ x. HasWideNumbers x.0) }
    ensures reply { Gives (λ x. (x.0, tokens x.1.now)) result (wait_order_at (tokens rest.now)) }
{
    let (conit, rest) = name_at(rest)?;
    let (replica, rest) = name_at(rest)?;
    let (tentative, rest) = any_number_at(rest)?;
    let (order, rest) = any_number_at(rest)?;
    Ok((
        Reply::WaitOrder {
            conit,
            replica,
            tentative,
            order,
        },
        rest,
    ))
}

// `wait-stale CONIT REPLICA MOMENT WANTED`
#[tactic(auto, unfolding(crate::specs::CallTokens::wait_stale_at))]
fn wait_stale_at(rest: &[u8]) -> Result<(Reply, &[u8]), LineFault>
    ensures names { IfOk result (λ x. HasSmallNames x.0) }
    ensures wide { IfOk result (λ x. HasWideNumbers x.0) }
    ensures reply { Gives (λ x. (x.0, tokens x.1.now)) result (wait_stale_at (tokens rest.now)) }
{
    let (conit, rest) = name_at(rest)?;
    let (replica, rest) = name_at(rest)?;
    let (moment, rest) = any_number_at(rest)?;
    let (wanted, rest) = any_number_at(rest)?;
    Ok((
        Reply::WaitStale {
            conit,
            replica,
            moment,
            wanted,
        },
        rest,
    ))
}

// `not-held CONIT HELD AMOUNT`
#[tactic(auto, unfolding(crate::specs::CallTokens::not_held_at))]
fn not_held_at(rest: &[u8]) -> Result<(Reply, &[u8]), LineFault>
    ensures names { IfOk result (λ x. HasSmallNames x.0) }
    ensures wide { IfOk result (λ x. HasWideNumbers x.0) }
    ensures reply { Gives (λ x. (x.0, tokens x.1.now)) result (not_held_at (tokens rest.now)) }
{
    let (conit, rest) = name_at(rest)?;
    let (held, rest) = any_number_at(rest)?;
    let (amount, rest) = any_number_at(rest)?;
    Ok((
        Reply::NotHeld {
            conit,
            held,
            amount,
        },
        rest,
    ))
}

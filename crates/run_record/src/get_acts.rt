//! The entries of a record in bytes, read field by field: each reader is given the bytes and a place, and answers
//! its value and the place after it, or the first fault. Memory is taken only for what was read.

ghost use Rattle.std.specs.Prelude.{◌≡◌, ◌≢◌, ◌≤◌, IfOk, length};
ghost use Rattle.tact_base.specs.declared.limits.TheConstants.{REPLICAS_MAX};
ghost use Rattle.run_record.specs.EntriesAt.{act_at, back_at, call_at, firsts_at, lend_at, send_at, short_at, shorts_at, tag_at, take_at};
ghost use Rattle.run_record.specs.PartFaults.{TellsPart};

use crate::{Counts, PartFault, Short, ShortAct, Shorts};
use run_model::{
    FieldFault, any_number_at, byte_at, number_at, numbers_at, other_at, reply_at, request_at,
};
use std::alloc::Global;
use tact_base::{AMOUNT_MAX, CLIENTS, HISTORY_MAX, MOMENT_MAX, Numbers, REPLICAS_MAX, Row};

// The entries of a record of a setup with these counts, and the byte behind them.
pub(crate) fn shorts_at(
    alloc: Global,
    counts: Counts,
    bytes: &[u8],
    start: usize,
) -> Result<(Shorts, usize), PartFault>
    requires few { counts.replicas ≤ REPLICAS_MAX }
    requires within { start ≤ length bytes.now }
    ensures within { IfOk result (λ read. read.1 ≤ length bytes.now) }
    ensures exact { TellsPart
        (shorts_at counts.replicas counts.conits (length bytes.now) bytes.now start) result }
{
    let mut shorts = Shorts::new(alloc);
    let mut place = start;
    for _entry in 0..bytes.len() {
        let (tag, next) = tag_at(bytes, place)?;
        if tag == 0xFF {
            return Ok((shorts, next));
        }
        let (short, next) = short_at(alloc, counts, tag, bytes, next)?;
        shorts.push(short)?;
        place = next;
    }
    Err(PartFault::Field(FieldFault::Short))
}

// The tag of an entry, or the byte that ends them.
#[tactic(auto, unfolding(crate::specs::EntriesAt::tag_at))]
fn tag_at(bytes: &[u8], place: usize) -> Result<(u32, usize), FieldFault>
    requires { place ≤ length bytes.now }
    ensures within { IfOk result (λ read. read.1 ≤ length bytes.now) }
    ensures exact { result ≡ tag_at bytes.now place }
{
    let Some(byte) = bytes.get(place) else {
        return Err(FieldFault::Short);
    };
    let tag = u32::from(*byte);
    if 1 <= tag && tag < 7 || tag == 0xFF {
        Ok((tag, place + 1))
    } else {
        Err(FieldFault::BadField(place))
    }
}

/// Reads an entry of a setup with these counts, behind its tag, at `place`: the entry and the place after it. The
/// fault is that of the first field from the left. Memory of `alloc` is taken only for what was read.
#[tactic(auto, unfolding(crate::specs::EntriesAt::short_at))]
pub fn short_at(
    alloc: Global,
    counts: Counts,
    tag: u32,
    bytes: &[u8],
    place: usize,
) -> Result<(Short, usize), PartFault>
    requires few { counts.replicas ≤ REPLICAS_MAX }
    requires within { place ≤ length bytes.now }
    ensures within { IfOk result (λ read. read.1 ≤ length bytes.now) }
    ensures exact { TellsPart (short_at counts.replicas counts.conits tag bytes.now place) result }
{
    let (replica, place) = byte_at(bytes, place, 0, counts.replicas)?;
    let (moment, place) = number_at(bytes, place, 0, MOMENT_MAX + 1)?;
    let (act, place) = act_at(alloc, counts, tag, replica, bytes, place)?;
    Ok((
        Short {
            replica,
            moment,
            act,
        },
        place,
    ))
}

// The fields of an act of a replica, by its tag.
#[tactic(auto, unfolding(crate::specs::EntriesAt::act_at))]
fn act_at(
    alloc: Global,
    counts: Counts,
    tag: u32,
    replica: u32,
    bytes: &[u8],
    place: usize,
) -> Result<(ShortAct, usize), PartFault>
    requires few { counts.replicas ≤ REPLICAS_MAX }
    requires within { place ≤ length bytes.now }
    ensures within { IfOk result (λ read. read.1 ≤ length bytes.now) }
    ensures exact { TellsPart
        (act_at counts.replicas counts.conits tag replica bytes.now place) result }
{
    if tag == 2 {
        send_at(alloc, counts.replicas, replica, bytes, place)
    } else {
        Ok(step_at(counts, tag, replica, bytes, place)?)
    }
}

// The same of an act that isn't a send.
#[tactic(auto, unfolding(crate::specs::EntriesAt::act_at))]
fn step_at(
    counts: Counts,
    tag: u32,
    replica: u32,
    bytes: &[u8],
    place: usize,
) -> Result<(ShortAct, usize), FieldFault>
    requires other { tag ≢ 2 }
    requires within { place ≤ length bytes.now }
    ensures within { IfOk result (λ read. read.1 ≤ length bytes.now) }
    ensures exact { result
        ≡ act_at counts.replicas counts.conits tag replica bytes.now place }
{
    if tag == 1 {
        call_at(counts.conits, bytes, place)
    } else if tag == 3 {
        take_at(counts.replicas, replica, bytes, place)
    } else if tag == 4 {
        lend_at(counts, replica, bytes, place)
    } else if tag == 5 {
        back_at(counts, replica, bytes, place)
    } else {
        Ok((ShortAct::Restart, place))
    }
}

#[tactic(auto, unfolding(crate::specs::EntriesAt::call_at))]
fn call_at(conits: u32, bytes: &[u8], place: usize) -> Result<(ShortAct, usize), FieldFault>
    requires { place ≤ length bytes.now }
    ensures within { IfOk result (λ read. read.1 ≤ length bytes.now) }
    ensures exact { result ≡ call_at conits bytes.now place }
{
    let (client, place) = byte_at(bytes, place, 0, CLIENTS)?;
    let (number, place) = any_number_at(bytes, place)?;
    let (request, place) = request_at(conits, bytes, place)?;
    let (reply, place) = reply_at(bytes, place)?;
    Ok((
        ShortAct::Call {
            client,
            number,
            request,
            reply,
        },
        place,
    ))
}

#[tactic(auto, unfolding(crate::specs::EntriesAt::send_at))]
fn send_at(
    alloc: Global,
    replicas: u32,
    replica: u32,
    bytes: &[u8],
    place: usize,
) -> Result<(ShortAct, usize), PartFault>
    requires few { replicas ≤ REPLICAS_MAX }
    requires within { place ≤ length bytes.now }
    ensures within { IfOk result (λ read. read.1 ≤ length bytes.now) }
    ensures exact { TellsPart (send_at replicas replica bytes.now place) result }
{
    let (to, place) = other_at(replica, replicas, bytes, place)?;
    let (number, place) = any_number_at(bytes, place)?;
    let (firsts, place) = firsts_at(replicas, bytes, place)?;
    let firsts = Numbers::from_slice(alloc, firsts.items())?;
    Ok((ShortAct::Send { to, number, firsts }, place))
}

#[tactic(auto, unfolding(crate::specs::EntriesAt::take_at))]
fn take_at(
    replicas: u32,
    replica: u32,
    bytes: &[u8],
    place: usize,
) -> Result<(ShortAct, usize), FieldFault>
    requires { place ≤ length bytes.now }
    ensures within { IfOk result (λ read. read.1 ≤ length bytes.now) }
    ensures exact { result ≡ take_at replicas replica bytes.now place }
{
    let (from, place) = other_at(replica, replicas, bytes, place)?;
    let (number, place) = any_number_at(bytes, place)?;
    Ok((ShortAct::Take { from, number }, place))
}

#[tactic(auto, unfolding(crate::specs::EntriesAt::lend_at))]
fn lend_at(
    counts: Counts,
    replica: u32,
    bytes: &[u8],
    place: usize,
) -> Result<(ShortAct, usize), FieldFault>
    requires { place ≤ length bytes.now }
    ensures within { IfOk result (λ read. read.1 ≤ length bytes.now) }
    ensures exact { result ≡ lend_at counts.replicas counts.conits replica bytes.now place }
{
    let (to, place) = other_at(replica, counts.replicas, bytes, place)?;
    let (conit, place) = byte_at(bytes, place, 0, counts.conits)?;
    let (amount, place) = number_at(bytes, place, 0, AMOUNT_MAX + 1)?;
    Ok((ShortAct::Lend { to, conit, amount }, place))
}

#[tactic(auto, unfolding(crate::specs::EntriesAt::back_at))]
fn back_at(
    counts: Counts,
    replica: u32,
    bytes: &[u8],
    place: usize,
) -> Result<(ShortAct, usize), FieldFault>
    requires { place ≤ length bytes.now }
    ensures within { IfOk result (λ read. read.1 ≤ length bytes.now) }
    ensures exact { result ≡ back_at counts.replicas counts.conits replica bytes.now place }
{
    let (owner, place) = other_at(replica, counts.replicas, bytes, place)?;
    let (conit, place) = byte_at(bytes, place, 0, counts.conits)?;
    let (amount, place) = number_at(bytes, place, 0, AMOUNT_MAX + 1)?;
    Ok((
        ShortAct::Back {
            owner,
            conit,
            amount,
        },
        place,
    ))
}

// A first for each of so many replicas.
fn firsts_at(replicas: u32, bytes: &[u8], place: usize) -> Result<(Row, usize), FieldFault>
    requires few { replicas ≤ REPLICAS_MAX }
    requires within { place ≤ length bytes.now }
    ensures within { IfOk result (λ read. read.1 ≤ length bytes.now) }
    ensures exact { result ≡ firsts_at replicas bytes.now place }
{
    let mut items = [0; REPLICAS_MAX as usize];
    let items = &mut items[..replicas as usize];
    let place = numbers_at(items, HISTORY_MAX + 1, bytes, place)?;
    Ok((Row::new(items), place))
}

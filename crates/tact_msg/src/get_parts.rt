//! The parts of a message before its writes, read from bytes field by field: each reader is given the bytes and a
//! place, and answers its value and the place after it, or the first fault. None takes memory.

ghost use Rattle.std.specs.Prelude.{◌≡◌, ◌≤◌, ◌+◌, ◌-◌, All, IfErr, IfOk, Err, Ok, length};
ghost use Rattle.tact_base.specs.declared.limits.TheConstants.{CONITS_MAX, HISTORY_MAX, LENT_MAX, MESSAGE_WRITES, REPLICAS_MAX};
ghost use Rattle.run_model.specs.Bytes.{list_at, number_at};
ghost use Rattle.tact_msg.specs.MessageBytes.{amounts_at, head_at, told_at, told_bound, tolds_at};

use crate::parts::{Head, Told};
use run_model::{FieldFault, byte_at, number_at, numbers_at, other_at};
use tact_base::{
    Blank, CONITS_MAX, Cover, Few, HISTORY_MAX, LENT_MAX, MESSAGE_WRITES, MOMENT_MAX, REPLICAS_MAX,
    REPLICAS_MIN, STAMP_MAX,
};

#[tactic(auto, unfolding(crate::specs::MessageBytes::head_at))]
pub(crate) fn head_at(bytes: &[u8], place: usize) -> Result<(Head, usize), FieldFault>
    requires { place ≤ length bytes.now }
    ensures within { IfOk result (λ read. (read.0.replicas ≤ REPLICAS_MAX)
        × (read.0.conits ≤ CONITS_MAX) × (read.1 ≤ length bytes.now)) }
    ensures exact { result ≡ head_at bytes.now place }
{
    let (_mark, place) = byte_at(bytes, place, 0x4D, 0x4E)?;
    let (_version, place) = byte_at(bytes, place, 1, 2)?;
    let (replicas, place) = byte_at(bytes, place, REPLICAS_MIN, REPLICAS_MAX + 1)?;
    let (conits, place) = byte_at(bytes, place, 1, CONITS_MAX + 1)?;
    let (from, place) = byte_at(bytes, place, 0, replicas)?;
    let (to, place) = other_at(from, replicas, bytes, place)?;
    let (number, place) = number_at(bytes, place, 0, HISTORY_MAX)?;
    Ok((
        Head {
            replicas,
            conits,
            from,
            to,
            number,
        },
        place,
    ))
}

// What is told of each of so many origins.
pub(crate) fn tolds_at(
    to: u32,
    replicas: u32,
    bytes: &[u8],
    place: usize,
) -> Result<(Few<Told, 8>, usize), FieldFault>
    requires few { replicas ≤ REPLICAS_MAX }
    requires within { place ≤ length bytes.now }
    ensures within { IfOk result (λ read. read.1 ≤ length bytes.now) }
    ensures small { IfOk result (λ read. All (λ told. told.first ≤ HISTORY_MAX) read.0) }
    ensures exact { result ≡ tolds_at to replicas 0 MESSAGE_WRITES bytes.now place }
{
    let mut items = [Told::blank(); REPLICAS_MAX as usize];
    let items = &mut items[..replicas as usize];
    let place = fill_tolds(items, to, bytes, place)?;
    Ok((Few::new(items), place))
}

fn fill_tolds(items: &mut [Told], to: u32, bytes: &[u8], start: usize) -> Result<usize, FieldFault>
    requires few { length items.old ≤ REPLICAS_MAX }
    requires within { start ≤ length bytes.now }
    ensures within { IfOk result (λ next. next ≤ length bytes.now) }
    ensures small { IfOk result (λ next. All (λ told. told.first ≤ HISTORY_MAX) items.new) }
    ensures ok { IfOk result (λ next.
        tolds_at to (length items.old) 0 MESSAGE_WRITES bytes.now start ≡ Ok (items.new, next)) }
    ensures err { IfErr result (λ fault.
        tolds_at to (length items.old) 0 MESSAGE_WRITES bytes.now start ≡ Err fault) }
{
    let mut place = start;
    let mut origin = 0;
    let mut room = MESSAGE_WRITES as u32;
    for item in items.iter_mut() {
        let (told, next) = told_at(to, origin, room, bytes, place)?;
        origin += 1;
        room -= told.count;
        place = next;
        *item = told;
    }
    Ok(place)
}

// What is told of an origin, with room for so many writes.
#[tactic(auto, unfolding(crate::specs::MessageBytes::told_at))]
fn told_at(
    to: u32,
    origin: u32,
    room: u32,
    bytes: &[u8],
    place: usize,
) -> Result<(Told, usize), FieldFault>
    requires few { room ≤ MESSAGE_WRITES }
    requires within { place ≤ length bytes.now }
    ensures within { IfOk result (λ read. (read.0.first ≤ HISTORY_MAX)
        × (read.0.count ≤ room) × (read.1 ≤ length bytes.now)) }
    ensures exact { result ≡ told_at to origin room bytes.now place }
{
    let (have, place) = number_at(bytes, place, 0, HISTORY_MAX + 1)?;
    let (count, place) = number_at(bytes, place, 0, have + 1)?;
    let (stamp, place) = number_at(bytes, place, 0, STAMP_MAX + 1)?;
    let (moment, place) = number_at(bytes, place, 0, MOMENT_MAX + 1)?;
    let (first, place) = number_at(bytes, place, 0, have + 1)?;
    let bound = told_bound(to, origin, have - first, room);
    let (told, place) = byte_at(bytes, place, 0, bound)?;
    Ok((
        Told {
            origin,
            have,
            cover: Cover {
                count,
                stamp,
                moment,
            },
            first,
            count: told,
        },
        place,
    ))
}

// Below it is how many writes are told of an origin.
fn told_bound(to: u32, origin: u32, due: u64, room: u32) -> u32
    requires { room ≤ MESSAGE_WRITES }
    ensures bound { result ≡ told_bound to origin due room }
    ensures few { result ≤ room + 1 }
{
    if origin == to {
        1
    } else {
        due.min(u64::from(room)) as u32 + 1
    }
}

// An amount for each of so many conits.
pub(crate) fn amounts_at(
    conits: u32,
    bytes: &[u8],
    place: usize,
) -> Result<(Few<u64, 16>, usize), FieldFault>
    requires few { conits ≤ CONITS_MAX }
    requires within { place ≤ length bytes.now }
    ensures within { IfOk result (λ read. read.1 ≤ length bytes.now) }
    ensures exact { result ≡ amounts_at conits bytes.now place }
{
    let mut items = [0; CONITS_MAX as usize];
    let items = &mut items[..conits as usize];
    let place = numbers_at(items, LENT_MAX + 1, bytes, place)?;
    Ok((Few::new(items), place))
}

//! Requests and replies, read from bytes field by field: each reader is given the bytes and a place, and answers
//! its value and the place after it, or the first fault.

ghost use Rattle.std.specs.Prelude.{◌≡◌, ◌≤◌, ◌+◌, IfOk, Ok, length};
ghost use Rattle.run_model.specs.declared.call.Request.{Request};
ghost use Rattle.run_model.specs.declared.call.Reply.{Reply};
ghost use Rattle.run_model.specs.Bytes.{StandsAt, Reads};
ghost use Rattle.run_model.specs.CallBytes.{IsRequestOf, HasSmallNames, HasWideNumbers, request_bytes, request_at};
ghost use Rattle.run_model.specs.CallBytes.{request_fields_at, write_at, held_at, reserve_at, release_at, read_at};
ghost use Rattle.run_model.specs.CallBytes.{reply_bytes, reply_at, reply_fields_at, waiting_at, done_at, value_at};
ghost use Rattle.run_model.specs.CallBytes.{sums_at, too_heavy_at, wait_held_at, wait_share_at, wait_lent_at};
ghost use Rattle.run_model.specs.CallBytes.{wait_order_at, wait_stale_at, not_held_at};

use crate::fields::{any_number_at, any_signed_at, byte_at, number_at};
use crate::get_bytes::{fill, needs_at, op_at, weight_at, weights_at};
use crate::{FieldFault, Reply, Request, Sums};
use tact_base::{AMOUNT_MAX, KEY_MAX, LIST_MAX};

/// Reads a request to a replica of a setup with so many conits from `place` on, and moves `place` past it: a
/// tag in one byte, 1 for a write, 2 for a held one, 3 to reserve, 4 to release and 5 to read, and its fields.
/// Those of a write are its weights and its operation, of a held one its weight and its operation, of a
/// reserve and a release the conit in one byte and the amount in eight, of a read the key in eight bytes and
/// its needs. A refusal leaves `place`. Takes no memory.
pub fn get_request(conits: u32, bytes: &[u8], place: &mut usize) -> Result<Request, FieldFault>
    requires { place.old ≤ length bytes.now }
    // What is read stands there, and the place is after it.
    ensures found { IfOk result (λ request. IsRequestOf conits request
        × StandsAt (request_bytes request) bytes.now place.old
        × (place.new ≡ place.old + length (request_bytes request))) }
    // What stands there is read.
    ensures only { (request : Request) → IsRequestOf conits request
        → StandsAt (request_bytes request) bytes.now place.old → result ≡ Ok request }
    // Which fault it is, and that it leaves the place.
    ensures exact { Reads result place.old place.new (request_at conits bytes.now place.old) }
{
    let (request, next) = request_at(conits, bytes, *place)?;
    *place = next;
    Ok(request)
}

/// Reads a reply from `place` on, and moves `place` past it: a tag in one byte, from 1 to 11 in the order of
/// the type, and its fields. Conits and replicas have one byte, all other numbers eight; the sums of a value
/// are their number in one byte, at most 4, then each. A refusal leaves `place`. Takes no memory.
pub fn get_reply(bytes: &[u8], place: &mut usize) -> Result<Reply, FieldFault>
    requires { place.old ≤ length bytes.now }
    // What is read stands there, and the place is after it.
    ensures found { IfOk result (λ reply. HasSmallNames reply × HasWideNumbers reply
        × StandsAt (reply_bytes reply) bytes.now place.old
        × (place.new ≡ place.old + length (reply_bytes reply))) }
    // What stands there is read.
    ensures only { (reply : Reply) → HasSmallNames reply → HasWideNumbers reply
        → StandsAt (reply_bytes reply) bytes.now place.old → result ≡ Ok reply }
    // Which fault it is, and that it leaves the place.
    ensures exact { Reads result place.old place.new (reply_at bytes.now place.old) }
{
    let (reply, next) = reply_at(bytes, *place)?;
    *place = next;
    Ok(reply)
}

/// Reads a request to a replica of a setup with so many conits from `place` on, as `get_request` does, and
/// answers the place after it beside it. Takes no memory.
#[tactic(auto, unfolding(crate::specs::CallBytes::request_at))]
pub fn request_at(conits: u32, bytes: &[u8], place: usize) -> Result<(Request, usize), FieldFault>
    requires { place ≤ length bytes.now }
    ensures within { IfOk result (λ read. read.1 ≤ length bytes.now) }
    ensures exact { result ≡ request_at conits bytes.now place }
{
    let (tag, place) = byte_at(bytes, place, 1, 6)?;
    request_fields_at(conits, tag, bytes, place)
}

// A request, by its tag.
#[tactic(auto, unfolding(crate::specs::CallBytes::request_fields_at))]
fn request_fields_at(
    conits: u32,
    tag: u32,
    bytes: &[u8],
    place: usize,
) -> Result<(Request, usize), FieldFault>
    requires { place ≤ length bytes.now }
    ensures { result ≡ request_fields_at conits tag bytes.now place }
{
    if tag == 1 {
        write_at(conits, bytes, place)
    } else if tag == 2 {
        held_at(conits, bytes, place)
    } else if tag == 3 {
        reserve_at(conits, bytes, place)
    } else if tag == 4 {
        release_at(conits, bytes, place)
    } else {
        read_at(conits, bytes, place)
    }
}

#[tactic(auto, unfolding(crate::specs::CallBytes::write_at))]
fn write_at(conits: u32, bytes: &[u8], place: usize) -> Result<(Request, usize), FieldFault>
    requires { place ≤ length bytes.now }
    ensures { result ≡ write_at conits bytes.now place }
{
    let (weights, place) = weights_at(conits, bytes, place)?;
    let (op, place) = op_at(bytes, place)?;
    Ok((Request::Write { weights, op }, place))
}

#[tactic(auto, unfolding(crate::specs::CallBytes::held_at))]
fn held_at(conits: u32, bytes: &[u8], place: usize) -> Result<(Request, usize), FieldFault>
    requires { place ≤ length bytes.now }
    ensures { result ≡ held_at conits bytes.now place }
{
    let (weight, place) = weight_at(conits, 0, bytes, place)?;
    let (op, place) = op_at(bytes, place)?;
    Ok((Request::Held { weight, op }, place))
}

#[tactic(auto, unfolding(crate::specs::CallBytes::reserve_at))]
fn reserve_at(conits: u32, bytes: &[u8], place: usize) -> Result<(Request, usize), FieldFault>
    requires { place ≤ length bytes.now }
    ensures { result ≡ reserve_at conits bytes.now place }
{
    let (conit, place) = byte_at(bytes, place, 0, conits)?;
    let (amount, place) = number_at(bytes, place, 0, AMOUNT_MAX + 1)?;
    Ok((Request::Reserve { conit, amount }, place))
}

#[tactic(auto, unfolding(crate::specs::CallBytes::release_at))]
fn release_at(conits: u32, bytes: &[u8], place: usize) -> Result<(Request, usize), FieldFault>
    requires { place ≤ length bytes.now }
    ensures { result ≡ release_at conits bytes.now place }
{
    let (conit, place) = byte_at(bytes, place, 0, conits)?;
    let (amount, place) = number_at(bytes, place, 0, AMOUNT_MAX + 1)?;
    Ok((Request::Release { conit, amount }, place))
}

#[tactic(auto, unfolding(crate::specs::CallBytes::read_at))]
fn read_at(conits: u32, bytes: &[u8], place: usize) -> Result<(Request, usize), FieldFault>
    requires { place ≤ length bytes.now }
    ensures { result ≡ read_at conits bytes.now place }
{
    let (key, place) = number_at(bytes, place, 0, KEY_MAX + 1)?;
    let (needs, place) = needs_at(conits, bytes, place)?;
    Ok((Request::Read { key, needs }, place))
}

/// Reads a reply from `place` on, as `get_reply` does, and answers the place after it beside it. Takes no memory.
#[tactic(auto, unfolding(crate::specs::CallBytes::reply_at))]
pub fn reply_at(bytes: &[u8], place: usize) -> Result<(Reply, usize), FieldFault>
    requires { place ≤ length bytes.now }
    ensures within { IfOk result (λ read. read.1 ≤ length bytes.now) }
    ensures exact { result ≡ reply_at bytes.now place }
{
    let (tag, place) = byte_at(bytes, place, 1, 12)?;
    reply_fields_at(tag, bytes, place)
}

// A reply, by its tag.
#[tactic(auto, unfolding(crate::specs::CallBytes::reply_fields_at))]
fn reply_fields_at(tag: u32, bytes: &[u8], place: usize) -> Result<(Reply, usize), FieldFault>
    requires { place ≤ length bytes.now }
    ensures { result ≡ reply_fields_at tag bytes.now place }
{
    if tag == 1 {
        done_at(bytes, place)
    } else if tag == 2 {
        Ok((Reply::Granted, place))
    } else if tag == 3 {
        Ok((Reply::Released, place))
    } else if tag == 4 {
        value_at(bytes, place)
    } else if tag == 5 {
        too_heavy_at(bytes, place)
    } else if tag == 11 {
        not_held_at(bytes, place)
    } else {
        waiting_at(tag, bytes, place)
    }
}

// A reply that waits, by its tag.
#[tactic(auto, unfolding(crate::specs::CallBytes::waiting_at))]
fn waiting_at(tag: u32, bytes: &[u8], place: usize) -> Result<(Reply, usize), FieldFault>
    requires { place ≤ length bytes.now }
    ensures { result ≡ waiting_at tag bytes.now place }
{
    if tag == 6 {
        wait_held_at(bytes, place)
    } else if tag == 7 {
        wait_share_at(bytes, place)
    } else if tag == 8 {
        wait_lent_at(bytes, place)
    } else if tag == 9 {
        wait_order_at(bytes, place)
    } else {
        wait_stale_at(bytes, place)
    }
}

#[tactic(auto, unfolding(crate::specs::CallBytes::done_at))]
fn done_at(bytes: &[u8], place: usize) -> Result<(Reply, usize), FieldFault>
    requires { place ≤ length bytes.now }
    ensures { result ≡ done_at bytes.now place }
{
    let (index, place) = any_number_at(bytes, place)?;
    let (stamp, place) = any_number_at(bytes, place)?;
    Ok((Reply::Done { index, stamp }, place))
}

#[tactic(auto, unfolding(crate::specs::CallBytes::value_at))]
fn value_at(bytes: &[u8], place: usize) -> Result<(Reply, usize), FieldFault>
    requires { place ≤ length bytes.now }
    ensures { result ≡ value_at bytes.now place }
{
    let (value, place) = any_signed_at(bytes, place)?;
    let (sums, place) = sums_at(bytes, place)?;
    Ok((Reply::Value { value, sums }, place))
}

#[tactic(auto, unfolding(crate::specs::CallBytes::sums_at))]
fn sums_at(bytes: &[u8], place: usize) -> Result<(Sums, usize), FieldFault>
    requires { place ≤ length bytes.now }
    ensures { result ≡ sums_at bytes.now place }
{
    let (count, place) = byte_at(bytes, place, 0, LIST_MAX as u32 + 1)?;
    let mut items = [0; LIST_MAX];
    let items = &mut items[..count as usize];
    let place = fill(items, 0, bytes, place)?;
    Ok((Sums::new(items), place))
}

#[tactic(auto, unfolding(crate::specs::CallBytes::too_heavy_at))]
fn too_heavy_at(bytes: &[u8], place: usize) -> Result<(Reply, usize), FieldFault>
    requires { place ≤ length bytes.now }
    ensures { result ≡ too_heavy_at bytes.now place }
{
    let (conit, place) = byte_at(bytes, place, 0, 256)?;
    let (peer, place) = byte_at(bytes, place, 0, 256)?;
    let (weight, place) = any_number_at(bytes, place)?;
    let (share, place) = any_number_at(bytes, place)?;
    Ok((
        Reply::TooHeavy {
            conit,
            peer,
            weight,
            share,
        },
        place,
    ))
}

#[tactic(auto, unfolding(crate::specs::CallBytes::wait_held_at))]
fn wait_held_at(bytes: &[u8], place: usize) -> Result<(Reply, usize), FieldFault>
    requires { place ≤ length bytes.now }
    ensures { result ≡ wait_held_at bytes.now place }
{
    let (conit, place) = byte_at(bytes, place, 0, 256)?;
    let (peer, place) = byte_at(bytes, place, 0, 256)?;
    let (reserved, place) = any_number_at(bytes, place)?;
    let (weight, place) = any_number_at(bytes, place)?;
    let (share, place) = any_number_at(bytes, place)?;
    Ok((
        Reply::WaitHeld {
            conit,
            peer,
            reserved,
            weight,
            share,
        },
        place,
    ))
}

#[tactic(auto, unfolding(crate::specs::CallBytes::wait_share_at))]
fn wait_share_at(bytes: &[u8], place: usize) -> Result<(Reply, usize), FieldFault>
    requires { place ≤ length bytes.now }
    ensures { result ≡ wait_share_at bytes.now place }
{
    let (conit, place) = byte_at(bytes, place, 0, 256)?;
    let (peer, place) = byte_at(bytes, place, 0, 256)?;
    let (missing, place) = any_number_at(bytes, place)?;
    let (reserved, place) = any_number_at(bytes, place)?;
    let (weight, place) = any_number_at(bytes, place)?;
    let (share, place) = any_number_at(bytes, place)?;
    Ok((
        Reply::WaitShare {
            conit,
            peer,
            missing,
            reserved,
            weight,
            share,
        },
        place,
    ))
}

#[tactic(auto, unfolding(crate::specs::CallBytes::wait_lent_at))]
fn wait_lent_at(bytes: &[u8], place: usize) -> Result<(Reply, usize), FieldFault>
    requires { place ≤ length bytes.now }
    ensures { result ≡ wait_lent_at bytes.now place }
{
    let (conit, place) = byte_at(bytes, place, 0, 256)?;
    let (holder, place) = byte_at(bytes, place, 0, 256)?;
    let (out, place) = any_number_at(bytes, place)?;
    let (total, place) = any_number_at(bytes, place)?;
    let (num, place) = any_number_at(bytes, place)?;
    Ok((
        Reply::WaitLent {
            conit,
            holder,
            out,
            total,
            num,
        },
        place,
    ))
}

#[tactic(auto, unfolding(crate::specs::CallBytes::wait_order_at))]
fn wait_order_at(bytes: &[u8], place: usize) -> Result<(Reply, usize), FieldFault>
    requires { place ≤ length bytes.now }
    ensures { result ≡ wait_order_at bytes.now place }
{
    let (conit, place) = byte_at(bytes, place, 0, 256)?;
    let (replica, place) = byte_at(bytes, place, 0, 256)?;
    let (tentative, place) = any_number_at(bytes, place)?;
    let (order, place) = any_number_at(bytes, place)?;
    Ok((
        Reply::WaitOrder {
            conit,
            replica,
            tentative,
            order,
        },
        place,
    ))
}

#[tactic(auto, unfolding(crate::specs::CallBytes::wait_stale_at))]
fn wait_stale_at(bytes: &[u8], place: usize) -> Result<(Reply, usize), FieldFault>
    requires { place ≤ length bytes.now }
    ensures { result ≡ wait_stale_at bytes.now place }
{
    let (conit, place) = byte_at(bytes, place, 0, 256)?;
    let (replica, place) = byte_at(bytes, place, 0, 256)?;
    let (moment, place) = any_number_at(bytes, place)?;
    let (wanted, place) = any_number_at(bytes, place)?;
    Ok((
        Reply::WaitStale {
            conit,
            replica,
            moment,
            wanted,
        },
        place,
    ))
}

#[tactic(auto, unfolding(crate::specs::CallBytes::not_held_at))]
fn not_held_at(bytes: &[u8], place: usize) -> Result<(Reply, usize), FieldFault>
    requires { place ≤ length bytes.now }
    ensures { result ≡ not_held_at bytes.now place }
{
    let (conit, place) = byte_at(bytes, place, 0, 256)?;
    let (held, place) = any_number_at(bytes, place)?;
    let (amount, place) = any_number_at(bytes, place)?;
    Ok((
        Reply::NotHeld {
            conit,
            held,
            amount,
        },
        place,
    ))
}

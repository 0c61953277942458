//! Requests and replies as bytes. Each is put together in place, field by field, which takes no memory, and may be
//! appended at once.

ghost use Rattle.std.specs.Prelude.{◌≡◌, ◌<◌, ◌≤◌, ◌+◌, ◌*◌, ◌∷◌, ◌++◌, true, All, OnOk, OnErr, length};
ghost use Rattle.std.specs.List.{flat_map};
ghost use Rattle.tact_base.specs.declared.limits.TheConstants.{CONITS_MAX};
ghost use Rattle.run_model.specs.Call.{is_waiting};
ghost use Rattle.run_model.specs.Bytes.{number_bytes, signed_bytes, need_bytes, needs_bytes};
ghost use Rattle.run_model.specs.CallBytes.{HasConitsBelow, HasSmallNames, request_bytes, reply_bytes};

use crate::put_bytes::{fill_op, fill_weight, fill_weights};
use crate::{Reply, Request, ShortBytes};
use tact_base::{Bytes, Need, Needs, NoMemory};

/// Appends a request: its tag in one byte, 1 for a write, 2 for a held one, 3 to reserve, 4 to release and 5 to
/// read, and its fields. `NoMemory` leaves `out` as it was.
pub fn put_request(request: &Request, out: &mut Bytes) -> Result<(), NoMemory>
    requires { HasConitsBelow CONITS_MAX request.now }
    ensures ok { OnOk result (out.new ≡ out.old ++ request_bytes request.now) }
    ensures err { OnErr result (out.new ≡ out.old) }
{
    let mut short = ShortBytes::new();
    fill_request(request, &mut short);
    out.append(short.bytes())
}

/// Appends a reply: its tag in one byte, from 1 to 11 in the order of the type, and its fields, conits and
/// replicas in one byte, all other numbers in eight. `NoMemory` leaves `out` as it was.
pub fn put_reply(reply: &Reply, out: &mut Bytes) -> Result<(), NoMemory>
    requires { HasSmallNames reply.now }
    ensures ok { OnOk result (out.new ≡ out.old ++ reply_bytes reply.now) }
    ensures err { OnErr result (out.new ≡ out.old) }
{
    let mut short = ShortBytes::new();
    fill_reply(reply, &mut short);
    out.append(short.bytes())
}

/// Puts a request, as `put_request` appends it: at most 110 bytes. Takes no memory.
pub fn fill_request(request: &Request, out: &mut ShortBytes)
    requires conits { HasConitsBelow CONITS_MAX request.now }
    requires room { 110 ≤ out.old.room }
    ensures items { out.new.items ≡ out.old.items ++ request_bytes request.now }
    ensures room { out.old.room ≤ out.new.room + 110 }
{
    match request {
        Request::Write { weights, op } => {
            out.put_byte(1);
            fill_weights(weights, out);
            fill_op(op, out);
        }
        Request::Held { weight, op } => {
            out.put_byte(2);
            fill_weight(weight, out);
            fill_op(op, out);
        }
        Request::Reserve { conit, amount } => fill_amount(3, *conit, *amount, out),
        Request::Release { conit, amount } => fill_amount(4, *conit, *amount, out),
        Request::Read { key, needs } => {
            out.put_byte(5);
            out.put_number(*key);
            fill_needs(needs, out);
        }
    }
}

// A tag, a conit and an amount.
fn fill_amount(tag: u32, conit: u32, amount: u64, out: &mut ShortBytes)
    requires tag { tag < 256 }
    requires conit { conit < 256 }
    requires room { 10 ≤ out.old.room }
    ensures items { out.new.items ≡ out.old.items ++ tag ∷ conit ∷ number_bytes amount }
    ensures room { out.old.room ≡ out.new.room + 10 }
{
    out.put_byte(tag);
    out.put_byte(conit);
    out.put_number(amount);
}

// Needs, which have at most 101 bytes.
fn fill_needs(needs: &Needs, out: &mut ShortBytes)
    requires conits { All (λ need. need.conit < CONITS_MAX) needs.now }
    requires room { 101 ≤ out.old.room }
    ensures items { out.new.items ≡ out.old.items ++ needs_bytes needs.now }
    ensures room { out.old.room ≤ out.new.room + 101 }
{
    let items = needs.items();
    out.put_byte(items.len() as u32);
    fill_each(items, out);
}

fn fill_each(items: &[Need], out: &mut ShortBytes)
    requires conits { All (λ need. need.conit < CONITS_MAX) items.now }
    requires room { 25 * length items.now ≤ out.old.room }
    ensures items { out.new.items ≡ out.old.items ++ flat_map need_bytes items.now }
    ensures room { out.old.room ≡ out.new.room + 25 * length items.now }
{
    for item in items {
        fill_need(item, out);
    }
}

// A need, which has 25 bytes.
fn fill_need(need: &Need, out: &mut ShortBytes)
    requires conit { need.now.conit < CONITS_MAX }
    requires room { 25 ≤ out.old.room }
    ensures items { out.new.items ≡ out.old.items ++ need_bytes need.now }
    ensures room { out.old.room ≡ out.new.room + 25 }
{
    out.put_byte(need.conit);
    out.put_number(need.num);
    out.put_number(need.order);
    out.put_number(need.stale);
}

/// Puts a reply, as `put_reply` appends it: at most 42 bytes. Takes no memory.
pub fn fill_reply(reply: &Reply, out: &mut ShortBytes)
    requires names { HasSmallNames reply.now }
    requires room { 42 ≤ out.old.room }
    ensures items { out.new.items ≡ out.old.items ++ reply_bytes reply.now }
    ensures room { out.old.room ≤ out.new.room + 42 }
{
    match reply {
        Reply::Done { index, stamp } => {
            out.put_byte(1);
            out.put_numbers(&[*index, *stamp]);
        }
        Reply::Granted => out.put_byte(2),
        Reply::Released => out.put_byte(3),
        Reply::Value { value, sums } => {
            out.put_byte(4);
            out.put_signed(*value);
            fill_sums(sums.items(), out);
        }
        Reply::TooHeavy {
            conit,
            peer,
            weight,
            share,
        } => fill_named(5, *conit, *peer, &[*weight, *share], out),
        Reply::NotHeld {
            conit,
            held,
            amount,
        } => {
            out.put_byte(11);
            out.put_byte(*conit);
            out.put_numbers(&[*held, *amount]);
        }
        _ => fill_waiting(reply, out),
    }
}

// A waiting reply, which has at most 35 bytes.
fn fill_waiting(reply: &Reply, out: &mut ShortBytes)
    requires waits { is_waiting reply.now ≡ true }
    requires names { HasSmallNames reply.now }
    requires room { 35 ≤ out.old.room }
    ensures items { out.new.items ≡ out.old.items ++ reply_bytes reply.now }
    ensures room { out.old.room ≤ out.new.room + 35 }
{
    match reply {
        Reply::WaitHeld {
            conit,
            peer,
            reserved,
            weight,
            share,
        } => fill_named(6, *conit, *peer, &[*reserved, *weight, *share], out),
        Reply::WaitShare {
            conit,
            peer,
            missing,
            reserved,
            weight,
            share,
        } => fill_named(
            7,
            *conit,
            *peer,
            &[*missing, *reserved, *weight, *share],
            out,
        ),
        Reply::WaitLent {
            conit,
            holder,
            out: lent,
            total,
            num,
        } => fill_named(8, *conit, *holder, &[*lent, *total, *num], out),
        Reply::WaitOrder {
            conit,
            replica,
            tentative,
            order,
        } => fill_named(9, *conit, *replica, &[*tentative, *order], out),
        Reply::WaitStale {
            conit,
            replica,
            moment,
            wanted,
        } => fill_named(10, *conit, *replica, &[*moment, *wanted], out),
        _ => unreachable!(),
    }
}

// A tag, a conit, a replica and further numbers.
fn fill_named(tag: u32, conit: u32, replica: u32, numbers: &[u64], out: &mut ShortBytes)
    requires tag { tag < 256 }
    requires conit { conit < 256 }
    requires replica { replica < 256 }
    requires room { 3 + 8 * length numbers.now ≤ out.old.room }
    ensures items { out.new.items ≡ out.old.items ++ tag ∷ conit ∷ replica ∷ flat_map number_bytes numbers.now }
    ensures room { out.old.room ≡ out.new.room + (3 + 8 * length numbers.now) }
{
    out.put_byte(tag);
    out.put_byte(conit);
    out.put_byte(replica);
    out.put_numbers(numbers);
}

// How many sums, and each.
fn fill_sums(sums: &[i64], out: &mut ShortBytes)
    requires few { length sums.now < 256 }
    requires room { 1 + 8 * length sums.now ≤ out.old.room }
    ensures items { out.new.items ≡ out.old.items ++ length sums.now ∷ flat_map signed_bytes sums.now }
    ensures room { out.old.room ≡ out.new.room + (1 + 8 * length sums.now) }
{
    out.put_byte(sums.len() as u32);
    for sum in sums {
        out.put_signed(*sum);
    }
}

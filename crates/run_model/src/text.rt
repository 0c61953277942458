//! The text of entries: tokens with single spaces between them. A line is put together from its end to its beginning,
//! and then appended at once.

ghost use Rattle.std.specs.Prelude.{◌≡◌, ◌≤◌, ◌<◌, ◌+◌, ◌*◌, ◌++◌, ◌∷◌, [], true, length, map, drop, codes, decimal, OnOk, OnErr};
ghost use Rattle.std.specs.Fmt.{signed_decimal};
ghost use Rattle.run_model.specs.Call.{is_waiting};
ghost use Rattle.run_model.specs.Text.{spaced, BeginsWith, weight_token, need_token, op_tokens, request_tokens, reply_tokens, entry_text};
ghost use Rattle.run_model.specs.declared.entry.Act.TheVariants.{Send};

use crate::backward::{
    LINE_ROOM, Room, put, put_number, put_numbers, put_pair, put_signed, put_sums,
};
use crate::tokens::{self, all_or_nothing};
use crate::{Act, Entry, Message, Reply, Request};
use tact_base::{Bytes, Need, NoMemory, Op, Weight};

/// A message has this many numbers by origin at most, where its line is put together at once.
const FEW_FIRSTS: usize = 8;

/// The room in which lines are put together. Who appends many lines keeps one for them all, so that it isn't made anew
/// for each.
#[derive(Debug, Drop)]
pub struct LineRoom {
    // What it holds between two lines is read by nobody.
    bytes: Room,
}

impl LineRoom {
    /// Room for a line. Takes no memory.
    pub fn new() -> LineRoom {
        LineRoom {
            bytes: [0; LINE_ROOM],
        }
    }
}

/// Appends the line of an entry, with its line feed. `NoMemory` leaves `out` as it was.
pub fn line_of(entry: &Entry, out: &mut Bytes) -> Result<(), NoMemory>
    ensures ok { OnOk result (out.new ≡ out.old ++ entry_text entry.now ++ 10 ∷ []) }
    ensures err { OnErr result (out.new ≡ out.old) }
{
    line_with(&mut LineRoom::new(), entry, out)
}

/// Appends the line of an entry as [`line_of`], put together in a room that the caller keeps.
pub fn line_with(room: &mut LineRoom, entry: &Entry, out: &mut Bytes) -> Result<(), NoMemory>
    ensures ok { OnOk result (out.new ≡ out.old ++ entry_text entry.now ++ 10 ∷ []) }
    ensures err { OnErr result (out.new ≡ out.old) }
{
    line_in(&mut room.bytes, entry, out)
}

// The same, in the bytes of the room.
fn line_in(room: &mut Room, entry: &Entry, out: &mut Bytes) -> Result<(), NoMemory>
    ensures ok { OnOk result (out.new ≡ out.old ++ entry_text entry.now ++ 10 ∷ []) }
    ensures err { OnErr result (out.new ≡ out.old) }
{
    let end = put(b"\n", room, LINE_ROOM);
    let start = match &entry.act {
        Act::Call {
            client,
            number,
            request,
            reply,
        } => {
            let start = put_reply(reply, room, end);
            let start = put_request(request, room, start);
            let start = put_pair(u64::from(*client), *number, room, start);
            put(b" call", room, start)
        }
        Act::Send { message } => {
            let firsts = message.firsts.items();
            if firsts.len() > FEW_FIRSTS {
                return long_line_of(entry, message, out);
            }
            let start = put_numbers(firsts, room, end);
            put_sent(message, room, start)
        }
        Act::Take { message } => {
            let start = put_pair(u64::from(message.from), message.number, room, end);
            put(b" take", room, start)
        }
        Act::Lend { to, conit, amount } => {
            let start = put_loan(*to, *conit, *amount, room, end);
            put(b" lend", room, start)
        }
        Act::Back {
            owner,
            conit,
            amount,
        } => {
            let start = put_loan(*owner, *conit, *amount, room, end);
            put(b" back", room, start)
        }
        Act::Restart => put(b" restart", room, end),
    };
    let start = put_begin(entry, room, start);
    out.append(&room[start..])
}

// The line of a message to more replicas than a line has room for.
fn long_line_of(entry: &Entry, message: &Message, out: &mut Bytes) -> Result<(), NoMemory>
    requires { entry.now.act ≡ Send message.now }
    ensures ok { OnOk result (out.new ≡ out.old ++ entry_text entry.now ++ 10 ∷ []) }
    ensures err { OnErr result (out.new ≡ out.old) }
{
    let start = out.len();
    let done = print_long(entry, message, out);
    all_or_nothing(done, start, out)
}

fn print_long(entry: &Entry, message: &Message, out: &mut Bytes) -> Result<(), NoMemory>
    requires { entry.now.act ≡ Send message.now }
    ensures ok { OnOk result (out.new ≡ out.old ++ entry_text entry.now ++ 10 ∷ []) }
    ensures err { OnErr result (BeginsWith out.old out.new) }
{
    let mut room = [0; LINE_ROOM];
    let start = put_sent(message, &mut room, LINE_ROOM);
    let start = put_begin(entry, &mut room, start);
    out.append(&room[start..])?;
    tokens::put_numbers(message.firsts.items(), out)?;
    out.push(b'\n')
}

// What each line begins with: the replica and the moment.
fn put_begin(entry: &Entry, room: &mut Room, start: usize) -> usize
    requires fits { 43 ≤ start }
    requires within { start ≤ 600 }
    ensures start { result ≤ 600 }
    ensures text { drop result room.new
        ≡ codes "e" ++ spaced (decimal entry.now.replica ∷ decimal entry.now.moment ∷ []) ++ drop start room.old }
{
    let start = put_pair(u64::from(entry.replica), entry.moment, room, start);
    put(b"e", room, start)
}

// The word of a message that is sent, and its first two numbers.
fn put_sent(message: &Message, room: &mut Room, start: usize) -> usize
    requires fits { 47 ≤ start }
    requires within { start ≤ 600 }
    ensures start { (result ≤ start) × (start ≤ result + 47) }
    ensures text { drop result room.new
        ≡ spaced (codes "send" ∷ map decimal (message.now.to ∷ message.now.number ∷ [])) ++ drop start room.old }
{
    let start = put_pair(u64::from(message.to), message.number, room, start);
    put(b" send", room, start)
}

// What a loan is to or from, its conit and its amount.
fn put_loan(replica: u32, conit: u32, amount: u64, room: &mut Room, start: usize) -> usize
    requires fits { 63 ≤ start }
    requires within { start ≤ 600 }
    ensures start { (result ≤ start) × (start ≤ result + 63) }
    ensures text { drop result room.new
        ≡ spaced (map decimal (replica ∷ conit ∷ amount ∷ [])) ++ drop start room.old }
{
    let start = put_number(b' ', amount, room, start);
    put_pair(u64::from(replica), u64::from(conit), room, start)
}

// A reply, and the sign before it.
fn put_reply(reply: &Reply, room: &mut Room, start: usize) -> usize
    requires fits { 139 ≤ start }
    requires within { start ≤ 600 }
    ensures start { (result ≤ start) × (start ≤ result + 139) }
    ensures text { drop result room.new ≡ spaced (codes "=" ∷ reply_tokens reply.now) ++ drop start room.old }
{
    match reply {
        Reply::Done { index, stamp } => {
            let start = put_pair(*index, *stamp, room, start);
            put(b" = done", room, start)
        }
        Reply::Granted => put(b" = granted", room, start),
        Reply::Released => put(b" = released", room, start),
        Reply::Value { value, sums } => {
            let start = put_sums(sums.items(), room, start);
            let start = put_signed(b' ', *value, room, start);
            put(b" = value", room, start)
        }
        Reply::TooHeavy {
            conit,
            peer,
            weight,
            share,
        } => {
            let start = put_about(*conit, *peer, &[*weight, *share], room, start);
            put(b" = too-heavy", room, start)
        }
        Reply::NotHeld {
            conit,
            held,
            amount,
        } => {
            let start = put_number(b' ', *amount, room, start);
            let start = put_pair(u64::from(*conit), *held, room, start);
            put(b" = not-held", room, start)
        }
        _ => put_waiting(reply, room, start),
    }
}

fn put_waiting(reply: &Reply, room: &mut Room, start: usize) -> usize
    requires waiting { is_waiting reply.now ≡ true }
    requires fits { 139 ≤ start }
    requires within { start ≤ 600 }
    ensures start { (result ≤ start) × (start ≤ result + 139) }
    ensures text { drop result room.new ≡ spaced (codes "=" ∷ reply_tokens reply.now) ++ drop start room.old }
{
    match reply {
        Reply::WaitHeld {
            conit,
            peer,
            reserved,
            weight,
            share,
        } => {
            let start = put_about(*conit, *peer, &[*reserved, *weight, *share], room, start);
            put(b" = wait-held", room, start)
        }
        Reply::WaitShare {
            conit,
            peer,
            missing,
            reserved,
            weight,
            share,
        } => {
            let start = put_about(
                *conit,
                *peer,
                &[*missing, *reserved, *weight, *share],
                room,
                start,
            );
            put(b" = wait-share", room, start)
        }
        Reply::WaitLent {
            conit,
            holder,
            out: lent,
            total,
            num,
        } => {
            let start = put_about(*conit, *holder, &[*lent, *total, *num], room, start);
            put(b" = wait-lent", room, start)
        }
        Reply::WaitOrder {
            conit,
            replica,
            tentative,
            order,
        } => {
            let start = put_about(*conit, *replica, &[*tentative, *order], room, start);
            put(b" = wait-order", room, start)
        }
        Reply::WaitStale {
            conit,
            replica,
            moment,
            wanted,
        } => {
            let start = put_about(*conit, *replica, &[*moment, *wanted], room, start);
            put(b" = wait-stale", room, start)
        }
        _ => unreachable!(),
    }
}

// What a reply is about, and its numbers.
fn put_about(conit: u32, replica: u32, numbers: &[u64], room: &mut Room, start: usize) -> usize
    requires few { length numbers.now ≤ 4 }
    requires fits { 126 ≤ start }
    requires within { start ≤ 600 }
    ensures start { (result ≤ start) × (start ≤ result + 126) }
    ensures text { drop result room.new
        ≡ spaced (map decimal (conit ∷ replica ∷ numbers.now)) ++ drop start room.old }
{
    let start = put_numbers(numbers, room, start);
    put_pair(u64::from(conit), u64::from(replica), room, start)
}

fn put_request(request: &Request, room: &mut Room, start: usize) -> usize
    requires fits { 362 ≤ start }
    requires within { start ≤ 600 }
    ensures start { (result ≤ start) × (start ≤ result + 362) }
    ensures text { drop result room.new ≡ spaced (request_tokens request.now) ++ drop start room.old }
{
    match request {
        Request::Write { weights, op } => {
            let start = put_weights(weights.items(), room, start);
            let start = put_op(op, room, start);
            put(b" write", room, start)
        }
        Request::Held { weight, op } => {
            let start = put_weight(weight, room, start);
            let start = put_op(op, room, start);
            put(b" held", room, start)
        }
        Request::Reserve { conit, amount } => {
            let start = put_pair(u64::from(*conit), *amount, room, start);
            put(b" reserve", room, start)
        }
        Request::Release { conit, amount } => {
            let start = put_pair(u64::from(*conit), *amount, room, start);
            put(b" release", room, start)
        }
        Request::Read { key, needs } => {
            let start = put_needs(needs.items(), room, start);
            let start = put_number(b' ', *key, room, start);
            put(b" read", room, start)
        }
    }
}

fn put_op(op: &Op, room: &mut Room, start: usize) -> usize
    requires fits { 69 ≤ start }
    requires within { start ≤ 600 }
    ensures start { (result ≤ start) × (start ≤ result + 69) }
    ensures text { drop result room.new ≡ spaced (op_tokens op.now) ++ drop start room.old }
{
    match op {
        Op::Put { key, value } => {
            let start = put_change(*key, *value, room, start);
            put(b" put", room, start)
        }
        Op::Add { key, delta } => {
            let start = put_change(*key, *delta, room, start);
            put(b" add", room, start)
        }
        Op::Shift { from, to, amount } => {
            let start = put_number(b' ', *amount, room, start);
            let start = put_pair(*from, *to, room, start);
            put(b" shift", room, start)
        }
    }
}

// A key, and a number with its sign.
fn put_change(key: u64, number: i64, room: &mut Room, start: usize) -> usize
    requires fits { 43 ≤ start }
    requires within { start ≤ 600 }
    ensures start { (result ≤ start) × (start ≤ result + 43) }
    ensures text { drop result room.new
        ≡ spaced (decimal key ∷ signed_decimal number ∷ []) ++ drop start room.old }
{
    let start = put_signed(b' ', number, room, start);
    put_number(b' ', key, room, start)
}

fn put_weights(weights: &[Weight], room: &mut Room, start: usize) -> usize
    requires fits { 64 * length weights.now ≤ start }
    requires within { start ≤ 600 }
    ensures start { (result ≤ start) × (start ≤ result + 64 * length weights.now) }
    ensures text { drop result room.new ≡ spaced (map weight_token weights.now) ++ drop start room.old }
{
    let mut begin = start;
    let mut left = weights.len();
    while left > 0 {
        left -= 1;
        begin = put_weight(&weights[left], room, begin);
    }
    begin
}

fn put_weight(weight: &Weight, room: &mut Room, start: usize) -> usize
    requires fits { 64 ≤ start }
    requires within { start ≤ 600 }
    ensures start { (result ≤ start) × (start ≤ result + 64) }
    ensures text { drop result room.new ≡ spaced (weight_token weight.now ∷ []) ++ drop start room.old }
{
    let start = put_number(b':', weight.oweight, room, start);
    let start = put_signed(b':', weight.nweight, room, start);
    put_number(b' ', u64::from(weight.conit), room, start)
}

fn put_needs(needs: &[Need], room: &mut Room, start: usize) -> usize
    requires fits { 84 * length needs.now ≤ start }
    requires within { start ≤ 600 }
    ensures start { (result ≤ start) × (start ≤ result + 84 * length needs.now) }
    ensures text { drop result room.new ≡ spaced (map need_token needs.now) ++ drop start room.old }
{
    let mut begin = start;
    let mut left = needs.len();
    while left > 0 {
        left -= 1;
        begin = put_need(&needs[left], room, begin);
    }
    begin
}

fn put_need(need: &Need, room: &mut Room, start: usize) -> usize
    requires fits { 84 ≤ start }
    requires within { start ≤ 600 }
    ensures start { (result ≤ start) × (start ≤ result + 84) }
    ensures text { drop result room.new ≡ spaced (need_token need.now ∷ []) ++ drop start room.old }
{
    let start = put_number(b':', need.stale, room, start);
    let start = put_number(b':', need.order, room, start);
    let start = put_number(b':', need.num, room, start);
    put_number(b' ', u64::from(need.conit), room, start)
}

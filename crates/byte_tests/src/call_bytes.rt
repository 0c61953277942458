//! Requests and replies in bytes.

ghost use Rattle.run_model.specs.CallBytes.{HasConitsBelow, HasSmallNames};
ghost use Rattle.tact_base.specs.declared.limits.TheConstants.{CONITS_MAX};

use crate::field_bytes::{ADD, LIGHT, changed};
use run_model::{
    FieldFault, Reply, Request, ShortBytes, Sums, fill_reply, fill_request, get_reply, get_request,
    put_reply, put_request,
};
use std::alloc::Global;
use std::process::Abort;
use tact_base::{Bytes, Need, Needs, Weights};

const WRITE_BYTES: &[u8] = b"\x01\x01\0\0\0\0\0\0\0\0\x05\0\0\0\0\0\0\0\x01\
    \x02\0\0\0\0\0\0\0\x07\0\0\0\0\0\0\0\x01";

const HELD_BYTES: &[u8] = b"\x02\0\0\0\0\0\0\0\0\x05\0\0\0\0\0\0\0\x01\
    \x02\0\0\0\0\0\0\0\x07\0\0\0\0\0\0\0\x01";

// 10^12 on the conit 15.
const RESERVE_BYTES: &[u8] = b"\x03\x0f\0\0\0\xe8\xd4\xa5\x10\0";

const RELEASE_BYTES: &[u8] = b"\x04\0\0\0\0\0\0\0\0\x01";

// The key 258, and needs of 200, 50 and 10^6, and of 10^12, 0 and 2^60.
const READ_BYTES: &[u8] = b"\x05\0\0\0\0\0\0\x01\x02\x02\
    \0\0\0\0\0\0\0\0\xc8\0\0\0\0\0\0\0\x32\0\0\0\0\0\x0f\x42\x40\
    \x0f\0\0\0\xe8\xd4\xa5\x10\0\0\0\0\0\0\0\0\0\x10\0\0\0\0\0\0\0";

const LOOSE: Need = Need {
    conit: 0,
    num: 200,
    order: 50,
    stale: 1_000_000,
};

const LOOSEST: Need = Need {
    conit: 15,
    num: 1_000_000_000_000,
    order: 0,
    stale: 1_152_921_504_606_846_976,
};

// -2, with the sums -5 and 7.
const VALUE_BYTES: &[u8] = b"\x04\xff\xff\xff\xff\xff\xff\xff\xfe\
    \x02\xff\xff\xff\xff\xff\xff\xff\xfb\0\0\0\0\0\0\0\x07";

const SHARE_BYTES: &[u8] = b"\x07\x02\x01\0\0\0\0\0\0\0\x03\0\0\0\0\0\0\0\x04\
    \0\0\0\0\0\0\0\x05\0\0\0\0\0\0\0\x06";

const DONE_BYTES: &[u8] = b"\x01\0\0\0\0\0\0\0\x01\0\0\0\0\0\0\x01\x02";

const HEAVY_BYTES: &[u8] = b"\x05\xff\0\0\0\0\0\0\0\0\x02\xff\xff\xff\xff\xff\xff\xff\xff";

const WAIT_HELD_BYTES: &[u8] =
    b"\x06\x01\x02\0\0\0\0\0\0\0\x03\0\0\0\0\0\0\0\x04\0\0\0\0\0\0\0\x05";

const FEW_BYTES: &[u8] = b"\x0b\x07\0\0\0\0\0\0\0\x01\0\0\0\0\0\0\0\x02";

const LENT_BYTES: &[u8] = b"\x08\x01\x02\0\0\0\0\0\0\0\x03\0\0\0\0\0\0\0\x04\0\0\0\0\0\0\0\x05";

const ORDER_BYTES: &[u8] = b"\x09\x01\x02\0\0\0\0\0\0\0\x03\0\0\0\0\0\0\0\x04";

const STALE_BYTES: &[u8] = b"\x0a\x01\x02\0\0\0\0\0\0\0\x03\0\0\0\0\0\0\0\x04";

// Why no request to a replica of a setup with 16 conits is at the front of bytes, and the place where its reader stands
// then.
fn request_fault(bytes: &[u8]) -> (Option<FieldFault>, usize) {
    let mut place = 0;
    let fault = get_request(16, bytes, &mut place).err();
    (fault, place)
}

// The same of a reply.
fn reply_fault(bytes: &[u8]) -> (Option<FieldFault>, usize) {
    let mut place = 0;
    let fault = get_reply(bytes, &mut place).err();
    (fault, place)
}

// The request that all the bytes are.
#[tactic(auto, using(run_model::proofs::RequestBytes::named_conits))]
fn request_of(rt: &impl Abort, bytes: &[u8]) -> Request
    ensures { HasConitsBelow CONITS_MAX result }
{
    let mut place = 0;
    let request = get_request(16, bytes, &mut place).expect(rt, "a request");
    assert_eq!(rt; place, bytes.len());
    request
}

// The reply that all the bytes are.
fn reply_of(rt: &impl Abort, bytes: &[u8]) -> Reply
    ensures { HasSmallNames result }
{
    let mut place = 0;
    let reply = get_reply(bytes, &mut place).expect(rt, "a reply");
    assert_eq!(rt; place, bytes.len());
    reply
}

// Whether the request is put as these bytes.
fn is_put(rt: &impl Abort, alloc: Global, request: &Request, bytes: &[u8]) -> bool
    requires { HasConitsBelow CONITS_MAX request.now }
{
    let mut out = Bytes::new(alloc);
    put_request(request, &mut out).expect(rt, "room for a request");
    out.items() == bytes
}

// Whether the request is put in place as these bytes.
fn is_filled(request: &Request, bytes: &[u8]) -> bool
    requires { HasConitsBelow CONITS_MAX request.now }
{
    let mut short = ShortBytes::new();
    fill_request(request, &mut short);
    short.bytes() == bytes
}

fn is_reply_put(rt: &impl Abort, alloc: Global, reply: &Reply, bytes: &[u8]) -> bool
    requires { HasSmallNames reply.now }
{
    let mut out = Bytes::new(alloc);
    put_reply(reply, &mut out).expect(rt, "room for a reply");
    out.items() == bytes
}

fn is_reply_filled(reply: &Reply, bytes: &[u8]) -> bool
    requires { HasSmallNames reply.now }
{
    let mut short = ShortBytes::new();
    fill_reply(reply, &mut short);
    short.bytes() == bytes
}

// Whether these bytes are those of the request, both ways.
fn is_spelled(rt: &impl Abort, alloc: Global, request: &Request, bytes: &[u8]) -> bool {
    let read = request_of(rt, bytes);
    read == *request && is_filled(&read, bytes) && is_put(rt, alloc, &read, bytes)
}

// Whether these bytes are those of the reply, both ways.
fn is_reply_spelled(rt: &impl Abort, alloc: Global, reply: &Reply, bytes: &[u8]) -> bool {
    let read = reply_of(rt, bytes);
    read == *reply && is_reply_filled(&read, bytes) && is_reply_put(rt, alloc, &read, bytes)
}

// These bytes are those of the request, both ways, and each part of them is too short.
fn assert_spelled(rt: &(impl Abort + AllocGlobal), request: &Request, bytes: &[u8], text: &str) {
    assert!(rt; is_spelled(rt, rt.alloc(), request, bytes), "{text}");
    assert_request_parts(rt, bytes);
}

// Each part of these bytes is too short.
fn assert_request_parts(rt: &impl Abort, bytes: &[u8]) {
    for end in 0..bytes.len() {
        assert!(rt; request_fault(&bytes[..end]) == (Some(FieldFault::Short), 0));
    }
}

// These bytes are those of the reply, both ways, and each part of them is too short.
fn assert_reply(rt: &(impl Abort + AllocGlobal), reply: &Reply, bytes: &[u8], text: &str) {
    assert!(rt; is_reply_spelled(rt, rt.alloc(), reply, bytes), "{text}");
    assert_reply_parts(rt, bytes);
}

// The same of each reply of a table.
fn assert_replies(rt: &(impl Abort + AllocGlobal), table: &[(Reply, &[u8], &str)]) {
    for (reply, bytes, text) in table {
        assert_reply(rt, reply, bytes, text);
    }
}

// Each part of these bytes is too short.
fn assert_reply_parts(rt: &impl Abort, bytes: &[u8]) {
    for end in 0..bytes.len() {
        assert!(rt; reply_fault(&bytes[..end]) == (Some(FieldFault::Short), 0));
    }
}

#[rattlefmt::skip]
const REQUESTS: [(Request, &[u8], &str); 3] = [
    (Request::Held { weight: LIGHT, op: ADD }, HELD_BYTES, "a held write"),
    (Request::Reserve { conit: 15, amount: 1_000_000_000_000 }, RESERVE_BYTES, "a reserve"),
    (Request::Release { conit: 0, amount: 1 }, RELEASE_BYTES, "a release"),
];

#[test]
fn requests_both_ways(rt: HostRuntime) {
    let weights = Weights::new(&[LIGHT]).expect(&rt, "a weight");
    let write = Request::Write { weights, op: ADD };
    assert_spelled(&rt, &write, WRITE_BYTES, "a write");
    for (request, bytes, text) in &REQUESTS {
        assert_spelled(&rt, request, bytes, text);
    }
    let needs = Needs::new(&[LOOSE, LOOSEST]).expect(&rt, "needs");
    let read = Request::Read { key: 258, needs };
    assert_spelled(&rt, &read, READ_BYTES, "a read");
}

#[rattlefmt::skip]
static REQUEST_FAULTS: [(&[u8], usize, u8, FieldFault, &str); 15] = [
    (WRITE_BYTES, 0, 0, FieldFault::BadField(0), "no tag"),
    (WRITE_BYTES, 0, 6, FieldFault::BadField(0), "a tag too great"),
    (WRITE_BYTES, 1, 5, FieldFault::BadField(1), "five weights"),
    (WRITE_BYTES, 19, 4, FieldFault::BadField(19), "the tag of the operation"),
    (HELD_BYTES, 1, 16, FieldFault::BadField(1), "a conit past the last"),
    (HELD_BYTES, 10, 255, FieldFault::BadField(10), "an oweight too great"),
    (HELD_BYTES, 19, 255, FieldFault::BadField(19), "a key too great"),
    (RESERVE_BYTES, 1, 16, FieldFault::BadField(1), "a conit past the last"),
    (RESERVE_BYTES, 9, 1, FieldFault::BadField(2), "an amount too great"),
    (RELEASE_BYTES, 2, 255, FieldFault::BadField(2), "another too great"),
    (READ_BYTES, 1, 255, FieldFault::BadField(1), "a key too great"),
    (READ_BYTES, 9, 5, FieldFault::BadField(9), "five needs"),
    (READ_BYTES, 35, 0, FieldFault::BadField(35), "the conit before again"),
    (READ_BYTES, 43, 1, FieldFault::BadField(36), "a num too great"),
    (READ_BYTES, 59, 1, FieldFault::BadField(52), "a staleness too great"),
];

#[test]
fn faults_of_a_request(rt: HostRuntime) {
    for &(whole, at, byte, fault, text) in &REQUEST_FAULTS {
        let bytes = changed(&rt, rt.alloc(), whole, at, byte);
        assert!(rt; request_fault(&bytes) == (Some(fault), 0), "{text}");
    }
}

#[rattlefmt::skip]
const REPLIES: [(Reply, &[u8], &str); 3] = [
    (Reply::Done { index: 1, stamp: 258 }, DONE_BYTES, "done"),
    (Reply::Granted, b"\x02", "granted"),
    (Reply::Released, b"\x03", "released"),
];

#[test]
fn replies_both_ways(rt: HostRuntime) {
    assert_replies(&rt, &REPLIES);
    let sums = Sums::new(&[-5, 7]);
    assert_reply(
        &rt,
        &Reply::Value { value: -2, sums },
        VALUE_BYTES,
        "a value",
    );
}

#[rattlefmt::skip]
const REFUSALS: [(Reply, &[u8], &str); 4] = [
    (Reply::TooHeavy { conit: 255, peer: 0, weight: 2, share: u64::MAX }, HEAVY_BYTES, "too heavy"),
    (Reply::WaitHeld { conit: 1, peer: 2, reserved: 3, weight: 4, share: 5 }, WAIT_HELD_BYTES, "held"),
    (Reply::WaitShare { conit: 2, peer: 1, missing: 3, reserved: 4, weight: 5, share: 6 }, SHARE_BYTES, "a share"),
    (Reply::NotHeld { conit: 7, held: 1, amount: 2 }, FEW_BYTES, "not held"),
];

#[test]
fn refusals_both_ways(rt: HostRuntime) {
    assert_replies(&rt, &REFUSALS);
}

#[rattlefmt::skip]
const WAITING: [(Reply, &[u8], &str); 3] = [
    (Reply::WaitLent { conit: 1, holder: 2, out: 3, total: 4, num: 5 }, LENT_BYTES, "lent"),
    (Reply::WaitOrder { conit: 1, replica: 2, tentative: 3, order: 4 }, ORDER_BYTES, "an order"),
    (Reply::WaitStale { conit: 1, replica: 2, moment: 3, wanted: 4 }, STALE_BYTES, "a staleness"),
];

#[test]
fn waiting_reads_both_ways(rt: HostRuntime) {
    assert_replies(&rt, &WAITING);
}

#[rattlefmt::skip]
static REPLY_FAULTS: [(&[u8], usize, u8, FieldFault, &str); 4] = [
    (VALUE_BYTES, 0, 0, FieldFault::BadField(0), "no tag"),
    (SHARE_BYTES, 0, 12, FieldFault::BadField(0), "a tag too great"),
    (VALUE_BYTES, 9, 5, FieldFault::BadField(9), "five sums"),
    (VALUE_BYTES, 9, 3, FieldFault::Short, "a sum more than there is"),
];

#[test]
fn faults_of_a_reply(rt: HostRuntime) {
    for &(whole, at, byte, fault, text) in &REPLY_FAULTS {
        let bytes = changed(&rt, rt.alloc(), whole, at, byte);
        assert!(rt; reply_fault(&bytes) == (Some(fault), 0), "{text}");
    }
}

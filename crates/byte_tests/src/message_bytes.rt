//! Messages in bytes.

use crate::field_bytes::{ADD, LIGHT, changed};
use run_model::Message;
use std::alloc::Global;
use std::process::Abort;
use tact_base::{Bytes, Cover, Covers, Numbers, SharedWrites, Weights, Write, WriteList};
use tact_msg::{MsgFault, decode, encode};

// The first message of replica 0 to replica 1: it has accepted one write, and lent 10.
const WORKED: &[u8] = b"\x4d\x01\x02\x01\0\x01\0\0\0\0\0\0\0\0\
    \0\0\0\0\0\0\0\x01\0\0\0\0\0\0\0\x01\0\0\0\0\0\0\0\x01\0\0\0\0\0\0\0\0\0\0\0\0\0\0\0\0\x01\
    \0\0\0\0\0\0\0\0\0\0\0\0\0\0\0\0\0\0\0\0\0\0\0\0\0\0\0\0\0\0\0\0\0\0\0\0\0\0\0\0\0\
    \0\0\0\0\0\0\0\x0a\0\0\0\0\0\0\0\0\
    \0\0\0\0\0\0\0\x01\0\0\0\0\0\0\0\0\x01\0\0\0\0\0\0\0\0\x05\0\0\0\0\0\0\0\x01\
    \x02\0\0\0\0\0\0\0\x07\0\0\0\0\0\0\0\x01";

// Its one write.
fn write(rt: &impl Abort) -> Write {
    Write {
        origin: 0,
        index: 0,
        stamp: 1,
        moment: 0,
        weights: Weights::new(&[LIGHT]).expect(rt, "a weight"),
        op: ADD,
    }
}

fn writes(rt: &impl Abort, alloc: Global) -> SharedWrites {
    let mut writes = WriteList::new(alloc);
    writes.push(write(rt)).expect(rt, "room for a write");
    SharedWrites::new(alloc, writes).expect(rt, "writes")
}

// What is known of the own cover.
const OWN: Cover = Cover {
    count: 1,
    stamp: 1,
    moment: 0,
};

// Puts the lists into a message that has none.
fn fill(rt: &impl Abort, message: &mut Message) {
    message.haves.append(&[1, 0]).expect(rt, "haves");
    message
        .covers
        .append(&[OWN, Cover::default()])
        .expect(rt, "covers");
    message.firsts.append(&[0, 0]).expect(rt, "firsts");
    message.lent.append(&[10]).expect(rt, "what is lent");
    message.returned.append(&[0]).expect(rt, "what is returned");
}

// The same message.
fn worked(rt: &impl Abort, alloc: Global) -> Message {
    let mut message = Message {
        from: 0,
        to: 1,
        number: 0,
        haves: Numbers::new(alloc),
        covers: Covers::new(alloc),
        firsts: Numbers::new(alloc),
        writes: writes(rt, alloc),
        lent: Numbers::new(alloc),
        returned: Numbers::new(alloc),
    };
    fill(rt, &mut message);
    message
}

// How many bytes the message at the front of bytes has.
fn length_of(alloc: Global, bytes: &[u8]) -> Result<usize, MsgFault> {
    match decode(alloc, bytes) {
        Ok((_message, length)) => Ok(length),
        Err(fault) => Err(fault),
    }
}

// The bytes of the message at the front of bytes, behind a byte that stood there before.
fn encoded_again(rt: &impl Abort, alloc: Global, bytes: &[u8]) -> Bytes {
    let mut out = Bytes::from_slice(alloc, &[9]).expect(rt, "a byte");
    let (message, _length) = decode(alloc, bytes).expect(rt, "a message");
    encode(&message, &mut out).expect(rt, "room for a message");
    out
}

// Whether the bytes are refused at a field up to a place, or are another message than this one.
fn is_told_apart(alloc: Global, bytes: &[u8], at: usize, message: &Message) -> bool {
    match decode(alloc, bytes) {
        Ok((other, _length)) => other != *message,
        Err(MsgFault::BadField(place)) => place <= at,
        Err(_) => false,
    }
}

// The message twice.
fn stream(rt: &impl Abort, alloc: Global) -> Bytes {
    let mut stream = Bytes::from_slice(alloc, WORKED).expect(rt, "a message");
    stream.append(WORKED).expect(rt, "room for another");
    stream
}

// How many bytes the message at the front of bytes has, which is the worked one.
fn worked_length(rt: &impl Abort, alloc: Global, bytes: &[u8]) -> usize {
    let (message, length) = decode(alloc, bytes).expect(rt, "a message");
    assert!(rt; message == worked(rt, alloc));
    length
}

#[test]
fn the_worked_message(rt: HostRuntime) {
    let stream = stream(&rt, rt.alloc());
    assert_eq!(rt; worked_length(&rt, rt.alloc(), stream.items()), 163);
    let out = encoded_again(&rt, rt.alloc(), WORKED);
    assert!(rt; out.items().get(1..) == Some(WORKED));
}

#[test]
fn fronts_of_a_message(rt: HostRuntime) {
    for end in 0..WORKED.len() {
        assert_eq!(rt; length_of(rt.alloc(), &WORKED[..end]), Err(MsgFault::Short));
    }
}

#[test]
fn other_bytes_are_told_apart(rt: HostRuntime) {
    let message = worked(&rt, rt.alloc());
    for at in 0..WORKED.len() {
        let bytes = changed(&rt, rt.alloc(), WORKED, at, 255);
        assert!(rt; is_told_apart(rt.alloc(), &bytes, at, &message));
    }
}

static FAULTS: [(usize, u8, usize, &str); 29] = [
    (0, 0, 0, "no mark"),
    (0, 0x4C, 0, "another mark"),
    (1, 2, 1, "another version"),
    (2, 1, 2, "one replica"),
    (2, 9, 2, "nine replicas"),
    (3, 0, 3, "no conit"),
    (3, 17, 3, "seventeen conits"),
    (4, 2, 4, "from no replica"),
    (5, 2, 5, "to no replica"),
    (5, 0, 5, "to its sender"),
    (11, 1, 6, "a number too great"),
    (19, 1, 14, "more writes than a replica can have"),
    (29, 2, 22, "a cover of more than there are"),
    (32, 1, 30, "a stamp too great"),
    (38, 17, 38, "a moment too great"),
    (53, 2, 46, "a first past all"),
    (53, 1, 54, "a write told past all"),
    (54, 2, 54, "two where there is one"),
    (95, 1, 95, "a write of the receiver"),
    (96, 2, 96, "too much lent"),
    (104, 2, 104, "too much returned"),
    (119, 0, 112, "a write without a stamp"),
    (120, 17, 120, "a write at no moment"),
    (128, 5, 128, "five weights"),
    (129, 1, 129, "a conit past the last"),
    (130, 1, 130, "an nweight too great"),
    (138, 1, 138, "an oweight too great"),
    (146, 4, 146, "another tag"),
    (155, 1, 155, "a delta too great"),
];

#[test]
fn faults_of_a_message(rt: HostRuntime) {
    for &(at, byte, place, text) in &FAULTS {
        let bytes = changed(&rt, rt.alloc(), WORKED, at, byte);
        let length = length_of(rt.alloc(), &bytes);
        assert!(rt; length == Err(MsgFault::BadField(place)), "{text}");
    }
}

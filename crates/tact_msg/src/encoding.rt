//! Messages as bytes, appended field by field. Where one of the private calls fails, the bytes still begin with
//! what they were.

ghost use Rattle.std.specs.Prelude.{◌≡◌, ◌≤◌, ◌<◌, ◌-◌, ◌==◌, ◌++◌, All, OnOk, OnErr, filter, length, map};
ghost use Rattle.std.specs.List.{flat_map, range_with_len};
ghost use Rattle.tact_base.specs.declared.limits.TheConstants.{CONITS_MAX};
ghost use Rattle.run_model.specs.Text.{BeginsWith};
ghost use Rattle.run_model.specs.Taking.{told_writes};
ghost use Rattle.tact_msg.specs.MessageBytes.{IsMessage, head_bytes, head_of, message_bytes, told_bytes, told_of, write_bytes};

use crate::parts::{Head, Told};
use run_model::{
    Message, all_or_nothing, append_byte, append_number, append_numbers, put_op, put_weights,
};
use tact_base::{Bytes, NoMemory, Write};

/// Appends a message: the byte 0x4D and the version 1, the counts of replicas and of conits, the sender and the
/// receiver in one byte each, its number in eight; by origin how many of its writes the sender has, the three
/// numbers of the cover and the first told index in eight bytes each, and how many writes are told in one; by
/// conit what is lent, and what is returned, in eight; then the writes. A write is its stamp and its moment in
/// eight bytes, its weights and its operation. Numbers are big-endian, signed ones two's complement. Each
/// message in range of a setup can be encoded. `NoMemory` leaves `out` as it was.
pub fn encode(message: &Message, out: &mut Bytes) -> Result<(), NoMemory>
    requires { IsMessage message.now }
    ensures ok { OnOk result (out.new ≡ out.old ++ message_bytes message.now) }
    ensures err { OnErr result (out.new ≡ out.old) }
{
    let start = out.len();
    let done = append_message(message, out);
    all_or_nothing(done, start, out)
}

#[tactic(auto, using(run_model::proofs::TextLemmas::begins_grown, run_model::proofs::TextLemmas::always_err))]
fn append_message(message: &Message, out: &mut Bytes) -> Result<(), NoMemory>
    requires { IsMessage message.now }
    ensures ok { OnOk result (out.new ≡ out.old ++ message_bytes message.now) }
    ensures err { OnErr result (BeginsWith out.old out.new) }
{
    let head = Head {
        replicas: message.haves.len() as u32,
        conits: message.lent.len() as u32,
        from: message.from,
        to: message.to,
        number: message.number,
    };
    append_head(&head, out)?;
    append_tolds(message, head.replicas, out)?;
    append_numbers(message.lent.items(), out)?;
    append_numbers(message.returned.items(), out)?;
    append_writes(message.writes.items(), out)
}

#[tactic(auto, using(run_model::proofs::TextLemmas::begins_grown, run_model::proofs::TextLemmas::always_err))]
fn append_head(head: &Head, out: &mut Bytes) -> Result<(), NoMemory>
    requires replicas { head.now.replicas < 256 }
    requires conits { head.now.conits < 256 }
    requires from { head.now.from < 256 }
    requires to { head.now.to < 256 }
    ensures ok { OnOk result (out.new ≡ out.old ++ head_bytes head.now) }
    ensures err { OnErr result (BeginsWith out.old out.new) }
{
    out.append(&[
        0x4D,
        1,
        head.replicas as u8,
        head.conits as u8,
        head.from as u8,
        head.to as u8,
    ])?;
    append_number(head.number, out)
}

// What the message tells of each origin.
#[tactic(auto, using(run_model::proofs::TextLemmas::begins_grown, run_model::proofs::TextLemmas::always_err))]
fn append_tolds(message: &Message, replicas: u32, out: &mut Bytes) -> Result<(), NoMemory>
    requires replicas { replicas ≡ length message.now.haves }
    requires covers { replicas ≡ length message.now.covers }
    requires firsts { replicas ≡ length message.now.firsts }
    requires few { length message.now.writes ≤ 64 }
    ensures ok { OnOk result (out.new
        ≡ out.old ++ flat_map told_bytes (map (told_of message.now) (range_with_len 0 replicas))) }
    ensures err { OnErr result (BeginsWith out.old out.new) }
{
    for origin in 0..replicas {
        append_told(&told_of(message, origin), out)?;
    }
    Ok(())
}

fn told_of(message: &Message, origin: u32) -> Told
    requires haves { origin < length message.now.haves }
    requires covers { origin < length message.now.covers }
    requires firsts { origin < length message.now.firsts }
    requires few { length message.now.writes ≤ 64 }
    ensures told { result ≡ told_of message.now origin }
    ensures few { result.count ≤ 64 }
{
    Told {
        origin,
        have: message.haves.items()[origin as usize],
        cover: message.covers.items()[origin as usize],
        first: message.firsts.items()[origin as usize],
        count: count_of(message.writes.items(), origin),
    }
}

// How many of the writes are of the origin.
fn count_of(writes: &[Write], origin: u32) -> u32
    requires { length writes.now ≤ 64 }
    ensures count { result ≡ length (filter (λ write. write.origin == origin) writes.now) }
    ensures few { result ≤ length writes.now }
{
    writes.iter().filter(|write| write.origin == origin).count() as u32
}

#[tactic(auto, using(run_model::proofs::TextLemmas::begins_grown, run_model::proofs::TextLemmas::always_err))]
fn append_told(told: &Told, out: &mut Bytes) -> Result<(), NoMemory>
    requires { told.now.count < 256 }
    ensures ok { OnOk result (out.new ≡ out.old ++ told_bytes told.now) }
    ensures err { OnErr result (BeginsWith out.old out.new) }
{
    append_number(told.have, out)?;
    append_number(told.cover.count, out)?;
    append_number(told.cover.stamp, out)?;
    append_number(told.cover.moment, out)?;
    append_number(told.first, out)?;
    append_byte(told.count, out)
}

#[tactic(auto, using(run_model::proofs::TextLemmas::begins_grown, run_model::proofs::TextLemmas::always_err))]
fn append_writes(writes: &[Write], out: &mut Bytes) -> Result<(), NoMemory>
    requires { All (λ write. All (λ weight. weight.conit < CONITS_MAX) write.weights) writes.now }
    ensures ok { OnOk result (out.new ≡ out.old ++ flat_map write_bytes writes.now) }
    ensures err { OnErr result (BeginsWith out.old out.new) }
{
    for write in writes {
        append_write(write, out)?;
    }
    Ok(())
}

#[tactic(auto, using(run_model::proofs::TextLemmas::begins_grown, run_model::proofs::TextLemmas::always_err))]
fn append_write(write: &Write, out: &mut Bytes) -> Result<(), NoMemory>
    requires { All (λ weight. weight.conit < CONITS_MAX) write.now.weights }
    ensures ok { OnOk result (out.new ≡ out.old ++ write_bytes write.now) }
    ensures err { OnErr result (BeginsWith out.old out.new) }
{
    append_number(write.stamp, out)?;
    append_number(write.moment, out)?;
    put_weights(&write.weights, out)?;
    put_op(&write.op, out)
}

//! Messages, read from bytes field by field.

ghost use Rattle.std.specs.Prelude.{◌≡◌, ◌≢◌, IfOk, Err, Ok, length, map};
ghost use Rattle.run_model.specs.declared.entry.Message.{Message};
ghost use Rattle.run_model.specs.Bytes.{StandsAt};
ghost use Rattle.tact_msg.specs.declared.fault.MsgFault.TheVariants as fault;
ghost use Rattle.tact_msg.specs.Faults.{Tells};
ghost use Rattle.tact_msg.specs.MessageBytes.{IsMessage, message_at, message_bytes, message_from};

use crate::MsgFault;
use crate::get_parts::{amounts_at, head_at, tolds_at};
use crate::get_writes::writes_at;
use crate::parts::{Head, Told};
use run_model::Message;
use std::alloc::Global;
use tact_base::{Covers, NoMemory, Numbers, SharedWrites, WriteList};

/// Reads the message at the front of bytes, as `encode` writes it: the message, and how many bytes it has. What
/// follows isn't read. The fields are read from the left, and each is judged once all its bytes are there: the
/// first that breaks its rule is `BadField` with the place of its first byte, and `Short` means that the bytes
/// end before the message does, all whole fields being good. The message has the counts of replicas and conits
/// that its bytes say. Memory of `alloc` is taken only for what was read.
///
/// A transport appends what `encode` made to its frame, or to a stream. The receiver calls `decode`, waits for
/// more bytes where the answer is `Short`, and drops the sender where it is `BadField`. It then asks the
/// replica whether the message `fits`, since bytes alone can't tell whether it is of the replica's setup and
/// addressed to it, and lets the replica `take` it.
pub fn decode(alloc: Global, bytes: &[u8]) -> Result<(Message, usize), MsgFault>
    // What is decoded is a message of some setup, whose bytes stand at the front.
    ensures found { IfOk result (λ read. IsMessage read.0
        × StandsAt (message_bytes read.0) bytes.now 0
        × (read.1 ≡ length (message_bytes read.0))) }
    // A message whose bytes stand at the front is decoded, if there is memory.
    ensures only { (message : Message) → IsMessage message
        → StandsAt (message_bytes message) bytes.now 0 → result ≢ Err fault.NoMemory
        → result ≡ Ok (message, length (message_bytes message)) }
    // Which fault it is.
    ensures exact { Tells (message_at bytes.now 0) result }
{
    message_at(alloc, bytes)
}

#[tactic(auto, unfolding(crate::specs::MessageBytes::message_at))]
fn message_at(alloc: Global, bytes: &[u8]) -> Result<(Message, usize), MsgFault>
    ensures { Tells (message_at bytes.now 0) result }
{
    let (head, place) = head_at(bytes, 0)?;
    let (tolds, place) = tolds_at(head.to, head.replicas, bytes, place)?;
    let (lent, place) = amounts_at(head.conits, bytes, place)?;
    let (returned, place) = amounts_at(head.conits, bytes, place)?;
    let (writes, place) = writes_at(alloc, head.conits, tolds.items(), bytes, place)?;
    let message = message_from(
        alloc,
        &head,
        tolds.items(),
        lent.items(),
        returned.items(),
        writes,
    )?;
    Ok((message, place))
}

// The message of these parts.
fn message_from(
    alloc: Global,
    head: &Head,
    tolds: &[Told],
    lent: &[u64],
    returned: &[u64],
    writes: WriteList,
) -> Result<Message, NoMemory>
    ensures { IfOk result (λ message.
        message ≡ message_from head.now tolds.now lent.now returned.now writes) }
{
    let mut haves = Numbers::new(alloc);
    let mut covers = Covers::new(alloc);
    let mut firsts = Numbers::new(alloc);
    for told in tolds {
        haves.push(told.have)?;
        covers.push(told.cover)?;
        firsts.push(told.first)?;
    }
    Ok(Message {
        from: head.from,
        to: head.to,
        number: head.number,
        haves,
        covers,
        firsts,
        writes: SharedWrites::new(alloc, writes)?,
        lent: Numbers::from_slice(alloc, lent)?,
        returned: Numbers::from_slice(alloc, returned)?,
    })
}

//! Entries as pieces of a journal. That of a call is put together in place, which takes no memory; any other is
//! appended field by field. Where one of the private calls fails, the bytes still begin with what they were.

ghost use Rattle.std.specs.Prelude.{◌≡◌, ◌<◌, ◌≤◌, ◌++◌, OnOk, OnErr, length};
ghost use Rattle.run_model.specs.Text.{BeginsWith};
ghost use Rattle.run_record.specs.Records.{short_act_of};
ghost use Rattle.run_record.specs.RecordBytes.{act_tag};
ghost use Rattle.restart_journal.specs.Pieces.{CanBePut, IsCall, fields_of, piece_bytes};

use run_model::{Act, Entry, ShortBytes, all_or_nothing};
use run_record::{append_front, append_loan, append_send, fill_call, fill_front};
use tact_base::{Bytes, NoMemory};
use tact_msg::encode;

/// Appends the piece of an entry: its tag in one byte, 1 for a call, 2 for a send, 3 for a take, 4 for a lend, 5
/// for a back and 6 for a restart, its replica in one, its moment in eight, and its fields. They are those that a
/// record has, of a send its receiver, its number and its firsts; but of a take they are the whole message, as
/// `encode` writes it. Each entry in range of a setup whose reply names conits and replicas below 256 has a piece; that
/// of a call has at most 171 bytes. `NoMemory` leaves `out` as it was.
pub fn put_entry(entry: &Entry, out: &mut Bytes) -> Result<(), NoMemory>
    requires { CanBePut entry.now }
    ensures ok { OnOk result (out.new ≡ out.old ++ piece_bytes entry.now) }
    ensures err { OnErr result (out.new ≡ out.old) }
{
    let start = out.len();
    let done = append_piece(entry, out);
    all_or_nothing(done, start, out)
}

#[tactic(auto, using(run_model::proofs::TextLemmas::begins_grown, run_model::proofs::TextLemmas::always_err))]
fn append_piece(entry: &Entry, out: &mut Bytes) -> Result<(), NoMemory>
    requires { CanBePut entry.now }
    ensures ok { OnOk result (out.new ≡ out.old ++ piece_bytes entry.now) }
    ensures err { OnErr result (BeginsWith out.old out.new) }
{
    match &entry.act {
        Act::Call { .. } => {
            let piece = call_piece(entry);
            out.append(piece.bytes())
        }
        _ => {
            append_front(tag_of(&entry.act), entry.replica, entry.moment, out)?;
            append_fields(entry, out)
        }
    }
}

/// The piece of a call, as `put_entry` appends it: at most 171 bytes. Takes no memory.
pub fn call_piece(entry: &Entry) -> ShortBytes
    requires can_be_put { CanBePut entry.now }
    requires call { IsCall entry.now.act }
    ensures items { result.items ≡ piece_bytes entry.now }
    ensures length { length result.items ≤ 171 }
{
    let Act::Call {
        client,
        number,
        request,
        reply,
    } = &entry.act
    else {
        unreachable!()
    };
    let mut piece = ShortBytes::new();
    fill_front(tag_of(&entry.act), entry.replica, entry.moment, &mut piece);
    fill_call(*client, *number, request, reply, &mut piece);
    let _bytes = piece.bytes();
    piece
}

fn tag_of(act: &Act) -> u32
    ensures tag { result ≡ act_tag (short_act_of act.now) }
    ensures small { result < 7 }
{
    match act {
        Act::Call { .. } => 1,
        Act::Send { .. } => 2,
        Act::Take { .. } => 3,
        Act::Lend { .. } => 4,
        Act::Back { .. } => 5,
        Act::Restart => 6,
    }
}

// The fields of an act that is no call.
fn append_fields(entry: &Entry, out: &mut Bytes) -> Result<(), NoMemory>
    requires can_be_put { CanBePut entry.now }
    requires no_call { ¬ IsCall entry.now.act }
    ensures ok { OnOk result (out.new ≡ out.old ++ fields_of entry.now.act) }
    ensures err { OnErr result (BeginsWith out.old out.new) }
{
    match &entry.act {
        Act::Call { .. } => unreachable!(),
        Act::Send { message } => append_send(
            message.to,
            message.number,
            message.firsts.items(),
            out,
        ),
        Act::Take { message } => encode(message, out),
        Act::Lend { to, conit, amount } => append_loan(*to, *conit, *amount, out),
        Act::Back {
            owner,
            conit,
            amount,
        } => append_loan(*owner, *conit, *amount, out),
        Act::Restart => Ok(()),
    }
}

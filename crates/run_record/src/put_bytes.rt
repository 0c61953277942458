//! Records as bytes, appended field by field; what an entry begins with and the fields of a call are put together in
//! place before, which takes no memory. Where one of the private calls fails, the bytes still begin with what they were.

ghost use Rattle.std.specs.Prelude.{◌≡◌, ◌<◌, ◌≤◌, ◌+◌, ◌++◌, ◌∷◌, All, OnOk, OnErr, length};
ghost use Rattle.std.specs.List.{flat_map};
ghost use Rattle.tact_base.specs.declared.limits.TheConstants.{CONITS_MAX};
ghost use Rattle.tact_base.specs.Setup.{owners_and_conits};
ghost use Rattle.run_model.specs.Bytes.{number_bytes};
ghost use Rattle.run_model.specs.CallBytes.{HasConitsBelow, HasSmallNames};
ghost use Rattle.run_model.specs.Text.{BeginsWith};
ghost use Rattle.run_record.specs.Records.{IsShortOf, IsActOf, IsHeld};
ghost use Rattle.run_record.specs.declared.short.ShortAct.TheVariants.{Call, Send};
ghost use Rattle.run_record.specs.RecordBytes.{act_bytes, act_tag, bound_bytes, record_bytes, setup_bytes, short_bytes};

use crate::{Record, Short, ShortAct};
use run_model::{
    Config, Reply, Request, ShortBytes, all_or_nothing, append_byte, append_number, append_numbers,
    fill_reply, fill_request,
};
use tact_base::{Bytes, NoMemory};

/// Appends a record as bytes: the text TACT, the version 1 and the counts of replicas and conits in one byte
/// each; for each owner and conit the alpha and the loans by holder, in eight bytes each, the highest first; the
/// entries; the byte 0xFF and the number of entries in eight bytes. An entry is its tag in one byte, 1 for a
/// call, 2 for a send, 3 for a take, 4 for a lend, 5 for a back and 6 for a restart, its replica in one, its
/// moment in eight, and its fields: clients, replicas and conits in one byte each, other numbers in eight.
/// `NoMemory` leaves `out` as it was.
pub fn bytes_of(held: &Record, out: &mut Bytes) -> Result<(), NoMemory>
    ensures ok { OnOk result (out.new ≡ out.old ++ record_bytes held.now) }
    ensures err { OnErr result (out.new ≡ out.old) }
{
    let start = out.len();
    let done = append_record(held, out);
    all_or_nothing(done, start, out)
}

#[tactic(auto, using(run_model::proofs::TextLemmas::begins_grown, run_model::proofs::TextLemmas::always_err))]
fn append_record(held: &Record, out: &mut Bytes) -> Result<(), NoMemory>
    ensures ok { OnOk result (out.new ≡ out.old ++ record_bytes held.now) }
    ensures err { OnErr result (BeginsWith out.old out.new) }
{
    let entries = held.entries();
    append_setup(held.config(), out)?;
    append_shorts(entries, held.config(), out)?;
    append_byte(0xFF, out)?;
    append_number(entries.len() as u64, out)
}

#[tactic(auto, using(run_model::proofs::TextLemmas::begins_grown, run_model::proofs::TextLemmas::always_err))]
fn append_setup(config: &Config, out: &mut Bytes) -> Result<(), NoMemory>
    ensures ok { OnOk result (out.new ≡ out.old ++ setup_bytes config.now) }
    ensures err { OnErr result (BeginsWith out.old out.new) }
{
    let replicas = config.replicas() as u8;
    let conits = config.conits() as u8;
    out.append(&[0x54, 0x41, 0x43, 0x54, 1, replicas, conits])?;
    append_bounds(config, out)
}

// Each owner with each conit.
#[tactic(auto, using(run_model::proofs::TextLemmas::begins_grown, run_model::proofs::TextLemmas::always_err))]
fn append_bounds(config: &Config, out: &mut Bytes) -> Result<(), NoMemory>
    ensures ok { OnOk result
        (out.new ≡ out.old ++ flat_map (bound_bytes config.now) (owners_and_conits config.now)) }
    ensures err { OnErr result (BeginsWith out.old out.new) }
{
    let replicas = config.replicas();
    let conits = config.conits();
    for place in 0..replicas * conits {
        append_bound(config, place / conits, place % conits, out)?;
    }
    Ok(())
}

#[tactic(auto, using(run_model::proofs::TextLemmas::begins_grown, run_model::proofs::TextLemmas::always_err))]
fn append_bound(config: &Config, owner: u32, conit: u32, out: &mut Bytes) -> Result<(), NoMemory>
    requires owner_in { owner < config.now.replicas }
    requires conit_in { conit < config.now.conits }
    ensures ok { OnOk result (out.new ≡ out.old ++ bound_bytes config.now (owner, conit)) }
    ensures err { OnErr result (BeginsWith out.old out.new) }
{
    append_number(config.alpha(owner, conit), out)?;
    append_numbers(config.loans(owner, conit), out)
}

#[tactic(auto, using(run_model::proofs::TextLemmas::begins_grown, run_model::proofs::TextLemmas::always_err))]
fn append_shorts(entries: &[Short], config: &Config, out: &mut Bytes) -> Result<(), NoMemory>
    requires { All (IsShortOf config.now) entries.now }
    ensures ok { OnOk result (out.new ≡ out.old ++ flat_map short_bytes entries.now) }
    ensures err { OnErr result (BeginsWith out.old out.new) }
{
    for short in entries {
        append_short(short, config, out)?;
    }
    Ok(())
}

#[tactic(auto, using(run_model::proofs::TextLemmas::begins_grown, run_model::proofs::TextLemmas::always_err))]
fn append_short(short: &Short, config: &Config, out: &mut Bytes) -> Result<(), NoMemory>
    requires { IsShortOf config.now short.now }
    ensures ok { OnOk result (out.new ≡ out.old ++ short_bytes short.now) }
    ensures err { OnErr result (BeginsWith out.old out.new) }
{
    let _replicas = config.replicas();
    append_front(tag_of(&short.act), short.replica, short.moment, out)?;
    append_act(&short.act, config, short.replica, out)
}

/// Appends what an entry begins with: its tag in one byte, its replica in one, its moment in eight. After
/// `NoMemory` the bytes begin with what they were.
pub fn append_front(tag: u32, replica: u32, moment: u64, out: &mut Bytes) -> Result<(), NoMemory>
    requires tag { tag < 256 }
    requires replica { replica < 256 }
    ensures ok { OnOk result (out.new ≡ out.old ++ tag ∷ replica ∷ number_bytes moment) }
    ensures err { OnErr result (BeginsWith out.old out.new) }
{
    let mut front = ShortBytes::new();
    fill_front(tag, replica, moment, &mut front);
    out.append(front.bytes())
}

/// Puts what an entry begins with, as `append_front` appends it: 10 bytes. Takes no memory.
pub fn fill_front(tag: u32, replica: u32, moment: u64, out: &mut ShortBytes)
    requires tag { tag < 256 }
    requires replica { replica < 256 }
    requires room { 10 ≤ out.old.room }
    ensures items { out.new.items ≡ out.old.items ++ tag ∷ replica ∷ number_bytes moment }
    ensures room { out.old.room ≡ out.new.room + 10 }
{
    out.put_byte(tag);
    out.put_byte(replica);
    out.put_number(moment);
}

fn tag_of(act: &ShortAct) -> u32
    ensures tag { result ≡ act_tag act.now }
    ensures small { result < 7 }
{
    match act {
        ShortAct::Call { .. } => 1,
        ShortAct::Send { .. } => 2,
        ShortAct::Take { .. } => 3,
        ShortAct::Lend { .. } => 4,
        ShortAct::Back { .. } => 5,
        ShortAct::Restart => 6,
    }
}

// The fields of an act of a replica.
#[tactic(auto, using(run_model::proofs::TextLemmas::begins_grown, run_model::proofs::TextLemmas::always_err))]
fn append_act(
    act: &ShortAct,
    config: &Config,
    replica: u32,
    out: &mut Bytes,
) -> Result<(), NoMemory>
    requires { IsActOf config.now replica act.now }
    ensures ok { OnOk result (out.new ≡ out.old ++ act_bytes act.now) }
    ensures err { OnErr result (BeginsWith out.old out.new) }
{
    let _replicas = config.replicas();
    let _conits = config.conits();
    match act {
        ShortAct::Call {
            client,
            number,
            request,
            reply,
        } => append_call(*client, *number, request, reply, out),
        ShortAct::Send { to, number, firsts } => append_send(*to, *number, firsts.items(), out),
        ShortAct::Take { from, number } => append_named(*from, *number, out),
        ShortAct::Lend { to, conit, amount } => append_loan(*to, *conit, *amount, out),
        ShortAct::Back {
            owner,
            conit,
            amount,
        } => append_loan(*owner, *conit, *amount, out),
        ShortAct::Restart => Ok(()),
    }
}

/// Appends the fields of a call: its client in one byte, its number in eight, its request and its reply. After
/// `NoMemory` the bytes begin with what they were.
pub fn append_call(
    client: u32,
    number: u64,
    request: &Request,
    reply: &Reply,
    out: &mut Bytes,
) -> Result<(), NoMemory>
    requires client { client < 256 }
    requires conits { HasConitsBelow CONITS_MAX request.now }
    requires names { HasSmallNames reply.now }
    ensures ok { OnOk result (out.new ≡ out.old ++ act_bytes (Call client number request.now reply.now)) }
    ensures err { OnErr result (BeginsWith out.old out.new) }
{
    let mut call = ShortBytes::new();
    fill_call(client, number, request, reply, &mut call);
    out.append(call.bytes())
}

/// Puts the fields of a call, as `append_call` appends them: at most 161 bytes. Takes no memory.
pub fn fill_call(client: u32, number: u64, request: &Request, reply: &Reply, out: &mut ShortBytes)
    requires client { client < 256 }
    requires conits { HasConitsBelow CONITS_MAX request.now }
    requires names { HasSmallNames reply.now }
    requires room { 161 ≤ out.old.room }
    ensures items { out.new.items ≡ out.old.items ++ act_bytes (Call client number request.now reply.now) }
    ensures room { out.old.room ≤ out.new.room + 161 }
{
    out.put_byte(client);
    out.put_number(number);
    fill_request(request, out);
    fill_reply(reply, out);
}

/// Appends the fields of a send: its receiver in one byte, its number in eight, and its firsts in eight each.
/// After `NoMemory` the bytes begin with what they were.
#[tactic(auto, using(run_model::proofs::TextLemmas::begins_grown, run_model::proofs::TextLemmas::always_err))]
pub fn append_send(to: u32, number: u64, firsts: &[u64], out: &mut Bytes) -> Result<(), NoMemory>
    requires { to < 256 }
    ensures ok { OnOk result (out.new ≡ out.old ++ act_bytes (Send to number firsts.now)) }
    ensures err { OnErr result (BeginsWith out.old out.new) }
{
    append_named(to, number, out)?;
    append_numbers(firsts, out)
}

// A replica and a number.
#[tactic(auto, using(run_model::proofs::TextLemmas::begins_grown, run_model::proofs::TextLemmas::always_err))]
fn append_named(replica: u32, number: u64, out: &mut Bytes) -> Result<(), NoMemory>
    requires { replica < 256 }
    ensures ok { OnOk result (out.new ≡ out.old ++ replica ∷ number_bytes number) }
    ensures err { OnErr result (BeginsWith out.old out.new) }
{
    append_byte(replica, out)?;
    append_number(number, out)
}

/// Appends the fields of a lend or a back: the other replica and the conit in one byte each, the amount in eight.
/// After `NoMemory` the bytes begin with what they were.
#[tactic(auto, using(run_model::proofs::TextLemmas::begins_grown, run_model::proofs::TextLemmas::always_err))]
pub fn append_loan(replica: u32, conit: u32, amount: u64, out: &mut Bytes) -> Result<(), NoMemory>
    requires replica { replica < 256 }
    requires conit { conit < 256 }
    ensures ok { OnOk result (out.new ≡ out.old ++ replica ∷ conit ∷ number_bytes amount) }
    ensures err { OnErr result (BeginsWith out.old out.new) }
{
    append_byte(replica, out)?;
    append_byte(conit, out)?;
    append_number(amount, out)
}

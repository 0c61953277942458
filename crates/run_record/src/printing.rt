//! Records as text. Where one of the private calls fails, the text still begins with what it was.

ghost use Rattle.std.specs.Prelude.{◌≡◌, ◌++◌, ◌∷◌, [], OnOk, OnErr, false, map, decimal};
ghost use Rattle.std.specs.List.{flat_map};
ghost use Rattle.run_model.specs.Text.{BeginsWith, spaced};
ghost use Rattle.run_record.specs.Records.{held_of, short_of};
ghost use Rattle.run_record.specs.RecordText.{record_text, is_call, short_act_tokens, short_line};

use crate::{Record, Short, ShortAct};
use run_model::{
    Act, Config, Entry, LineRoom, all_or_nothing, end_of, head_of, line_with, put_number, put_row,
    put_token,
};
use tact_base::{Bytes, NoMemory};

/// Appends a record as text, without comments: the lines of the setup, one for each entry, and the last one with
/// their count. `NoMemory` leaves `out` as it was.
pub fn print(held: &Record, out: &mut Bytes) -> Result<(), NoMemory>
    ensures ok { OnOk result (out.new ≡ out.old ++ record_text held.now) }
    ensures err { OnErr result (out.new ≡ out.old) }
{
    let start = out.len();
    let done = print_record(held, out);
    all_or_nothing(done, start, out)
}

/// Appends the record of a run as text. `NoMemory` leaves `out` as it was.
pub fn text_of(config: &Config, run: &[Entry], out: &mut Bytes) -> Result<(), NoMemory>
    ensures ok { OnOk result (out.new ≡ out.old ++ record_text (held_of config.now run.now)) }
    ensures err { OnErr result (out.new ≡ out.old) }
{
    let start = out.len();
    let done = print_run(config, run, out);
    all_or_nothing(done, start, out)
}

#[tactic(auto, using(run_model::proofs::TextLemmas::begins_grown, run_model::proofs::TextLemmas::always_err))]
fn print_record(held: &Record, out: &mut Bytes) -> Result<(), NoMemory>
    ensures ok { OnOk result (out.new ≡ out.old ++ record_text held.now) }
    ensures err { OnErr result (BeginsWith out.old out.new) }
{
    let entries = held.entries();
    head_of(held.config(), out)?;
    print_shorts(entries, out)?;
    end_of(entries.len() as u64, out)
}

#[tactic(auto, using(run_model::proofs::TextLemmas::begins_grown, run_model::proofs::TextLemmas::always_err))]
fn print_run(config: &Config, run: &[Entry], out: &mut Bytes) -> Result<(), NoMemory>
    ensures ok { OnOk result (out.new ≡ out.old ++ record_text (held_of config.now run.now)) }
    ensures err { OnErr result (BeginsWith out.old out.new) }
{
    head_of(config, out)?;
    print_entries(run, out)?;
    end_of(run.len() as u64, out)
}

#[tactic(auto, using(run_model::proofs::TextLemmas::begins_grown, run_model::proofs::TextLemmas::always_err))]
fn print_entries(run: &[Entry], out: &mut Bytes) -> Result<(), NoMemory>
    ensures ok { OnOk result (out.new ≡ out.old ++ flat_map short_line (map short_of run.now)) }
    ensures err { OnErr result (BeginsWith out.old out.new) }
{
    let mut room = LineRoom::new();
    for entry in run {
        line_with(&mut room, entry, out)?;
    }
    Ok(())
}

#[tactic(auto, using(run_model::proofs::TextLemmas::begins_grown, run_model::proofs::TextLemmas::always_err))]
fn print_shorts(entries: &[Short], out: &mut Bytes) -> Result<(), NoMemory>
    ensures ok { OnOk result (out.new ≡ out.old ++ flat_map short_line entries.now) }
    ensures err { OnErr result (BeginsWith out.old out.new) }
{
    let mut room = LineRoom::new();
    for short in entries {
        print_short(short, &mut room, out)?;
    }
    Ok(())
}

// The line of an entry. That of a call is printed as that of the whole entry, which says the same.
#[tactic(auto, using(run_model::proofs::TextLemmas::begins_grown, run_model::proofs::TextLemmas::always_err))]
fn print_short(short: &Short, room: &mut LineRoom, out: &mut Bytes) -> Result<(), NoMemory>
    ensures ok { OnOk result (out.new ≡ out.old ++ short_line short.now) }
    ensures err { OnErr result (BeginsWith out.old out.new) }
{
    if let ShortAct::Call {
        client,
        number,
        request,
        reply,
    } = &short.act
    {
        let entry = Entry {
            replica: short.replica,
            moment: short.moment,
            act: Act::Call {
                client: *client,
                number: *number,
                request: request.clone()?,
                reply: reply.clone()?,
            },
        };
        return line_with(room, &entry, out);
    }
    out.append(b"e")?;
    put_number(u64::from(short.replica), out)?;
    put_number(short.moment, out)?;
    print_step(&short.act, out)?;
    out.push(b'\n')
}

// An act that isn't a call.
#[tactic(auto, using(run_model::proofs::TextLemmas::begins_grown, run_model::proofs::TextLemmas::always_err))]
fn print_step(act: &ShortAct, out: &mut Bytes) -> Result<(), NoMemory>
    requires { is_call act.now ≡ false }
    ensures ok { OnOk result (out.new ≡ out.old ++ spaced (short_act_tokens act.now)) }
    ensures err { OnErr result (BeginsWith out.old out.new) }
{
    match act {
        ShortAct::Send { to, number, firsts } => {
            put_row(b"send", &[u64::from(*to), *number], out)?;
            put_each(firsts.items(), out)
        }
        ShortAct::Take { from, number } => put_row(b"take", &[u64::from(*from), *number], out),
        ShortAct::Lend { to, conit, amount } => {
            put_row(b"lend", &[u64::from(*to), u64::from(*conit), *amount], out)
        }
        ShortAct::Back {
            owner,
            conit,
            amount,
        } => put_row(
            b"back",
            &[u64::from(*owner), u64::from(*conit), *amount],
            out,
        ),
        ShortAct::Restart => put_token(b"restart", out),
        ShortAct::Call { .. } => unreachable!(),
    }
}

#[tactic(auto, using(run_model::proofs::TextLemmas::begins_grown, run_model::proofs::TextLemmas::always_err))]
fn put_each(numbers: &[u64], out: &mut Bytes) -> Result<(), NoMemory>
    ensures ok { OnOk result (out.new ≡ out.old ++ spaced (map decimal numbers.now)) }
    ensures err { OnErr result (BeginsWith out.old out.new) }
{
    for number in numbers {
        put_number(*number, out)?;
    }
    Ok(())
}

//! The line that says what was found of a record. Where one of the private calls fails, the text still begins
//! with what it was.
ghost use Rattle.std.specs.Prelude.{◌≡◌, ◌++◌, ◌∷◌, [], OnOk, OnErr, IfOk, codes, decimal};
ghost use Rattle.run_model.specs.Text.{line_text, spaced, BeginsWith, reply_tokens};
ghost use Rattle.run_check.specs.VerdictText.{call_counts, other_counts, cause_tokens, summary_tokens, verdict_text};

use crate::{Summary, Verdict};
use run_model::{
    Act, Cause, Entry, Reply, Request, all_or_nothing, line_of, put_number, put_row, put_token,
};
use std::alloc::Global;
use tact_base::{Bytes, NoMemory};

/// Appends the line of a verdict, with its line feed: `run` with the count of entries and of each kind, or `bad`
/// with the place of the entry, counted from 0, and the cause with what was told and what is due (docs/FORMATS.md).
/// `NoMemory` leaves `out` as it was. Memory of `alloc` is taken for a while.
pub fn put_verdict(alloc: Global, verdict: &Verdict, out: &mut Bytes) -> Result<(), NoMemory>
    ensures ok { OnOk result (out.new ≡ out.old ++ verdict_text verdict.now) }
    ensures err { OnErr result (out.new ≡ out.old) }
{
    let start = out.len();
    let done = print_verdict(alloc, verdict, out);
    all_or_nothing(done, start, out)
}

#[tactic(auto, using(run_model::proofs::TextLemmas::begins_grown, run_model::proofs::TextLemmas::always_err))]
fn print_verdict(alloc: Global, verdict: &Verdict, out: &mut Bytes) -> Result<(), NoMemory>
    ensures ok { OnOk result (out.new ≡ out.old ++ verdict_text verdict.now) }
    ensures err { OnErr result (BeginsWith out.old out.new) }
{
    match verdict {
        Verdict::Run(summary) => print_run(summary, out),
        Verdict::Bad { entry, cause } => print_bad(alloc, *entry, cause, out),
    }
}

#[tactic(auto, using(run_model::proofs::TextLemmas::begins_grown, run_model::proofs::TextLemmas::always_err))]
fn print_run(summary: &Summary, out: &mut Bytes) -> Result<(), NoMemory>
    ensures ok { OnOk result (out.new ≡ out.old ++ (line_text (codes "run" ∷ summary_tokens summary.now) ++ 10 ∷ [])) }
    ensures err { OnErr result (BeginsWith out.old out.new) }
{
    out.append(b"run")?;
    print_call_counts(summary, out)?;
    print_other_counts(summary, out)?;
    out.push(b'\n')
}

#[tactic(auto, using(run_model::proofs::TextLemmas::begins_grown, run_model::proofs::TextLemmas::always_err))]
fn print_bad(alloc: Global, entry: u64, cause: &Cause, out: &mut Bytes) -> Result<(), NoMemory>
    ensures ok { OnOk result (out.new ≡ out.old ++ (line_text (codes "bad" ∷ decimal entry ∷ cause_tokens cause.now) ++ 10 ∷ [])) }
    ensures err { OnErr result (BeginsWith out.old out.new) }
{
    out.append(b"bad")?;
    put_number(entry, out)?;
    print_cause(alloc, cause, out)?;
    out.push(b'\n')
}

#[tactic(auto, using(run_model::proofs::TextLemmas::begins_grown, run_model::proofs::TextLemmas::always_err))]
fn print_call_counts(summary: &Summary, out: &mut Bytes) -> Result<(), NoMemory>
    ensures ok { OnOk result (out.new ≡ out.old ++ spaced (call_counts summary.now)) }
    ensures err { OnErr result (BeginsWith out.old out.new) }
{
    put_number(summary.entries, out)?;
    put_row(b"calls", &[summary.calls], out)?;
    put_row(b"writes", &[summary.writes], out)?;
    put_row(b"waits", &[summary.waits], out)
}

#[tactic(auto, using(run_model::proofs::TextLemmas::begins_grown, run_model::proofs::TextLemmas::always_err))]
fn print_other_counts(summary: &Summary, out: &mut Bytes) -> Result<(), NoMemory>
    ensures ok { OnOk result (out.new ≡ out.old ++ spaced (other_counts summary.now)) }
    ensures err { OnErr result (BeginsWith out.old out.new) }
{
    put_row(b"sends", &[summary.sends], out)?;
    put_row(b"takes", &[summary.takes], out)?;
    put_row(b"lends", &[summary.lends], out)?;
    put_row(b"backs", &[summary.backs], out)?;
    put_row(b"restarts", &[summary.restarts], out)
}

#[tactic(auto, using(run_model::proofs::TextLemmas::begins_grown, run_model::proofs::TextLemmas::always_err))]
fn print_cause(alloc: Global, cause: &Cause, out: &mut Bytes) -> Result<(), NoMemory>
    ensures ok { OnOk result (out.new ≡ out.old ++ spaced (cause_tokens cause.now)) }
    ensures err { OnErr result (BeginsWith out.old out.new) }
{
    match cause {
        Cause::Full { replica } => put_row(b"full", &[u64::from(*replica)], out),
        Cause::Moment { told, last } => put_row(b"moment", &[*told, *last], out),
        Cause::Number { told, due } => put_row(b"number", &[*told, *due], out),
        Cause::First { origin, told, due } => {
            put_row(b"first", &[u64::from(*origin), *told, *due], out)
        }
        Cause::NoSend { from, number } => { put_row(b"no-send", &[u64::from(*from), *number], out) }
        Cause::NotAddressed { to } => put_row(b"not-addressed", &[u64::from(*to)], out),
        Cause::Home { amount, home } => put_row(b"home", &[*amount, *home], out),
        Cause::Free { amount, free } => put_row(b"free", &[*amount, *free], out),
        Cause::Reply { told, due } => {
            put_token(b"reply", out)?;
            print_reply(alloc, told, out)?;
            put_token(b"|", out)?;
            print_reply(alloc, due, out)
        }
    }
}

// The tokens of a reply, with a space before each.
#[tactic(auto, using(run_model::proofs::TextLemmas::begins_grown, run_model::proofs::TextLemmas::always_err))]
fn print_reply(alloc: Global, reply: &Reply, out: &mut Bytes) -> Result<(), NoMemory>
    ensures ok { OnOk result (out.new ≡ out.old ++ spaced (reply_tokens reply.now)) }
    ensures err { OnErr result (BeginsWith out.old out.new) }
{
    let line = line_with(alloc, reply)?;
    let bytes = line.items();
    out.append(&bytes[BEFORE_REPLY..bytes.len() - 1])
}

// How long the line of the call is up to the reply.
const BEFORE_REPLY: usize = b"e 0 0 call 0 0 release 0 0 =".len();

// The line of a call that gets a reply. Replies are printed in the lines of entries alone.
fn line_with(alloc: Global, reply: &Reply) -> Result<Bytes, NoMemory>
    ensures { IfOk result (λ line. line ≡ codes "e 0 0 call 0 0 release 0 0 =" ++ (spaced (reply_tokens reply.now) ++ 10 ∷ [])) }
{
    let entry = Entry {
        replica: 0,
        moment: 0,
        act: Act::Call {
            client: 0,
            number: 0,
            request: Request::Release {
                conit: 0,
                amount: 0,
            },
            reply: reply.clone()?,
        },
    };
    let mut line = Bytes::new(alloc);
    line_of(&entry, &mut line)?;
    Ok(line)
}

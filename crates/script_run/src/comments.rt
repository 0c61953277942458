//! The comments of `play`: on a replica that is shown, on a need of a read, on a conit's true value, and on a loan or
//! a return over its limit. Where one of the private calls fails, the text still begins with what it was.
ghost use Rattle.std.specs.Prelude.{◌≡◌, ◌<◌, ◌≤◌, ◌+◌, ◌∷◌, ◌++◌, [], List, All, length, codes, decimal, OnOk, OnErr};
ghost use Rattle.std.specs.Fmt.{signed_decimal};
ghost use Rattle.std.specs.List.{flat_map};
ghost use Rattle.run_model.specs.Histories.{part_of};
ghost use Rattle.run_model.specs.ScriptRuns.{bounded_token, show_text, need_text};
ghost use Rattle.run_model.specs.Text.{spaced, BeginsWith};
ghost use Rattle.run_model.specs.declared.entry.Entry.{Entry};
ghost use Rattle.replica_core.specs.Stands.{Stands};
ghost use Rattle.script_run.specs.Comments.{TellsTruth, have_tokens, last_token, writes_tokens, state_tokens, shown_core, need_comment, reference_comment, refusal_comment};

use crate::page::Page;
use reference_book::{Book, Errors};
use replica_core::{LastOne, Replica};
use run_model::{Config, all_or_nothing, put_number, put_row, put_token};
use tact_base::{Bytes, Need, NoMemory, ShortText, print_number, print_signed};

/// Appends the comment that shows a replica of a setup, with its line feed. It goes through no list of writes.
/// `NoMemory` leaves `out` as it was.
pub(crate) fn show(
    config: &Config,
    replica: u32,
    view: &Replica,
    out: &mut Bytes,
) -> Result<(), NoMemory>
    requires setup { view.now.core.setup ≡ config.now }
    requires replica { view.now.core.replica ≡ replica }
    ensures ok { OnOk result (out.new ≡ out.old ++ shown_core view.now.core) }
    ensures of_history { OnOk result ((history : List Entry) → Stands (part_of history replica) view.now.core
        → out.new ≡ out.old ++ show_text config.now history replica) }
    ensures err { OnErr result (out.new ≡ out.old) }
{
    let start = out.len();
    let done = print_replica(config.replicas(), replica, view, out);
    all_or_nothing(done, start, out)
}

/// Appends the comment on a need of an answered read, of which these are the errors, with its line feed. `NoMemory`
/// leaves `out` as it was.
pub(crate) fn need(errors: &Errors, need: &Need, out: &mut Bytes) -> Result<(), NoMemory>
    ensures ok { OnOk result (out.new ≡ out.old ++ need_comment errors.now need.now) }
    ensures err { OnErr result (out.new ≡ out.old) }
{
    let start = out.len();
    let done = print_need(errors, need, out);
    all_or_nothing(done, start, out)
}

/// Appends the comments on the needs of a read that a replica answered at a moment, with their line feeds, by the
/// book of all writes accepted up to the answer. `NoMemory` leaves `out` as it was.
pub(crate) fn needs(
    book: &Book,
    view: &Replica,
    moment: u64,
    needs: &[Need],
    out: &mut Bytes,
) -> Result<(), NoMemory>
    requires conits { view.now.core.setup.conits ≡ book.now.conits }
    requires replicas { view.now.core.setup.replicas ≡ length book.now.logs }
    requires needs { All (λ need. need.conit < book.now.conits) needs.now }
    ensures of_history { OnOk result ((history : List Entry) → TellsTruth book.now view.now.core history
        → out.new ≡ out.old ++ flat_map (need_text view.now.core.setup history view.now.core.replica moment) needs.now) }
    ensures err { OnErr result (out.new ≡ out.old) }
{
    let start = out.len();
    let done = print_needs(book, view, moment, needs, out);
    all_or_nothing(done, start, out)
}

/// Appends the comment on the true value of a conit, with its line feed. `NoMemory` leaves `out` as it was.
pub(crate) fn reference(conit: u32, value: i64, out: &mut Bytes) -> Result<(), NoMemory>
    ensures ok { OnOk result (out.new ≡ out.old ++ reference_comment conit value) }
    ensures err { OnErr result (out.new ≡ out.old) }
{
    let start = out.len();
    let done = print_reference(conit, value, out);
    all_or_nothing(done, start, out)
}

/// Appends the comment on a loan that is over what its owner has at home, with its line feed. `NoMemory` leaves the
/// page as it was.
pub(crate) fn lend_refused(
    owner: u32,
    holder: u32,
    conit: u32,
    amount: u64,
    home: u64,
    page: &mut Page,
) -> Result<(), NoMemory>
    ensures ok { OnOk result (page.new
        ≡ page.old ++ refusal_comment (codes "lend") (owner ∷ holder ∷ conit ∷ amount ∷ []) (codes "home") home) }
    ensures err { OnErr result (page.new ≡ page.old) }
{
    let numbers = [
        u64::from(owner),
        u64::from(holder),
        u64::from(conit),
        amount,
    ];
    refused(b"lend", &numbers, b"home", home, &mut page.text)
}

/// Appends the comment on a return that is over what its holder has free, with its line feed. `NoMemory` leaves the
/// page as it was.
pub(crate) fn back_refused(
    holder: u32,
    owner: u32,
    conit: u32,
    amount: u64,
    free: u64,
    page: &mut Page,
) -> Result<(), NoMemory>
    ensures ok { OnOk result (page.new
        ≡ page.old ++ refusal_comment (codes "back") (holder ∷ owner ∷ conit ∷ amount ∷ []) (codes "free") free) }
    ensures err { OnErr result (page.new ≡ page.old) }
{
    let numbers = [
        u64::from(holder),
        u64::from(owner),
        u64::from(conit),
        amount,
    ];
    refused(b"back", &numbers, b"free", free, &mut page.text)
}

// Appends the comment on what is refused: its word, its numbers, and its limit.
fn refused(
    word: &[u8],
    numbers: &[u64],
    limit: &[u8],
    most: u64,
    out: &mut Bytes,
) -> Result<(), NoMemory>
    ensures ok { OnOk result (out.new ≡ out.old ++ refusal_comment word.now numbers.now limit.now most) }
    ensures err { OnErr result (out.new ≡ out.old) }
{
    let start = out.len();
    let done = print_refusal(word, numbers, limit, most, out);
    all_or_nothing(done, start, out)
}

#[tactic(auto, using(run_model::proofs::TextLemmas::begins_grown, run_model::proofs::TextLemmas::always_err))]
fn print_refusal(
    word: &[u8],
    numbers: &[u64],
    limit: &[u8],
    most: u64,
    out: &mut Bytes,
) -> Result<(), NoMemory>
    ensures ok { OnOk result (out.new ≡ out.old ++ refusal_comment word.now numbers.now limit.now most) }
    ensures err { OnErr result (BeginsWith out.old out.new) }
{
    out.append(b"#")?;
    put_row(word, numbers, out)?;
    put_row(limit, &[most], out)?;
    out.push(b'\n')
}

#[tactic(auto, using(run_model::proofs::TextLemmas::begins_grown, run_model::proofs::TextLemmas::always_err))]
fn print_reference(conit: u32, value: i64, out: &mut Bytes) -> Result<(), NoMemory>
    ensures ok { OnOk result (out.new ≡ out.old ++ reference_comment conit value) }
    ensures err { OnErr result (BeginsWith out.old out.new) }
{
    out.append(b"#")?;
    put_row(b"ref", &[u64::from(conit)], out)?;
    put_signed(value, out)?;
    out.push(b'\n')
}

#[tactic(auto, using(run_model::proofs::TextLemmas::begins_grown, run_model::proofs::TextLemmas::always_err))]
fn put_signed(value: i64, out: &mut Bytes) -> Result<(), NoMemory>
    ensures ok { OnOk result (out.new ≡ out.old ++ spaced (signed_decimal value ∷ [])) }
    ensures err { OnErr result (BeginsWith out.old out.new) }
{
    out.push(b' ')?;
    print_signed(out, value)
}

#[tactic(auto, using(run_model::proofs::TextLemmas::begins_grown, run_model::proofs::TextLemmas::always_err))]
fn print_need(errors: &Errors, need: &Need, out: &mut Bytes) -> Result<(), NoMemory>
    ensures ok { OnOk result (out.new ≡ out.old ++ need_comment errors.now need.now) }
    ensures err { OnErr result (BeginsWith out.old out.new) }
{
    put_first_bound(errors, need, out)?;
    put_other_bounds(errors, need, out)
}

#[tactic(auto, using(run_model::proofs::TextLemmas::begins_grown, run_model::proofs::TextLemmas::always_err))]
fn print_needs(
    book: &Book,
    view: &Replica,
    moment: u64,
    needs: &[Need],
    out: &mut Bytes,
) -> Result<(), NoMemory>
    requires conits { view.now.core.setup.conits ≡ book.now.conits }
    requires replicas { view.now.core.setup.replicas ≡ length book.now.logs }
    requires needs { All (λ need. need.conit < book.now.conits) needs.now }
    ensures of_history { OnOk result ((history : List Entry) → TellsTruth book.now view.now.core history
        → out.new ≡ out.old ++ flat_map (need_text view.now.core.setup history view.now.core.replica moment) needs.now) }
    ensures err { OnErr result (BeginsWith out.old out.new) }
{
    for need in needs {
        let errors = book.errors(view, moment, need.conit);
        print_need(&errors, need, out)?;
    }
    Ok(())
}

// The beginning of the comment on a need: its conit, and the numerical error with its bound.
fn put_first_bound(errors: &Errors, need: &Need, out: &mut Bytes) -> Result<(), NoMemory>
    ensures ok { OnOk result (out.new ≡ out.old
        ++ codes "#" ++ spaced (codes "need" ∷ decimal need.now.conit ∷ codes "num" ∷ bounded_token errors.now.num need.now.num ∷ [])) }
    ensures err { OnErr result (out.new ≡ out.old) }
{
    let mut text = ShortText::new();
    put_bounded(&mut text, b"num", errors.num, need.num);
    text.put_marked(b' ', u64::from(need.conit));
    text.put_word(b' ', b"need");
    text.put(b'#');
    out.append(text.bytes())
}

// The rest of it: the other errors with their bounds, and a line feed.
fn put_other_bounds(errors: &Errors, need: &Need, out: &mut Bytes) -> Result<(), NoMemory>
    ensures ok { OnOk result (out.new ≡ out.old
        ++ spaced (codes "order" ∷ bounded_token errors.now.order need.now.order
        ∷ codes "stale" ∷ bounded_token errors.now.age need.now.stale ∷ []) ++ 10 ∷ []) }
    ensures err { OnErr result (out.new ≡ out.old) }
{
    let mut text = ShortText::new();
    text.put(b'\n');
    put_bounded(&mut text, b"stale", errors.age, need.stale);
    put_bounded(&mut text, b"order", errors.order, need.order);
    out.append(text.bytes())
}

// Puts a word, and an error with its bound.
fn put_bounded(text: &mut ShortText, word: &[u8], error: u64, bound: u64)
    requires { length word.now + 42 < text.old.room }
    ensures items { text.new.items ≡ spaced (word.now ∷ bounded_token error bound ∷ []) ++ text.old.items }
    ensures room { text.old.room ≤ text.new.room + (length word.now + 43) }
{
    text.put_marked(b'/', bound);
    text.put_marked(b' ', error);
    text.put_word(b' ', word);
}

#[tactic(auto, using(run_model::proofs::TextLemmas::begins_grown, run_model::proofs::TextLemmas::always_err))]
fn print_replica(
    replicas: u32,
    replica: u32,
    view: &Replica,
    out: &mut Bytes,
) -> Result<(), NoMemory>
    requires replicas { view.now.core.setup.replicas ≡ replicas }
    requires replica { view.now.core.replica ≡ replica }
    ensures ok { OnOk result (out.new ≡ out.old ++ shown_core view.now.core) }
    ensures err { OnErr result (BeginsWith out.old out.new) }
{
    out.append(b"#")?;
    put_logs(replicas, replica, view, out)?;
    put_state(view, out)?;
    out.push(b'\n')
}

// Which replica it is, and how many writes of each origin it has.
#[tactic(auto, using(run_model::proofs::TextLemmas::begins_grown, run_model::proofs::TextLemmas::always_err))]
fn put_logs(replicas: u32, replica: u32, view: &Replica, out: &mut Bytes) -> Result<(), NoMemory>
    requires { view.now.core.setup.replicas ≡ replicas }
    ensures ok { OnOk result (out.new ≡ out.old
        ++ spaced (codes "show" ∷ decimal replica ∷ codes "have" ∷ have_tokens view.now.core)) }
    ensures err { OnErr result (BeginsWith out.old out.new) }
{
    put_row(b"show", &[u64::from(replica)], out)?;
    put_token(b"have", out)?;
    put_haves(replicas, view, out)
}

#[tactic(auto, using(run_model::proofs::TextLemmas::begins_grown, run_model::proofs::TextLemmas::always_err))]
fn put_haves(replicas: u32, view: &Replica, out: &mut Bytes) -> Result<(), NoMemory>
    requires { view.now.core.setup.replicas ≡ replicas }
    ensures ok { OnOk result (out.new ≡ out.old ++ spaced (have_tokens view.now.core)) }
    ensures err { OnErr result (BeginsWith out.old out.new) }
{
    for origin in 0..replicas {
        put_number(view.have(origin), out)?;
    }
    Ok(())
}

// Its clock, its point, and what of its writes is committed and tentative.
#[tactic(auto, using(run_model::proofs::TextLemmas::begins_grown, run_model::proofs::TextLemmas::always_err))]
fn put_state(view: &Replica, out: &mut Bytes) -> Result<(), NoMemory>
    ensures ok { OnOk result (out.new ≡ out.old ++ spaced (state_tokens view.now.core)) }
    ensures err { OnErr result (BeginsWith out.old out.new) }
{
    put_row(b"clock", &[view.clock()], out)?;
    put_row(b"point", &[view.point()], out)?;
    put_writes(view, out)
}

#[tactic(auto, using(run_model::proofs::TextLemmas::begins_grown, run_model::proofs::TextLemmas::always_err))]
fn put_writes(view: &Replica, out: &mut Bytes) -> Result<(), NoMemory>
    ensures ok { OnOk result (out.new ≡ out.old ++ spaced (writes_tokens view.now.core.writes.point view.now.core.writes.seen)) }
    ensures err { OnErr result (BeginsWith out.old out.new) }
{
    put_row(b"committed", &[view.committed_count()], out)?;
    put_token(b"last", out)?;
    put_last(view.last_committed(), out)?;
    put_row(b"tentative", &[view.tentative().len() as u64], out)
}

#[tactic(auto, using(run_model::proofs::TextLemmas::begins_grown, run_model::proofs::TextLemmas::always_err))]
fn put_last(last: Option<LastOne>, out: &mut Bytes) -> Result<(), NoMemory>
    ensures ok { OnOk result (out.new ≡ out.old ++ spaced (last_token last ∷ [])) }
    ensures err { OnErr result (BeginsWith out.old out.new) }
{
    match last {
        None => put_token(b"none", out),
        Some(last) => {
            put_number(u64::from(last.origin), out)?;
            out.push(b'.')?;
            print_number(out, last.index)
        }
    }
}

//! The counts of what happened.
ghost use Rattle.std.specs.Prelude.{◌≡◌, List, ◌++◌, ◌∷◌, [], Bool, OnOk, OnErr, IfOk};
ghost use Rattle.run_model.specs.declared.entry.Act.{Act};
ghost use Rattle.run_model.specs.declared.entry.Entry.{Entry as Made};
ghost use Rattle.run_model.specs.Text.{BeginsWith, spaced};
ghost use Rattle.tact_top.specs.DrillText.{count_of, count_tokens, counts_of, counts_text, is_done, is_heavy, is_send, is_take, is_value, is_wait, message_counts, reply_counts, sent_counts};

use run_model::{Act, Entry, Reply, put_number, put_row};
use script_run::{Witness, one_more};
use tact_base::{Bytes, NoMemory};

/// How many entries there were, and how many with acts of each kind.
#[derive(Drop)]
pub(crate) struct Counts {
    entries: u64,
    done: u64,
    waits: u64,
    heavy: u64,
    values: u64,
    sends: u64,
    takes: u64,
}

impl Counts {
    /// The counts of no entries.
    pub(crate) fn new() -> Counts
        ensures { result ≡ counts_of [] }
    {
        Counts {
            entries: 0,
            done: 0,
            waits: 0,
            heavy: 0,
            values: 0,
            sends: 0,
            takes: 0,
        }
    }
}

impl Witness for Counts {
    ghost saw = { λ counts history. counts ≡ counts_of history };

    fn sees(&mut self, entry: &Entry) -> Result<(), NoMemory> {
        let entries = one_more(self.entries)?;
        let done = counted::<Done>(self.done, entry)?;
        let waits = counted::<Waits>(self.waits, entry)?;
        let heavy = counted::<Heavy>(self.heavy, entry)?;
        let values = counted::<Values>(self.values, entry)?;
        let sends = counted::<Sends>(self.sends, entry)?;
        let takes = counted::<Takes>(self.takes, entry)?;
        *self = Counts {
            entries,
            done,
            waits,
            heavy,
            values,
            sends,
            takes,
        };
        Ok(())
    }
}

// The count of a kind, with one more entry.
fn counted<K: Kind>(count: u64, entry: &Entry) -> Result<u64, NoMemory>
    ensures { IfOk result (λ more. (history : List Made) → count ≡ count_of K.kind history
        → more ≡ count_of K.kind (history ++ entry.now ∷ [])) }
{
    if K::is(&entry.act) {
        one_more(count)
    } else {
        Ok(count)
    }
}

/// Appends the line with the counts of what happened in the drill of a number. After `NoMemory` the text still
/// begins with what it was.
#[tactic(auto, using(run_model::proofs::TextLemmas::begins_grown, run_model::proofs::TextLemmas::always_err))]
pub(crate) fn put_counts(number: u64, counts: &Counts, out: &mut Bytes) -> Result<(), NoMemory>
    ensures ok { OnOk result (out.new ≡ out.old ++ counts_text number counts.now) }
    ensures err { OnErr result (BeginsWith out.old out.new) }
{
    out.append(b"drill")?;
    put_all(number, counts, out)?;
    out.push(b'\n')
}

#[tactic(auto, using(run_model::proofs::TextLemmas::begins_grown, run_model::proofs::TextLemmas::always_err))]
fn put_all(number: u64, counts: &Counts, out: &mut Bytes) -> Result<(), NoMemory>
    ensures ok { OnOk result (out.new ≡ out.old ++ spaced (count_tokens number counts.now)) }
    ensures err { OnErr result (BeginsWith out.old out.new) }
{
    put_number(number, out)?;
    put_row(b"entries", &[counts.entries], out)?;
    put_replies(counts, out)?;
    put_sent(counts.sends, counts.takes, out)
}

#[tactic(auto, using(run_model::proofs::TextLemmas::begins_grown, run_model::proofs::TextLemmas::always_err))]
fn put_replies(counts: &Counts, out: &mut Bytes) -> Result<(), NoMemory>
    ensures ok { OnOk result (out.new ≡ out.old ++ spaced (reply_counts counts.now)) }
    ensures err { OnErr result (BeginsWith out.old out.new) }
{
    put_row(b"done", &[counts.done], out)?;
    put_row(b"waits", &[counts.waits], out)?;
    put_row(b"heavy", &[counts.heavy], out)?;
    put_row(b"values", &[counts.values], out)
}

pub(crate) fn put_messages(history: &[Entry], out: &mut Bytes) -> Result<(), NoMemory>
    ensures ok { OnOk result (out.new ≡ out.old ++ spaced (message_counts history.now)) }
    ensures err { OnErr result (BeginsWith out.old out.new) }
{
    put_sent(count::<Sends>(history), count::<Takes>(history), out)
}

#[tactic(auto, using(run_model::proofs::TextLemmas::begins_grown, run_model::proofs::TextLemmas::always_err))]
fn put_sent(sends: u64, takes: u64, out: &mut Bytes) -> Result<(), NoMemory>
    ensures ok { OnOk result (out.new ≡ out.old ++ spaced (sent_counts sends takes)) }
    ensures err { OnErr result (BeginsWith out.old out.new) }
{
    put_row(b"sends", &[sends], out)?;
    put_row(b"takes", &[takes], out)
}

/// A kind of acts.
pub(crate) trait Kind {
    ghost kind: { Act → Bool };

    /// Whether an act is of the kind.
    fn is(act: &Act) -> bool
        ensures { result ≡ kind act.now };
}

/// How many entries have an act of a kind.
pub(crate) fn count<K: Kind>(history: &[Entry]) -> u64
    ensures { result ≡ count_of K.kind history.now }
{
    let mut count = 0;
    for entry in history {
        if K::is(&entry.act) {
            count += 1;
        }
    }
    count
}

pub(crate) struct Done;

impl Kind for Done {
    ghost kind = { is_done };

    #[tactic(auto, unfolding(crate::specs::DrillText::is_done))]
    fn is(act: &Act) -> bool {
        match act {
            Act::Call { reply, .. } => matches!(reply, Reply::Done { .. }),
            _ => false,
        }
    }
}

pub(crate) struct Waits;

impl Kind for Waits {
    ghost kind = { is_wait };

    #[tactic(auto, unfolding(crate::specs::DrillText::is_wait))]
    fn is(act: &Act) -> bool {
        match act {
            Act::Call { reply, .. } => reply.is_waiting(),
            _ => false,
        }
    }
}

pub(crate) struct Heavy;

impl Kind for Heavy {
    ghost kind = { is_heavy };

    #[tactic(auto, unfolding(crate::specs::DrillText::is_heavy))]
    fn is(act: &Act) -> bool {
        match act {
            Act::Call { reply, .. } => matches!(reply, Reply::TooHeavy { .. }),
            _ => false,
        }
    }
}

pub(crate) struct Values;

impl Kind for Values {
    ghost kind = { is_value };

    #[tactic(auto, unfolding(crate::specs::DrillText::is_value))]
    fn is(act: &Act) -> bool {
        match act {
            Act::Call { reply, .. } => matches!(reply, Reply::Value { .. }),
            _ => false,
        }
    }
}

struct Sends;

impl Kind for Sends {
    ghost kind = { is_send };

    #[tactic(auto, unfolding(crate::specs::DrillText::is_send))]
    fn is(act: &Act) -> bool {
        matches!(act, Act::Send { .. })
    }
}

struct Takes;

impl Kind for Takes {
    ghost kind = { is_take };

    #[tactic(auto, unfolding(crate::specs::DrillText::is_take))]
    fn is(act: &Act) -> bool {
        matches!(act, Act::Take { .. })
    }
}

//! The checker: the replicas side by side, and the messages that each sent.
ghost use Rattle.std.specs.Prelude.{◌≡◌, ◌<◌, List, [], All, Some, length, slice_get, OnOk, IfErr, IfOk};
ghost use Rattle.run_model.specs.declared.entry.Entry.{Entry};
ghost use Rattle.run_record.specs.Records.{IsShortOf};
ghost use Rattle.run_record.specs.declared.short.Short.{Short};
ghost use Rattle.run_check.specs.Expanded.{with_short};
ghost use Rattle.run_check.specs.Checking.{Follow, AreSent, HasPassed, IsRefusalOf};
ghost use Rattle.run_check.specs.Verdicts.{IsVerdictOf, TellsOfRuns};

use crate::Verdict;
use crate::judging::{
    judge_back, judge_call, judge_lend, judge_restart, judge_send, judge_take, test_time,
};
use crate::outboxes::Outboxes;
use crate::refusal::{At, Refusal};
use crate::summary::summary_of;
use replica_set::ReplicaSet;
use run_model::Config;
use run_record::{Record, Short, ShortAct};
use std::alloc::Global;
use tact_base::NoMemory;

/// Checks a record: whether it is that of a run, entry by entry. The answer is `Run`, with how many entries of each
/// kind there are, exactly where each entry is lawful after those before it; else `Bad`, with the place of the first
/// that isn't, counted from 0, and the first test that it fails, with what was told and what is due. The tests and
/// their order stand in docs/FORMATS.md. What it costs grows as the record does. Memory of `alloc` is taken, and given
/// back at the end; want of it is the one other answer.
pub fn check_record(alloc: Global, held: &Record) -> Result<Verdict, NoMemory>
    ensures verdict { IfOk result (IsVerdictOf held.now) }
    ensures runs { IfOk result (TellsOfRuns held.now) }
{
    let entries = held.entries();
    let mut checker = Checker::new(alloc, held.config())?;
    for place in 0..entries.len() {
        match checker.judge(entries, place) {
            Ok(()) => {}
            Err(Refusal::Unlawful(cause)) => {
                return Ok(Verdict::Bad {
                    entry: place as u64,
                    cause,
                });
            }
            Err(Refusal::NoMemory) => return Err(NoMemory),
        }
    }
    Ok(Verdict::Run(summary_of(entries)))
}

// The replicas of a record's setup, and of each replica the messages that it sent, in order of their numbers.
#[derive(Drop)]
struct Checker {
    set: ReplicaSet,
    sent: Outboxes,
}

impl Checker {
    // Before the first entry.
    fn new(alloc: Global, config: &Config) -> Result<Checker, NoMemory>
        ensures setup { IfOk result (λ made. made.set.setup ≡ config.now) }
        ensures follow { IfOk result (λ made. Follow [] made.set) }
        ensures sent { IfOk result (λ made. AreSent config.now.replicas [] made.sent) }
    {
        let set = ReplicaSet::new(alloc, config)?;
        let sent = Outboxes::new(alloc, config.replicas())?;
        Ok(Checker { set, sent })
    }

    // The entry at a place, after those before it.
    fn judge(&mut self, entries: &[Short], place: usize) -> Result<(), Refusal>
        ghost history: { List Entry }
        requires within { place < length entries.now }
        requires follow { Follow history self.old.set }
        requires sent { AreSent self.old.set.setup.replicas history self.old.sent }
        requires in_range { All (IsShortOf self.old.set.setup) entries.now }
        ensures ok { (short : Short) → slice_get entries.now place ≡ Some short
            → OnOk result (HasPassed self.old.set.setup history short self.new.set) }
        ensures sent { (short : Short) → slice_get entries.now place ≡ Some short
            → OnOk result (AreSent self.old.set.setup.replicas (with_short self.old.set.setup history short) self.new.sent) }
        ensures err { (short : Short) → slice_get entries.now place ≡ Some short
            → IfErr result (IsRefusalOf self.old.set.setup history short) }
    {
        let short = &entries[place];
        self.judge_one(short)
    }

    // An entry.
    fn judge_one(&mut self, short: &Short) -> Result<(), Refusal>
        ghost history: { List Entry }
        requires follow { Follow history self.old.set }
        requires sent { AreSent self.old.set.setup.replicas history self.old.sent }
        requires in_range { IsShortOf self.old.set.setup short.now }
        ensures ok { OnOk result (HasPassed self.old.set.setup history short.now self.new.set) }
        ensures sent { OnOk result (AreSent self.old.set.setup.replicas (with_short self.old.set.setup history short.now) self.new.sent) }
        ensures err { IfErr result (IsRefusalOf self.old.set.setup history short.now) }
    {
        let at = At {
            replica: short.replica,
            moment: short.moment,
        };
        let set = &mut self.set;
        match test_time(set, at) {
            Ok(()) => {}
            Err(refusal) => return Err(refusal),
        }
        match &short.act {
            ShortAct::Call {
                client,
                number,
                request,
                reply,
            } => judge_call(set, at, *client, *number, request, reply),
            ShortAct::Send { to, number, firsts } => {
                judge_send(set, &mut self.sent, at, *to, *number, firsts)
            }
            ShortAct::Take { from, number } => judge_take(set, &self.sent, at, *from, *number),
            ShortAct::Lend { to, conit, amount } => judge_lend(set, at, *to, *conit, *amount),
            ShortAct::Back {
                owner,
                conit,
                amount,
            } => judge_back(set, at, *owner, *conit, *amount),
            ShortAct::Restart => judge_restart(set, at),
        }
    }
}

//! Reads, and what they look at.
ghost use Rattle.std.specs.Prelude.{◌≡◌, ◌≢◌, ℕ, ◌<◌, ◌≤◌, [], ◌∷◌, All, None, length, map};
ghost use Rattle.tact_base.specs.Sums.{net_sum};
ghost use Rattle.tact_base.specs.declared.limits.TheConstants.{ALPHA_MAX, AMOUNT_MAX, LIST_MAX, MOMENT_MAX};
ghost use Rattle.access_gate.specs.Verdicts.{AreOuts};
ghost use Rattle.split_budget.specs.Budgets.{all_out};
ghost use Rattle.run_model.specs.Ranges.{AreNeedsInRange, IsNeedInRange};
ghost use Rattle.run_model.specs.Replies.{first_some};
ghost use Rattle.run_model.specs.declared.call.Request.TheVariants as request;
ghost use Rattle.replica_core.specs.States.{origins_of};
ghost use Rattle.replica_core.specs.Stands.{IsSameReplica};
ghost use Rattle.replica_core.specs.Calling.{MayAsk, Answers};
ghost use Rattle.replica_core.specs.Reading.{out_at, facts_of, need_refusal, read_reply, waiting_as};

use super::Replica;
use access_gate::{Facts, Verdict, admit};
use run_model::{Reply, Sums};
use stale_bound::first_late;
use tact_base::{LIST_MAX, Need, Needs, REPLICAS_MAX, Row};

impl Replica {
    // Answers a read: with what the first of its needs that isn't met waits for, or with the values.
    pub(super) fn answer_read(&mut self, moment: u64, client: u32, key: u64, needs: &Needs) -> Reply
        requires { MayAsk self.old.core moment client (request.Read key needs.now) }
        ensures answers { Answers self.old.core self.new.core moment client (request.Read key needs.now) result }
        ensures same { IsSameReplica self.old.core self.new.core }
        ensures spare { self.new.spare ≡ self.old.spare }
    {
        let reply = self.read_at(moment.max(self.last), key, needs.items());
        self.close_call(moment, client);
        reply
    }

    // The reply to a read whose entry has this moment. The operations of all writes are put into the values that are kept
    // before one is looked up.
    pub(super) fn read_at(&mut self, moment: u64, key: u64, needs: &[Need]) -> Reply
        requires { AreNeedsInRange self.old.core.setup needs.now }
        ensures reply { result ≡ read_reply self.old.core moment key needs.now }
        ensures same { self.new ≡ self.old }
    {
        if let Some(refusal) = self.first_refusal(moment, needs) {
            return refusal;
        }
        self.seen.catch_up();
        self.value_reply(key, needs)
    }

    // The reply to a read whose needs are met.
    fn value_reply(&self, key: u64, needs: &[Need]) -> Reply
        requires { AreNeedsInRange self.now.core.setup needs.now }
        ensures { (moment : ℕ)
            → first_some (need_refusal self.now.core moment) needs.now ≡ None
            → result ≡ read_reply self.now.core moment key needs.now }
    {
        Reply::Value {
            value: self.get(key),
            sums: self.sums(needs),
        }
    }

    // What the first of these needs that isn't met waits for.
    fn first_refusal(&self, moment: u64, needs: &[Need]) -> Option<Reply>
        requires { All (IsNeedInRange self.now.core.setup) needs.now }
        ensures { result ≡ first_some (need_refusal self.now.core moment) needs.now }
    {
        for need in needs {
            let refusal = self.need_refusal(moment, need);
            if refusal.is_some() {
                return refusal;
            }
        }
        None
    }

    // What a need waits for.
    fn need_refusal(&self, moment: u64, need: &Need) -> Option<Reply>
        requires { IsNeedInRange self.now.core.setup need.now }
        ensures { result ≡ need_refusal self.now.core moment need.now }
    {
        let facts = [self.facts(moment, need)];
        waiting_as(admit(self.config.replicas(), &only(*need), &facts, moment))
    }

    // What it knows of the conit of a need.
    fn facts(&self, moment: u64, need: &Need) -> Facts
        requires { need.now.conit < self.now.core.setup.conits }
        ensures facts { result ≡ facts_of self.now.core moment need.now }
        ensures outs { AreOuts self.now.core.setup.replicas result.outs }
    {
        Facts {
            outs: self.outs(need.conit),
            tentative: self.seen.tentative_weight(need.conit),
            slowest: self.vector.least_stamp().0,
            late: first_late(
                self.vector.covers(),
                self.replica,
                moment.saturating_sub(need.stale),
            ),
        }
    }

    // What each replica has of its bound on a conit.
    fn outs(&self, conit: u32) -> Row
        requires { conit < self.now.core.setup.conits }
        ensures outs { result ≡ map (out_at self.now.core conit) (origins_of self.now.core) }
        ensures all { AreOuts self.now.core.setup.replicas result }
    {
        let mut outs = [0; REPLICAS_MAX as usize];
        for holder in 0..self.config.replicas() {
            outs[holder as usize] = self.out_at(conit, holder);
        }
        Row::new(&outs[..self.config.replicas() as usize])
    }

    // What a holder has of its bound on a conit, 0 for itself.
    fn out_at(&self, conit: u32, holder: u32) -> u64
        requires conit { conit < self.now.core.setup.conits }
        requires holder { holder < self.now.core.setup.replicas }
        ensures out { result ≡ out_at self.now.core conit holder }
        ensures all { holder ≢ self.now.core.replica → all_out self.now.core.budgets conit ≤ ALPHA_MAX }
    {
        if holder == self.replica {
            0
        } else {
            self.budgets.out(holder, conit)
        }
    }

    // The value of the conit of each need.
    fn sums(&self, needs: &[Need]) -> Sums
        requires few { length needs.now ≤ LIST_MAX }
        requires conits { All (λ need. need.conit < self.now.core.setup.conits) needs.now }
        ensures { result ≡ map (λ need. net_sum self.now.core.writes.seen need.conit) needs.now }
    {
        let mut sums = [0; LIST_MAX];
        for (place, need) in needs.iter().enumerate() {
            sums[place] = self.value(need.conit);
        }
        Sums::new(&sums[..needs.len()])
    }
}

// A verdict as a reply, where it isn't to admit.
fn waiting_as(verdict: Verdict) -> Option<Reply>
    ensures { result ≡ waiting_as verdict }
{
    match verdict {
        Verdict::Admit => None,
        Verdict::WaitLent {
            conit,
            holder,
            out,
            total,
            num,
        } => Some(Reply::WaitLent {
            conit,
            holder,
            out,
            total,
            num,
        }),
        Verdict::WaitOrder {
            conit,
            replica,
            tentative,
            order,
        } => Some(Reply::WaitOrder {
            conit,
            replica,
            tentative,
            order,
        }),
        Verdict::WaitStale {
            conit,
            replica,
            moment,
            wanted,
        } => Some(Reply::WaitStale {
            conit,
            replica,
            moment,
            wanted,
        }),
    }
}

// The list of one need.
fn only(need: Need) -> Needs
    requires num { need.num ≤ AMOUNT_MAX }
    requires order { need.order ≤ AMOUNT_MAX }
    requires stale { need.stale ≤ MOMENT_MAX }
    ensures { result ≡ need ∷ [] }
{
    match Needs::new(&[need]) {
        Ok(needs) => needs,
        Err(_) => unreachable!(),
    }
}

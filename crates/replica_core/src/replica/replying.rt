//! The reply that a replica would give to a call now.
ghost use Rattle.std.specs.Prelude.{◌≡◌, ◌<◌, ◌≤◌, All, List, false};
ghost use Rattle.tact_base.specs.declared.limits.TheConstants.{MOMENT_MAX, STAMP_MAX};
ghost use Rattle.run_model.specs.Histories.{moment_at};
ghost use Rattle.run_model.specs.Ranges.{IsRequestInRange};
ghost use Rattle.run_model.specs.Replies.{reply_of};
ghost use Rattle.run_model.specs.declared.entry.Entry.{Entry};
ghost use Rattle.replica_core.specs.Replying.{accepting_reply, held_reply, release_reply, reserve_reply, write_reply};
ghost use Rattle.replica_core.specs.Stands.{Stands};
ghost use Rattle.replica_core.specs.States.{is_full};

use super::Replica;
use super::refusing::refused_as;
use run_model::{Reply, Request};
use tact_base::Weight;

impl Replica {
    /// The reply that `call` would give to a request at this moment, whichever client asks: the first case that
    /// applies. Who has to keep an entry before the replica makes it, in a journal say, knows it by this. Takes no
    /// memory, and changes nothing that contracts see: the operations that wait are applied before a value is looked up.
    pub fn reply(&mut self, moment: u64, request: &Request) -> Reply
        requires free { is_full self.old.core ≡ false }
        requires moment { moment ≤ MOMENT_MAX }
        requires in_range { IsRequestInRange self.old.core.setup request.now }
        ensures due { (part : List Entry) → Stands part self.old.core
            → result ≡ reply_of self.old.core.setup self.old.core.replica part (moment_at part moment) request.now }
        ensures same { self.new ≡ self.old }
    {
        let at = moment.max(self.last);
        match request {
            Request::Write { weights, op: _ } => self.write_reply(weights.items()),
            Request::Held { weight, op: _ } => self.held_reply(weight),
            Request::Reserve { conit, amount } => self.reserve_reply(*conit, *amount),
            Request::Release { conit, amount } => self.release_reply(*conit, *amount),
            Request::Read { key, needs } => self.read_at(at, *key, needs.items()),
        }
    }

    // To a write of these weights.
    fn write_reply(&self, weights: &[Weight]) -> Reply
        requires clock { self.now.core.writes.clock < STAMP_MAX }
        requires conits { All (λ weight. weight.conit < self.now.core.setup.conits) weights.now }
        ensures { result ≡ write_reply self.now.core weights.now }
    {
        match self.weights_refusal(weights) {
            Some(refusal) => refusal,
            None => self.accepting_reply(),
        }
    }

    // To a write of one weight, whose size is to be reserved.
    fn held_reply(&self, weight: &Weight) -> Reply
        requires clock { self.now.core.writes.clock < STAMP_MAX }
        requires conit { weight.now.conit < self.now.core.setup.conits }
        ensures { result ≡ held_reply self.now.core weight.now }
    {
        let conit = weight.conit;
        let held = self.budgets.reserved(conit);
        let amount = weight.nweight.unsigned_abs();
        if held < amount {
            return Reply::NotHeld {
                conit,
                held,
                amount,
            };
        }
        self.accepting_reply()
    }

    // To an amount that is to be reserved on a conit.
    fn reserve_reply(&self, conit: u32, amount: u64) -> Reply
        requires { conit < self.now.core.setup.conits }
        ensures { result ≡ reserve_reply self.now.core conit amount }
    {
        match refused_as(conit, self.budgets.test_reserve(conit, amount)) {
            Some(refusal) => refusal,
            None => Reply::Granted,
        }
    }

    // To an amount that is to be released on a conit.
    fn release_reply(&self, conit: u32, amount: u64) -> Reply
        requires { conit < self.now.core.setup.conits }
        ensures { result ≡ release_reply self.now.core conit amount }
    {
        let held = self.budgets.reserved(conit);
        if held < amount {
            return Reply::NotHeld {
                conit,
                held,
                amount,
            };
        }
        Reply::Released
    }

    // That a write is accepted: it gets the next index and the next stamp.
    fn accepting_reply(&self) -> Reply
        requires { self.now.core.writes.clock < STAMP_MAX }
        ensures { result ≡ accepting_reply self.now.core }
    {
        Reply::Done {
            index: self.logs.count(self.replica),
            stamp: self.clock + 1,
        }
    }
}

//! Writes that clients ask for.
ghost use Rattle.std.specs.Prelude.{All, ◌≡◌, ◌+◌, ◌<◌, ◌≤◌, [], ◌∷◌, ◌++◌, length, false, OnOk, OnErr, IfOk, IsOk, unsigned_abs};
ghost use Rattle.tact_base.specs.declared.limits.TheConstants.{CLIENTS, WEIGHT_MAX};
ghost use Rattle.run_model.specs.declared.call.Reply.TheVariants as reply;
ghost use Rattle.run_model.specs.declared.call.Request.TheVariants as request;
ghost use Rattle.replica_core.specs.States.{log_at, entered, next_write, is_full};
ghost use Rattle.replica_core.specs.Stands.{IsSameReplica};
ghost use Rattle.replica_core.specs.Calling.{MayAsk, Answers, MayCount, with_counted, accepted};

use super::Replica;
use super::admitting::admit;
use run_model::Reply;
use split_budget::Budgets;
use std::slice;
use tact_base::{NoMemory, Op, Weight, Weights, Write};

// For how many own writes room is made at once, if it can.
const AHEAD: u64 = 64;

impl Replica {
    // Accepts a write, if no peer's share forbids it.
    pub(super) fn answer_write(
        &mut self,
        moment: u64,
        client: u32,
        weights: &Weights,
        op: Op,
    ) -> Result<Reply, NoMemory>
        requires { MayAsk self.old.core moment client (request.Write weights.now op) }
        ensures answers { IfOk result (Answers self.old.core self.new.core moment client (request.Write weights.now op)) }
        ensures same { IsSameReplica self.old.core self.new.core }
        ensures spare { self.old.spare ≤ self.new.spare + 1 }
        ensures enough { 0 < self.old.spare → IsOk result }
        ensures err { OnErr result (self.new ≡ self.old) }
    {
        if let Some(refusal) = self.weights_refusal(weights.items()) {
            self.close_call(moment, client);
            return Ok(refusal);
        }
        self.reserve_next()?;
        Ok(self.accept(moment, client, weights, op, None))
    }

    // Accepts a write of one weight, if its size is reserved.
    pub(super) fn answer_held(
        &mut self,
        moment: u64,
        client: u32,
        weight: Weight,
        op: Op,
    ) -> Result<Reply, NoMemory>
        requires { MayAsk self.old.core moment client (request.Held weight op) }
        ensures answers { IfOk result (Answers self.old.core self.new.core moment client (request.Held weight op)) }
        ensures same { IsSameReplica self.old.core self.new.core }
        ensures spare { self.old.spare ≤ self.new.spare + 1 }
        ensures enough { 0 < self.old.spare → IsOk result }
        ensures err { OnErr result (self.new ≡ self.old) }
    {
        let held = self.budgets.reserved(weight.conit);
        let amount = weight.nweight.unsigned_abs();
        if held < amount {
            self.close_call(moment, client);
            return Ok(Reply::NotHeld {
                conit: weight.conit,
                held,
                amount,
            });
        }
        self.reserve_next()?;
        Ok(self.accept(moment, client, &only(weight), op, Some(weight)))
    }

    // Makes room for an own write where there is none, and where memory can be had for some more, so that most writes
    // find it.
    fn reserve_next(&mut self) -> Result<(), NoMemory>
        ensures core { self.new.core ≡ self.old.core }
        ensures room { OnOk result (0 < self.new.spare) }
        ensures kept { self.old.spare ≤ self.new.spare }
        ensures enough { 0 < self.old.spare → IsOk result }
        ensures err { OnErr result (self.new ≡ self.old) }
    {
        if self.spare == 0 && self.reserve(AHEAD).is_err() {
            self.reserve(1)?;
        }
        Ok(())
    }

    // Accepts a write that a client asked for, whose weights count; a held one is taken out of what is reserved. The
    // entry is counted with the write, since there are no more own writes than entries.
    fn accept(
        &mut self,
        moment: u64,
        client: u32,
        weights: &Weights,
        op: Op,
        held: Option<Weight>,
    ) -> Reply
        requires free { is_full self.old.core ≡ false }
        requires room { 0 < self.old.spare }
        requires client { client < CLIENTS }
        requires conits { All (λ weight. weight.conit < self.old.core.setup.conits) weights.now }
        requires counts { MayCount self.old.core.budgets weights.now held }
        ensures reply { result ≡ reply.Done (length (log_at self.old.core self.old.core.replica)) (self.old.core.writes.clock + 1) }
        ensures core { self.new.core
            ≡ entered (accepted self.old.core client (next_write self.old.core moment weights.now op) held) moment }
        ensures spare { self.old.spare ≡ self.new.spare + 1 }
    {
        let index = self.logs.count(self.replica);
        let stamp = self.clock + 1;
        let write = Write {
            origin: self.replica,
            index,
            stamp,
            moment: moment.max(self.last),
            weights: *weights,
            op,
        };
        let one = slice::from_ref(&write);
        admit(&mut self.logs, &mut self.seen, self.replica, one);
        count(&mut self.budgets, weights, held);
        self.clock = stamp;
        self.spare -= 1;
        self.count += 1;
        self.close_counted_call(moment, client);
        Reply::Done { index, stamp }
    }
}

// Counts the weights of a write in budgets; a held one is taken out of what is reserved.
fn count(budgets: &mut Budgets, weights: &Weights, held: Option<Weight>)
    requires room { 0 < budgets.old.room }
    requires conits { All (λ weight. weight.conit < budgets.old.setup.conits) weights.now }
    requires counts { MayCount budgets.old weights.now held }
    ensures counted { budgets.new ≡ record (with_counted budgets.old weights.now held) { room = budgets.new.room } }
    ensures room { budgets.old.room ≤ budgets.new.room + 1 }
{
    match held {
        None => budgets.add(weights),
        Some(weight) => budgets.spend(weight),
    }
}

// The list of one weight.
fn only(weight: Weight) -> Weights
    requires nweight { unsigned_abs weight.nweight ≤ WEIGHT_MAX }
    requires oweight { weight.oweight ≤ WEIGHT_MAX }
    ensures { result ≡ weight ∷ [] }
{
    match Weights::new(&[weight]) {
        Ok(weights) => weights,
        Err(_) => unreachable!(),
    }
}

//! A call of a client, answered.
ghost use Rattle.std.specs.Prelude.{◌≡◌, ◌+◌, ◌<◌, ◌≤◌, List, slice_index, true, false, OnOk, OnErr, IfOk, IfErr, IsOk};
ghost use Rattle.tact_base.specs.declared.limits.TheConstants.{CLIENTS, HISTORY_MAX, MOMENT_MAX};
ghost use Rattle.run_model.specs.Histories.{calls_in, moment_at};
ghost use Rattle.run_model.specs.Ranges.{IsRequestInRange};
ghost use Rattle.run_model.specs.Replies.{reply_of};
ghost use Rattle.run_model.specs.declared.entry.Act.TheVariants as act;
ghost use Rattle.run_model.specs.declared.entry.Entry.{Entry};
ghost use Rattle.replica_core.specs.States.{entered, closed, with_call, is_full};
ghost use Rattle.replica_core.specs.Stands.{Stands, GoesOn, IsSameReplica, IsFaultOf};
ghost use Rattle.replica_core.specs.Calling.{IsWithoutWrite, NamesCause};

use super::Replica;
use crate::CoreFault;
use run_model::{Reply, Request};

impl Replica {
    /// Answers a call of a client at a moment, with the first case that applies (the replies in
    /// docs/MODEL.md). The moment of the entry is the greater of the handed one and that of the last entry, and a
    /// read is answered at it; amounts and weights are plain counts. A reply of any kind is an entry: a refused
    /// request, and a read, is counted for its client, and changes nothing else.
    ///
    /// `Full` comes exactly where 20,000 entries were made or the clock stands at 2^40. `NoMemory` doesn't
    /// come where there is room for a write (`spare`), nor for a request that writes nothing. Both leave the
    /// replica as it was.
    pub fn call(&mut self, moment: u64, client: u32, request: &Request) -> Result<Reply, CoreFault>
        requires moment { moment ≤ MOMENT_MAX }
        requires client { client < CLIENTS }
        requires in_range { IsRequestInRange self.old.core.setup request.now }
        ensures goes_on { IfOk result (λ given. GoesOn self.old.core self.new.core moment
            (λ part. act.Call client (calls_in part client) request.now given)) }
        ensures due { IfOk result (λ given. (part : List Entry) → Stands part self.old.core
            → given ≡ reply_of self.old.core.setup self.old.core.replica part (moment_at part moment) request.now) }
        ensures cause { IfOk result (λ given. (part : List Entry) → Stands part self.old.core
            → NamesCause self.old.core.setup self.old.core.replica part (moment_at part moment) request.now given) }
        ensures same { IsSameReplica self.old.core self.new.core }
        ensures spare { self.old.spare ≤ self.new.spare + 1 }
        ensures spared { IsWithoutWrite request.now → self.new.spare ≡ self.old.spare }
        ensures not_full { OnOk result (is_full self.old.core ≡ false) }
        ensures fault { IfErr result (IsFaultOf self.old.core) }
        ensures enough { 0 < self.old.spare → is_full self.old.core ≡ false → IsOk result }
        ensures sure { IsWithoutWrite request.now → is_full self.old.core ≡ false → IsOk result }
        ensures err { OnErr result (self.new ≡ self.old) }
    {
        self.may_enter()?;
        match request {
            Request::Write { weights, op } => Ok(self.answer_write(moment, client, weights, *op)?),
            Request::Held { weight, op } => Ok(self.answer_held(moment, client, *weight, *op)?),
            Request::Reserve { conit, amount } => {
                Ok(self.answer_reserve(moment, client, *conit, *amount))
            }
            Request::Release { conit, amount } => {
                Ok(self.answer_release(moment, client, *conit, *amount))
            }
            Request::Read { key, needs } => Ok(self.answer_read(moment, client, *key, needs)),
        }
    }

    // Makes the entry of a call of a client, which is counted.
    pub(super) fn close_call(&mut self, moment: u64, client: u32)
        requires few { self.old.core.counts.count < HISTORY_MAX }
        requires client { client < CLIENTS }
        ensures { self.new ≡ record self.old { core = entered (with_call self.old.core client) moment } }
    {
        self.count += 1;
        self.close_counted_call(moment, client);
    }

    // Counts a call of a client, whose entry is counted, and closes the entry.
    pub(super) fn close_counted_call(&mut self, moment: u64, client: u32)
        requires { client < CLIENTS }
        ensures { self.new ≡ record self.old { core = closed (with_call self.old.core client) moment } }
    {
        let number = self.calls[client as usize];
        self.calls[client as usize] = number.saturating_add(1);
        self.close(moment);
    }
}

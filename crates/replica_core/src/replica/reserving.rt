//! Amounts that clients reserve and release.
ghost use Rattle.std.specs.Prelude.{◌≡◌};
ghost use Rattle.run_model.specs.declared.call.Request.TheVariants as request;
ghost use Rattle.replica_core.specs.Stands.{IsSameReplica};
ghost use Rattle.replica_core.specs.Calling.{MayAsk, Answers};

use super::Replica;
use super::refusing::refused_as;
use run_model::Reply;

impl Replica {
    // Reserves an amount on a conit, if no peer's share forbids it.
    pub(super) fn answer_reserve(
        &mut self,
        moment: u64,
        client: u32,
        conit: u32,
        amount: u64,
    ) -> Reply
        requires { MayAsk self.old.core moment client (request.Reserve conit amount) }
        ensures answers { Answers self.old.core self.new.core moment client (request.Reserve conit amount) result }
        ensures same { IsSameReplica self.old.core self.new.core }
        ensures spare { self.new.spare ≡ self.old.spare }
    {
        if let Some(refusal) = refused_as(conit, self.budgets.test_reserve(conit, amount)) {
            self.close_call(moment, client);
            return refusal;
        }
        self.budgets.hold(conit, amount);
        self.close_call(moment, client);
        Reply::Granted
    }

    // Releases an amount of what is reserved on a conit, if so much is.
    pub(super) fn answer_release(
        &mut self,
        moment: u64,
        client: u32,
        conit: u32,
        amount: u64,
    ) -> Reply
        requires { MayAsk self.old.core moment client (request.Release conit amount) }
        ensures answers { Answers self.old.core self.new.core moment client (request.Release conit amount) result }
        ensures same { IsSameReplica self.old.core self.new.core }
        ensures spare { self.new.spare ≡ self.old.spare }
    {
        let held = self.budgets.reserved(conit);
        if held < amount {
            self.close_call(moment, client);
            return Reply::NotHeld {
                conit,
                held,
                amount,
            };
        }
        self.budgets.free_held(conit, amount);
        self.close_call(moment, client);
        Reply::Released
    }
}

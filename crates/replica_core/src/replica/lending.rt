//! What a replica lends of its own bounds, and gives back of its shares of others'.
ghost use Rattle.std.specs.Prelude.{◌≡◌, ◌≢◌, ◌*◌, ◌<◌, ◌≤◌, true, false, length, IfErr, OnOk, OnErr};
ghost use Rattle.tact_base.specs.declared.limits.TheConstants.{AMOUNT_MAX, MOMENT_MAX};
ghost use Rattle.split_budget.specs.Budgets.{home, free};
ghost use Rattle.run_model.specs.declared.entry.Act.TheVariants as act;
ghost use Rattle.replica_core.specs.States.{IsKept, AreLentBy, entered, is_full};
ghost use Rattle.replica_core.specs.Stands.{GoesOn, IsSameReplica};
ghost use Rattle.replica_core.specs.Lending.{IsHome, IsFree, IsLendFault, IsReturnFault, MayLend, MayReturn, with_lent, with_returned};

use super::Replica;
use crate::{CoreFault, LoanFault};

impl Replica {
    /// Lends a holder a further amount of the replica's own bound on a conit. The moment of the entry is the
    /// greater of the handed one and that of the last entry. Takes no memory.
    ///
    /// `Full` comes exactly where 20,000 entries were made or the clock stands at 2^40, and else `Home` exactly
    /// where less than the amount is at home. Both leave the replica as it was.
    pub fn lend(
        &mut self,
        moment: u64,
        holder: u32,
        conit: u32,
        amount: u64,
    ) -> Result<(), LoanFault>
        requires moment { moment ≤ MOMENT_MAX }
        requires holder { holder < self.old.core.setup.replicas }
        requires other { holder ≢ self.old.core.replica }
        requires conit { conit < self.old.core.setup.conits }
        requires amount { amount ≤ AMOUNT_MAX }
        ensures goes_on { OnOk result (GoesOn self.old.core self.new.core moment (λ part. act.Lend holder conit amount)) }
        ensures same { IsSameReplica self.old.core self.new.core }
        ensures spare { self.new.spare ≡ self.old.spare }
        ensures may { OnOk result (MayLend self.old.core conit amount) }
        ensures fault { IfErr result (IsLendFault self.old.core conit amount) }
        ensures err { OnErr result (self.new ≡ self.old) }
    {
        self.may_move_loans()?;
        let home = self.home(conit);
        if amount > home {
            return Err(LoanFault::Home { conit, home });
        }
        self.enter_loan(moment, holder, conit, amount);
        Ok(())
    }

    /// Gives back to an owner an amount of the replica's share of its bound on a conit. The moment of the entry
    /// is the greater of the handed one and that of the last entry. Takes no memory.
    ///
    /// `Full` comes exactly where 20,000 entries were made or the clock stands at 2^40, and else `Free` exactly
    /// where less than the amount is free: past what the owner may miss of the replica's writes, of either sign,
    /// and what is reserved. Both leave the replica as it was.
    pub fn give_back(
        &mut self,
        moment: u64,
        owner: u32,
        conit: u32,
        amount: u64,
    ) -> Result<(), LoanFault>
        requires moment { moment ≤ MOMENT_MAX }
        requires owner { owner < self.old.core.setup.replicas }
        requires other { owner ≢ self.old.core.replica }
        requires conit { conit < self.old.core.setup.conits }
        requires amount { amount ≤ AMOUNT_MAX }
        ensures goes_on { OnOk result (GoesOn self.old.core self.new.core moment (λ part. act.Back owner conit amount)) }
        ensures same { IsSameReplica self.old.core self.new.core }
        ensures spare { self.new.spare ≡ self.old.spare }
        ensures may { OnOk result (MayReturn self.old.core owner conit amount) }
        ensures fault { IfErr result (IsReturnFault self.old.core owner conit amount) }
        ensures err { OnErr result (self.new ≡ self.old) }
    {
        self.may_move_loans()?;
        let free = self.free(owner, conit);
        if amount > free {
            return Err(LoanFault::Free { conit, free });
        }
        self.enter_return(moment, owner, conit, amount);
        Ok(())
    }

    // Whether an entry may follow.
    fn may_move_loans(&self) -> Result<(), LoanFault>
        ensures ok { OnOk result (is_full self.now.core ≡ false) }
        ensures err { OnErr result (is_full self.now.core ≡ true) }
        ensures full { IfErr result (λ fault. fault ≡ LoanFault.Full self.now.core.counts.count self.now.core.writes.clock) }
        ensures kept { IsKept self.now.core }
    {
        match self.may_enter() {
            Ok(()) => Ok(()),
            Err(CoreFault::Full { count, clock }) => Err(LoanFault::Full { count, clock }),
            Err(CoreFault::NoMemory) => unreachable!(),
        }
    }

    // What of its own bound on a conit is at home.
    fn home(&self, conit: u32) -> u64
        requires { conit < self.now.core.setup.conits }
        ensures home { IsHome self.now.core conit result }
        ensures places { length self.now.core.budgets.lent ≡ self.now.core.setup.replicas * self.now.core.setup.conits }
    {
        self.budgets.home(conit)
    }

    // What of its share of an owner's bound on a conit covers nothing.
    fn free(&self, owner: u32, conit: u32) -> u64
        requires owner { owner < self.now.core.setup.replicas }
        requires other { owner ≢ self.now.core.replica }
        requires conit { conit < self.now.core.setup.conits }
        ensures free { IsFree self.now.core owner conit result }
        ensures places { length self.now.core.budgets.returned ≡ self.now.core.setup.replicas * self.now.core.setup.conits }
    {
        self.budgets.free(owner, conit)
    }

    // Makes the entry of a loan of what is at home. It is counted first, since what was ever lent is bounded by
    // the count.
    fn enter_loan(&mut self, moment: u64, holder: u32, conit: u32, amount: u64)
        requires free { is_full self.old.core ≡ false }
        requires holder { holder < self.old.core.setup.replicas }
        requires other { holder ≢ self.old.core.replica }
        requires conit { conit < self.old.core.setup.conits }
        requires amount { amount ≤ AMOUNT_MAX }
        requires home { amount ≤ home self.old.core.budgets conit }
        requires lent { AreLentBy self.old.core.counts.count self.old.core.budgets.lent }
        ensures { self.new ≡ record self.old { core = entered (with_lent self.old.core holder conit amount) moment } }
    {
        self.enter(moment);
        self.budgets.lend(holder, conit, amount);
    }

    // Makes the entry of a return of what is free.
    fn enter_return(&mut self, moment: u64, owner: u32, conit: u32, amount: u64)
        requires not_full { is_full self.old.core ≡ false }
        requires owner { owner < self.old.core.setup.replicas }
        requires other { owner ≢ self.old.core.replica }
        requires conit { conit < self.old.core.setup.conits }
        requires free { amount ≤ free self.old.core.budgets owner conit }
        ensures { self.new ≡ record self.old { core = entered (with_returned self.old.core owner conit amount) moment } }
    {
        self.enter(moment);
        self.budgets.give_back(owner, conit, amount);
    }
}

//! What a node lends of its own bounds, and gives back of its shares of others'.
ghost use Rattle.std.specs.Prelude.{◌≡◌, ◌≢◌, ℕ, ◌+◌, ◌<◌, ◌≤◌, ◌^◌, List, slice_index, false, IsTrue, IfErr, OnErr, OnOk};
ghost use Rattle.tact_base.specs.declared.limits.TheConstants.{AMOUNT_MAX, CLIENTS, MOMENT_MAX};
ghost use Rattle.run_model.specs.Histories.{IsPrefix};
ghost use Rattle.run_model.specs.Runs.{IsRun};
ghost use Rattle.run_model.specs.declared.entry.Act.TheVariants as act;
ghost use Rattle.run_model.specs.declared.entry.Entry.{Entry};
ghost use Rattle.replica_core.specs.Stands.{GoesOn, IsSameReplica, Stands};
ghost use Rattle.tact_base.specs.Setup.{Setup};
ghost use Rattle.replica_core.specs.States.{is_full};
ghost use Rattle.locked_replica.specs.Faults.{loan_fault};
ghost use Rattle.replica_lock.specs.Loans.{IsLoanFaultSeen};
ghost use Rattle.locked_replica.specs.Loans.{IsLentInDoubt, IsLoanFaultOf, IsLoanInRange, IsLoanRefusal, MayMove, OnlyWhereLent, PassesMost, act_of, amount_of, most_of};
ghost use Rattle.locked_replica.specs.Journals.{IsJournaled};
ghost use Rattle.locked_replica.specs.Locks.{HasEntered, IsLocked, IsOfDesk, entry_in, made_place, one_more_at, part_in};
ghost use Rattle.replica_lock.specs.Sessions.{HasHeard, HasMade, IsSessionOf, marked_lent};
ghost use Rattle.replica_lock.specs.Ledgers.{lent_book};
ghost use Rattle.locked_replica.specs.declared.loan.Loan.TheVariants as loan;

use crate::locked_box::stand;
use crate::marking::mark_lent;
use crate::node::Node;
use crate::session::Session;
use crate::turn::{Turn, count_made};
use locked_replica::{Loan, NodeLoanFault};
use std::sync::Wait;
use tact_io::{Gate, Journal};

impl<'d, J: Journal, G: Gate> Node<'d, J, G> {
    /// Lends a holder a further amount of its own bound on a conit, in a turn of its own. The moment of the entry is
    /// the greater of the handed one and that of the replica's last entry. `Full` comes only where the replica made
    /// 20,000 entries, and `Home` only where the amount passes what is at home, both in what the session's note has seen
    /// then. Of these and `Halted`, `NoMemory` and `JournalFault`, which may come too, none makes an entry.
    pub fn lend<R: Wait>(
        &self,
        rt: &R,
        session: &mut Session,
        moment: u64,
        holder: u32,
        conit: u32,
        amount: u64,
    ) -> Result<(), NodeLoanFault>
        requires session { IsSessionOf self.now session.old }
        requires moment { moment ≤ MOMENT_MAX }
        requires holder { holder < self.now.desk.setup.replicas }
        requires other { holder ≢ self.now.replica }
        requires conit { conit < self.now.desk.setup.conits }
        requires amount { amount ≤ AMOUNT_MAX }
        ensures lent { OnOk result (HasMade self.now.desk.setup session.old session.new moment (act.Lend holder conit amount)) }
        ensures refused { IfErr result (λ told. HasHeard self.now.desk.setup session.old (marked_lent told session.old) session.new) }
        ensures fault { IfErr result (IsLoanFaultSeen self.now.desk.setup session.new (loan.Out holder conit amount)) }
        ensures met { IfErr result (OnlyWhereLent (IsTrue J.tells → (met : J) × (J.faults met ≢ 0))) }
    {
        let mut turn = self.turn(rt);
        let answer = turn.lend(session, moment, holder, conit, amount);
        turn.end();
        answer
    }

    /// Gives back to an owner an amount of its share of that owner's bound on a conit, in a turn of its own. The moment
    /// of the entry is the greater of the handed one and that of the replica's last entry. `Full` comes only where the
    /// replica made 20,000 entries, and `Free` only where the amount passes what is free of the share, both in what the
    /// session's note has seen then. Of these and `Halted`, `NoMemory` and `JournalFault`, which may come too, none makes
    /// an entry.
    pub fn give_back<R: Wait>(
        &self,
        rt: &R,
        session: &mut Session,
        moment: u64,
        owner: u32,
        conit: u32,
        amount: u64,
    ) -> Result<(), NodeLoanFault>
        requires session { IsSessionOf self.now session.old }
        requires moment { moment ≤ MOMENT_MAX }
        requires owner { owner < self.now.desk.setup.replicas }
        requires other { owner ≢ self.now.replica }
        requires conit { conit < self.now.desk.setup.conits }
        requires amount { amount ≤ AMOUNT_MAX }
        ensures given { OnOk result (HasMade self.now.desk.setup session.old session.new moment (act.Back owner conit amount)) }
        ensures refused { IfErr result (λ told. HasHeard self.now.desk.setup session.old (marked_lent told session.old) session.new) }
        ensures fault { IfErr result (IsLoanFaultSeen self.now.desk.setup session.new (loan.Back owner conit amount)) }
        ensures met { IfErr result (OnlyWhereLent (IsTrue J.tells → (met : J) × (J.faults met ≢ 0))) }
    {
        let mut turn = self.turn(rt);
        let answer = turn.give_back(session, moment, owner, conit, amount);
        turn.end();
        answer
    }
}

impl<'n, 'd, J: Journal, G: Gate> Turn<'n, 'd, J, G> {
    /// Lends a holder a further amount of its own bound on a conit, as `Replica::lend` does; draws the entry and stores
    /// it. The amount is a plain count. `Halted` comes first, then `Full`, then `Home` exactly where the amount passes
    /// what is at home, then `NoMemory`, and `JournalFault` last. None makes an entry.
    pub fn lend(
        &mut self,
        session: &mut Session,
        moment: u64,
        holder: u32,
        conit: u32,
        amount: u64,
    ) -> Result<(), NodeLoanFault>
        requires session { IsSessionOf self.old.node session.old }
        requires moment { moment ≤ MOMENT_MAX }
        requires holder { holder < self.old.node.desk.setup.replicas }
        requires other { holder ≢ self.old.node.replica }
        requires conit { conit < self.old.node.desk.setup.conits }
        requires amount { amount ≤ AMOUNT_MAX }
        ensures node { self.new.node ≡ self.old.node }
        ensures kept { IsLocked self.new.state }
        ensures entered { OnOk result (HasEntered self.old.state self.new.state session.old.seen (entry_in self.old.state moment (act.Lend holder conit amount))) }
        ensures totals { OnOk result (self.new.state.totals ≡ one_more_at (made_place session.old.conits session.old.client) self.old.state.totals) }
        ensures seen { session.new.seen ≡ self.new.state.clerk.seen }
        ensures lent { OnOk result (HasMade self.old.node.desk.setup session.old session.new moment (act.Lend holder conit amount)) }
        ensures refused { IfErr result (λ told. HasHeard self.old.node.desk.setup session.old (marked_lent told session.old) session.new) }
        ensures spare { self.old.state.spare ≤ self.new.state.spare }
        ensures room { self.old.state.room ≤ self.new.state.room + 1 }
        ensures journaled { IsJournaled self.new.state self.new.journal }
        ensures going { OnOk result ((self.old.journal.halted ≡ false) × (self.new.journal.halted ≡ false)) }
        ensures fault { IfErr result (IsLoanRefusal self.old.state.core (part_in self.old.state) self.old.journal self.new.journal (loan.Out holder conit amount)) }
        ensures met { IfErr result (OnlyWhereLent (IsTrue J.tells → (met : J) × (J.faults met ≢ 0))) }
        ensures journal_room { self.old.journal.room ≤ self.new.journal.room + 1 }
        ensures counts { (self.new.journal.tells ≡ self.old.journal.tells) × (self.old.journal.faults ≤ self.new.journal.faults) }
        ensures fault_seen { IfErr result (IsLoanFaultSeen self.old.node.desk.setup session.new (loan.Out holder conit amount)) }
        ensures book { OnOk result (self.new.book ≡ one_more_at (made_place session.old.conits session.old.client) self.old.book) }
        ensures told { IfErr result (λ told. self.new.book ≡ lent_book session.old.conits session.old.client told self.old.book) }
        ensures owes { self.new.owes ≡ self.old.owes }
        ensures doubt { IfErr result (IsLentInDoubt self.new.journal (entry_in self.old.state moment (act.Lend holder conit amount))) }
        ensures err { OnErr result ((self.new.state.core ≡ self.old.state.core) × (self.new.state.stored ≡ self.old.state.stored) × (self.new.state.totals ≡ self.old.state.totals)) }
    {
        self.move_loan(
            session,
            moment,
            Loan::Out {
                holder,
                conit,
                amount,
            },
        )
    }

    /// Gives back to an owner an amount of its share of that owner's bound on a conit, as `Replica::give_back` does;
    /// draws the entry and stores it. The amount is a plain count. `Halted` comes first, then `Full`, then `Free` exactly
    /// where the amount passes what is free of the share, then `NoMemory`, and `JournalFault` last. None makes an entry.
    pub fn give_back(
        &mut self,
        session: &mut Session,
        moment: u64,
        owner: u32,
        conit: u32,
        amount: u64,
    ) -> Result<(), NodeLoanFault>
        requires session { IsSessionOf self.old.node session.old }
        requires moment { moment ≤ MOMENT_MAX }
        requires owner { owner < self.old.node.desk.setup.replicas }
        requires other { owner ≢ self.old.node.replica }
        requires conit { conit < self.old.node.desk.setup.conits }
        requires amount { amount ≤ AMOUNT_MAX }
        ensures node { self.new.node ≡ self.old.node }
        ensures kept { IsLocked self.new.state }
        ensures entered { OnOk result (HasEntered self.old.state self.new.state session.old.seen (entry_in self.old.state moment (act.Back owner conit amount))) }
        ensures totals { OnOk result (self.new.state.totals ≡ one_more_at (made_place session.old.conits session.old.client) self.old.state.totals) }
        ensures seen { session.new.seen ≡ self.new.state.clerk.seen }
        ensures given { OnOk result (HasMade self.old.node.desk.setup session.old session.new moment (act.Back owner conit amount)) }
        ensures refused { IfErr result (λ told. HasHeard self.old.node.desk.setup session.old (marked_lent told session.old) session.new) }
        ensures spare { self.old.state.spare ≤ self.new.state.spare }
        ensures room { self.old.state.room ≤ self.new.state.room + 1 }
        ensures journaled { IsJournaled self.new.state self.new.journal }
        ensures going { OnOk result ((self.old.journal.halted ≡ false) × (self.new.journal.halted ≡ false)) }
        ensures fault { IfErr result (IsLoanRefusal self.old.state.core (part_in self.old.state) self.old.journal self.new.journal (loan.Back owner conit amount)) }
        ensures met { IfErr result (OnlyWhereLent (IsTrue J.tells → (met : J) × (J.faults met ≢ 0))) }
        ensures journal_room { self.old.journal.room ≤ self.new.journal.room + 1 }
        ensures counts { (self.new.journal.tells ≡ self.old.journal.tells) × (self.old.journal.faults ≤ self.new.journal.faults) }
        ensures fault_seen { IfErr result (IsLoanFaultSeen self.old.node.desk.setup session.new (loan.Back owner conit amount)) }
        ensures book { OnOk result (self.new.book ≡ one_more_at (made_place session.old.conits session.old.client) self.old.book) }
        ensures told { IfErr result (λ told. self.new.book ≡ lent_book session.old.conits session.old.client told self.old.book) }
        ensures owes { self.new.owes ≡ self.old.owes }
        ensures doubt { IfErr result (IsLentInDoubt self.new.journal (entry_in self.old.state moment (act.Back owner conit amount))) }
        ensures err { OnErr result ((self.new.state.core ≡ self.old.state.core) × (self.new.state.stored ≡ self.old.state.stored) × (self.new.state.totals ≡ self.old.state.totals)) }
    {
        self.move_loan(
            session,
            moment,
            Loan::Back {
                owner,
                conit,
                amount,
            },
        )
    }

    // Makes the entry of a loan, and counts it among those made for the session's client.
    fn move_loan(
        &mut self,
        session: &mut Session,
        moment: u64,
        loan: Loan,
    ) -> Result<(), NodeLoanFault>
        requires session { IsSessionOf self.old.node session.old }
        requires moment { moment ≤ MOMENT_MAX }
        requires loan { IsLoanInRange self.old.node.desk.setup self.old.node.replica loan }
        ensures node { self.new.node ≡ self.old.node }
        ensures kept { IsLocked self.new.state }
        ensures entered { OnOk result (HasEntered self.old.state self.new.state session.old.seen (entry_in self.old.state moment (act_of loan))) }
        ensures totals { OnOk result (self.new.state.totals ≡ one_more_at (made_place session.old.conits session.old.client) self.old.state.totals) }
        ensures seen { session.new.seen ≡ self.new.state.clerk.seen }
        ensures made { OnOk result (HasMade self.old.node.desk.setup session.old session.new moment (act_of loan)) }
        ensures refused { IfErr result (λ told. HasHeard self.old.node.desk.setup session.old (marked_lent told session.old) session.new) }
        ensures spare { self.old.state.spare ≤ self.new.state.spare }
        ensures room { self.old.state.room ≤ self.new.state.room + 1 }
        ensures journaled { IsJournaled self.new.state self.new.journal }
        ensures going { OnOk result ((self.old.journal.halted ≡ false) × (self.new.journal.halted ≡ false)) }
        ensures fault { IfErr result (IsLoanRefusal self.old.state.core (part_in self.old.state) self.old.journal self.new.journal loan) }
        ensures met { IfErr result (OnlyWhereLent (IsTrue J.tells → (met : J) × (J.faults met ≢ 0))) }
        ensures journal_room { self.old.journal.room ≤ self.new.journal.room + 1 }
        ensures counts { (self.new.journal.tells ≡ self.old.journal.tells) × (self.old.journal.faults ≤ self.new.journal.faults) }
        ensures fault_seen { IfErr result (IsLoanFaultSeen self.old.node.desk.setup session.new loan) }
        ensures book { OnOk result (self.new.book ≡ one_more_at (made_place session.old.conits session.old.client) self.old.book) }
        ensures told { IfErr result (λ told. self.new.book ≡ lent_book session.old.conits session.old.client told self.old.book) }
        ensures owes { self.new.owes ≡ self.old.owes }
        ensures doubt { IfErr result (IsLentInDoubt self.new.journal (entry_in self.old.state moment (act_of loan))) }
        ensures err { OnErr result ((self.new.state.core ≡ self.old.state.core) × (self.new.state.stored ≡ self.old.state.stored) × (self.new.state.totals ≡ self.old.state.totals)) }
    {
        let node = self.node;
        stand(&self.locked);
        self.counts.agree(&mut session.tally);
        let answer = self.locked.lend(
            &mut self.journal,
            node.desk,
            &mut session.note,
            moment,
            session.client,
            loan,
        );
        match answer {
            Ok(()) => {
                count_made(&mut self.counts, session);
                Ok(())
            }
            Err(fault) => {
                mark_lent(&mut self.counts, session, fault);
                Err(fault)
            }
        }
    }
}

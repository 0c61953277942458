//! What a node lends of its own bounds, and gives back of its shares of others'.
ghost use Rattle.std.specs.Prelude.{◌≡◌, ◌≢◌, ℕ, ◌+◌, ◌<◌, ◌≤◌, ◌^◌, List, slice_index, false, IsTrue, IfErr, OnErr, OnOk};
ghost use Rattle.tact_base.specs.declared.limits.TheConstants.{AMOUNT_MAX, CLIENTS, MOMENT_MAX};
ghost use Rattle.run_model.specs.Histories.{IsPrefix};
ghost use Rattle.run_model.specs.Runs.{IsRun};
ghost use Rattle.run_model.specs.declared.entry.Act.TheVariants as act;
ghost use Rattle.run_model.specs.declared.entry.Entry.{Entry};
ghost use Rattle.replica_core.specs.Stands.{GoesOn, IsSameReplica, Stands};
ghost use Rattle.tact_base.specs.Setup.{Setup};
ghost use Rattle.replica_core.specs.States.{is_full};
ghost use Rattle.locked_replica.specs.Faults.{loan_fault};
ghost use Rattle.locked_replica.specs.Loans.{IsLentInDoubt, IsLoanFaultOf, IsLoanInRange, IsLoanRefusal, MayMove, OnlyWhereLent, PassesMost, act_of, amount_of, most_of};
ghost use Rattle.locked_replica.specs.Journals.{IsJournaled};
ghost use Rattle.locked_replica.specs.Locks.{HasEntered, IsLocked, IsOfDesk, entry_in, made_place, one_more_at, part_in};
ghost use Rattle.locked_replica.specs.declared.loan.Loan.TheVariants as loan;

use crate::NodeLoanFault;
use crate::loan::Loan;
use crate::locked::{Locked, count_entry, draw};
use entry_journal::EntryJournal;
use replica_core::{LoanFault, Replica};
use run_history::{Desk, Note};
use run_model::{Act, Entry};
use tact_io::Journal;

impl Locked {
    /// Makes the entry of a loan, for a session that has seen what a note has. The clerk learns the note; where it
    /// isn't refused the loan is drawn and stored; then the note sees what the clerk has seen.
    pub fn lend<J: Journal>(
        &mut self,
        journal: &mut EntryJournal<J>,
        desk: &Desk,
        note: &mut Note,
        moment: u64,
        client: u32,
        loan: Loan,
    ) -> Result<(), NodeLoanFault>
        requires desk { IsOfDesk desk.now self.old }
        requires note { note.old.table ≡ desk.now.table }
        requires moment { moment ≤ MOMENT_MAX }
        requires client { client < CLIENTS }
        requires loan { IsLoanInRange self.old.core.setup self.old.core.replica loan }
        requires journaled { IsJournaled self.old journal.old }
        ensures kept { IsLocked self.new }
        ensures label { (self.new.core.setup ≡ self.old.core.setup) × (self.new.core.replica ≡ self.old.core.replica) × (self.new.clerk.table ≡ self.old.clerk.table) }
        ensures note { (note.new.table ≡ note.old.table) × (note.new.seen ≡ self.new.clerk.seen) }
        ensures run { IsRun desk.now.setup note.new.seen }
        ensures entered { OnOk result (HasEntered self.old self.new note.old.seen (entry_in self.old moment (act_of loan))) }
        ensures rooms { OnOk result (slice_index self.old.totals (made_place self.old.core.setup.conits client) + 1 < 2 ^ 64) }
        ensures totals { OnOk result (self.new.totals ≡ one_more_at (made_place self.old.core.setup.conits client) self.old.totals) }
        ensures spare { self.old.spare ≤ self.new.spare }
        ensures room { self.old.room ≤ self.new.room + 1 }
        ensures journaled { IsJournaled self.new journal.new }
        ensures going { OnOk result ((journal.old.halted ≡ false) × (journal.new.halted ≡ false)) }
        ensures fault { IfErr result (IsLoanRefusal self.old.core (part_in self.old) journal.old journal.new loan) }
        ensures met { IfErr result (OnlyWhereLent (IsTrue J.tells → (met : J) × (J.faults met ≢ 0))) }
        ensures journal_room { journal.old.room ≤ journal.new.room + 1 }
        ensures doubt { IfErr result (IsLentInDoubt journal.new (entry_in self.old moment (act_of loan))) }
        ensures counts { (journal.new.tells ≡ journal.old.tells) × (journal.old.faults ≤ journal.new.faults) }
        ensures err { OnErr result ((self.new.core ≡ self.old.core) × (self.new.stored ≡ self.old.stored) × (self.new.totals ≡ self.old.totals)) }
        ensures learnt { IsPrefix self.old.clerk.seen note.new.seen × IsPrefix note.old.seen note.new.seen }
    {
        self.learn(desk, note);
        let answer = self.kept_loan(journal, desk, moment, client, loan);
        self.tell(desk, note);
        answer
    }

    // Makes the entry of a loan, whose amount doesn't pass what it may be. There is room for it.
    pub(crate) fn enter_loan(&mut self, desk: &Desk, moment: u64, client: u32, loan: Loan)
        requires desk { IsOfDesk desk.now self.old }
        requires moment { moment ≤ MOMENT_MAX }
        requires client { client < CLIENTS }
        requires loan { IsLoanInRange self.old.core.setup self.old.core.replica loan }
        requires free { is_full self.old.core ≡ false }
        requires within { amount_of loan ≤ most_of self.old.core.setup self.old.core.replica (part_in self.old) loan }
        requires room { 0 < self.old.room }
        ensures kept { IsLocked self.new }
        ensures label { (self.new.core.setup ≡ self.old.core.setup) × (self.new.core.replica ≡ self.old.core.replica) × (self.new.clerk.table ≡ self.old.clerk.table) }
        ensures entered { HasEntered self.old self.new self.old.clerk.seen (entry_in self.old moment (act_of loan)) }
        ensures rooms { slice_index self.old.totals (made_place self.old.core.setup.conits client) + 1 < 2 ^ 64 }
        ensures totals { self.new.totals ≡ one_more_at (made_place self.old.core.setup.conits client) self.old.totals }
        ensures grows { IsPrefix self.old.clerk.seen self.new.clerk.seen }
        ensures run { IsRun desk.now.setup self.old.clerk.seen → IsRun desk.now.setup self.new.clerk.seen }
        ensures spare { self.new.spare ≡ self.old.spare }
        ensures room { self.old.room ≤ self.new.room + 1 }
    {
        let replica = self.replica_number();
        let at = self.moment_after(moment);
        move_loan(&mut self.replica, moment, loan);
        let done = act_of(loan);
        let entry = Entry {
            replica,
            moment: at,
            act: done,
        };
        draw(&mut self.clerk, &mut self.stored, desk, entry);
        count_entry(&mut self.totals, self.conits, client);
    }
}

// The act of a loan.
pub(crate) fn act_of(loan: Loan) -> Act
    ensures { result ≡ act_of loan }
{
    match loan {
        Loan::Out {
            holder,
            conit,
            amount,
        } => Act::Lend {
            to: holder,
            conit,
            amount,
        },
        Loan::Back {
            owner,
            conit,
            amount,
        } => Act::Back {
            owner,
            conit,
            amount,
        },
    }
}

// What its amount is at most: what is at home, or what is free of a share.
pub(crate) fn most_of(replica: &Replica, loan: Loan) -> u64
    requires { IsLoanInRange replica.now.core.setup replica.now.core.replica loan }
    ensures { (part : List Entry) → Stands part replica.now.core → result ≡ most_of replica.now.core.setup replica.now.core.replica part loan }
{
    match loan {
        Loan::Out { conit, .. } => replica.budgets().home(conit),
        Loan::Back { owner, conit, .. } => replica.budgets().free(owner, conit),
    }
}

// Its amount.
pub(crate) fn amount_of(loan: Loan) -> u64
    ensures { result ≡ amount_of loan }
{
    match loan {
        Loan::Out { amount, .. } => amount,
        Loan::Back { amount, .. } => amount,
    }
}

// Why it is refused where its amount passes so much.
pub(crate) fn passes(loan: Loan, most: u64) -> NodeLoanFault
    requires { most < amount_of loan }
    ensures { (setup : Setup) (replica : ℕ) (part : List Entry) → most ≡ most_of setup replica part loan → PassesMost setup replica part loan result }
{
    match loan {
        Loan::Out { conit, .. } => NodeLoanFault::Home { conit, home: most },
        Loan::Back { conit, .. } => NodeLoanFault::Free { conit, free: most },
    }
}

// The replica makes the entry of a loan.
fn make_loan(replica: &mut Replica, moment: u64, loan: Loan) -> Result<(), LoanFault>
    requires moment { moment ≤ MOMENT_MAX }
    requires loan { IsLoanInRange replica.old.core.setup replica.old.core.replica loan }
    ensures goes_on { OnOk result (GoesOn replica.old.core replica.new.core moment (λ part. act_of loan)) }
    ensures same { IsSameReplica replica.old.core replica.new.core }
    ensures spare { replica.new.spare ≡ replica.old.spare }
    ensures fault { IfErr result (λ told. (part : List Entry) → Stands part replica.old.core → IsLoanFaultOf replica.old.core part loan (loan_fault told)) }
    ensures err { OnErr result (replica.new ≡ replica.old) }
{
    match loan {
        Loan::Out {
            holder,
            conit,
            amount,
        } => replica.lend(moment, holder, conit, amount),
        Loan::Back {
            owner,
            conit,
            amount,
        } => replica.give_back(moment, owner, conit, amount),
    }
}

// The same, which it may.
fn move_loan(replica: &mut Replica, moment: u64, loan: Loan)
    requires moment { moment ≤ MOMENT_MAX }
    requires loan { IsLoanInRange replica.old.core.setup replica.old.core.replica loan }
    requires may { MayMove replica.old.core loan }
    ensures goes_on { GoesOn replica.old.core replica.new.core moment (λ part. act_of loan) }
    ensures same { IsSameReplica replica.old.core replica.new.core }
    ensures spare { replica.new.spare ≡ replica.old.spare }
{
    match make_loan(replica, moment, loan) {
        Ok(()) => {}
        Err(_) => unreachable!(),
    }
}

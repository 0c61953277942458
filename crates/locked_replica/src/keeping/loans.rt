//! Loans and returns as their journal gets them: each is known before the replica makes it, and is appended first.
ghost use Rattle.std.specs.Prelude.{◌≡◌, ◌≢◌, ◌+◌, ◌<◌, ◌≤◌, ◌^◌, false, IsTrue, IfErr, OnErr, OnOk, slice_index};
ghost use Rattle.tact_base.specs.declared.limits.TheConstants.{CLIENTS, MOMENT_MAX};
ghost use Rattle.run_model.specs.Histories.{IsPrefix};
ghost use Rattle.run_model.specs.Runs.{IsRun};
ghost use Rattle.replica_core.specs.States.{IsKept, is_full};
ghost use Rattle.restart_journal.specs.Pieces.{CanBePut};
ghost use Rattle.entry_journal.specs.EntryJournals.{HasKept};
ghost use Rattle.locked_replica.specs.Journals.{IsJournaled, MayComeNext};
ghost use Rattle.locked_replica.specs.Loans.{IsLentInDoubt, IsLoanInRange, IsLoanRefusal, OnlyWhereLent, act_of, amount_of, most_of};
ghost use Rattle.locked_replica.specs.Locks.{HasEntered, IsLocked, IsOfDesk, entry_in, made_place, one_more_at, part_in};

use super::keep;
use crate::NodeLoanFault;
use crate::lending::{act_of, amount_of, most_of, passes};
use crate::loan::Loan;
use crate::locked::Locked;
use entry_journal::EntryJournal;
use restart_journal::due_can_be_put;
use run_history::Desk;
use run_model::Entry;
use tact_io::Journal;

impl Locked {
    // Makes the entry of a loan, once it is kept.
    pub(crate) fn kept_loan<J: Journal>(
        &mut self,
        journal: &mut EntryJournal<J>,
        desk: &Desk,
        moment: u64,
        client: u32,
        loan: Loan,
    ) -> Result<(), NodeLoanFault>
        requires desk { IsOfDesk desk.now self.old }
        requires moment { moment ≤ MOMENT_MAX }
        requires client { client < CLIENTS }
        requires loan { IsLoanInRange self.old.core.setup self.old.core.replica loan }
        requires journaled { IsJournaled self.old journal.old }
        ensures kept { IsLocked self.new }
        ensures label { (self.new.core.setup ≡ self.old.core.setup) × (self.new.core.replica ≡ self.old.core.replica) × (self.new.clerk.table ≡ self.old.clerk.table) }
        ensures entered { OnOk result (HasEntered self.old self.new self.old.clerk.seen (entry_in self.old moment (act_of loan))) }
        ensures rooms { OnOk result (slice_index self.old.totals (made_place self.old.core.setup.conits client) + 1 < 2 ^ 64) }
        ensures totals { OnOk result (self.new.totals ≡ one_more_at (made_place self.old.core.setup.conits client) self.old.totals) }
        ensures grows { IsPrefix self.old.clerk.seen self.new.clerk.seen }
        ensures run { IsRun desk.now.setup self.old.clerk.seen → IsRun desk.now.setup self.new.clerk.seen }
        ensures spare { self.old.spare ≤ self.new.spare }
        ensures room { self.old.room ≤ self.new.room + 1 }
        ensures err { OnErr result ((self.new.core ≡ self.old.core) × (self.new.stored ≡ self.old.stored) × (self.new.totals ≡ self.old.totals) × (self.new.clerk ≡ self.old.clerk)) }
        ensures journaled { IsJournaled self.new journal.new }
        ensures going { OnOk result ((journal.old.halted ≡ false) × (journal.new.halted ≡ false)) }
        ensures fault { IfErr result (IsLoanRefusal self.old.core (part_in self.old) journal.old journal.new loan) }
        ensures met { IfErr result (OnlyWhereLent (IsTrue J.tells → (met : J) × (J.faults met ≢ 0))) }
        ensures journal_room { journal.old.room ≤ journal.new.room + 1 }
        ensures doubt { IfErr result (IsLentInDoubt journal.new (entry_in self.old moment (act_of loan))) }
        ensures counts { (journal.new.tells ≡ journal.old.tells) × (journal.old.faults ≤ journal.new.faults) }
    {
        self.keep_loan(journal, moment, loan)?;
        self.enter_loan(desk, moment, client, loan);
        Ok(())
    }

    // Appends a loan whose amount doesn't pass what it may be.
    fn keep_loan<J: Journal>(
        &mut self,
        journal: &mut EntryJournal<J>,
        moment: u64,
        loan: Loan,
    ) -> Result<(), NodeLoanFault>
        requires moment { moment ≤ MOMENT_MAX }
        requires loan { IsLoanInRange self.old.core.setup self.old.core.replica loan }
        requires journaled { IsJournaled self.old journal.old }
        ensures value { self.new ≡ record self.old { spare = self.new.spare; beside = self.new.beside; room = self.new.room } }
        ensures kept { IsLocked self.new }
        ensures free { OnOk result ((journal.old.halted ≡ false) × (is_full self.old.core ≡ false)) }
        ensures within { OnOk result (amount_of loan ≤ most_of self.old.core.setup self.old.core.replica (part_in self.old) loan) }
        ensures rooms { OnOk result (0 < self.new.room) }
        ensures no_less { (self.old.spare ≤ self.new.spare) × (self.old.room ≤ self.new.room) }
        ensures has { OnOk result (HasKept journal.old journal.new (entry_in self.old moment (act_of loan))) }
        ensures journaled { OnErr result (IsJournaled self.new journal.new) }
        ensures fault { IfErr result (IsLoanRefusal self.old.core (part_in self.old) journal.old journal.new loan) }
        ensures met { IfErr result (OnlyWhereLent (IsTrue J.tells → (met : J) × (J.faults met ≢ 0))) }
        ensures journal_room { journal.old.room ≤ journal.new.room + 1 }
        ensures doubt { IfErr result (IsLentInDoubt journal.new (entry_in self.old moment (act_of loan))) }
        ensures counts { (journal.new.tells ≡ journal.old.tells) × (journal.old.faults ≤ journal.new.faults) }
    {
        self.may_keep(journal)?;
        let most = self.most_of(loan);
        if amount_of(loan) > most {
            return Err(passes(loan, most));
        }
        self.store_room()?;
        let entry = self.next_loan(moment, loan);
        let piece = journal.prepare(&entry)?;
        keep(journal, piece.items(), entry)?;
        Ok(())
    }

    // A loan as its entry would be now.
    fn next_loan(&self, moment: u64, loan: Loan) -> Entry
        requires kept { IsLocked self.now }
        requires free { is_full self.now.core ≡ false }
        requires sound { IsKept self.now.core }
        requires moment { moment ≤ MOMENT_MAX }
        requires loan { IsLoanInRange self.now.core.setup self.now.core.replica loan }
        requires within { amount_of loan ≤ most_of self.now.core.setup self.now.core.replica (part_in self.now) loan }
        ensures entry { result ≡ entry_in self.now moment (act_of loan) }
        ensures next { MayComeNext self.now result }
        ensures put { CanBePut result }
    {
        due_can_be_put();
        Entry {
            replica: self.replica_number(),
            moment: self.moment_after(moment),
            act: act_of(loan),
        }
    }

    // What its amount is at most.
    fn most_of(&self, loan: Loan) -> u64
        requires { IsLoanInRange self.now.core.setup self.now.core.replica loan }
        ensures { result ≡ most_of self.now.core.setup self.now.core.replica (part_in self.now) loan }
    {
        most_of(&self.replica, loan)
    }
}

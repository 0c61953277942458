//! Any call of a client, and what it moves between an allowance and the total of its conit.
ghost use Rattle.std.specs.Prelude.{◌≡◌, ◌+◌, ◌-◌, ◌*◌, ◌<◌, ◌≤◌, ◌≢◌, set, slice_index, slice_set, IsTrue, IfOk, IfErr, IsErrOf, OnOk, true, false};
ghost use Rattle.tact_base.specs.declared.limits.TheConstants.{CLIENTS, MOMENT_MAX};
ghost use Rattle.run_model.specs.Missing.{granted_on, used_on, reserved};
ghost use Rattle.locked_replica.specs.Journals.{IsJournaled, OnlyWhere};
ghost use Rattle.replica_lock.specs.Allowances.{IsAllowanceOf, lost_with};
ghost use Rattle.replica_lock.specs.Answering.{HasAnswered, HasRefused};
ghost use Rattle.locked_replica.specs.Asking.{MayAskWith, conit_of, given_up};
ghost use Rattle.locked_replica.specs.Locks.{IsLocked, one_more_at, part_in};
ghost use Rattle.replica_lock.specs.Ledgers.{amount_in, doubt_place, doubted_owe, failed_book, failed_owes, less_at, owe_of};
ghost use Rattle.replica_lock.specs.Sessions.{IsSessionOf, failed_by};

use crate::allowance::Allowance;
use crate::counts::Counts;
use crate::locked_box::{reserved, stand};
use crate::marking::{mark_fault, mark_halt};
use crate::owe::Owe;
use crate::session::Session;
use crate::turn::{Turn, count};
use locked_replica::{NodeFault, given_up};
use run_model::{Reply, Request};
use tact_base::CLIENTS;
use tact_io::{Gate, Journal};

impl<'n, 'd, J: Journal, G: Gate> Turn<'n, 'd, J, G> {
    // Answers a call of a session's client, as `Replica::call` does; draws it and stores it. The allowance is more by
    // what is granted, and less by what is used. A refusal leaves it as it was, but where the journal failed: then it has
    // given up what the call takes out of it, and the session is in doubt.
    pub(crate) fn ask(
        &mut self,
        session: &mut Session,
        allowance: &mut Allowance,
        moment: u64,
        request: Request,
    ) -> Result<Reply, NodeFault>
        requires session { IsSessionOf self.old.node session.old }
        requires allowance { IsAllowanceOf self.old.node allowance.old }
        requires moment { moment ≤ MOMENT_MAX }
        requires asked { MayAskWith self.old.node.desk.setup allowance.old.conit allowance.old.amount request }
        requires on { conit_of request ≡ allowance.old.conit }
        ensures node { self.new.node ≡ self.old.node }
        ensures kept { IsLocked self.new.state }
        ensures seen { session.new.seen ≡ self.new.state.clerk.seen }
        ensures held { allowance.old.amount ≤ reserved (part_in self.old.state) allowance.old.conit }
        ensures answered { IfOk result (HasAnswered self.old self.new session.old session.new moment allowance.old.conit request) }
        ensures moved { IfOk result (λ given. allowance.new ≡ record allowance.old {
          amount = allowance.old.amount + granted_on allowance.old.conit request given - used_on allowance.old.conit request given;
        }) }
        ensures refused { IfErr result (HasRefused self.old self.new session.old session.new moment allowance.old.conit request) }
        ensures left { IfErr result (λ told. allowance.new ≡ lost_with (given_up request) told allowance.old) }
        ensures spare { self.old.state.spare ≤ self.new.state.spare + 1 }
        ensures room { self.old.state.room ≤ self.new.state.room + 1 }
        ensures journaled { IsJournaled self.new.state self.new.journal }
        ensures going { OnOk result ((self.old.journal.halted ≡ false) × (self.new.journal.halted ≡ false)) }
        ensures met { IfErr result (OnlyWhere (IsTrue J.tells → (met : J) × (J.faults met ≢ 0))) }
        ensures enough { 0 < self.old.state.spare → 0 < self.old.state.room → 0 < self.old.journal.room → IsErrOf result NodeFault.NoMemory → ⊥ }
        ensures journal_room { self.old.journal.room ≤ self.new.journal.room + 1 }
        ensures counts { (self.new.journal.tells ≡ self.old.journal.tells) × (self.old.journal.faults ≤ self.new.journal.faults) }
    {
        let node = self.node;
        node.gate.reached(session.replica, session.client);
        stand(&self.locked);
        self.counts.agree(&mut session.tally);
        self.counts.agree(&mut allowance.tally);
        let before = reserved(&self.locked, allowance.conit);
        let lost = given_up(&request);
        let answer = self.locked.call(
            &mut self.journal,
            node.desk,
            &mut session.note,
            moment,
            session.client,
            allowance.conit,
            request,
        );
        match answer {
            Ok(reply) => {
                count(
                    &mut self.counts,
                    &mut session.tally,
                    session.conits,
                    session.client,
                );
                let after = reserved(&self.locked, allowance.conit);
                move_total(&mut self.counts, allowance, before, after);
                session.calls += 1;
                session.made += 1;
                Ok(reply)
            }
            Err(fault) => {
                fail(&mut self.counts, session, allowance, lost, fault);
                Err(fault)
            }
        }
    }
}

// What a refused call of a session's client leaves: its marks; and where the journal failed, the session is in doubt, and
// what the call takes out of the allowance is kept for it.
fn fail<J: Journal>(
    counts: &mut Counts<'_, J>,
    session: &mut Session,
    allowance: &mut Allowance,
    lost: Option<u64>,
    fault: NodeFault,
)
    requires cell { (session.old.cell ≡ counts.old.cell.id) × (allowance.old.cell ≡ counts.old.cell.id) }
    requires places { (counts.old.cell.shared ≡ session.old.conits) × (counts.old.cell.owned ≡ 5 * CLIENTS) }
    requires certain { session.old.doubt ≡ false }
    requires conit { allowance.old.conit < session.old.conits }
    requires lost { amount_in lost ≤ allowance.old.amount }
    ensures counts { counts.new ≡ record counts.old {
      book = failed_book session.old.conits session.old.client allowance.old.conit lost fault counts.old.book;
      owes = failed_owes session.old.client allowance.old.conit lost fault counts.old.owes;
    } }
    ensures session { session.new ≡ failed_by fault session.old }
    ensures allowance { allowance.new ≡ lost_with lost fault allowance.old }
{
    match fault {
        NodeFault::JournalFault => {
            mark_fault(counts, session);
            give_up(counts, allowance, lost);
            put_in_doubt(counts, session, allowance.conit, lost);
        }
        NodeFault::Halted => mark_halt(counts, session),
        NodeFault::Full { .. } | NodeFault::NoMemory => {}
    }
}

// An allowance gives up what a call takes out of it.
fn give_up<J: Journal>(counts: &mut Counts<'_, J>, allowance: &mut Allowance, lost: Option<u64>)
    requires cell { allowance.old.cell ≡ counts.old.cell.id }
    requires conit { allowance.old.conit < counts.old.cell.shared }
    requires lost { amount_in lost ≤ allowance.old.amount }
    ensures book { counts.new ≡ record counts.old { book = less_at allowance.old.conit (amount_in lost) counts.old.book } }
    ensures allowance { allowance.new ≡ record allowance.old { amount = allowance.old.amount - amount_in lost } }
{
    let size = lost.unwrap_or(0);
    counts.lower(&mut allowance.tally, allowance.conit, size);
    allowance.amount -= size;
}

// A session is in doubt from then on, and what its call takes out of an allowance is kept for it.
fn put_in_doubt<J: Journal>(
    counts: &mut Counts<'_, J>,
    session: &mut Session,
    conit: u32,
    lost: Option<u64>,
)
    requires cell { session.old.cell ≡ counts.old.cell.id }
    requires places { (counts.old.cell.shared ≡ session.old.conits) × (counts.old.cell.owned ≡ 5 * CLIENTS) }
    requires certain { session.old.doubt ≡ false }
    ensures counts { counts.new ≡ record counts.old {
      book = one_more_at (doubt_place session.old.conits session.old.client) counts.old.book;
      owes = set counts.old.owes session.old.client (doubted_owe (owe_of counts.old.owes session.old.client) conit lost);
    } }
    ensures session { session.new ≡ record session.old { doubt = true } }
{
    counts.agree(&mut session.tally);
    let place = session.conits + 4 * CLIENTS + session.client;
    counts.raise(&mut session.tally, place, 1);
    session.doubt = true;
    let kept = counts.owe(session.client).kept;
    counts.set_owe(
        session.client,
        Owe {
            stands: false,
            conit,
            amount: lost,
            kept,
        },
    );
}

// Moves the total of an allowance's conit as far as what is reserved there goes from one number to another, and the
// allowance by as much.
fn move_total<J: Journal>(
    counts: &mut Counts<'_, J>,
    allowance: &mut Allowance,
    before: u64,
    after: u64,
)
    requires cell { allowance.old.cell ≡ counts.old.cell.id }
    requires conit { allowance.old.conit < counts.old.cell.shared }
    requires before { slice_index counts.old.book allowance.old.conit ≤ before }
    requires least { allowance.old.amount ≤ slice_index counts.old.book allowance.old.conit }
    requires enough { before ≤ after + allowance.old.amount }
    ensures book { counts.new ≡ record counts.old { book = slice_set counts.old.book allowance.old.conit (slice_index counts.old.book allowance.old.conit + after - before) } }
    ensures allowance { allowance.new ≡ record allowance.old { amount = allowance.old.amount + after - before } }
{
    if before <= after {
        counts.raise(&mut allowance.tally, allowance.conit, after - before);
        allowance.amount += after - before;
    } else {
        counts.lower(&mut allowance.tally, allowance.conit, before - after);
        allowance.amount -= before - after;
    }
}

//! Nodes that begin anew from their journals.
ghost use Rattle.std.specs.Prelude.{◌≡◌, ◌≢◌, ◌+◌, ◌<◌, ◌≤◌, ◌^◌, None, IfErr, IfSome, OnOk, false};
ghost use Rattle.tact_base.specs.declared.limits.TheConstants.{CLIENTS, MOMENT_MAX};
ghost use Rattle.run_model.specs.declared.entry.Act.TheVariants as act;
ghost use Rattle.locked_replica.specs.Journals.{IsJournaled};
ghost use Rattle.locked_replica.specs.Locks.{IsLocked};
ghost use Rattle.locked_replica.specs.Restarting.{OnlyWhereRestarted};
ghost use Rattle.replica_lock.specs.Restarts.{HasBegun, HasFound, HasNotBegun, HasNotFound, HasNotRestarted, HasRestarted, IsRestartFaultSeen};
ghost use Rattle.replica_lock.specs.Ledgers.{found_owe, found_owes, owe_of};
ghost use Rattle.replica_lock.specs.Sessions.{HasHeard, HasMade, IsAtNode, marked_restart};

use crate::counts::Counts;
use crate::locked_box::stand;
use crate::marking::mark_restart;
use crate::node::Node;
use crate::owe::Owe;
use crate::session::Session;
use crate::turn::{Turn, count_made};
use locked_replica::{Found, RestartFault};
use std::sync::Wait;
use tact_io::{Gate, Journal};

impl<'d, J: Journal, G: Gate> Node<'d, J, G> {
    /// Begins anew from its journal, in a turn of its own. The moment of the Restart is the greater of the handed one and
    /// that of the replica's last entry. After a refusal no Restart was made, and the node may be halted.
    pub fn restart<R: Wait>(
        &self,
        rt: &R,
        session: &mut Session,
        moment: u64,
    ) -> Result<(), RestartFault>
        requires session { IsAtNode self.now session.old }
        requires moment { moment ≤ MOMENT_MAX }
        ensures restarted { OnOk result (HasMade self.now.desk.setup session.old session.new moment act.Restart) }
        ensures refused { IfErr result (λ told. HasHeard self.now.desk.setup session.old (marked_restart told session.old) session.new) }
        ensures fault { IfErr result (IsRestartFaultSeen session.new) }
        ensures met { IfErr result (OnlyWhereRestarted J.tells ((met : J) × (J.faults met ≢ 0))) }
    {
        let mut turn = self.turn(rt);
        let answer = turn.restart(session, moment);
        turn.end();
        answer
    }
}

impl<'n, 'd, J: Journal, G: Gate> Turn<'n, 'd, J, G> {
    /// Throws the replica away and makes it again from the journal, whose pieces are to be those of the stored entries, or
    /// of these and of the one in doubt. Where it has that one, it is drawn and stored, and else it is dropped. Then a
    /// Restart is appended, made, drawn and stored, and the node isn't halted any more. Room that was made for the turn
    /// lasts over it, but over a refusal only that for stored entries and pieces.
    ///
    /// `Full` comes exactly where the replica made 20,000 entries or its clock stands at 2^40, after an entry in doubt was
    /// drawn; it leaves the node as it was, but for that one, and so does `NoMemory`. After the other faults the node is
    /// halted. `Foreign` tells the first piece that is another than was appended there, or is missing; it never comes
    /// where the journal tells its pieces.
    pub fn restart(&mut self, session: &mut Session, moment: u64) -> Result<(), RestartFault>
        requires session { IsAtNode self.old.node session.old }
        requires moment { moment ≤ MOMENT_MAX }
        ensures node { self.new.node ≡ self.old.node }
        ensures kept { IsLocked self.new.state }
        ensures journaled { IsJournaled self.new.state self.new.journal }
        ensures counts { (self.new.journal.tells ≡ self.old.journal.tells) × (self.old.journal.faults ≤ self.new.journal.faults) }
        ensures begun { OnOk result (HasRestarted self.old self.new session.old moment) }
        ensures going { OnOk result (self.new.journal.halted ≡ false) }
        ensures left { IfErr result (HasNotRestarted self.old self.new session.old moment) }
        ensures seen { session.new.seen ≡ self.new.state.clerk.seen }
        ensures restarted { OnOk result (HasMade self.old.node.desk.setup session.old session.new moment act.Restart) }
        ensures refused { IfErr result (λ told. HasHeard self.old.node.desk.setup session.old (marked_restart told session.old) session.new) }
        ensures fault_seen { IfErr result (IsRestartFaultSeen session.new) }
        ensures met { IfErr result (OnlyWhereRestarted J.tells ((met : J) × (J.faults met ≢ 0))) }
        ensures spare { OnOk result (self.old.state.spare ≤ self.new.state.spare) }
        ensures room { self.old.state.room ≤ self.new.state.room + 2 }
        ensures journal_room { self.old.journal.room ≤ self.new.journal.room + 1 }
    {
        let spare = self.locked.spare();
        self.recover(session)?;
        self.begin(session, moment, spare)
    }

    // Makes the replica again from the journal, and draws and stores the entry in doubt where it is there.
    fn recover(&mut self, session: &mut Session) -> Result<(), RestartFault>
        requires session { IsAtNode self.old.node session.old }
        ensures node { self.new.node ≡ self.old.node }
        ensures kept { IsLocked self.new.state }
        ensures journaled { IsJournaled self.new.state self.new.journal }
        ensures counts { (self.new.journal.tells ≡ self.old.journal.tells) × (self.old.journal.faults ≤ self.new.journal.faults) }
        ensures found { OnOk result (HasFound self.old self.new) }
        ensures sure { OnOk result (self.new.journal.doubt ≡ None) }
        ensures seen { session.new.seen ≡ self.new.state.clerk.seen }
        ensures heard { OnOk result (HasHeard self.old.node.desk.setup session.old session.old session.new) }
        ensures left { IfErr result (HasNotFound self.old self.new session.old) }
        ensures refused { IfErr result (λ told. HasHeard self.old.node.desk.setup session.old (marked_restart told session.old) session.new) }
        ensures fault_seen { IfErr result (IsRestartFaultSeen session.new) }
        ensures met { IfErr result (OnlyWhereRestarted J.tells ((met : J) × (J.faults met ≢ 0))) }
        ensures room { self.old.state.room ≤ self.new.state.room + 1 }
        ensures journal_room { self.new.journal.room ≡ self.old.journal.room }
    {
        let node = self.node;
        stand(&self.locked);
        self.counts.agree(&mut session.tally);
        let answer = self
            .locked
            .reread(&mut self.journal, node.desk, &mut session.note);
        match answer {
            Ok(found) => {
                note_found(&mut self.counts, found);
                Ok(())
            }
            Err(fault) => {
                mark_restart(&mut self.counts, session, fault);
                Err(fault)
            }
        }
    }

    // Makes a Restart, where nothing is in doubt, and room for so many own writes.
    fn begin(&mut self, session: &mut Session, moment: u64, spare: u64) -> Result<(), RestartFault>
        requires session { IsAtNode self.old.node session.old }
        requires moment { moment ≤ MOMENT_MAX }
        requires sure { self.old.journal.doubt ≡ None }
        ensures node { self.new.node ≡ self.old.node }
        ensures kept { IsLocked self.new.state }
        ensures journaled { IsJournaled self.new.state self.new.journal }
        ensures counts { (self.new.journal.tells ≡ self.old.journal.tells) × (self.old.journal.faults ≤ self.new.journal.faults) }
        ensures begun { OnOk result (HasBegun self.old self.new session.old moment) }
        ensures going { OnOk result (self.new.journal.halted ≡ false) }
        ensures left { IfErr result (HasNotBegun self.old self.new session.old moment) }
        ensures seen { session.new.seen ≡ self.new.state.clerk.seen }
        ensures restarted { OnOk result (HasMade self.old.node.desk.setup session.old session.new moment act.Restart) }
        ensures refused { IfErr result (λ told. HasHeard self.old.node.desk.setup session.old (marked_restart told session.old) session.new) }
        ensures fault_seen { IfErr result (IsRestartFaultSeen session.new) }
        ensures met { IfErr result (OnlyWhereRestarted J.tells ((met : J) × (J.faults met ≢ 0))) }
        ensures spare { OnOk result (spare ≤ self.new.state.spare) }
        ensures room { self.old.state.room ≤ self.new.state.room + 1 }
        ensures journal_room { self.old.journal.room ≤ self.new.journal.room + 1 }
    {
        let node = self.node;
        stand(&self.locked);
        self.counts.agree(&mut session.tally);
        let answer = self.locked.restart(
            &mut self.journal,
            node.desk,
            &mut session.note,
            moment,
            session.client,
            spare,
        );
        match answer {
            Ok(()) => {
                count_made(&mut self.counts, session);
                Ok(())
            }
            Err(fault) => {
                mark_restart(&mut self.counts, session, fault);
                Err(fault)
            }
        }
    }
}

// What is owed to the client of an entry that a journal gave back.
fn note_found<J: Journal>(counts: &mut Counts<'_, J>, found: Option<Found>)
    requires clients { IfSome found (λ one. one.client < CLIENTS) }
    requires few { IfSome found (λ one. (owe_of counts.old.owes one.client).kept + 1 < 2 ^ 64) }
    ensures { counts.new ≡ record counts.old { owes = found_owes found counts.old.owes } }
{
    if let Some(found) = found {
        let owe = counts.owe(found.client);
        counts.set_owe(found.client, with_found(owe, found));
    }
}

// What is owed to a client, with an entry of its that a journal gave back.
fn with_found(owe: Owe, found: Found) -> Owe
    requires { owe.kept + 1 < 2 ^ 64 }
    ensures { result ≡ found_owe owe found }
{
    let kept = owe.kept + 1;
    if found.call {
        Owe {
            stands: true,
            conit: owe.conit,
            amount: found.granted,
            kept,
        }
    } else {
        Owe { kept, ..owe }
    }
}

//! What a client reserves, releases and spends.
ghost use Rattle.std.specs.Prelude.{◌≡◌, ◌≢◌, ◌+◌, ◌-◌, ◌<◌, ◌≤◌, unsigned_abs, IsTrue, IfOk, IfErr, IsErrOf, OnErr, OnOk, false};
ghost use Rattle.tact_base.specs.declared.limits.TheConstants.{AMOUNT_MAX, MOMENT_MAX};
ghost use Rattle.run_model.specs.Ranges.{IsOpInRange, IsWeightInRange};
ghost use Rattle.run_model.specs.declared.call.Reply.TheVariants as reply;
ghost use Rattle.run_model.specs.declared.call.Request.TheVariants as request;
ghost use Rattle.locked_replica.specs.Journals.{IsJournaled, OnlyWhere};
ghost use Rattle.replica_lock.specs.Allowances.{IsAllowanceOf, lost_with};
ghost use Rattle.replica_lock.specs.Answering.{HasAnswered, HasRefused, IsReserved};
ghost use Rattle.locked_replica.specs.Locks.{IsLocked};
ghost use Rattle.replica_lock.specs.Sessions.{HasCalled, HasHeard, IsFaultSeen, IsSessionOf, failed_by};

use crate::allowance::Allowance;
use crate::node::Node;
use crate::session::Session;
use crate::turn::Turn;
use locked_replica::NodeFault;
use run_model::{Reply, Request};
use std::sync::Wait;
use tact_base::{Op, Weight};
use tact_io::{Gate, Journal};

/// What a reserve answers.
#[derive(Drop)]
pub enum Reserving {
    /// An allowance of the amount.
    Granted(Allowance),
    /// The reply that grants nothing: the amount is too heavy, or it waits for what is held or for a share.
    Waiting(Reply),
}

/// A held write that was accepted: its index among the writes of its replica, and its stamp.
#[derive(Clone, Copy, Debug, PartialEq, Eq)]
pub struct Accepted {
    pub index: u64,
    pub stamp: u64,
}

impl<'n, 'd, J: Journal, G: Gate> Turn<'n, 'd, J, G> {
    /// Reserves an amount on a conit for a session's client: as much of each share as its later held writes may weigh,
    /// of either sign. The amount is a plain count. It is a call of the client, which is drawn and stored with its reply.
    /// No refusal makes an entry. After `JournalFault` the session is in doubt, after any other it is as it was, but for
    /// what it has seen and its marks.
    pub fn reserve(
        &mut self,
        session: &mut Session,
        moment: u64,
        conit: u32,
        amount: u64,
    ) -> Result<Reserving, NodeFault>
        requires session { IsSessionOf self.old.node session.old }
        requires moment { moment ≤ MOMENT_MAX }
        requires conit { conit < self.old.node.desk.setup.conits }
        requires amount { amount ≤ AMOUNT_MAX }
        ensures node { self.new.node ≡ self.old.node }
        ensures kept { IsLocked self.new.state }
        ensures seen { session.new.seen ≡ self.new.state.clerk.seen }
        ensures reserved { IfOk result (IsReserved self.old.node conit amount
            (HasAnswered self.old self.new session.old session.new moment conit (request.Reserve conit amount))) }
        ensures refused { IfErr result (HasRefused self.old self.new session.old session.new moment conit (request.Reserve conit amount)) }
        ensures spare { self.old.state.spare ≤ self.new.state.spare + 1 }
        ensures room { self.old.state.room ≤ self.new.state.room + 1 }
        ensures journaled { IsJournaled self.new.state self.new.journal }
        ensures going { OnOk result ((self.old.journal.halted ≡ false) × (self.new.journal.halted ≡ false)) }
        ensures met { IfErr result (OnlyWhere (IsTrue J.tells → (met : J) × (J.faults met ≢ 0))) }
        ensures enough { 0 < self.old.state.spare → 0 < self.old.state.room → 0 < self.old.journal.room → IsErrOf result NodeFault.NoMemory → ⊥ }
        ensures journal_room { self.old.journal.room ≤ self.new.journal.room + 1 }
        ensures counts { (self.new.journal.tells ≡ self.old.journal.tells) × (self.old.journal.faults ≤ self.new.journal.faults) }
    {
        let mut granted = self.node.empty(session, conit);
        let reply = self.ask(
            session,
            &mut granted,
            moment,
            Request::Reserve { conit, amount },
        )?;
        match reply {
            Reply::Granted => Ok(Reserving::Granted(granted)),
            waiting => Ok(Reserving::Waiting(waiting)),
        }
    }

    /// Gives back all that an allowance has, and tells how much that was; it then has nothing. It is a call of the
    /// session's client, which is drawn and stored. A refusal leaves the allowance as it was, but where the journal
    /// failed: then the session is in doubt, and what the release takes is kept for it.
    pub fn release(
        &mut self,
        session: &mut Session,
        allowance: &mut Allowance,
        moment: u64,
    ) -> Result<u64, NodeFault>
        requires session { IsSessionOf self.old.node session.old }
        requires allowance { IsAllowanceOf self.old.node allowance.old }
        requires moment { moment ≤ MOMENT_MAX }
        ensures node { self.new.node ≡ self.old.node }
        ensures kept { IsLocked self.new.state }
        ensures seen { session.new.seen ≡ self.new.state.clerk.seen }
        ensures amount { IfOk result (λ amount. amount ≡ allowance.old.amount) }
        ensures released { OnOk result (HasAnswered self.old self.new session.old session.new moment allowance.old.conit
            (request.Release allowance.old.conit allowance.old.amount) reply.Released) }
        ensures allowance { OnOk result (allowance.new ≡ record allowance.old { amount = 0 }) }
        ensures refused { IfErr result (HasRefused self.old self.new session.old session.new moment allowance.old.conit (request.Release allowance.old.conit allowance.old.amount)) }
        ensures left { IfErr result (λ told. allowance.new ≡ lost_with (Some allowance.old.amount) told allowance.old) }
        ensures spare { self.old.state.spare ≤ self.new.state.spare + 1 }
        ensures room { self.old.state.room ≤ self.new.state.room + 1 }
        ensures journaled { IsJournaled self.new.state self.new.journal }
        ensures going { OnOk result ((self.old.journal.halted ≡ false) × (self.new.journal.halted ≡ false)) }
        ensures met { IfErr result (OnlyWhere (IsTrue J.tells → (met : J) × (J.faults met ≢ 0))) }
        ensures enough { 0 < self.old.state.spare → 0 < self.old.state.room → 0 < self.old.journal.room → IsErrOf result NodeFault.NoMemory → ⊥ }
        ensures journal_room { self.old.journal.room ≤ self.new.journal.room + 1 }
        ensures counts { (self.new.journal.tells ≡ self.old.journal.tells) × (self.old.journal.faults ≤ self.new.journal.faults) }
    {
        let amount = allowance.amount;
        let request = Request::Release {
            conit: allowance.conit,
            amount,
        };
        self.ask(session, allowance, moment, request)?;
        Ok(amount)
    }

    /// Writes with a weight that an allowance covers, which never waits. The weight is on the allowance's conit and of
    /// at most its size, which the allowance then is less by. It is a call of the session's client, which is drawn and
    /// stored. A refusal leaves the allowance as it was, but where the journal failed: then the session is in doubt, and
    /// what the write takes is kept for it.
    pub fn write_held(
        &mut self,
        session: &mut Session,
        allowance: &mut Allowance,
        moment: u64,
        weight: Weight,
        op: Op,
    ) -> Result<Accepted, NodeFault>
        requires session { IsSessionOf self.old.node session.old }
        requires allowance { IsAllowanceOf self.old.node allowance.old }
        requires moment { moment ≤ MOMENT_MAX }
        requires weight { IsWeightInRange self.old.node.desk.setup weight }
        requires op { IsOpInRange op }
        requires conit { weight.conit ≡ allowance.old.conit }
        requires size { unsigned_abs weight.nweight ≤ allowance.old.amount }
        ensures node { self.new.node ≡ self.old.node }
        ensures kept { IsLocked self.new.state }
        ensures seen { session.new.seen ≡ self.new.state.clerk.seen }
        ensures accepted { IfOk result (λ accepted. HasAnswered self.old self.new session.old session.new moment allowance.old.conit
            (request.Held weight op) (reply.Done accepted.index accepted.stamp)) }
        ensures allowance { OnOk result (allowance.new ≡ record allowance.old { amount = allowance.old.amount - unsigned_abs weight.nweight }) }
        ensures refused { IfErr result (HasRefused self.old self.new session.old session.new moment allowance.old.conit (request.Held weight op)) }
        ensures left { IfErr result (λ told. allowance.new ≡ lost_with (Some (unsigned_abs weight.nweight)) told allowance.old) }
        ensures spare { self.old.state.spare ≤ self.new.state.spare + 1 }
        ensures room { self.old.state.room ≤ self.new.state.room + 1 }
        ensures journaled { IsJournaled self.new.state self.new.journal }
        ensures going { OnOk result ((self.old.journal.halted ≡ false) × (self.new.journal.halted ≡ false)) }
        ensures met { IfErr result (OnlyWhere (IsTrue J.tells → (met : J) × (J.faults met ≢ 0))) }
        ensures enough { 0 < self.old.state.spare → 0 < self.old.state.room → 0 < self.old.journal.room → IsErrOf result NodeFault.NoMemory → ⊥ }
        ensures journal_room { self.old.journal.room ≤ self.new.journal.room + 1 }
        ensures counts { (self.new.journal.tells ≡ self.old.journal.tells) × (self.old.journal.faults ≤ self.new.journal.faults) }
    {
        let reply = self.ask(session, allowance, moment, Request::Held { weight, op })?;
        match reply {
            Reply::Done { index, stamp } => Ok(Accepted { index, stamp }),
            _ => unreachable!(),
        }
    }
}

impl<'d, J: Journal, G: Gate> Node<'d, J, G> {
    /// Reserves an amount on a conit, a plain count, in a turn of its own. No refusal makes an entry. After
    /// `JournalFault` the session is in doubt, after any other it is as it was, but for what it has seen and its marks.
    pub fn reserve<R: Wait>(
        &self,
        rt: &R,
        session: &mut Session,
        moment: u64,
        conit: u32,
        amount: u64,
    ) -> Result<Reserving, NodeFault>
        requires session { IsSessionOf self.now session.old }
        requires moment { moment ≤ MOMENT_MAX }
        requires conit { conit < self.now.desk.setup.conits }
        requires amount { amount ≤ AMOUNT_MAX }
        ensures reserved { IfOk result (IsReserved self.now conit amount
            (HasCalled self.now.desk.setup session.old session.new moment (request.Reserve conit amount))) }
        ensures refused { IfErr result (λ told. HasHeard self.now.desk.setup session.old (failed_by told session.old) session.new) }
        ensures fault { IfErr result (IsFaultSeen session.new) }
        ensures met { IfErr result (OnlyWhere (IsTrue J.tells → (met : J) × (J.faults met ≢ 0))) }
    {
        let mut turn = self.turn(rt);
        let answer = turn.reserve(session, moment, conit, amount);
        turn.end();
        answer
    }

    /// Gives back all that an allowance has, in a turn of its own, and tells how much that was. No refusal makes an
    /// entry. After `JournalFault` the session is in doubt, and what the release takes is kept for it; after any other
    /// the allowance is as it was, and the session, but for what it has seen and its marks.
    pub fn release<R: Wait>(
        &self,
        rt: &R,
        session: &mut Session,
        allowance: &mut Allowance,
        moment: u64,
    ) -> Result<u64, NodeFault>
        requires session { IsSessionOf self.now session.old }
        requires allowance { IsAllowanceOf self.now allowance.old }
        requires moment { moment ≤ MOMENT_MAX }
        ensures amount { IfOk result (λ amount. amount ≡ allowance.old.amount) }
        ensures released { OnOk result (HasCalled self.now.desk.setup session.old session.new moment
            (request.Release allowance.old.conit allowance.old.amount) reply.Released) }
        ensures allowance { OnOk result (allowance.new ≡ record allowance.old { amount = 0 }) }
        ensures refused { IfErr result (λ told. HasHeard self.now.desk.setup session.old (failed_by told session.old) session.new) }
        ensures fault { IfErr result (IsFaultSeen session.new) }
        ensures met { IfErr result (OnlyWhere (IsTrue J.tells → (met : J) × (J.faults met ≢ 0))) }
        ensures left { IfErr result (λ told. allowance.new ≡ lost_with (Some allowance.old.amount) told allowance.old) }
    {
        let mut turn = self.turn(rt);
        let answer = turn.release(session, allowance, moment);
        turn.end();
        answer
    }

    /// Writes with a weight that an allowance covers, in a turn of its own. It waits for the lock, and for nothing
    /// else. No refusal makes an entry. After `JournalFault` the session is in doubt, and what the write takes is kept for
    /// it; after any other the allowance is as it was, and the session, but for what it has seen and its marks.
    pub fn write_held<R: Wait>(
        &self,
        rt: &R,
        session: &mut Session,
        allowance: &mut Allowance,
        moment: u64,
        weight: Weight,
        op: Op,
    ) -> Result<Accepted, NodeFault>
        requires session { IsSessionOf self.now session.old }
        requires allowance { IsAllowanceOf self.now allowance.old }
        requires moment { moment ≤ MOMENT_MAX }
        requires weight { IsWeightInRange self.now.desk.setup weight }
        requires op { IsOpInRange op }
        requires conit { weight.conit ≡ allowance.old.conit }
        requires size { unsigned_abs weight.nweight ≤ allowance.old.amount }
        ensures accepted { IfOk result (λ accepted. HasCalled self.now.desk.setup session.old session.new moment
            (request.Held weight op) (reply.Done accepted.index accepted.stamp)) }
        ensures allowance { OnOk result (allowance.new ≡ record allowance.old { amount = allowance.old.amount - unsigned_abs weight.nweight }) }
        ensures refused { IfErr result (λ told. HasHeard self.now.desk.setup session.old (failed_by told session.old) session.new) }
        ensures fault { IfErr result (IsFaultSeen session.new) }
        ensures met { IfErr result (OnlyWhere (IsTrue J.tells → (met : J) × (J.faults met ≢ 0))) }
        ensures left { IfErr result (λ told. allowance.new ≡ lost_with (Some (unsigned_abs weight.nweight)) told allowance.old) }
    {
        let mut turn = self.turn(rt);
        let answer = turn.write_held(session, allowance, moment, weight, op);
        turn.end();
        answer
    }
}

//! Sessions that were in doubt.
ghost use Rattle.std.specs.Prelude.{◌≡◌, ◌≢◌, ◌+◌, ◌*◌, ◌<◌, ◌^◌, None, IfOk, IfErr, IfSome, OnErr, OnOk, false, true, set, slice_index};
ghost use Rattle.tact_base.specs.declared.limits.TheConstants.{CLIENTS};
ghost use Rattle.run_model.specs.Histories.{calls_in, part_of};
ghost use Rattle.run_model.specs.Runs.{IsRun};
ghost use Rattle.locked_replica.specs.Locks.{IsLocked, part_in, turns_place};
ghost use Rattle.locked_replica.specs.declared.fault.NodeFault.TheVariants as fault;
ghost use Rattle.replica_lock.specs.Ledgers.{amount_in, doubt_place, less_at, more_at, resumed_owe, standing, told_book};
ghost use Rattle.replica_lock.specs.Allowances.{IsAllowanceOf};
ghost use Rattle.replica_lock.specs.Resuming.{HasResumed, IsPaid, IsResumedAs, IsSettledAs, allowance_in};
ghost use Rattle.replica_lock.specs.Sessions.{HasHeard, IsAtNode, marked_by};

use crate::allowance::Allowance;
use crate::counts::Counts;
use crate::locked_box::stand;
use crate::marking::mark_halt;
use crate::node::Node;
use crate::owe::Owe;
use crate::session::Session;
use crate::turn::Turn;
use locked_replica::NodeFault;
use run_model::{Reply, Request};
use std::sync::Wait;
use tact_base::CLIENTS;
use tact_io::{Gate, Journal};

/// What became of a call whose append failed.
#[derive(Drop)]
pub enum Resumed {
    /// The session isn't in doubt.
    Nothing,
    /// The call stands, with this request and this reply, and what a reserve was granted.
    Stands {
        request: Request,
        reply: Reply,
        allowance: Option<Allowance>,
    },
    /// The call wasn't made. What it had taken out of an allowance comes back.
    Dropped {
        allowance: Option<Allowance>,
    },
}

impl<'d, J: Journal, G: Gate> Node<'d, J, G> {
    /// Tells what became of the call that put a session in doubt, in a turn of its own.
    pub fn resume<R: Wait>(&self, rt: &R, session: &mut Session) -> Result<Resumed, NodeFault>
        requires { IsAtNode self.now session.old }
        ensures resumed { IfOk result (HasResumed self.now.desk.setup session.old session.new) }
        ensures allowance { IfOk result (λ told. IfSome (allowance_in told) (IsAllowanceOf self.now)) }
        ensures halted { IfErr result (λ told. (told ≡ fault.Halted) × (session.old.doubt ≡ true)) }
        ensures refused { OnErr result (HasHeard self.now.desk.setup session.old (marked_by fault.Halted session.old) session.new) }
    {
        let mut turn = self.turn(rt);
        let answer = turn.resume(session);
        turn.end();
        answer
    }
}

impl<'n, 'd, J: Journal, G: Gate> Turn<'n, 'd, J, G> {
    /// Tells what became of the call that put a session in doubt: whether it stands, with its request and its reply. Then
    /// the session isn't in doubt. `Nothing` comes exactly where it wasn't, `Halted` exactly where it is and the node is
    /// halted. It makes no entry and takes no memory.
    pub fn resume(&mut self, session: &mut Session) -> Result<Resumed, NodeFault>
        requires { IsAtNode self.old.node session.old }
        ensures node { self.new.node ≡ self.old.node }
        ensures kept { IsLocked self.new.state }
        ensures state { self.new.state ≡ record self.old.state { clerk = record self.old.state.clerk { seen = self.new.state.clerk.seen } } }
        ensures journal { self.new.journal ≡ self.old.journal }
        ensures resumed_as { IfOk result (IsResumedAs self.old self.new session.old) }
        ensures allowance { IfOk result (λ told. IfSome (allowance_in told) (IsAllowanceOf self.old.node)) }
        ensures seen { session.new.seen ≡ self.new.state.clerk.seen }
        ensures resumed { IfOk result (HasResumed self.old.node.desk.setup session.old session.new) }
        ensures going { OnOk result (session.old.doubt ≡ true → self.old.journal.halted ≡ false) }
        ensures halted { IfErr result (λ told. (told ≡ fault.Halted) × (session.old.doubt ≡ true) × (self.old.journal.halted ≡ true)) }
        ensures left { OnErr result ((self.new.book ≡ told_book session.old.conits session.old.client fault.Halted self.old.book) × (self.new.owes ≡ self.old.owes)) }
        ensures refused { OnErr result (HasHeard self.old.node.desk.setup session.old (marked_by fault.Halted session.old) session.new) }
    {
        let node = self.node;
        stand(&self.locked);
        self.counts.agree(&mut session.tally);
        self.locked.hear_own(node.desk, &mut session.note);
        if !session.doubt {
            return Ok(Resumed::Nothing);
        }
        if self.journal.is_halted() {
            mark_halt(&mut self.counts, session);
            return Err(NodeFault::Halted);
        }
        Ok(self.settle(session))
    }

    // Settles what is owed to a session in doubt, which has seen all that the clerk has seen.
    fn settle(&mut self, session: &mut Session) -> Resumed
        requires at { IsAtNode self.old.node session.old }
        requires doubt { session.old.doubt ≡ true }
        requires going { self.old.journal.halted ≡ false }
        requires seen { session.old.seen ≡ self.old.state.clerk.seen }
        requires run { IsRun self.old.node.desk.setup session.old.seen }
        requires turns { slice_index self.old.book (turns_place session.old.conits session.old.client) ≡ session.old.calls }
        requires kept { IsLocked self.old.state }
        ensures node { self.new.node ≡ self.old.node }
        ensures state { self.new.state ≡ self.old.state }
        ensures journal { self.new.journal ≡ self.old.journal }
        ensures resumed_as { IsResumedAs self.old self.new session.old result }
        ensures settled { IsSettledAs (part_in self.old.state) session.old session.new result }
        ensures allowance { IfSome (allowance_in result) (IsAllowanceOf self.old.node) }
    {
        let owe = self.counts.owe(session.client);
        let allowance = pay(self.node, &mut self.counts, session, owe);
        resolve(&mut self.counts, session, owe);
        if !owe.stands {
            return Resumed::Dropped { allowance };
        }
        let (request, reply) = self.locked.last_call(session.client);
        Resumed::Stands {
            request,
            reply,
            allowance,
        }
    }
}

// The amount that is owed, as an allowance, if there is one.
fn pay<'d, J: Journal, G: Gate>(
    node: &Node<'d, J, G>,
    counts: &mut Counts<'_, J>,
    session: &mut Session,
    owe: Owe,
) -> Option<Allowance>
    requires at { IsAtNode node.now session.old }
    requires cell { counts.old.cell.id ≡ node.now.cell }
    requires shared { counts.old.cell.shared ≡ node.now.desk.setup.conits }
    requires conit { owe.amount ≢ None → owe.conit < node.now.desk.setup.conits }
    requires room { owe.amount ≢ None → slice_index counts.old.book owe.conit + amount_in owe.amount < 2 ^ 64 }
    ensures session { session.new ≡ session.old }
    ensures book { counts.new ≡ record counts.old { book = more_at owe.conit (amount_in owe.amount) counts.old.book } }
    ensures paid { IsPaid node.now owe result }
    ensures of { IfSome result (IsAllowanceOf node.now) }
{
    let Some(amount) = owe.amount else {
        return None;
    };
    let mut allowance = node.bare(session, owe.conit);
    counts.raise(&mut allowance.tally, owe.conit, amount);
    allowance.amount = amount;
    Some(allowance)
}

// A session isn't in doubt any more: a call that stands is one of its turns, and nothing is owed to it.
fn resolve<J: Journal>(counts: &mut Counts<'_, J>, session: &mut Session, owe: Owe)
    requires cell { session.old.cell ≡ counts.old.cell.id }
    requires places { (counts.old.cell.shared ≡ session.old.conits) × (counts.old.cell.owned ≡ 5 * CLIENTS) }
    requires doubt { session.old.doubt ≡ true }
    requires calls { calls_in (part_of session.old.seen session.old.replica) session.old.client ≡ session.old.calls + standing owe }
    requires room { session.old.calls + 1 < 2 ^ 64 }
    ensures book { counts.new ≡ record counts.old {
      book = less_at (doubt_place session.old.conits session.old.client) 1 (more_at (turns_place session.old.conits session.old.client) (standing owe) counts.old.book);
      owes = set counts.old.owes session.old.client (resumed_owe owe);
    } }
    ensures session { session.new ≡ record session.old { calls = session.old.calls + standing owe; doubt = false } }
{
    let stands = u64::from(owe.stands);
    let turns = session.conits + session.client;
    counts.agree(&mut session.tally);
    counts.raise(&mut session.tally, turns, stands);
    counts.lower(&mut session.tally, turns + 4 * CLIENTS, 1);
    session.calls += stands;
    session.doubt = false;
    counts.set_owe(
        session.client,
        Owe {
            stands: false,
            amount: None,
            ..owe
        },
    );
}

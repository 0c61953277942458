//! A worker: what does the items of one client.
ghost use Rattle.std.specs.Prelude.{◌≡◌, ◌<◌, IfErr, IfOk, OnOk, true, false};
ghost use Rattle.run_model.specs.Ranges.{IsOpInRange, IsRequestInRange};
ghost use Rattle.locked_replica.specs.Locks.{IsWriteOrRead};
ghost use Rattle.replica_lock.specs.Sessions.{IsSessionOf, own_calls};
ghost use Rattle.steady_node.specs.Endings.{HasEnded};
ghost use Rattle.steady_node.specs.Going.{GoesOn, IsUnmarked};
ghost use Rattle.work_load.specs.Ranges.{IsAmountOf, IsItemOf, IsWeightOf};
ghost use Rattle.work_load.specs.declared.plan.Item.TheVariants as item;
ghost use Rattle.run_work.specs.Serving.{IsObeyed, Owes};
ghost use Rattle.run_work.specs.Trying.{HasAsked, HasTried, IsLoanTold, is_refused, tried_by};
ghost use Rattle.run_work.specs.Working.{IsMarkedLost, IsReady};
ghost use Rattle.run_work.specs.declared.trying.Tried.TheVariants.{Final};

use crate::site::Sites;
use crate::trying::Tried;
use anti_entropy::wish;
use replica_lock::{Allowance, Node, NodeLoanFault, Reserving, Session};
use run_model::{Reply, Request};
use std::marker::Model;
use std::sync::Wait;
use steady_node::{Ending, call, mend, moment, release, reserve, restart, write_held};
use tact_base::{Op, Weight, Weights};
use tact_io::{Clock, Gate, Journal};
use work_load::{Client, Item};

/// A client of a workload at its node: its session, what it holds by conit, and why it ended, if it did before its last
/// item.
#[derive(Drop)]
pub(crate) struct Worker<'s, 'd, 'g, J: Journal, G: Gate> {
    pub(crate) sites: &'s Sites<'d, 'g, J, G>,
    pub(crate) node: &'s Node<'d, J, &'g G>,
    pub(crate) client: &'s Client,
    pub(crate) session: Session,
    pub(crate) allowances: Vec<Allowance>,
    pub(crate) end: Option<Ending>,
}

impl<'s, 'd, 'g, J: Journal, G: Gate> Model for Worker<'s, 'd, 'g, J, G> {
    ghost use Rattle.run_work.specs.Working.{IsWorker, WorkerView};

    ghost Value = { WorkerView };

    ghost view = { λ w. record {
      node = w.node.now;
      client = w.client.now;
      session = w.session;
      allowances = w.allowances.items;
      end = w.end;
    } };

    ghost invariant = { λ w. IsWorker w.sites.now.desk (record {
      node = w.node.now;
      client = w.client.now;
      session = w.session;
      allowances = w.allowances.items;
      end = w.end;
    }) };
}

// How a reply ends a try.
fn tried(reply: &Reply) -> Tried
    ensures { result ≡ tried_by reply.now }
{
    match reply {
        Reply::WaitHeld { .. }
        | Reply::WaitShare { .. }
        | Reply::WaitLent { .. }
        | Reply::WaitOrder { .. }
        | Reply::WaitStale { .. } => Tried::Waiting(wish(reply)),
        _ => Tried::Final,
    }
}

impl<'s, 'd, 'g, J: Journal, G: Gate> Worker<'s, 'd, 'g, J, G> {
    // Tries an item once.
    pub(crate) fn attempt<R: Wait, C: Clock>(
        &mut self,
        rt: &R,
        clock: &C,
        item: &Item,
    ) -> Result<Tried, Ending>
        requires item { IsItemOf self.old.node.desk.setup.replicas self.old.node.desk.setup.conits self.old.node.replica item.now }
        requires ready { IsReady self.old }
        ensures same { self.new ≡ record self.old { session = self.new.session; allowances = self.new.allowances } }
        ensures later { GoesOn 1 self.old.session self.new.session }
        ensures ready { OnOk result (IsReady self.new) }
        ensures tried { IfOk result (λ tried. HasTried item.now tried (own_calls self.old.session) (own_calls self.new.session)) }
        ensures owes { IfOk result (λ tried. Owes self.old.node.desk.setup tried self.old.session self.new.session) }
        ensures obeyed { OnOk result (IsObeyed self.old.node.desk.setup item.now self.old.session self.new.session) }
        ensures ending { IfErr result (HasEnded J.tells self.old.session self.new.session) }
        ensures marked { IfErr result (IsMarkedLost self.new.session) }
    {
        match *item {
            Item::Write { weights, op } => self.ask(rt, clock, &Request::Write { weights, op }),
            Item::Read { key, needs } => self.ask(rt, clock, &Request::Read { key, needs }),
            Item::Held { weight, op } => self.write_held(rt, clock, weight, op),
            Item::Reserve { conit, amount } => self.reserve(rt, clock, conit, amount),
            Item::Release { conit } => self.release(rt, clock, conit),
            Item::Lend {
                holder,
                conit,
                amount,
            } => {
                let answer = self.node.lend(
                    rt,
                    &mut self.session,
                    moment(clock),
                    holder,
                    conit,
                    amount,
                );
                self.after_loan(rt, clock, answer)
            }
            Item::Back {
                owner,
                conit,
                amount,
            } => {
                let answer = self
                    .node
                    .give_back(rt, &mut self.session, moment(clock), owner, conit, amount);
                self.after_loan(rt, clock, answer)
            }
            Item::Restart => {
                restart(rt, clock, self.node, &mut self.session)?;
                Ok(Tried::Final)
            }
        }
    }

    // A loan or a return is done where it was refused for its amount, too. Where the journal failed it or the node was
    // halted, the node is begun anew, and the loan isn't made again.
    fn after_loan<R: Wait, C: Clock>(
        &mut self,
        rt: &R,
        clock: &C,
        answer: Result<(), NodeLoanFault>,
    ) -> Result<Tried, Ending>
        requires session { IsSessionOf self.old.node self.old.session }
        requires told { IsLoanTold answer self.old.session }
        ensures same { self.new ≡ record self.old { session = self.new.session } }
        ensures later { GoesOn 1 self.old.session self.new.session }
        ensures session { IsSessionOf self.old.node self.new.session }
        ensures calls { own_calls self.new.session ≡ own_calls self.old.session }
        ensures done { IfOk result (λ tried. tried ≡ Final) }
        ensures untouched { is_refused answer ≡ false → self.new.session ≡ self.old.session }
        ensures marked { is_refused answer ≡ true → OnOk result (IsUnmarked self.new.session → ⊥) }
        ensures ending { IfErr result (HasEnded J.tells self.old.session self.new.session) }
        ensures lost { IfErr result (IsMarkedLost self.new.session) }
    {
        if let Err(NodeLoanFault::Node(fault)) = answer {
            mend(rt, clock, self.node, &mut self.session, fault)?;
        }
        Ok(Tried::Final)
    }

    // Asks for a write or a read.
    fn ask<R: Wait, C: Clock>(
        &mut self,
        rt: &R,
        clock: &C,
        request: &Request,
    ) -> Result<Tried, Ending>
        requires ready { IsReady self.old }
        requires in_range { IsRequestInRange self.old.node.desk.setup request.now }
        requires plain { IsWriteOrRead request.now }
        ensures same { self.new ≡ record self.old { session = self.new.session } }
        ensures later { GoesOn 1 self.old.session self.new.session }
        ensures ready { OnOk result (IsReady self.new) }
        ensures tried { IfOk result (λ tried. HasAsked request.now tried (own_calls self.old.session) (own_calls self.new.session)) }
        ensures owes { IfOk result (λ tried. Owes self.old.node.desk.setup tried self.old.session self.new.session) }
        ensures ending { IfErr result (HasEnded J.tells self.old.session self.new.session) }
        ensures marked { IfErr result (IsMarkedLost self.new.session) }
    {
        let reply = call(rt, clock, self.node, &mut self.session, request)?;
        Ok(tried(&reply))
    }

    // Writes with a weight out of what the client holds, and without where that doesn't suffice.
    fn write_held<R: Wait, C: Clock>(
        &mut self,
        rt: &R,
        clock: &C,
        weight: Weight,
        op: Op,
    ) -> Result<Tried, Ending>
        requires ready { IsReady self.old }
        requires weight { IsWeightOf self.old.node.desk.setup.conits weight }
        requires op { IsOpInRange op }
        ensures same { self.new ≡ record self.old { session = self.new.session; allowances = self.new.allowances } }
        ensures later { GoesOn 1 self.old.session self.new.session }
        ensures ready { OnOk result (IsReady self.new) }
        ensures tried { IfOk result (λ tried. HasTried (item.Held weight op) tried (own_calls self.old.session) (own_calls self.new.session)) }
        ensures owes { IfOk result (λ tried. Owes self.old.node.desk.setup tried self.old.session self.new.session) }
        ensures ending { IfErr result (HasEnded J.tells self.old.session self.new.session) }
        ensures marked { IfErr result (IsMarkedLost self.new.session) }
    {
        let held = &mut self.allowances[weight.conit as usize];
        if held.amount() < weight.nweight.unsigned_abs() {
            let Ok(weights) = Weights::new(&[weight]) else {
                unreachable!()
            };
            return self.ask(rt, clock, &Request::Write { weights, op });
        }
        write_held(rt, clock, self.node, &mut self.session, held, weight, op)?;
        Ok(Tried::Final)
    }

    // Reserves an amount, which joins what the client holds.
    fn reserve<R: Wait, C: Clock>(
        &mut self,
        rt: &R,
        clock: &C,
        conit: u32,
        amount: u64,
    ) -> Result<Tried, Ending>
        requires ready { IsReady self.old }
        requires amount { IsAmountOf self.old.node.desk.setup.conits conit amount }
        ensures same { self.new ≡ record self.old { session = self.new.session; allowances = self.new.allowances } }
        ensures later { GoesOn 1 self.old.session self.new.session }
        ensures ready { OnOk result (IsReady self.new) }
        ensures tried { IfOk result (λ tried. HasTried (item.Reserve conit amount) tried (own_calls self.old.session) (own_calls self.new.session)) }
        ensures owes { IfOk result (λ tried. Owes self.old.node.desk.setup tried self.old.session self.new.session) }
        ensures ending { IfErr result (HasEnded J.tells self.old.session self.new.session) }
        ensures marked { IfErr result (IsMarkedLost self.new.session) }
    {
        match reserve(rt, clock, self.node, &mut self.session, conit, amount)? {
            Reserving::Granted(granted) => {
                let joined = self
                    .node
                    .join(&mut self.allowances[conit as usize], granted);
                let Ok(()) = joined else { unreachable!() };
                Ok(Tried::Final)
            }
            Reserving::Waiting(reply) => Ok(tried(&reply)),
        }
    }

    // Gives back what the client holds on a conit.
    fn release<R: Wait, C: Clock>(&mut self, rt: &R, clock: &C, conit: u32) -> Result<Tried, Ending>
        requires ready { IsReady self.old }
        requires conit { conit < self.old.node.desk.setup.conits }
        ensures same { self.new ≡ record self.old { session = self.new.session; allowances = self.new.allowances } }
        ensures later { GoesOn 1 self.old.session self.new.session }
        ensures ready { OnOk result (IsReady self.new) }
        ensures tried { IfOk result (λ tried. HasTried (item.Release conit) tried (own_calls self.old.session) (own_calls self.new.session)) }
        ensures owes { IfOk result (λ tried. Owes self.old.node.desk.setup tried self.old.session self.new.session) }
        ensures ending { IfErr result (HasEnded J.tells self.old.session self.new.session) }
        ensures marked { IfErr result (IsMarkedLost self.new.session) }
    {
        let held = &mut self.allowances[conit as usize];
        release(rt, clock, self.node, &mut self.session, held)?;
        Ok(Tried::Final)
    }
}

//! What a worker takes and sends between its tries.
ghost use Rattle.std.specs.Prelude.{◌≡◌, ◌≢◌, ◌<◌, IfErr, IfOk, IfSome, OnErr, OnOk};
ghost use Rattle.postbox.specs.Posts.{IsFor};
ghost use Rattle.replica_lock.specs.Sessions.{IsSessionOf};
ghost use Rattle.steady_node.specs.Endings.{IsTold};
ghost use Rattle.steady_node.specs.Going.{IsUnmarked};
ghost use Rattle.run_work.specs.Holding.{IsQuiet};
ghost use Rattle.run_work.specs.Serving.{HasSentTo, IsOther};
ghost use Rattle.run_work.specs.Tending.{IsTaking};
ghost use Rattle.run_work.specs.Working.{IsKeptEnd};

use crate::worker::Worker;
use replica_lock::{NodeFault, Parcel, TakeFault};
use std::sync::Wait;
use steady_node::{Ending, mend, moment, no_memory};
use tact_base::{NoMemory, REPLICAS_MAX};
use tact_io::{Clock, Gate, Journal};

// How many parcels a worker takes at most after a try.
const TAKES: u32 = 16;

// By replica, whether a parcel of it is to be answered.
type Answers = [bool; REPLICAS_MAX as usize];

// A parcel that was taken, with whether it was to be answered; or one that came back, since the journal failed or the node
// was halted.
enum Taking {
    Taken(bool),
    Back(Parcel),
}

impl<'s, 'd, 'g, J: Journal, G: Gate> Worker<'s, 'd, 'g, J, G> {
    /// Takes up to 16 parcels that wait. Then it sends: to the replica that a reply wishes word of, or else to each that
    /// lacks writes and to each whose parcel was to be answered. Where the journal fails or the node is halted, the node
    /// is begun anew; a parcel is taken again then, and what was to be sent isn't sent again.
    pub(crate) fn tend<R: Wait, C: Clock>(
        &mut self,
        rt: &R,
        clock: &C,
        wish: Option<u32>,
    ) -> Result<(), Ending>
        requires session { IsSessionOf self.old.node self.old.session }
        requires wish { IfSome wish (IsOther self.old.node.desk.setup self.old.session.replica) }
        ensures same { self.new ≡ record self.old { session = self.new.session } }
        ensures quiet { IsQuiet 23 self.old.session self.new.session }
        ensures sent { OnOk result (IsUnmarked self.new.session → IfSome wish (λ to. HasSentTo to self.old.session self.new.session)) }
        ensures ending { IfErr result (IsKeptEnd J.tells self.new.session) }
    {
        let answers = self.take_some(rt, clock)?;
        match wish {
            Some(to) => self.send_to(rt, clock, to),
            None => self.send_due(rt, clock, &answers),
        }
    }

    // Takes up to 16 parcels that wait, and tells whose are to be answered.
    fn take_some<R: Wait, C: Clock>(&mut self, rt: &R, clock: &C) -> Result<Answers, Ending>
        requires session { IsSessionOf self.old.node self.old.session }
        ensures same { self.new ≡ record self.old { session = self.new.session } }
        ensures quiet { IsQuiet 16 self.old.session self.new.session }
        ensures ending { IfErr result (IsKeptEnd J.tells self.new.session) }
    {
        let mut answers = [false; REPLICAS_MAX as usize];
        for _taken in 0..TAKES {
            let Some(parcel) = self.sites.inbox(self.session.replica()).next(rt) else {
                return Ok(answers);
            };
            let from = parcel.message().from as usize;
            let due = self.take(rt, clock, parcel)?;
            if due && from < answers.len() {
                answers[from] = true;
            }
        }
        Ok(answers)
    }

    // Takes a parcel, again where it comes back, and tells whether it was to be answered.
    fn take<R: Wait, C: Clock>(
        &mut self,
        rt: &R,
        clock: &C,
        mut parcel: Parcel,
    ) -> Result<bool, Ending>
        requires session { IsSessionOf self.old.node self.old.session }
        requires parcel { IsFor self.old.node.desk.table self.old.node.replica parcel }
        ensures same { self.new ≡ record self.old { session = self.new.session } }
        ensures quiet { IsQuiet 1 self.old.session self.new.session }
        ensures ending { IfErr result (IsKeptEnd J.tells self.new.session) }
    {
        loop {
            match self.take_once(rt, clock, parcel)? {
                Taking::Taken(due) => return Ok(due),
                Taking::Back(back) => parcel = back,
            }
        }
    }

    // Takes a parcel once.
    fn take_once<R: Wait, C: Clock>(
        &mut self,
        rt: &R,
        clock: &C,
        parcel: Parcel,
    ) -> Result<Taking, Ending>
        requires session { IsSessionOf self.old.node self.old.session }
        requires parcel { IsFor self.old.node.desk.table self.old.node.replica parcel }
        ensures same { self.new ≡ record self.old { session = self.new.session } }
        ensures quiet { IsQuiet 1 self.old.session self.new.session }
        ensures taking { IfOk result (IsTaking self.old.node self.old.session self.new.session) }
        ensures ending { IfErr result (IsKeptEnd J.tells self.new.session) }
    {
        let mut turn = self.node.turn(rt);
        let due = turn.answer_due(parcel.message());
        let taken = turn.take(&mut self.session, moment(clock), parcel);
        turn.end();
        match taken {
            Ok(()) => Ok(Taking::Taken(due)),
            Err(TakeFault { fault, parcel }) => {
                mend(rt, clock, self.node, &mut self.session, fault)?;
                Ok(Taking::Back(parcel))
            }
        }
    }

    // Sends to another replica that a reply wishes word of.
    fn send_to<R: Wait, C: Clock>(&mut self, rt: &R, clock: &C, to: u32) -> Result<(), Ending>
        requires session { IsSessionOf self.old.node self.old.session }
        requires other { IsOther self.old.node.desk.setup self.old.session.replica to }
        ensures same { self.new ≡ record self.old { session = self.new.session } }
        ensures quiet { IsQuiet 1 self.old.session self.new.session }
        ensures sent { OnOk result (IsUnmarked self.new.session → HasSentTo to self.old.session self.new.session) }
        ensures ending { IfErr result (IsKeptEnd J.tells self.new.session) }
    {
        let sent = self.node.send(rt, &mut self.session, moment(clock), to);
        self.after_sending(rt, clock, to, sent)
    }

    // Sends to each other replica to which a message is due, or an answer.
    fn send_due<R: Wait, C: Clock>(
        &mut self,
        rt: &R,
        clock: &C,
        answers: &Answers,
    ) -> Result<(), Ending>
        requires session { IsSessionOf self.old.node self.old.session }
        ensures same { self.new ≡ record self.old { session = self.new.session } }
        ensures quiet { IsQuiet 7 self.old.session self.new.session }
        ensures ending { IfErr result (IsKeptEnd J.tells self.new.session) }
    {
        for to in 0..self.sites.count() {
            if to != self.session.replica() {
                self.send_if_due(rt, clock, to, answers[to as usize])?;
            }
        }
        Ok(())
    }

    // Sends to another replica where a message to it is due, or an answer.
    fn send_if_due<R: Wait, C: Clock>(
        &mut self,
        rt: &R,
        clock: &C,
        to: u32,
        answer: bool,
    ) -> Result<(), Ending>
        requires session { IsSessionOf self.old.node self.old.session }
        requires to { to < self.old.node.desk.setup.replicas }
        requires other { to ≢ self.old.node.replica }
        ensures same { self.new ≡ record self.old { session = self.new.session } }
        ensures quiet { IsQuiet 1 self.old.session self.new.session }
        ensures ending { IfErr result (IsKeptEnd J.tells self.new.session) }
    {
        let mut turn = self.node.turn(rt);
        if !answer && !turn.due(to) {
            turn.end();
            return Ok(());
        }
        let sent = turn.send(&mut self.session, moment(clock), to);
        turn.end();
        self.after_sending(rt, clock, to, sent)
    }

    // Puts what was sent into the inbox of a replica. Where the journal failed or the node was halted, the node is begun
    // anew.
    fn after_sending<R: Wait, C: Clock>(
        &mut self,
        rt: &R,
        clock: &C,
        to: u32,
        sent: Result<Parcel, NodeFault>,
    ) -> Result<(), Ending>
        requires session { IsSessionOf self.old.node self.old.session }
        requires to { to < self.old.node.desk.setup.replicas }
        requires parcel { IfOk sent (IsFor self.old.node.desk.table to) }
        requires told { IfErr sent (λ fault. IsTold fault self.old.session) }
        ensures same { self.new ≡ record self.old { session = self.new.session } }
        ensures quiet { IsQuiet 1 self.old.session self.new.session }
        ensures untouched { OnOk sent (self.new.session ≡ self.old.session) }
        ensures marked { OnErr sent (OnOk result (IsUnmarked self.new.session → ⊥)) }
        ensures ending { IfErr result (IsKeptEnd J.tells self.new.session) }
    {
        match sent {
            Ok(parcel) => match self.sites.inbox(to).put(rt, self.sites.desk(), parcel) {
                Ok(_) => Ok(()),
                Err(NoMemory) => Err(no_memory()),
            },
            Err(fault) => mend(rt, clock, self.node, &mut self.session, fault),
        }
    }
}

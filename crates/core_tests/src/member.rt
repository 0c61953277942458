//! Replicas of small groups. Each carries what the tests know of it, so that none of them says it again.

ghost use Rattle.std.specs.Prelude.{◌≡◌, ◌<◌, ◌≤◌};

use crate::asking::{Ask, request};
use replica_core::{CoreFault, LoanFault, Replica};
use run_model::{Config, Message, Reply};
use std::alloc::Global;
use std::process::Abort;
use tact_base::{CLIENTS, Numbers};

/// One replica of a group, with the counts of replicas and of conits of its setup. Members and messages are boxed,
/// since a box is let go in one step.
#[derive(Drop)]
pub(crate) struct Member {
    alloc: Global,
    pub count: u32,
    pub conits: u32,
    pub number: u32,
    pub replica: Replica,
    ghost sized: { replica.core.setup.replicas ≡ count },
    ghost on_conits: { replica.core.setup.conits ≡ conits },
    ghost numbered: { replica.core.replica ≡ number },
    ghost some: { 2 ≤ count },
    ghost weighed: { 1 ≤ conits },
}

impl Member {
    /// The one with this number in a setup.
    pub(crate) fn new(rt: &impl Abort, alloc: Global, config: &Config, number: u32) -> Box<Member> {
        assert!(rt; number < config.replicas());
        let member = Member {
            alloc,
            count: config.replicas(),
            conits: config.conits(),
            number,
            replica: Replica::new(alloc, config, number).expect(rt, "a replica"),
        };
        Box::new(alloc, member).expect(rt, "a member")
    }

    /// The one with this number of two, on one conit, each of which allows 10, and of which replica 0 and replica 1
    /// lend the other so much.
    pub(crate) fn of_two(
        rt: &impl Abort,
        alloc: Global,
        number: u32,
        lent: [u64; 2],
    ) -> Box<Member> {
        let loans = [0, lent[0], lent[1], 0];
        let config = Config::new(alloc, 2, 1, &[10; 2], &loans).expect(rt, "a setup");
        Member::new(rt, alloc, &config, number)
    }

    /// A client asks, and is answered as the replica told before, unless it is refused.
    pub(crate) fn ask(
        &mut self,
        rt: &impl Abort,
        moment: u8,
        client: u32,
        ask: Ask,
    ) -> Result<Reply, CoreFault> {
        assert!(rt; client < CLIENTS);
        let request = request(rt, ask);
        let moment = u64::from(moment);
        if self.replica.may_enter().is_err() {
            return self.replica.call(moment, client, &request);
        }
        let told = self.replica.reply(moment, &request);
        let answer = self.replica.call(moment, client, &request);
        assert_told(rt, &answer, &told);
        answer
    }

    /// A client asks, and is answered.
    pub(crate) fn answered(&mut self, rt: &impl Abort, moment: u8, client: u32, ask: Ask) -> Reply {
        self.ask(rt, moment, client, ask).expect(rt, "a reply")
    }

    /// What it sends to another, where the first of each origin's writes is given.
    pub(crate) fn send(
        &mut self,
        rt: &impl Abort,
        moment: u8,
        to: u32,
        firsts: &[u64],
    ) -> Box<Message> {
        assert!(rt; to < self.count);
        assert!(rt; to != self.number);
        assert!(rt; firsts.len() == self.count as usize);
        let firsts = Numbers::from_slice(self.alloc, firsts).expect(rt, "firsts");
        let sent = self.replica.send(u64::from(moment), to, &firsts);
        Box::new(self.alloc, sent.expect(rt, "a message")).expect(rt, "a box")
    }

    /// It takes a message where it fits, and answers whether it does.
    pub(crate) fn take(&mut self, rt: &impl Abort, moment: u8, message: &Message) -> bool {
        if !self.replica.fits(message) {
            return false;
        }
        let taken = self.replica.take(u64::from(moment), message);
        taken.expect(rt, "a message that is taken");
        true
    }

    /// It lends another an amount on a conit.
    pub(crate) fn lend(
        &mut self,
        rt: &impl Abort,
        moment: u8,
        to: u32,
        conit: u32,
        amount: u8,
    ) -> Result<(), LoanFault> {
        assert!(rt; to < self.count);
        assert!(rt; to != self.number);
        assert!(rt; conit < self.conits);
        self.replica
            .lend(u64::from(moment), to, conit, u64::from(amount))
    }

    /// It gives back to another an amount on a conit.
    pub(crate) fn give_back(
        &mut self,
        rt: &impl Abort,
        moment: u8,
        to: u32,
        conit: u32,
        amount: u8,
    ) -> Result<(), LoanFault> {
        assert!(rt; to < self.count);
        assert!(rt; to != self.number);
        assert!(rt; conit < self.conits);
        self.replica
            .give_back(u64::from(moment), to, conit, u64::from(amount))
    }

    /// It makes room for so many own writes.
    pub(crate) fn reserve(&mut self, rt: &impl Abort, count: u8) {
        self.replica.reserve(u64::from(count)).expect(rt, "room");
    }

    /// It begins anew.
    pub(crate) fn restart(&mut self, moment: u8) -> Result<(), CoreFault> {
        self.replica.restart(u64::from(moment))
    }

    /// How many calls a client made.
    pub(crate) fn calls(&self, rt: &impl Abort, client: u32) -> u64 {
        assert!(rt; client < CLIENTS);
        self.replica.calls(client)
    }

    /// What a peer may miss of its writes on conit 0: of positive weights, and of negative ones.
    pub(crate) fn missed(&self, rt: &impl Abort, peer: u32) -> (u64, u64) {
        assert!(rt; peer < self.count);
        assert!(rt; peer != self.number);
        self.replica.budgets().missing(peer, 0)
    }

    /// What is reserved on conit 0.
    pub(crate) fn reserved(&self) -> u64 {
        self.replica.budgets().reserved(0)
    }
}

// A replica that answers does so as it told before.
fn assert_told(rt: &impl Abort, answer: &Result<Reply, CoreFault>, told: &Reply) {
    if let Ok(given) = answer {
        assert!(rt; given == told);
    }
}

/// Two that make a group.
#[derive(Drop)]
pub(crate) struct Pair {
    pub zero: Box<Member>,
    pub one: Box<Member>,
}

impl Pair {
    /// Each allows 10, and replica 0 and replica 1 lend the other so much.
    pub(crate) fn new(rt: &impl Abort, alloc: Global, lent: [u64; 2]) -> Pair {
        let zero = Member::of_two(rt, alloc, 0, lent);
        let one = Member::of_two(rt, alloc, 1, lent);
        Pair { zero, one }
    }
}

/// One of two sends to the other, which takes the message at once, where it fits: whether it does.
pub(crate) fn tell(rt: &impl Abort, moment: u8, from: &mut Member, to: &mut Member) -> bool {
    let message = from.send(rt, moment, to.number, &[0; 2]);
    to.take(rt, moment, &message)
}

//! Replicas of small groups. Each carries what the tests know of it, so that none of them says it again.

ghost use Rattle.std.specs.Prelude.{◌≡◌, ◌≢◌, ◌<◌, ◌≤◌};

use crate::asking::{Ask, request};
use replica_core::{CoreFault, Replica};
use run_model::{Config, Message, Reply};
use std::alloc::Global;
use std::process::Abort;
use tact_base::Numbers;

/// One replica of a group of two or three, on two conits: each allows 100 on each conit, and lends each other 40 of it.
#[derive(Drop)]
pub(crate) struct Member {
    pub count: u32,
    pub number: u32,
    pub replica: Replica,
    ghost sized: { replica.core.setup.replicas ≡ count },
    ghost on_two: { replica.core.setup.conits ≡ 2 },
    ghost numbered: { replica.core.replica ≡ number },
    ghost some: { 2 ≤ count },
    ghost few: { count ≤ 3 },
    ghost within: { number < count },
}

impl Member {
    /// The one with this number of two.
    pub(crate) fn of_two(rt: &impl Abort, alloc: Global, number: u32) -> Member
        requires { number < 2 }
    {
        let config = Config::new(alloc, 2, 2, &[100; 4], &PAIR_LOANS).expect(rt, "a setup");
        Member {
            count: 2,
            number,
            replica: Replica::new(alloc, &config, number).expect(rt, "a replica"),
        }
    }

    // The one with this number of three.
    fn of_three(rt: &impl Abort, alloc: Global, number: u32) -> Member
        requires { number < 3 }
    {
        let config = Config::new(alloc, 3, 2, &[100; 6], &TRIO_LOANS).expect(rt, "a setup");
        Member {
            count: 3,
            number,
            replica: Replica::new(alloc, &config, number).expect(rt, "a replica"),
        }
    }

    /// Client 0 asks: the reply, or nothing where memory was refused.
    pub(crate) fn ask(&mut self, rt: &impl Abort, moment: u16, ask: Ask) -> Option<Reply> {
        let request = request(rt, ask);
        answer_of(rt, self.replica.call(u64::from(moment), 0, &request))
    }

    /// Client 0 asks where there is memory.
    pub(crate) fn answered(&mut self, rt: &impl Abort, moment: u16, ask: Ask) -> Reply {
        self.ask(rt, moment, ask).expect(rt, "a reply")
    }

    /// Firsts that leave it to what a peer is known to have.
    pub(crate) fn no_firsts(&self, rt: &impl Abort, alloc: Global) -> Numbers {
        Numbers::filled(alloc, 0, self.count).expect(rt, "firsts")
    }

    // This is the number of another of the group.
    fn assert_other(&self, rt: &impl Abort, number: u32)
        ensures counted { number < self.now.count }
        ensures other { number ≢ self.now.number }
    {
        assert!(rt; number < self.count);
        assert!(rt; number != self.number);
    }

    /// What it sends to another, or nothing where memory was refused.
    pub(crate) fn send(
        &mut self,
        rt: &impl Abort,
        moment: u16,
        to: u32,
        firsts: &Numbers,
    ) -> Option<Message> {
        self.assert_other(rt, to);
        assert!(rt; firsts.len() == self.count as usize);
        answer_of(rt, self.replica.send(u64::from(moment), to, firsts))
    }

    /// What it sends to another where there is memory.
    pub(crate) fn sent(&mut self, rt: &impl Abort, alloc: Global, moment: u16, to: u32) -> Message {
        let firsts = self.no_firsts(rt, alloc);
        self.send(rt, moment, to, &firsts).expect(rt, "a message")
    }

    /// What it would send to another.
    pub(crate) fn peek(&self, rt: &impl Abort, alloc: Global, moment: u16, to: u32) -> Message {
        self.assert_other(rt, to);
        let firsts = self.no_firsts(rt, alloc);
        assert!(rt; firsts.len() == self.count as usize);
        let message = self.replica.message(u64::from(moment), to, &firsts);
        message.expect(rt, "a message")
    }

    /// It takes a message, which fits; nothing where memory was refused.
    pub(crate) fn take(&mut self, rt: &impl Abort, moment: u16, message: &Message) -> Option<()> {
        assert!(rt; self.replica.fits(message));
        answer_of(rt, self.replica.take(u64::from(moment), message))
    }

    /// It makes room for so many own writes; nothing where memory was refused.
    pub(crate) fn reserve(&mut self, count: u8) -> Option<()> {
        self.replica.reserve(u64::from(count)).ok()
    }

    /// It lends another an amount on conit 0.
    pub(crate) fn lend(&mut self, rt: &impl Abort, moment: u16, to: u32, amount: u8) {
        self.assert_other(rt, to);
        let given = self
            .replica
            .lend(u64::from(moment), to, 0, u64::from(amount));
        assert_eq!(rt; given, Ok(()));
    }

    /// It gives back to another an amount on conit 0.
    pub(crate) fn give_back(&mut self, rt: &impl Abort, moment: u16, to: u32, amount: u8) {
        self.assert_other(rt, to);
        let given = self
            .replica
            .give_back(u64::from(moment), to, 0, u64::from(amount));
        assert_eq!(rt; given, Ok(()));
    }

    /// It begins anew.
    pub(crate) fn restart(&mut self, rt: &impl Abort, moment: u16) {
        assert_eq!(rt; self.replica.restart(u64::from(moment)), Ok(()));
    }
}

// The answer, or nothing where memory was refused.
fn answer_of<T: Drop>(rt: &impl Abort, given: Result<T, CoreFault>) -> Option<T> {
    match given {
        Ok(answer) => Some(answer),
        Err(CoreFault::NoMemory) => None,
        Err(fault) => panic!(rt; "{fault:?}"),
    }
}

// What each of two lends the other, and each of three each other.
static PAIR_LOANS: [u64; 8] = [0, 40, 0, 40, 40, 0, 40, 0];

static TRIO_LOANS: [u64; 18] = [
    0, 40, 40, 0, 40, 40, 40, 0, 40, 40, 0, 40, 40, 40, 0, 40, 40, 0,
];

/// A group of two.
pub(crate) fn two(rt: &impl Abort, alloc: Global) -> Vec<Member> {
    let mut members = Vec::new(alloc);
    for number in 0..2 {
        let member = Member::of_two(rt, alloc, number);
        members.push(member).expect(rt, "room for a member");
    }
    members
}

/// A group of three.
pub(crate) fn three(rt: &impl Abort, alloc: Global) -> Vec<Member> {
    let mut members = Vec::new(alloc);
    for number in 0..3 {
        let member = Member::of_three(rt, alloc, number);
        members.push(member).expect(rt, "room for a member");
    }
    members
}

/// One of a group sends to another, which takes the message at once.
pub(crate) fn tell(rt: &impl Abort, alloc: Global, members: &mut [Member], from: u32, to: u32) {
    assert!(rt; (from as usize) < members.len() && (to as usize) < members.len());
    let message = members[from as usize].sent(rt, alloc, 0, to);
    let taken = members[to as usize].take(rt, 0, &message);
    taken.expect(rt, "a message that is taken");
}

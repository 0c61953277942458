ghost use Rattle.std.specs.Prelude.{◌≡◌, []};

use crate::{Reply, Request};
use std::alloc::{AllocError, Global};
use tact_base::{Covers, Numbers, SharedWrites};

/// What one replica tells another. The lists by origin have a number for each replica, those by conit one
/// for each conit.
#[derive(Debug, Drop, PartialEq, Eq)]
pub struct Message {
    /// The replica that sends it.
    pub from: u32,
    /// The replica that it is addressed to.
    pub to: u32,
    /// How many messages the sender sent before.
    pub number: u64,
    /// By origin, how many of its writes the sender has.
    pub haves: Numbers,
    /// By origin, what the sender knows the origin to have been at.
    pub covers: Covers,
    /// By origin, the index of the first of its writes that the message has.
    pub firsts: Numbers,
    /// The writes, by origin, and of one origin by index.
    pub writes: SharedWrites,
    /// By conit, all that the sender ever lent to the receiver, the opening loan included.
    pub lent: Numbers,
    /// By conit, all that the sender ever gave back to the receiver.
    pub returned: Numbers,
}

impl Message {
    /// A message with empty lists, whose numbers are 0, in memory of `alloc`: it stands where one is made later. Takes no
    /// memory.
    pub fn blank(alloc: Global) -> Message
        ensures { result ≡ record {
          from = 0;
          to = 0;
          number = 0;
          haves = [];
          covers = [];
          firsts = [];
          writes = [];
          lent = [];
          returned = [];
        } }
    {
        Message {
            from: 0,
            to: 0,
            number: 0,
            haves: Numbers::new(alloc),
            covers: Covers::new(alloc),
            firsts: Numbers::new(alloc),
            writes: SharedWrites::empty(),
            lent: Numbers::new(alloc),
            returned: Numbers::new(alloc),
        }
    }
}

/// What a replica does in one step.
#[derive(Debug, Drop, PartialEq, Eq)]
pub enum Act {
    /// Answers the call of a client. The number counts the client's earlier calls at this replica.
    Call {
        client: u32,
        number: u64,
        request: Request,
        reply: Reply,
    },
    /// Sends a message.
    Send {
        message: Message,
    },
    /// Takes a message that is addressed to it.
    Take {
        message: Message,
    },
    /// As the owner, lends an amount on a conit to another replica.
    Lend {
        to: u32,
        conit: u32,
        amount: u64,
    },
    /// As the holder, gives an amount on a conit back to its owner.
    Back {
        owner: u32,
        conit: u32,
        amount: u64,
    },
    /// Begins anew from its journal.
    Restart,
}

/// One step of the whole system: what one replica does at one moment.
#[derive(Debug, Drop, PartialEq, Eq)]
pub struct Entry {
    /// The replica that does it.
    pub replica: u32,
    /// When, in milliseconds where a clock gives it. It never falls from one entry of a replica to the next.
    pub moment: u64,
    /// What it does.
    pub act: Act,
}

impl Clone for Message {
    ghost is_clone = { λ old new. new ≡ old };

    fn clone(&self) -> Result<Self, AllocError> {
        Ok(Message {
            from: self.from,
            to: self.to,
            number: self.number,
            haves: self.haves.copied()?,
            covers: self.covers.copied()?,
            firsts: self.firsts.copied()?,
            writes: self.writes.clone()?,
            lent: self.lent.copied()?,
            returned: self.returned.copied()?,
        })
    }
}

impl Clone for Act {
    ghost is_clone = { λ old new. new ≡ old };

    fn clone(&self) -> Result<Self, AllocError> {
        Ok(match self {
            Act::Call {
                client,
                number,
                request,
                reply,
            } => Act::Call {
                client: *client,
                number: *number,
                request: request.clone()?,
                reply: reply.clone()?,
            },
            Act::Send { message } => Act::Send {
                message: message.clone()?,
            },
            Act::Take { message } => Act::Take {
                message: message.clone()?,
            },
            Act::Lend { to, conit, amount } => Act::Lend {
                to: *to,
                conit: *conit,
                amount: *amount,
            },
            Act::Back {
                owner,
                conit,
                amount,
            } => Act::Back {
                owner: *owner,
                conit: *conit,
                amount: *amount,
            },
            Act::Restart => Act::Restart,
        })
    }
}

impl Clone for Entry {
    ghost is_clone = { λ old new. new ≡ old };

    fn clone(&self) -> Result<Self, AllocError> {
        Ok(Entry {
            replica: self.replica,
            moment: self.moment,
            act: self.act.clone()?,
        })
    }
}

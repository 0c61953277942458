use run_model::{Reply, Request};
use tact_base::{Items, Numbers};

/// What a replica did in one step, as a record has it: what a message told isn't said again, since it follows
/// from the steps before.
#[derive(Debug, Drop, PartialEq, Eq)]
pub enum ShortAct {
    /// Answered the call of a client. The number counts the client's earlier calls at this replica.
    Call {
        client: u32,
        number: u64,
        request: Request,
        reply: Reply,
    },
    /// Sent the message of this number to another replica. The firsts are, by origin, the index of the first of
    /// its writes that the message has.
    Send {
        to: u32,
        number: u64,
        firsts: Numbers,
    },
    /// Took the message that another replica sent under this number.
    Take {
        from: u32,
        number: u64,
    },
    /// As the owner, lent an amount on a conit to another replica.
    Lend {
        to: u32,
        conit: u32,
        amount: u64,
    },
    /// As the holder, gave an amount on a conit back to its owner.
    Back {
        owner: u32,
        conit: u32,
        amount: u64,
    },
    /// Began anew from its journal.
    Restart,
}

/// One entry of a record: what one replica did at one moment.
#[derive(Debug, Drop, PartialEq, Eq)]
pub struct Short {
    /// The replica that did it.
    pub replica: u32,
    /// When, in milliseconds where a clock gave it.
    pub moment: u64,
    /// What it did.
    pub act: ShortAct,
}

/// The entries of a record, in order.
pub type Shorts = Items<Short>;

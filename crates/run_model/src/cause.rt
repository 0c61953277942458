use crate::Reply;

/// Why an entry of a record may not stand after those before it. The tests are made in this order, and
/// the first that fails is named.
#[derive(Debug, Drop, PartialEq, Eq)]
pub enum Cause {
    /// The replica has as many entries before it as a replica may have.
    Full { replica: u32 },
    /// The moment is below that of the replica's last entry.
    Moment { told: u64, last: u64 },
    /// The number isn't the next one: of a call that of its client, of a send that of its replica.
    Number { told: u64, due: u64 },
    /// The first that a send has for an origin isn't what the rule of sending makes of it. The least such
    /// origin.
    First { origin: u32, told: u64, due: u64 },
    /// No earlier entry of that replica is the send with that number.
    NoSend { from: u32, number: u64 },
    /// The send went to this replica, and not to the one that takes it.
    NotAddressed { to: u32 },
    /// More is lent than the owner has at home.
    Home { amount: u64, home: u64 },
    /// More is given back than the holder has free.
    Free { amount: u64, free: u64 },
    /// The reply isn't the due one.
    Reply { told: Reply, due: Reply },
}

ghost use Rattle.std.specs.Prelude.{◌≡◌};

use std::alloc::AllocError;
use tact_base::{Needs, Numbers, Op, Weight, Weights};

/// A line of a script that isn't skipped.
#[derive(Debug, Drop, PartialEq, Eq)]
pub enum Line {
    /// The first line: the counts of replicas and conits, the alpha of every owner and conit, and the loan
    /// from every owner to every other replica.
    Start {
        replicas: u32,
        conits: u32,
        alpha: u64,
        loan: u64,
    },
    /// Sets the alpha and all loans of an owner on a conit.
    Bound {
        owner: u32,
        conit: u32,
        alpha: u64,
        loan: u64,
    },
    /// The moment that the lines from here on are handed. It may fall.
    At {
        moment: u64,
    },
    /// A client's write.
    Write {
        replica: u32,
        client: u32,
        op: Op,
        weights: Weights,
    },
    /// A client's write of one weight, taken out of what is reserved.
    Held {
        replica: u32,
        client: u32,
        op: Op,
        weight: Weight,
    },
    /// A client reserves.
    Reserve {
        replica: u32,
        client: u32,
        conit: u32,
        amount: u64,
    },
    /// A client gives back what is reserved.
    Release {
        replica: u32,
        client: u32,
        conit: u32,
        amount: u64,
    },
    /// A client's read.
    Read {
        replica: u32,
        client: u32,
        key: u64,
        needs: Needs,
    },
    /// A replica sends to another. The firsts have a number for each replica: zeros where the line has none.
    Send {
        from: u32,
        to: u32,
        firsts: Numbers,
    },
    /// A replica takes the message that another sent under that number.
    Take {
        replica: u32,
        from: u32,
        number: u64,
    },
    /// The first sends to the second, which takes it, and then the second to the first, which takes it.
    Sync {
        first: u32,
        second: u32,
    },
    /// An owner lends to a holder.
    Lend {
        owner: u32,
        holder: u32,
        conit: u32,
        amount: u64,
    },
    /// A holder gives back to an owner.
    Back {
        holder: u32,
        owner: u32,
        conit: u32,
        amount: u64,
    },
    /// A replica begins anew from its journal.
    Restart {
        replica: u32,
    },
    /// Prints the state of a replica.
    Show {
        replica: u32,
    },
    /// Prints the sum of the nweights on a conit over all accepted writes.
    Ref {
        conit: u32,
    },
}

impl Clone for Line {
    ghost is_clone = { λ old new. new ≡ old };

    fn clone(&self) -> Result<Self, AllocError> {
        Ok(match self {
            Line::Start {
                replicas,
                conits,
                alpha,
                loan,
            } => Line::Start {
                replicas: *replicas,
                conits: *conits,
                alpha: *alpha,
                loan: *loan,
            },
            Line::Bound {
                owner,
                conit,
                alpha,
                loan,
            } => Line::Bound {
                owner: *owner,
                conit: *conit,
                alpha: *alpha,
                loan: *loan,
            },
            Line::At { moment } => Line::At { moment: *moment },
            Line::Write {
                replica,
                client,
                op,
                weights,
            } => Line::Write {
                replica: *replica,
                client: *client,
                op: *op,
                weights: weights.clone()?,
            },
            Line::Held {
                replica,
                client,
                op,
                weight,
            } => Line::Held {
                replica: *replica,
                client: *client,
                op: *op,
                weight: *weight,
            },
            Line::Reserve {
                replica,
                client,
                conit,
                amount,
            } => Line::Reserve {
                replica: *replica,
                client: *client,
                conit: *conit,
                amount: *amount,
            },
            Line::Release {
                replica,
                client,
                conit,
                amount,
            } => Line::Release {
                replica: *replica,
                client: *client,
                conit: *conit,
                amount: *amount,
            },
            Line::Read {
                replica,
                client,
                key,
                needs,
            } => Line::Read {
                replica: *replica,
                client: *client,
                key: *key,
                needs: needs.clone()?,
            },
            Line::Send { from, to, firsts } => Line::Send {
                from: *from,
                to: *to,
                firsts: firsts.clone()?,
            },
            Line::Take {
                replica,
                from,
                number,
            } => Line::Take {
                replica: *replica,
                from: *from,
                number: *number,
            },
            Line::Sync { first, second } => Line::Sync {
                first: *first,
                second: *second,
            },
            Line::Lend {
                owner,
                holder,
                conit,
                amount,
            } => Line::Lend {
                owner: *owner,
                holder: *holder,
                conit: *conit,
                amount: *amount,
            },
            Line::Back {
                holder,
                owner,
                conit,
                amount,
            } => Line::Back {
                holder: *holder,
                owner: *owner,
                conit: *conit,
                amount: *amount,
            },
            Line::Restart { replica } => Line::Restart { replica: *replica },
            Line::Show { replica } => Line::Show { replica: *replica },
            Line::Ref { conit } => Line::Ref { conit: *conit },
        })
    }
}

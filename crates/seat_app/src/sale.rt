//! What a sale or a cancellation comes to.
ghost use Rattle.std.specs.Prelude.{◌≡◌};
ghost use Rattle.seat_app.specs.Sales.{sale_of};

use run_model::Reply;

/// What a sale or a cancellation of places comes to at a replica.
#[derive(Debug, Drop, PartialEq, Eq)]
pub enum Sale {
    /// With this amount, and all that its peers may have sold unseen, more than the capacity might be sold: the value
    /// that it sees, and what of its bound is out at them. Nothing was asked.
    Over {
        value: i64,
        out: u64,
        amount: u64,
        capacity: u64,
    },
    /// Without this amount, and all that its peers may have cancelled unseen, fewer than none might be sold: the value
    /// that it sees, and what of its bound is out at them. Nothing was asked.
    Under {
        value: i64,
        out: u64,
        amount: u64,
    },
    /// The write was accepted: how many writes the replica accepted before it, and its stamp.
    Accepted {
        index: u64,
        stamp: u64,
    },
    /// The replica answered otherwise, for the sake of its shares.
    Waiting(Reply),
}

/// What a reply comes to. Takes no memory.
pub(crate) fn sale_of(reply: Reply) -> Sale
    ensures { result ≡ sale_of reply }
{
    match reply {
        Reply::Done { index, stamp } => Sale::Accepted { index, stamp },
        other => Sale::Waiting(other),
    }
}

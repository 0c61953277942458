ghost use Rattle.std.specs.Prelude.{◌≡◌};

use std::alloc::AllocError;
use tact_base::{Few, Needs, Op, Weight, Weights};

/// At most 4 values of conits, held in place: one for each need of a read. A conit's value is the sum of
/// the nweights on it over all writes that the replica has seen.
pub type Sums = Few<i64, 4>;

/// What a client asks of a replica.
#[derive(Debug, Drop, PartialEq, Eq)]
pub enum Request {
    /// Accept a write, if no peer's share forbids it.
    Write { weights: Weights, op: Op },
    /// Accept a write of one weight, which is taken out of what is reserved on its conit.
    Held { weight: Weight, op: Op },
    /// Reserve an amount on a conit, if no peer's share forbids it.
    Reserve { conit: u32, amount: u64 },
    /// Give back a reserved amount of a conit.
    Release { conit: u32, amount: u64 },
    /// Read the value of a key, if each need is met.
    Read { key: u64, needs: Needs },
}

/// What a replica answers to a request. A reply whose name begins with `Wait` is a waiting one: the same
/// request may be answered otherwise later. All others are final.
#[derive(Debug, Drop, PartialEq, Eq)]
pub enum Reply {
    /// The write was accepted: how many writes the replica accepted before it, and its stamp.
    Done {
        index: u64,
        stamp: u64,
    },
    /// The amount is reserved.
    Granted,
    /// The amount is no longer reserved.
    Released,
    /// The value of the key, and the value of the conit of each need.
    Value {
        value: i64,
        sums: Sums,
    },
    /// The weight alone passes the peer's share.
    TooHeavy {
        conit: u32,
        peer: u32,
        weight: u64,
        share: u64,
    },
    /// The weight and what is reserved pass the peer's share.
    WaitHeld {
        conit: u32,
        peer: u32,
        reserved: u64,
        weight: u64,
        share: u64,
    },
    /// The weight, what is reserved and what the peer may miss pass its share.
    WaitShare {
        conit: u32,
        peer: u32,
        missing: u64,
        reserved: u64,
        weight: u64,
        share: u64,
    },
    /// All that is lent passes the need's `num`. The holder has more than an equal part of it.
    WaitLent {
        conit: u32,
        holder: u32,
        out: u64,
        total: u64,
        num: u64,
    },
    /// The order weight of the tentative writes passes the need's `order`. The replica is the slowest.
    WaitOrder {
        conit: u32,
        replica: u32,
        tentative: u64,
        order: u64,
    },
    /// The cover of the replica has a moment before the wanted one.
    WaitStale {
        conit: u32,
        replica: u32,
        moment: u64,
        wanted: u64,
    },
    /// Less is reserved on the conit than the amount.
    NotHeld {
        conit: u32,
        held: u64,
        amount: u64,
    },
}

impl Reply {
    ghost use Rattle.run_model.specs.Call.{is_waiting};

    /// Whether the same request may be answered otherwise later.
    pub fn is_waiting(&self) -> bool
        ensures { result ≡ is_waiting self.now }
    {
        matches!(
            self,
            Reply::WaitHeld { .. }
                | Reply::WaitShare { .. }
                | Reply::WaitLent { .. }
                | Reply::WaitOrder { .. }
                | Reply::WaitStale { .. }
        )
    }
}

impl Clone for Request {
    ghost is_clone = { λ old new. new ≡ old };

    ghost is_infallible = { λ _. Unit {0} };

    fn clone(&self) -> Result<Self, AllocError> {
        Ok(match self {
            Request::Write { weights, op } => Request::Write {
                weights: weights.clone()?,
                op: *op,
            },
            Request::Held { weight, op } => Request::Held {
                weight: *weight,
                op: *op,
            },
            Request::Reserve { conit, amount } => Request::Reserve {
                conit: *conit,
                amount: *amount,
            },
            Request::Release { conit, amount } => Request::Release {
                conit: *conit,
                amount: *amount,
            },
            Request::Read { key, needs } => Request::Read {
                key: *key,
                needs: needs.clone()?,
            },
        })
    }
}

impl Clone for Reply {
    ghost is_clone = { λ old new. new ≡ old };

    ghost is_infallible = { λ _. Unit {0} };

    fn clone(&self) -> Result<Self, AllocError> {
        Ok(match self {
            Reply::Done { index, stamp } => Reply::Done {
                index: *index,
                stamp: *stamp,
            },
            Reply::Granted => Reply::Granted,
            Reply::Released => Reply::Released,
            Reply::Value { value, sums } => Reply::Value {
                value: *value,
                sums: sums.clone()?,
            },
            Reply::TooHeavy {
                conit,
                peer,
                weight,
                share,
            } => Reply::TooHeavy {
                conit: *conit,
                peer: *peer,
                weight: *weight,
                share: *share,
            },
            Reply::WaitHeld {
                conit,
                peer,
                reserved,
                weight,
                share,
            } => Reply::WaitHeld {
                conit: *conit,
                peer: *peer,
                reserved: *reserved,
                weight: *weight,
                share: *share,
            },
            Reply::WaitShare {
                conit,
                peer,
                missing,
                reserved,
                weight,
                share,
            } => Reply::WaitShare {
                conit: *conit,
                peer: *peer,
                missing: *missing,
                reserved: *reserved,
                weight: *weight,
                share: *share,
            },
            Reply::WaitLent {
                conit,
                holder,
                out,
                total,
                num,
            } => Reply::WaitLent {
                conit: *conit,
                holder: *holder,
                out: *out,
                total: *total,
                num: *num,
            },
            Reply::WaitOrder {
                conit,
                replica,
                tentative,
                order,
            } => Reply::WaitOrder {
                conit: *conit,
                replica: *replica,
                tentative: *tentative,
                order: *order,
            },
            Reply::WaitStale {
                conit,
                replica,
                moment,
                wanted,
            } => Reply::WaitStale {
                conit: *conit,
                replica: *replica,
                moment: *moment,
                wanted: *wanted,
            },
            Reply::NotHeld {
                conit,
                held,
                amount,
            } => Reply::NotHeld {
                conit: *conit,
                held: *held,
                amount: *amount,
            },
        })
    }
}

//! What a replica says: of conit 0, and of replica 1 where it names one.

use run_model::{Reply, Sums};

/// A reply, as a table has it.
#[derive(Clone, Copy)]
pub(crate) enum Said {
    Done {
        index: u64,
        stamp: u64,
    },
    Granted,
    Released,
    Value {
        value: i64,
        sum: i64,
    },
    TooHeavy {
        weight: u64,
        share: u64,
    },
    WaitHeld {
        reserved: u64,
        weight: u64,
        share: u64,
    },
    WaitShare {
        missing: u64,
        reserved: u64,
        weight: u64,
        share: u64,
    },
    WaitLent {
        out: u64,
        total: u64,
        num: u64,
    },
    WaitOrder {
        tentative: u64,
        order: u64,
    },
    WaitStale {
        moment: u64,
        wanted: u64,
    },
    NotHeld {
        held: u64,
        amount: u64,
    },
}

impl Said {
    /// The reply itself.
    pub(crate) fn reply(self) -> Reply {
        let (conit, peer) = (0, 1);
        match self {
            Said::Done { index, stamp } => Reply::Done { index, stamp },
            Said::Granted => Reply::Granted,
            Said::Released => Reply::Released,
            Said::Value { value, sum } => Reply::Value {
                value,
                sums: Sums::new(&[sum]),
            },
            Said::TooHeavy { weight, share } => Reply::TooHeavy {
                conit,
                peer,
                weight,
                share,
            },
            Said::WaitHeld {
                reserved,
                weight,
                share,
            } => Reply::WaitHeld {
                conit,
                peer,
                reserved,
                weight,
                share,
            },
            Said::WaitShare {
                missing,
                reserved,
                weight,
                share,
            } => Reply::WaitShare {
                conit,
                peer,
                missing,
                reserved,
                weight,
                share,
            },
            Said::WaitLent { out, total, num } => Reply::WaitLent {
                conit,
                holder: peer,
                out,
                total,
                num,
            },
            Said::WaitOrder { tentative, order } => Reply::WaitOrder {
                conit,
                replica: peer,
                tentative,
                order,
            },
            Said::WaitStale { moment, wanted } => Reply::WaitStale {
                conit,
                replica: peer,
                moment,
                wanted,
            },
            Said::NotHeld { held, amount } => Reply::NotHeld {
                conit,
                held,
                amount,
            },
        }
    }
}

//! What a client asks for: to add 1 to the key 7, without weights, or to read it, without needs.

ghost use Rattle.tact_base.specs.Setup.{Setup};
ghost use Rattle.run_model.specs.Ranges.{IsRequestInRange};
ghost use Rattle.session_guard.specs.Visits.{IsWriteOrRead};

use run_model::{Reply, Request, Sums};
use session_guard::Visit;
use std::process::Abort;
use tact_base::{Needs, Op, Weights};

#[derive(Clone, Copy)]
pub(crate) enum Ask {
    Add,
    Read,
}

/// The request, which is in range of every setup.
pub(crate) fn request(rt: &impl Abort, ask: Ask) -> Request
    ensures in_range { (setup : Setup) → IsRequestInRange setup result }
    ensures kind { IsWriteOrRead result }
{
    match ask {
        Ask::Add => Request::Write {
            weights: Weights::new(&[]).expect(rt, "no weights"),
            op: Op::Add { key: 7, delta: 1 },
        },
        Ask::Read => Request::Read {
            key: 7,
            needs: Needs::new(&[]).expect(rt, "no needs"),
        },
    }
}

/// The write was accepted.
pub(crate) fn done(index: u64, stamp: u64) -> Visit {
    Visit::Answered(Reply::Done { index, stamp })
}

/// The read was answered.
pub(crate) fn told(value: i64) -> Visit {
    Visit::Answered(Reply::Value {
        value,
        sums: Sums::new(&[]),
    })
}

/// Of an origin nothing was there, and more was wanted.
pub(crate) fn lacks(origin: u32, wanted: u64) -> Visit {
    Visit::Behind {
        origin,
        have: 0,
        wanted,
    }
}

//! What clients ask for on conit 0: small numbers, which are in range whatever they are.

ghost use Rattle.std.specs.Prelude.{◌≡◌, ◌<◌};
ghost use Rattle.tact_base.specs.Setup.{Setup};
ghost use Rattle.run_model.specs.Ranges.{IsRequestInRange, IsOpInRange};

use run_model::Request;
use std::process::Abort;
use tact_base::{Need, Needs, Op, Weight, Weights};

/// What a write does: adds an amount to a key, or moves one from a key to another.
#[derive(Clone, Copy)]
pub(crate) enum Deed {
    Add(u8, i8),
    Shift(u8, u8, u8),
}

/// What a client asks for: a write without weights; a write or a held write of an nweight and an oweight; an amount; or
/// key 1, with the `num`, the `order` and the `stale` of its one need.
#[derive(Clone, Copy)]
pub(crate) enum Ask {
    Plain(Deed),
    Write(i8, u8, Deed),
    Held(i8, u8, Deed),
    Reserve(u8),
    Release(u8),
    Read(u8, u8, u8),
}

impl Deed {
    fn op(self) -> Op
        ensures { IsOpInRange result }
    {
        match self {
            Deed::Add(key, delta) => Op::Add {
                key: u64::from(key),
                delta: i64::from(delta),
            },
            Deed::Shift(from, to, amount) => Op::Shift {
                from: u64::from(from),
                to: u64::from(to),
                amount: u64::from(amount),
            },
        }
    }
}

/// The request, which is in range wherever there is a conit.
pub(crate) fn request(rt: &impl Abort, ask: Ask) -> Request
    ensures { (setup : Setup) → 0 < setup.conits → IsRequestInRange setup result }
{
    match ask {
        Ask::Plain(deed) => Request::Write {
            weights: Weights::new(&[]).expect(rt, "no weights"),
            op: deed.op(),
        },
        Ask::Write(nweight, oweight, deed) => Request::Write {
            weights: Weights::new(&[weight(nweight, oweight)]).expect(rt, "a weight"),
            op: deed.op(),
        },
        Ask::Held(nweight, oweight, deed) => Request::Held {
            weight: weight(nweight, oweight),
            op: deed.op(),
        },
        Ask::Reserve(amount) => Request::Reserve {
            conit: 0,
            amount: u64::from(amount),
        },
        Ask::Release(amount) => Request::Release {
            conit: 0,
            amount: u64::from(amount),
        },
        Ask::Read(num, order, stale) => Request::Read {
            key: 1,
            needs: Needs::new(&[need(num, order, stale)]).expect(rt, "a need"),
        },
    }
}

// A weight on conit 0.
fn weight(nweight: i8, oweight: u8) -> Weight
    ensures conit { result.conit ≡ 0 }
    ensures nweight { result.nweight ≡ nweight }
    ensures oweight { result.oweight ≡ oweight }
{
    Weight {
        conit: 0,
        nweight: i64::from(nweight),
        oweight: u64::from(oweight),
    }
}

// A need on conit 0.
fn need(num: u8, order: u8, stale: u8) -> Need
    ensures { result.conit ≡ 0 }
{
    Need {
        conit: 0,
        num: u64::from(num),
        order: u64::from(order),
        stale: u64::from(stale),
    }
}

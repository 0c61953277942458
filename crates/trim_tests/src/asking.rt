//! What clients ask for: small numbers, which are in range whatever they are.

ghost use Rattle.std.specs.Prelude.{◌≡◌, ◌<◌};
ghost use Rattle.tact_base.specs.Setup.{Setup};
ghost use Rattle.run_model.specs.Ranges.{IsRequestInRange, IsOpInRange};

use run_model::Request;
use std::process::Abort;
use tact_base::{Need, Needs, Op, Weight, Weights};

/// What a write does: to keys, with an amount.
#[derive(Clone, Copy)]
pub(crate) enum Deed {
    Put(u8, i8),
    Add(u8, i8),
    Shift(u8, u8, u8),
}

/// What a client asks for: a write or a held write, with what it weighs on conit 0 or 1; an amount of conit 0; or a
/// key, with the greatest order weight on conit 0.
#[derive(Clone, Copy)]
pub(crate) enum Ask {
    Write(Light, Deed),
    Held(Light, Deed),
    Reserve(u8),
    Release(u8),
    Read(u8, u8),
}

/// A weight on the conit that the number has, its remainder by two.
#[derive(Clone, Copy)]
pub(crate) struct Light {
    pub conit: u8,
    pub nweight: i8,
    pub oweight: u8,
}

impl Deed {
    pub(crate) fn op(self) -> Op
        ensures { IsOpInRange result }
    {
        match self {
            Deed::Put(key, value) => Op::Put {
                key: u64::from(key),
                value: i64::from(value),
            },
            Deed::Add(key, delta) => Op::Add {
                key: u64::from(key),
                delta: i64::from(delta),
            },
            Deed::Shift(from, to, amount) => Op::Shift {
                from: u64::from(from),
                to: u64::from(to),
                amount: u64::from(amount),
            },
        }
    }
}

impl Light {
    pub(crate) fn weight(self) -> Weight
        ensures conit { result.conit < 2 }
        ensures nweight { result.nweight ≡ self.nweight }
        ensures oweight { result.oweight ≡ self.oweight }
    {
        Weight {
            conit: u32::from(self.conit) % 2,
            nweight: i64::from(self.nweight),
            oweight: u64::from(self.oweight),
        }
    }
}

/// The request, which is in range wherever there are two conits.
pub(crate) fn request(rt: &impl Abort, ask: Ask) -> Request
    ensures { (setup : Setup) → setup.conits ≡ 2 → IsRequestInRange setup result }
{
    match ask {
        Ask::Write(light, deed) => Request::Write {
            weights: Weights::new(&[light.weight()]).expect(rt, "a weight"),
            op: deed.op(),
        },
        Ask::Held(light, deed) => Request::Held {
            weight: light.weight(),
            op: deed.op(),
        },
        Ask::Reserve(amount) => Request::Reserve {
            conit: 0,
            amount: u64::from(amount),
        },
        Ask::Release(amount) => Request::Release {
            conit: 0,
            amount: u64::from(amount),
        },
        Ask::Read(key, order) => Request::Read {
            key: u64::from(key),
            needs: Needs::new(&[need(order)]).expect(rt, "a need"),
        },
    }
}

fn need(order: u8) -> Need
    ensures { result.conit ≡ 0 }
{
    Need {
        conit: 0,
        num: 10_000,
        order: u64::from(order),
        stale: 1_000_000,
    }
}

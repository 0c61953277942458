ghost use Rattle.std.specs.Prelude.{◌<◌, All, IfOk};

use crate::{Totals, slowest, tentative};
use std::test::Fail;
use tact_base::{Cover, Op, Weight, Weights, Write};

fn write(index: u64, weights: &[Weight]) -> Result<Write, Fail> {
    Ok(Write {
        origin: 1,
        index,
        stamp: 1,
        moment: 0,
        weights: Weights::new(weights)?,
        op: Op::Add { key: 1, delta: 1 },
    })
}

#[test]
fn weighs_tentative_writes(rt: HostRuntime) -> Result<(), Fail> {
    let on_0 = Weight {
        conit: 0,
        nweight: -3,
        oweight: 4,
    };
    let on_2 = Weight {
        conit: 2,
        nweight: 1,
        oweight: 1_000_000,
    };
    let writes = [write(0, &[on_0])?, write(1, &[])?, write(2, &[on_0, on_2])?];
    for (conit, weight) in [(0, 8), (1, 0), (2, 1_000_000)] {
        assert_eq!(rt; tentative(&writes, conit), weight, "on conit {conit}");
    }
    Ok(())
}

#[test]
fn names_the_slowest(rt: HostRuntime) {
    for (stamps, replica) in [([3, 3, 3], 0), ([3, 2, 2], 1), ([3, 2, 1], 2)] {
        let covers = stamps.map(|stamp| Cover {
            count: 1,
            stamp,
            moment: 9,
        });
        assert_eq!(rt; slowest(&covers), replica, "of {covers:?}");
    }
}

// The weights of a write on one conit of two.
fn on(conit: u32, oweight: u64) -> Result<Weights, Fail>
    requires { conit < 2 }
    ensures { IfOk result (λ weights. All (λ weight. weight.conit < 2) weights) }
{
    Ok(Weights::new(&[Weight {
        conit,
        nweight: -1,
        oweight,
    }])?)
}

#[test]
fn totals_are_of_what_is_held(rt: HostRuntime) -> Result<(), Fail> {
    let first = on(0, 4)?;
    let second = on(1, 3)?;
    let mut totals = Totals::new(rt.alloc(), 2)?;
    totals.add(&first);
    totals.add(&second);
    assert_eq!(rt; totals.weight(0), 4);
    assert_eq!(rt; totals.weight(1), 3);
    totals.remove(&first);
    assert_eq!(rt; totals.weight(0), 0);
    totals.remove(&second);
    assert_eq!(rt; totals.weight(1), 0);
    Ok(())
}

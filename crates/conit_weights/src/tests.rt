ghost use Rattle.std.specs.Prelude.{◌≡◌, ◌<◌, All, IfOk};
ghost use Rattle.conit_weights.specs.Running.{conits_of};

use crate::{Running, minus, net, order, plus};
use std::process::Abort;
use std::test::Fail;
use tact_base::{Op, Weight, Weights, Write};

fn write(index: u64, weights: &[Weight]) -> Result<Write, Fail> {
    Ok(Write {
        origin: 0,
        index,
        stamp: index,
        moment: 0,
        weights: Weights::new(weights)?,
        op: Op::Put { key: 0, value: 0 },
    })
}

fn weight(conit: u32, nweight: i64, oweight: u64) -> Weight
    ensures { result.conit ≡ conit }
{
    Weight {
        conit,
        nweight,
        oweight,
    }
}

// The weights of a write on one conit of two.
fn on(conit: u32, nweight: i64, oweight: u64) -> Result<Weights, Fail>
    requires { conit < 2 }
    ensures { IfOk result (λ weights. All (λ weight. weight.conit < 2) weights) }
{
    Ok(Weights::new(&[weight(conit, nweight, oweight)])?)
}

fn assert_sums(rt: &impl Abort, running: &Running, plus: u64, minus: u64, net: i64, order: u64)
    requires { conits_of running.now ≡ 2 }
{
    assert_eq!(rt; running.plus(0), plus);
    assert_eq!(rt; running.minus(0), minus);
    assert_eq!(rt; running.net(0), net);
    assert_eq!(rt; running.order(0), order);
    assert_eq!(rt; running.order(1), 0);
}

#[test]
fn running_sums_are_of_what_is_held(rt: HostRuntime) -> Result<(), Fail> {
    let first = on(0, 5, 1)?;
    let second = on(0, -7, 2)?;
    let mut running = Running::new(rt.alloc(), 2)?;
    running.add(&first);
    running.add(&second);
    assert_sums(&rt, &running, 5, 7, -2, 3);
    running.remove(&first);
    assert_sums(&rt, &running, 0, 7, -7, 2);
    running.remove(&second);
    assert_sums(&rt, &running, 0, 0, 0, 0);
    Ok(())
}

#[test]
fn sums_by_sign_and_conit(rt: HostRuntime) -> Result<(), Fail> {
    let writes = [
        write(0, &[weight(0, 5, 1), weight(3, 1_000_000, 0)])?,
        write(1, &[weight(0, -7, 2)])?,
        write(2, &[])?,
        write(3, &[weight(0, 3, 4), weight(1, -1, 1_000_000)])?,
    ];
    for (conit, sums) in [
        (0, (8, 7, 1, 7)),
        (1, (0, 1, -1, 1_000_000)),
        (2, (0, 0, 0, 0)),
        (3, (1_000_000, 0, 1_000_000, 0)),
    ] {
        let found = (
            plus(&writes, conit),
            minus(&writes, conit),
            net(&writes, conit),
            order(&writes, conit),
        );
        assert!(rt; found == sums, "on conit {conit}");
    }
    Ok(())
}

//! What a stranger's reckoning of the same rule gives.

use crate::{Draws, drill_script};
use run_model::Line;
use std::test::Fail;
use tact_base::{Need, Needs, Numbers, Op, Weight, Weights};

#[test]
fn draws_go_on_from_their_number(rt: HostRuntime) {
    for (number, drawn) in [
        (0, [335903614, 436792849, 2599843874, 1723210473]),
        (u64::MAX, [3149104977, 2980664687, 2415005355, 1802035205]),
    ] {
        let mut draws = Draws::new(number);
        let all = [(); 4].map(|_| draws.pick(4294967296));
        assert_eq!(rt; all, drawn);
    }
    let mut draws = Draws::new(0);
    assert_eq!(rt; draws.one_of(0), None, "nothing is drawn");
    assert_eq!(rt; draws.one_of(10), Some(4));
}

#[test]
fn lines_are_those_of_the_number(rt: HostRuntime) -> Result<(), Fail> {
    let script = drill_script(rt.alloc(), 0)?;
    let write = Line::Write {
        replica: 1,
        client: 0,
        op: Op::Add { key: 10, delta: 1 },
        weights: weights(-1)?,
    };
    let send = Line::Send {
        from: 0,
        to: 2,
        firsts: Numbers::filled(rt.alloc(), 0, 4)?,
    };
    let read = Line::Read {
        replica: 2,
        client: 0,
        key: 0,
        needs: needs()?,
    };
    for (place, line) in [
        (2, write),
        (6, send),
        (
            12,
            Line::Take {
                replica: 2,
                from: 0,
                number: 0,
            },
        ),
        (
            18,
            Line::Sync {
                first: 2,
                second: 3,
            },
        ),
        (38, read),
        (
            3986,
            Line::Take {
                replica: 0,
                from: 2,
                number: 85,
            },
        ),
        (3999, Line::At { moment: 1999 }),
    ] {
        assert_eq!(rt; script.lines().get(place), Some(&line), "{place}");
    }
    Ok(())
}

#[test]
fn a_taking_of_nothing_is_no_line(rt: HostRuntime) -> Result<(), Fail> {
    for (number, lines) in [(0, 4001), (1, 4001), (u64::MAX, 3999)] {
        assert_eq!(rt;
            drill_script(rt.alloc(), number)?.lines().len(),
            lines,
            "{number}"
        );
    }
    Ok(())
}

fn weights(nweight: i64) -> Result<Weights, Fail> {
    let weight = Weight {
        conit: 0,
        nweight,
        oweight: 1,
    };
    Ok(Weights::new(&[weight])?)
}

fn needs() -> Result<Needs, Fail> {
    let need = Need {
        conit: 1,
        num: 60,
        order: 8,
        stale: 200,
    };
    Ok(Needs::new(&[need])?)
}

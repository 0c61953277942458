//! Each form of a line of a script, and what it says.

use run_model::{Config, Line};
use script_text::parse_script;
use std::test::Fail;
use tact_base::{Need, Op, Weight};

// A line of each form, comments and blank lines between them.
const EACH_FORM: &[u8] = b"# two replicas\n\nstart 2 3 100 010\n  bound  1 2 7 5 \n\
    at 1152921504606846976\n\
    write 0 7 put 1 -5 0:-1000000:1 2:3:0\n\
    write 1 0 shift 2 1000000000 0\n\
    # show 0\n\
    held 0 1 add 3 4 1:2:9\n\
    reserve 0 1 2 1000000000000\n\
    release 0 1 2 3\n\
    read 1 2 9 0:1:2:3 1:0:0:1152921504606846976\n\
    send 0 1\n\
    send 1 0 20000 3\n\
    take 1 0 0\n\
    sync 0 1\n\
    take 0 1 1\n\
    lend 0 1 2 8\n\
    back 1 0 2 8\n\
    restart 1\n\
    show 0\n\
    ref 2\n";

const WEIGHTS: [Weight; 2] = [
    Weight {
        conit: 0,
        nweight: -1_000_000,
        oweight: 1,
    },
    Weight {
        conit: 2,
        nweight: 3,
        oweight: 0,
    },
];

const NEEDS: [Need; 2] = [
    Need {
        conit: 0,
        num: 1,
        order: 2,
        stale: 3,
    },
    Need {
        conit: 1,
        num: 0,
        order: 0,
        stale: 1_152_921_504_606_846_976,
    },
];

const HELD: Weight = Weight {
    conit: 1,
    nweight: 2,
    oweight: 9,
};

// Whether a line of the setup, or of a client, says what is due at its place.
fn is_call(place: usize, line: &Line) -> bool {
    match (place, line) {
        (
            0,
            Line::Start {
                replicas,
                conits,
                alpha,
                loan,
            },
        ) => (*replicas, *conits, *alpha, *loan) == (2, 3, 100, 10),
        (
            1,
            Line::Bound {
                owner,
                conit,
                alpha,
                loan,
            },
        ) => (*owner, *conit, *alpha, *loan) == (1, 2, 7, 5),
        (2, Line::At { moment }) => *moment == 1_152_921_504_606_846_976,
        (
            3,
            Line::Write {
                replica,
                client,
                op,
                weights,
            },
        ) => {
            (*replica, *client) == (0, 7)
                && *op == Op::Put { key: 1, value: -5 }
                && weights.items() == WEIGHTS.as_slice()
        }
        (
            4,
            Line::Write {
                replica,
                client,
                op,
                weights,
            },
        ) => {
            (*replica, *client) == (1, 0)
                && *op
                    == Op::Shift {
                        from: 2,
                        to: 1_000_000_000,
                        amount: 0,
                    }
                && weights.items().is_empty()
        }
        (
            5,
            Line::Held {
                replica,
                client,
                op,
                weight,
            },
        ) => {
            (*replica, *client) == (0, 1) && *op == Op::Add { key: 3, delta: 4 } && *weight == HELD
        }
        _ => false,
    }
}

// The same of a line that reserves or reads, or of replicas.
fn is_step(place: usize, line: &Line) -> bool {
    match (place, line) {
        (
            6,
            Line::Reserve {
                replica,
                client,
                conit,
                amount,
            },
        ) => (*replica, *client, *conit, *amount) == (0, 1, 2, 1_000_000_000_000),
        (
            7,
            Line::Release {
                replica,
                client,
                conit,
                amount,
            },
        ) => (*replica, *client, *conit, *amount) == (0, 1, 2, 3),
        (
            8,
            Line::Read {
                replica,
                client,
                key,
                needs,
            },
        ) => (*replica, *client, *key) == (1, 2, 9) && needs.items() == NEEDS.as_slice(),
        (9, Line::Send { from, to, firsts }) => {
            (*from, *to) == (0, 1) && firsts.items() == [0, 0].as_slice()
        }
        (10, Line::Send { from, to, firsts }) => {
            (*from, *to) == (1, 0) && firsts.items() == [20_000, 3].as_slice()
        }
        (
            11,
            Line::Take {
                replica,
                from,
                number,
            },
        ) => (*replica, *from, *number) == (1, 0, 0),
        (12, Line::Sync { first, second }) => (*first, *second) == (0, 1),
        (
            13,
            Line::Take {
                replica,
                from,
                number,
            },
        ) => (*replica, *from, *number) == (0, 1, 1),
        _ => false,
    }
}

// The same of the lines behind them.
fn is_other(place: usize, line: &Line) -> bool {
    match (place, line) {
        (
            14,
            Line::Lend {
                owner,
                holder,
                conit,
                amount,
            },
        ) => (*owner, *holder, *conit, *amount) == (0, 1, 2, 8),
        (
            15,
            Line::Back {
                holder,
                owner,
                conit,
                amount,
            },
        ) => (*holder, *owner, *conit, *amount) == (1, 0, 2, 8),
        (16, Line::Restart { replica }) => *replica == 1,
        (17, Line::Show { replica }) => *replica == 0,
        (18, Line::Ref { conit }) => *conit == 2,
        _ => false,
    }
}

// The place of the first line that doesn't say what is due, or how many lines there are.
fn first_other(lines: &[Line]) -> usize {
    for (place, line) in lines.iter().enumerate() {
        if !is_call(place, line) && !is_step(place, line) && !is_other(place, line) {
            return place;
        }
    }
    lines.len()
}

// The alpha of an owner on a conit, where there are both.
fn alpha_of(config: &Config, owner: u32, conit: u32) -> Option<u64> {
    if owner < config.replicas() && conit < config.conits() {
        Some(config.alpha(owner, conit))
    } else {
        None
    }
}

#[test]
fn each_form_is_read(rt: HostRuntime) -> Result<(), Fail> {
    let script = parse_script(rt.alloc(), EACH_FORM).map_err(|_| "a script")?;
    assert_eq!(rt; first_other(script.lines()), 19);
    assert_eq!(rt; alpha_of(script.config(), 1, 2), Some(7));
    assert_eq!(rt; alpha_of(script.config(), 0, 2), Some(100));
    Ok(())
}

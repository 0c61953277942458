//! Setups: what is refused, and what is read of one.

ghost use Rattle.std.specs.Prelude.{◌≡◌};

use crate::checks::assert_numbers;
use run_model::{Config, ConfigFault};
use std::alloc::Global;
use std::process::Abort;
use tact_base::ALPHA_MAX;

const BIG: u64 = ALPHA_MAX + 1;

// What is wrong with a setup.
fn fault_of(
    alloc: Global,
    replicas: u32,
    conits: u32,
    alphas: &[u64],
    loans: &[u64],
) -> Option<ConfigFault> {
    Config::new(alloc, replicas, conits, alphas, loans).err()
}

#[rattlefmt::skip]
static FAULTS: [(u32, u32, &[u64], &[u64], ConfigFault); 13] = [
    (1, 1, &[0], &[0], ConfigFault::BadCount),
    (9, 1, &[0; 9], &[0; 81], ConfigFault::BadCount),
    (2, 0, &[], &[], ConfigFault::BadCount),
    (2, 17, &[0; 34], &[0; 68], ConfigFault::BadCount),
    (2, 1, &[BIG], &[0; 4], ConfigFault::BadCount),
    (2, 1, &[BIG, 0], &[0; 5], ConfigFault::BadCount),
    (2, 1, &[BIG, BIG], &[1; 4], ConfigFault::AlphaOver { owner: 0, conit: 0 }),
    (2, 1, &[0, BIG], &[0; 4], ConfigFault::AlphaOver { owner: 1, conit: 0 }),
    (2, 1, &[0, 0], &[1, 1, 0, 0], ConfigFault::OwnLoan { owner: 0, conit: 0 }),
    (2, 1, &[9, 9], &[0, 9, 9, 1], ConfigFault::OwnLoan { owner: 1, conit: 0 }),
    (2, 1, &[9, BIG], &[0, 10, 0, 0], ConfigFault::LoansOver { owner: 0, conit: 0 }),
    (2, 2, &[9; 4], &[0, 9, 0, 10, 10, 0, 0, 0], ConfigFault::LoansOver { owner: 0, conit: 1 }),
    (3, 1, &[9; 3], &[0, u64::MAX, 1, 0, 0, 0, 0, 0, 0], ConfigFault::LoansOver { owner: 0, conit: 0 }),
];

#[test]
fn names_the_first_fault(rt: HostRuntime) {
    for &(replicas, conits, alphas, loans, fault) in &FAULTS {
        let found = fault_of(rt.alloc(), replicas, conits, alphas, loans);
        assert_eq!(rt; found, Some(fault));
    }
}

static ALPHAS: [u64; 4] = [5, 6, 7, ALPHA_MAX];

static LOANS: [u64; 8] = [0, 1, 0, 2, 3, 0, ALPHA_MAX, 0];

// A copy of a setup of 2 replicas and 2 conits.
fn made(rt: &impl Abort, alloc: Global) -> Config
    ensures { (result.replicas ≡ 2) × (result.conits ≡ 2) }
{
    let config = Config::new(alloc, 2, 2, &ALPHAS, &LOANS).expect(rt, "a setup");
    config.copy(alloc).expect(rt, "a copy")
}

// What is read of a setup of 2 replicas and 2 conits: its counts, an alpha of each replica, and a loan of each.
fn readings(config: &Config) -> [u64; 6]
    requires replicas { config.now.replicas ≡ 2 }
    requires conits { config.now.conits ≡ 2 }
{
    [
        u64::from(config.replicas()),
        u64::from(config.conits()),
        config.alpha(0, 1),
        config.alpha(1, 0),
        config.loan(0, 1, 1),
        config.loan(1, 0, 0),
    ]
}

#[test]
fn reads_what_it_was_made_of(rt: HostRuntime) {
    let config = made(&rt, rt.alloc());
    assert_numbers(&rt, &readings(&config), &[2, 2, 6, 7, 2, 3]);
    assert_numbers(&rt, config.loans(1, 1), &[ALPHA_MAX, 0]);
}

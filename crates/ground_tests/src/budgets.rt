//! The budgets of a replica: what is accepted, held, spent, lent and given back.

use crate::opened::Opened;
use split_budget::Fit;
use std::process::Abort;
use tact_base::Weight;

// A weight on conit 0.
fn weight(nweight: i64) -> Weight {
    Weight {
        conit: 0,
        nweight,
        oweight: 0,
    }
}

fn wait_share(peer: u32, missing: u64, reserved: u64, weight: u64, share: u64) -> Fit {
    Fit::WaitShare {
        peer,
        missing,
        reserved,
        weight,
        share,
    }
}

// The answer to a weight on conit 0.
fn assert_fit(rt: &impl Abort, opened: &Opened, nweight: i64, fit: Fit) {
    assert_eq!(rt; opened.test(rt, weight(nweight)), fit, "{nweight}");
}

// The same, of a write that is added where it fits.
fn assert_accepted(rt: &impl Abort, opened: &mut Opened, nweight: i64, fit: Fit) {
    assert_eq!(rt; opened.accept(rt, weight(nweight)), fit, "{nweight}");
}

// What a peer may miss of positive and of negative weights on conit 0.
fn assert_missing(rt: &impl Abort, opened: &Opened, peer: u32, sums: (u64, u64)) {
    assert_eq!(rt; opened.read(rt, peer, 0).missing, sums);
}

// What is held on conit 0.
fn assert_reserved(rt: &impl Abort, opened: &Opened, amount: u64) {
    assert_eq!(rt; opened.read(rt, 1, 0).reserved, amount);
}

#[rattlefmt::skip]
static FITS: [(i64, Fit); 4] = [
    (1, Fit::WaitShare { peer: 1, missing: 5, reserved: 0, weight: 1, share: 5 }),
    (6, Fit::TooHeavy { peer: 1, weight: 6, share: 5 }),
    (0, Fit::Fits),
    (-5, Fit::Fits),
];

#[test]
fn counts_what_a_peer_may_miss(rt: HostRuntime) {
    let mut opened = Opened::of_three(&rt, rt.alloc());
    let shares = (opened.read(&rt, 1, 0).share, opened.read(&rt, 2, 0).share);
    assert_eq!(rt; shares, (5, 5));
    assert_accepted(&rt, &mut opened, 5, Fit::Fits);
    assert_missing(&rt, &opened, 1, (5, 0));
    for &(nweight, fit) in &FITS {
        assert_fit(&rt, &opened, nweight, fit);
    }
}

#[rattlefmt::skip]
static SIGNS: [(i64, Fit); 5] = [
    (5, Fit::Fits),
    (-5, Fit::Fits),
    (0, Fit::Fits),
    (1, Fit::WaitShare { peer: 1, missing: 5, reserved: 0, weight: 1, share: 5 }),
    (-1, Fit::WaitShare { peer: 1, missing: 5, reserved: 0, weight: 1, share: 5 }),
];

#[test]
fn keeps_the_signs_apart(rt: HostRuntime) {
    let mut opened = Opened::of_three(&rt, rt.alloc());
    for &(nweight, fit) in &SIGNS {
        assert_accepted(&rt, &mut opened, nweight, fit);
    }
    let read = opened.read(&rt, 2, 0);
    assert_eq!(rt; (read.missing, read.free), ((5, 5), 0));
}

#[test]
fn takes_the_newest_acknowledgement(rt: HostRuntime) {
    let mut opened = Opened::of_three(&rt, rt.alloc());
    assert_accepted(&rt, &mut opened, 5, Fit::Fits);
    opened.acked(&rt, 1, 1);
    assert_fit(&rt, &opened, 1, wait_share(2, 5, 0, 1, 5));
    opened.acked(&rt, 1, 0);
    assert_missing(&rt, &opened, 1, (0, 0));
    opened.acked(&rt, 2, 1);
    assert_fit(&rt, &opened, 5, Fit::Fits);
}

// What is at home on conit 0, and what replica 1 has of it, and was lent of it.
fn assert_lent(rt: &impl Abort, opened: &Opened, home: u64, out: u64, lent: u64) {
    let read = opened.read(rt, 1, 0);
    assert_eq!(rt; (read.home, read.out, read.lent), (home, out, lent));
}

#[test]
fn lends_what_is_at_home(rt: HostRuntime) {
    let mut opened = Opened::of_two(&rt, rt.alloc(), 4);
    assert_lent(&rt, &opened, 6, 4, 4);
    opened.lend(&rt, 6);
    assert_lent(&rt, &opened, 0, 10, 10);
    opened.note_returned(&rt, 3);
    opened.note_returned(&rt, 2);
    assert_lent(&rt, &opened, 3, 7, 10);
    let other = opened.read(&rt, 1, 1);
    assert_eq!(rt; (other.home, other.out), (6, 1));
}

#[test]
fn gives_back_what_is_free(rt: HostRuntime) {
    let mut opened = Opened::of_two(&rt, rt.alloc(), 4);
    assert_eq!(rt; opened.read(&rt, 1, 0).free, 4);
    opened.give_back(&rt, 3);
    let read = opened.read(&rt, 1, 0);
    assert_eq!(rt; (read.share, read.returned), (1, 3));
    assert_eq!(rt; opened.read(&rt, 1, 1).free, 1);
    for told in [9, 9, 8] {
        opened.note_lent(&rt, told);
    }
    assert_eq!(rt; opened.read(&rt, 1, 0).share, 6);
}

#[test]
fn spends_what_is_held(rt: HostRuntime) {
    let mut opened = Opened::of_two(&rt, rt.alloc(), 10);
    assert_eq!(rt; opened.hold(&rt, 0, 10), Fit::Fits);
    let wait_held = Fit::WaitHeld {
        peer: 1,
        reserved: 10,
        weight: 1,
        share: 10,
    };
    assert_fit(&rt, &opened, 1, wait_held);
    let read = opened.read(&rt, 1, 0);
    assert_eq!(rt; (read.free, read.reserved), (0, 10));
    assert!(rt; opened.spend(&rt, weight(-10)));
    assert_reserved(&rt, &opened, 0);
    assert_fit(&rt, &opened, -1, wait_share(1, 10, 0, 1, 10));
    assert_fit(&rt, &opened, 1, Fit::Fits);
}

#[test]
fn frees_what_is_held(rt: HostRuntime) {
    let mut opened = Opened::of_two(&rt, rt.alloc(), 10);
    assert_eq!(rt; opened.hold(&rt, 0, 7), Fit::Fits);
    assert_reserved(&rt, &opened, 7);
    assert!(rt; opened.free_held(&rt, 0, 3));
    assert_reserved(&rt, &opened, 4);
    assert_eq!(rt; opened.hold(&rt, 0, 6), Fit::Fits);
    assert_eq!(rt; opened.hold(&rt, 1, 1), Fit::Fits);
}

//! All that can be read of a replica of two but for values and budgets.

use crate::member::Member;
use std::process::Abort;
use tact_base::Cover;

/// What can be read of a replica of two: what it has and knows, how it settled it, and its counts and room.
#[derive(Debug, Drop, PartialEq, Eq)]
pub(crate) struct Readings {
    pub haves: [u64; 2],
    pub known: [u64; 4],
    pub covers: [Cover; 2],
    pub clock: u64,
    pub point: u64,
    pub committed: usize,
    pub tentative: usize,
    pub count: u64,
    pub calls: [u64; 8],
    pub last: u64,
    pub spare: u64,
}

// How many calls each client made.
fn calls_of(rt: &impl Abort, member: &Member) -> [u64; 8] {
    let mut calls = [0; 8];
    for client in 0..8 {
        calls[client as usize] = member.calls(rt, client);
    }
    calls
}

fn read_all(rt: &impl Abort, member: &Member) -> Readings {
    let calls = calls_of(rt, member);
    let replica = &member.replica;
    Readings {
        haves: [replica.have(0), replica.have(1)],
        known: [
            replica.known(0, 0),
            replica.known(0, 1),
            replica.known(1, 0),
            replica.known(1, 1),
        ],
        covers: [replica.cover(0), replica.cover(1)],
        clock: replica.clock(),
        point: replica.point(),
        committed: replica.committed().len(),
        tentative: replica.tentative().len(),
        count: replica.count(),
        calls,
        last: replica.last(),
        spare: replica.spare(),
    }
}

/// These are read.
pub(crate) fn assert_readings(rt: &impl Abort, member: &Member, due: &Readings) {
    assert_eq!(rt; &read_all(rt, member), due);
}

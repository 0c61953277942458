//! All that can be read of a member.

use crate::member::Member;
use replica_core::LastOne;
use tact_base::Cover;

/// What it has of each origin, what it knows each peer to have, the covers and its clock. A place past the count of
/// its group is 0.
#[derive(Clone, Copy, Debug, PartialEq, Eq)]
pub(crate) struct Known {
    pub haves: [u64; 3],
    pub known: [[u64; 3]; 3],
    pub covers: [Cover; 3],
    pub clock: u64,
}

/// How far it committed and how many writes that were, which was the last, how many are given up, and how many
/// committed and tentative ones are held.
#[derive(Clone, Copy, Debug, PartialEq, Eq)]
pub(crate) struct Settled {
    pub point: u64,
    pub count: u64,
    pub last: Option<LastOne>,
    pub dropped: u64,
    pub held: usize,
    pub tentative: usize,
}

/// The value of each conit and how much tentative writes weigh on it, and what the keys 1 and 2 hold.
#[derive(Clone, Copy, Debug, PartialEq, Eq)]
pub(crate) struct Values {
    pub conits: [i64; 2],
    pub weights: [u64; 2],
    pub keys: [i64; 2],
}

/// Its counts, its room, and of its budgets on conit 0: what is reserved, what another may miss of positive and of
/// negative weights, what is at home, and what is free of its share of the other's bound. The other is replica 0, or 1.
#[derive(Clone, Copy, Debug, PartialEq, Eq)]
pub(crate) struct Counts {
    pub entries: u64,
    pub calls: u64,
    pub last: u64,
    pub spare: u64,
    pub reserved: u64,
    pub missing: (u64, u64),
    pub home: u64,
    pub free: u64,
}

/// The cover of one that was never heard of, or of none.
pub(crate) const NOTHING: Cover = Cover {
    count: 0,
    stamp: 0,
    moment: 0,
};

impl Member {
    pub(crate) fn known(&self) -> Known {
        let mut haves = [0; 3];
        let mut covers = [NOTHING; 3];
        for origin in 0..self.count {
            haves[origin as usize] = self.replica.have(origin);
            covers[origin as usize] = self.replica.cover(origin);
        }
        Known {
            haves,
            known: [self.known_of(0), self.known_of(1), self.known_of(2)],
            covers,
            clock: self.replica.clock(),
        }
    }

    // What it knows a peer to have.
    fn known_of(&self, peer: u32) -> [u64; 3] {
        let mut known = [0; 3];
        if peer < self.count {
            for origin in 0..self.count {
                known[origin as usize] = self.replica.known(peer, origin);
            }
        }
        known
    }

    pub(crate) fn settled(&self) -> Settled {
        Settled {
            point: self.replica.point(),
            count: self.replica.committed_count(),
            last: self.replica.last_committed(),
            dropped: self.replica.dropped(),
            held: self.replica.committed().len(),
            tentative: self.replica.tentative().len(),
        }
    }

    pub(crate) fn values(&self) -> Values {
        let replica = &self.replica;
        Values {
            conits: [replica.value(0), replica.value(1)],
            weights: [replica.tentative_weight(0), replica.tentative_weight(1)],
            keys: [replica.get(1), replica.get(2)],
        }
    }

    pub(crate) fn counts(&self) -> Counts {
        let budgets = self.replica.budgets();
        let other = if self.number == 0 { 1 } else { 0 };
        Counts {
            entries: self.replica.count(),
            calls: self.replica.calls(0),
            last: self.replica.last(),
            spare: self.replica.spare(),
            reserved: budgets.reserved(0),
            missing: budgets.missing(other, 0),
            home: budgets.home(0),
            free: budgets.free(other, 0),
        }
    }
}

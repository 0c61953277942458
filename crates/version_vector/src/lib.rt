//! What a replica keeps of each origin's state: one cover by origin.
#![tactic(auto)]

ghost use Rattle.std.specs.Prelude.{◌≡◌, ◌<◌, ◌≤◌, IfOk, Some, length, replicate, slice_get, slice_set, slice_index_or};
ghost use Rattle.tact_base.specs.Covers.{no_cover, later_cover, slowest, least_stamp};
ghost use Rattle.tact_base.specs.declared.limits.TheConstants.{REPLICAS_MIN, REPLICAS_MAX};

use std::alloc::Global;
use std::marker::Model;
use tact_base::{Cover, NoMemory, slowest_of};

/// The covers of all origins, by origin. Contracts see the list of them, which has one for each of 2 to 8
/// replicas.
#[derive(Debug, Drop)]
pub struct Vector {
    covers: Vec<Cover>,
}

impl Model for Vector {
    ghost use Rattle.std.specs.Prelude.{◌≤◌, List, length};
    ghost use Rattle.tact_base.specs.declared.write.Cover.{Cover};
    ghost use Rattle.tact_base.specs.declared.limits.TheConstants.{REPLICAS_MIN, REPLICAS_MAX};

    ghost Value = { List Cover };

    ghost view = { λ vector. vector.covers.items };

    ghost invariant = { λ vector.
        (REPLICAS_MIN ≤ length vector.covers.items) × (length vector.covers.items ≤ REPLICAS_MAX) };
}

impl Vector {
    /// The vector of `n` origins, of which nothing is known, in memory of `alloc`.
    pub fn new(alloc: Global, n: u32) -> Result<Vector, NoMemory>
        requires some { REPLICAS_MIN ≤ n }
        requires few { n ≤ REPLICAS_MAX }
        ensures { IfOk result (λ vector. vector ≡ replicate n no_cover) }
    {
        Ok(Vector {
            covers: vec![in alloc; Cover::default(); n as usize]?,
        })
    }

    /// The cover of the origin `i`. Takes no memory.
    pub fn cover(&self, i: u32) -> Cover
        requires { i < length self.now }
        ensures { slice_get self.now i ≡ Some result }
    {
        self.covers[i as usize]
    }

    /// Puts the told cover of the origin `i` in place of the kept one where none of its three numbers is
    /// less; else keeps that. Leaves all other covers. Takes no memory.
    pub fn raise(&mut self, i: u32, told: Cover)
        requires { i < length self.old }
        ensures { self.new ≡ slice_set self.old i (later_cover (slice_index_or self.old i told) told) }
    {
        let kept = &mut self.covers[i as usize];
        *kept = kept.later(told);
    }

    /// The least replica whose cover has the least stamp, and that stamp. Takes no memory.
    pub fn least_stamp(&self) -> (u32, u64)
        ensures { result ≡ (slowest self.now, least_stamp self.now) }
    {
        let slowest = slowest_of(&self.covers);
        (slowest.replica, slowest.stamp)
    }

    /// The least stamp of a cover. Takes no memory.
    pub fn least(&self) -> u64
        ensures { result ≡ least_stamp self.now }
    {
        let mut least = self.covers[0].stamp;
        for cover in &self.covers {
            least = least.min(cover.stamp);
        }
        least
    }

    /// The covers, by origin.
    pub fn covers(&self) -> &[Cover]
        ensures covers { result.now ≡ self.now }
        ensures some { REPLICAS_MIN ≤ length self.now }
        ensures few { length self.now ≤ REPLICAS_MAX }
    {
        &self.covers
    }
}

#[cfg(test)]
mod tests {
    use super::*;
    use std::test::Fail;

    fn cover(count: u64, stamp: u64, moment: u64) -> Cover {
        Cover {
            count,
            stamp,
            moment,
        }
    }

    #[test]
    fn keeps_the_later_cover(rt: HostRuntime) -> Result<(), Fail> {
        let kept = cover(2, 5, 7);
        for (told, after) in [
            (kept, kept),
            (cover(3, 6, 8), cover(3, 6, 8)),
            (cover(2, 6, 7), cover(2, 6, 7)),
            (cover(1, 6, 8), kept),
            (cover(3, 4, 8), kept),
            (cover(3, 6, 6), kept),
            (cover(0, 0, 0), kept),
        ] {
            let mut vector = Vector::new(rt.alloc(), 3)?;
            assert_eq!(rt; vector.covers().len(), 3);
            vector.raise(1, kept);
            vector.raise(1, told);
            assert_eq!(rt; vector.cover(1), after, "after {told:?}");
            assert_eq!(rt; vector.cover(0), cover(0, 0, 0));
        }
        Ok(())
    }

    #[test]
    fn names_the_least_of_the_slowest(rt: HostRuntime) -> Result<(), Fail> {
        for (a, b, c, least) in [
            (0, 0, 0, (0, 0)),
            (9, 4, 4, (1, 4)),
            (9, 5, 4, (2, 4)),
            (1, 2, 3, (0, 1)),
        ] {
            let mut vector = Vector::new(rt.alloc(), 3)?;
            assert_eq!(rt; vector.covers().len(), 3);
            vector.raise(0, cover(1, a, 1));
            vector.raise(1, cover(1, b, 1));
            vector.raise(2, cover(1, c, 1));
            assert!(rt; vector.least_stamp() == least, "of {a}, {b}, {c}");
            assert_eq!(rt; vector.least(), least.1);
        }
        Ok(())
    }
}

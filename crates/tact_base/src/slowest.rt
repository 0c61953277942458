ghost use Rattle.std.specs.Prelude.{◌≡◌, ◌<◌, ◌≤◌, length};
ghost use Rattle.tact_base.specs.Covers.{slowest, least_stamp};
ghost use Rattle.tact_base.specs.declared.limits.TheConstants.{REPLICAS_MAX};

use crate::Cover;

/// The least replica whose cover has the least stamp, and that stamp.
#[derive(Clone, Copy, Debug, PartialEq, Eq)]
pub struct Slowest {
    /// The replica.
    pub replica: u32,
    /// The stamp of its cover.
    pub stamp: u64,
}

/// The slowest of 1 to 8 replicas, whose covers these are, by replica. Takes no memory.
pub fn slowest_of(covers: &[Cover]) -> Slowest
    requires some { 0 < length covers.now }
    requires few { length covers.now ≤ REPLICAS_MAX }
    ensures replica { result.replica ≡ slowest covers.now }
    ensures stamp { result.stamp ≡ least_stamp covers.now }
    ensures within { result.replica < length covers.now }
{
    let mut slowest = 0;
    for replica in 1..covers.len() {
        if covers[replica].stamp < covers[slowest].stamp {
            slowest = replica;
        }
    }
    Slowest {
        replica: slowest as u32,
        stamp: covers[slowest].stamp,
    }
}

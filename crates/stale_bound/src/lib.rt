//! The staleness of a replica: which peer it has not heard of since a moment.
#![tactic(auto)]

ghost use Rattle.std.specs.Prelude.{◌≡◌, ◌≤◌, length};
ghost use Rattle.tact_base.specs.Covers.{first_late};
ghost use Rattle.tact_base.specs.declared.limits.TheConstants.{REPLICAS_MAX};

use tact_base::{Cover, Late};

/// The least replica other than `replica` whose cover has a moment below `wanted`, with that moment, of at
/// most 8 covers by replica. `None` exactly where there is none. Takes no memory.
pub fn first_late(covers: &[Cover], replica: u32, wanted: u64) -> Option<Late>
    requires { length covers.now ≤ REPLICAS_MAX }
    ensures { result ≡ first_late covers.now replica wanted }
{
    covers
        .iter()
        .enumerate()
        .find(|(peer, cover)| *peer != replica as usize && cover.moment < wanted)
        .map(|(peer, cover)| Late {
            replica: peer as u32,
            moment: cover.moment,
        })
}

#[cfg(test)]
mod tests {
    use super::*;

    #[test]
    fn names_the_first_late_peer(rt: HostRuntime) {
        let covers = [5, 100, 7, 6].map(|moment| Cover {
            count: 0,
            stamp: 1,
            moment,
        });
        for (replica, wanted, late) in [
            (0, 6, None),
            (0, 7, Some((3, 6))),
            (0, 8, Some((2, 7))),
            (0, 101, Some((1, 100))),
            (1, 5, None),
            (1, 6, Some((0, 5))),
            (2, 7, Some((0, 5))),
        ] {
            let late = late.map(|(replica, moment)| Late { replica, moment });
            assert_eq!(rt;
                first_late(&covers, replica, wanted),
                late,
                "{replica}, {wanted}"
            );
        }
        assert_eq!(rt; first_late(&[], 0, 1), None);
    }
}

//! How many writes of each origin a replica has.
ghost use Rattle.std.specs.Prelude.{◌≡◌, ◌≤◌};
ghost use Rattle.tact_base.specs.declared.limits.TheConstants.{REPLICAS_MAX};
ghost use Rattle.session_guard.specs.Visits.{haves_at};

use replica_core::Replica;
use tact_base::{REPLICAS_MAX, Row};

/// How many writes of each origin a replica of so many has. Takes no memory.
pub(crate) fn haves_of(replica: &Replica, n: u32) -> Row
    requires all { n ≡ replica.now.core.setup.replicas }
    requires few { n ≤ REPLICAS_MAX }
    ensures { result ≡ haves_at replica.now.core }
{
    let mut haves = [0; REPLICAS_MAX as usize];
    for origin in 0..n {
        haves[origin as usize] = replica.have(origin);
    }
    Row::new(&haves[..n as usize])
}

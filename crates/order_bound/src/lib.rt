//! The order error of a replica: how much its tentative writes weigh on a conit, and which replica keeps
//! them from being committed.
#![tactic(auto)]

#[cfg(test)]
mod tests;
mod totals;

ghost use Rattle.std.specs.Prelude.{◌≡◌, ◌<◌, ◌≤◌, ◌*◌, length};
ghost use Rattle.tact_base.specs.Covers.{slowest};
ghost use Rattle.tact_base.specs.Sums.{order_sum};
ghost use Rattle.tact_base.specs.declared.limits.TheConstants.{REPLICAS_MAX, SUMMED_WRITES, WEIGHT_MAX};

use tact_base::{Cover, Write, slowest_of, sum_on};
pub use totals::Totals;

/// The sum of the oweights on the conit, of at most 200,000 tentative writes. Takes no memory.
pub fn tentative(writes: &[Write], conit: u32) -> u64
    requires { length writes.now ≤ SUMMED_WRITES }
    ensures sum { result ≡ order_sum writes.now conit }
    ensures bound { result ≤ length writes.now * WEIGHT_MAX }
{
    sum_on(writes, conit, |weight| weight.oweight)
}

/// The least replica whose cover has the least stamp, of 1 to 8 covers by replica. Takes no memory.
pub fn slowest(covers: &[Cover]) -> u32
    requires some { 0 < length covers.now }
    requires few { length covers.now ≤ REPLICAS_MAX }
    ensures { result ≡ slowest covers.now }
{
    slowest_of(covers).replica
}

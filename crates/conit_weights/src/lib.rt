//! The sums of the weights that writes have on a conit.
#![tactic(auto)]

mod running;
#[cfg(test)]
mod tests;

ghost use Rattle.std.specs.Prelude.{◌≡◌, ◌≤◌, ◌*◌, length};
ghost use Rattle.tact_base.specs.Sums.{plus_sum, minus_sum, net_sum, order_sum};
ghost use Rattle.tact_base.specs.declared.limits.TheConstants.{SUMMED_WRITES, WEIGHT_MAX};

pub use running::Running;
use tact_base::{Weight, Write, sum_on};

/// The sum of the positive nweights on the conit, of at most 200,000 writes. Takes no memory.
pub fn plus(writes: &[Write], conit: u32) -> u64
    requires { length writes.now ≤ SUMMED_WRITES }
    ensures sum { result ≡ plus_sum writes.now conit }
    ensures bound { result ≤ length writes.now * WEIGHT_MAX }
{
    sum_on(writes, conit, |weight| weight.nweight.max(0).unsigned_abs())
}

/// The sum of the sizes of the negative nweights on the conit, of at most 200,000 writes. Takes no memory.
pub fn minus(writes: &[Write], conit: u32) -> u64
    requires { length writes.now ≤ SUMMED_WRITES }
    ensures sum { result ≡ minus_sum writes.now conit }
    ensures bound { result ≤ length writes.now * WEIGHT_MAX }
{
    sum_on(writes, conit, |weight| weight.nweight.min(0).unsigned_abs())
}

/// The sum of the nweights on the conit, of at most 200,000 writes: by how much they change its value.
/// Takes no memory.
pub fn net(writes: &[Write], conit: u32) -> i64
    requires { length writes.now ≤ SUMMED_WRITES }
    ensures { result ≡ net_sum writes.now conit }
{
    plus(writes, conit) as i64 - minus(writes, conit) as i64
}

/// The sum of the oweights on the conit, of at most 200,000 writes. Takes no memory.
pub fn order(writes: &[Write], conit: u32) -> u64
    requires { length writes.now ≤ SUMMED_WRITES }
    ensures sum { result ≡ order_sum writes.now conit }
    ensures bound { result ≤ length writes.now * WEIGHT_MAX }
{
    sum_on(writes, conit, |weight| weight.oweight)
}

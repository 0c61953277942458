//! Writes that a replica gets of an origin: they go to the end of its log, and to their places in the order.
ghost use Rattle.std.specs.Prelude.{◌≡◌, ◌≢◌, ◌+◌, ◌-◌, ℕ, ◌<◌, ◌≤◌, ◌++◌, All, IsTrue, length, slice_set};
ghost use Rattle.std.specs.List.Sorted.{IsStrictlySortedBy};
ghost use Rattle.tact_base.specs.WriteOrder.{write_cmp};
ghost use Rattle.tact_base.specs.declared.limits.TheConstants.{SUMMED_WRITES};
ghost use Rattle.commit_order.specs.Batches.{with_writes};
ghost use Rattle.write_log.specs.Logs.{log_of, room_of};
ghost use Rattle.replica_core.specs.States.{AreNext};

use crate::seen::Seen;
use crate::told_logs::ToldLogs;
use tact_base::Write;

/// Puts the next writes of an origin, whose stamps rise, into its log, and into their places among what is seen.
/// It costs what comes after the first of them. Takes no memory.
pub(crate) fn admit(logs: &mut ToldLogs, seen: &mut Seen, origin: u32, writes: &[Write])
    requires origin { origin < length logs.old.logs }
    requires next { AreNext seen.old.conits origin (length (log_of logs.old origin)) writes.now }
    requires rising { IsStrictlySortedBy write_cmp writes.now }
    requires past { All (λ write. seen.old.point < write.stamp) writes.now }
    requires room { length writes.now ≤ room_of logs.old origin }
    requires seen_room { length writes.now ≤ seen.old.room }
    requires few { length seen.old.writes + length writes.now ≤ SUMMED_WRITES }
    requires placed { All (λ held. held.index < length (log_of logs.old held.origin)) seen.old.writes }
    ensures logs { logs.new.logs ≡ slice_set logs.old.logs origin (log_of logs.old origin ++ writes.now) }
    ensures bases { logs.new.bases ≡ logs.old.bases }
    ensures seen { seen.new ≡ record seen.old {
      writes = with_writes writes.now seen.old.writes;
      room = seen.old.room - length writes.now;
    } }
    ensures room { room_of logs.old origin ≤ room_of logs.new origin + length writes.now }
    ensures others { (j : ℕ) → j ≢ origin → room_of logs.new j ≡ room_of logs.old j }
{
    let have = logs.count(origin);
    seen.insert_all(writes);
    logs.extend(origin, have, writes);
}

/// Whether there are writes, of which each comes before the next.
pub(crate) fn are_in_order(writes: &[Write]) -> bool
    ensures { IsTrue result → IsStrictlySortedBy write_cmp writes.now }
{
    if writes.is_empty() {
        return false;
    }
    for place in 1..writes.len() {
        if !writes[place - 1].comes_before(&writes[place]) {
            return false;
        }
    }
    true
}

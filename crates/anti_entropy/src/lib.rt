//! Anti-entropy: what a replica sends so that a peer catches up, when a message is due, and whom a reply
//! waits for.
#![tactic(auto)]

ghost use Rattle.std.specs.Prelude.{◌≡◌, ◌≢◌, ◌<◌, ◌≤◌, ◌↔◌, ◌⊎◌, ℕ, List, [], IsTrue, IfOk, SomeIndex, length, map, slice_index};
ghost use Rattle.tact_base.specs.Counts.{first_index};
ghost use Rattle.tact_base.specs.Setup.{Setup, replicas_of};
ghost use Rattle.tact_base.specs.declared.limits.TheConstants.{REPLICAS_MAX};
ghost use Rattle.run_model.specs.Messages.{first_for};
ghost use Rattle.run_model.specs.ScriptRuns.{zeros};
ghost use Rattle.run_model.specs.declared.entry.Entry.{Entry};
ghost use Rattle.anti_entropy.specs.Counts.{AreCountsOf, IsBehind, firsts_of};
ghost use Rattle.anti_entropy.specs.Wishes.{wish_of};

use run_model::{Message, Reply};
use std::alloc::Global;
use tact_base::{NoMemory, Numbers, first_index};

/// By origin, the index from which its writes are sent to the replica `to`, in memory of `alloc`: of another
/// origin past those that `to` is known to have, and of `to` itself past all. `haves` and `known` have a
/// number for each origin: how many of its writes are at hand, and how many `to` is known to have.
/// `NoMemory` is the only error.
pub fn firsts(alloc: Global, haves: &Numbers, known: &Numbers, to: u32) -> Result<Numbers, NoMemory>
    requires few { length haves.now ≤ REPLICAS_MAX }
    requires both { length known.now ≡ length haves.now }
    ensures firsts { IfOk result (λ firsts. firsts ≡ firsts_of haves.now known.now to) }
    ensures of_message { IfOk result (λ firsts. (setup : Setup) (replica : ℕ) (part : List Entry)
        → AreCountsOf setup replica part to haves.now known.now
        → firsts ≡ map (first_for replica part to (zeros setup)) (replicas_of setup)) }
{
    let known = known.items();
    let mut firsts = Numbers::new(alloc);
    for (origin, &have) in haves.items().iter().enumerate() {
        firsts.push(first_index(to, origin as u32, have, known[origin], 0))?;
    }
    Ok(firsts)
}

/// Whether a message is to be answered by one to its sender: it has writes, or of some origin more are at
/// hand than it tells of. `haves` has a number for each origin, as the message has: how many of its writes
/// are at hand. Takes no memory.
pub fn answer_due(message: &Message, haves: &Numbers) -> bool
    requires { length haves.now ≡ length message.now.haves }
    ensures { IsTrue result ↔ ((message.now.writes ≢ [])
        ⊎ SomeIndex haves.now (λ origin. slice_index message.now.haves origin < slice_index haves.now origin)) }
{
    if !message.writes.is_empty() {
        return true;
    }
    for (have, told) in haves.items().iter().zip(message.haves.items()) {
        if told < have {
            return true;
        }
    }
    false
}

/// Whether a message to the replica `to` is due: of some origin other than `to` more writes are at hand than
/// `to` is known to have. `haves` and `known` are as for `firsts`. Takes no memory.
pub fn due(haves: &Numbers, known: &Numbers, to: u32) -> bool
    requires { length known.now ≡ length haves.now }
    ensures due { IsTrue result ↔ SomeIndex haves.now (λ origin.
        (origin ≢ to) × (slice_index known.now origin < slice_index haves.now origin)) }
    ensures behind { (setup : Setup) (replica : ℕ) (part : List Entry)
        → AreCountsOf setup replica part to haves.now known.now
        → (IsTrue result ↔ IsBehind setup replica part to) }
{
    let known = known.items();
    for (origin, &have) in haves.items().iter().enumerate() {
        if origin != to as usize && known[origin] < have {
            return true;
        }
    }
    false
}

/// The replica that a reply waits for: a message from it or to it may have the same request answered
/// otherwise. `None` for all other replies, also for those that wait for this replica alone. Takes no memory.
pub fn wish(reply: &Reply) -> Option<u32>
    ensures { result ≡ wish_of reply.now }
{
    match reply {
        Reply::WaitShare { peer, .. } => Some(*peer),
        Reply::WaitLent { holder, .. } => Some(*holder),
        Reply::WaitOrder { replica, .. } | Reply::WaitStale { replica, .. } => Some(*replica),
        _ => None,
    }
}

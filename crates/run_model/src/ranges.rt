ghost use Rattle.std.specs.Prelude.{◌≡◌, ◌≢◌, ◌≤◌, ◌<◌, ◌↔◌, ℕ, All, IsTrue, length};
ghost use Rattle.std.specs.List.{flat_map};
ghost use Rattle.tact_base.specs.declared.limits.TheConstants.{HISTORY_MAX, LENT_MAX, MESSAGE_WRITES};
ghost use Rattle.tact_base.specs.Setup.{replicas_of};
ghost use Rattle.run_model.specs.Taking.{told_writes};
ghost use Rattle.run_model.specs.Ranges.{IsOpInRange, AreWeightsInRange, IsWriteInRange, IsToldInRange, IsMessageInRange};

mod told;

use crate::{Config, Message};
use tact_base::{
    HISTORY_MAX, KEY_MAX, LENT_MAX, MESSAGE_WRITES, MOMENT_MAX, Op, STAMP_MAX, VALUE_MAX, Weights,
    Write,
};

/// Whether a message is in range of a setup. It goes from one replica of the setup to another, and its
/// number is below the greatest count of entries. Its lists have an item for each replica, or for each
/// conit, and what is lent and returned is at most what can ever be lent. Of each origin the sender has at
/// most as many writes as a replica has entries, the cover vouches for none past these, and the told writes
/// are among these, with the indices from the first one on; of the receiver none is told. There are at most
/// 64 writes, they stand by origin, and stamps, moments, conits, keys and values are within their limits.
/// Takes no memory. The time grows with the size of the message times the count of replicas.
pub fn is_message_in_range(config: &Config, message: &Message) -> bool
    ensures { IsTrue result ↔ IsMessageInRange config.now message.now }
{
    are_ends_in_range(config, message)
        && are_lists_whole(config, message)
        && are_at_most_lent(message.lent.items())
        && are_at_most_lent(message.returned.items())
        && are_told_writes_in_range(config, message)
        && told::is_all_told_in_range(config, message)
}

// Whether the sender and the receiver are two of the replicas, and the number is one of a message.
fn are_ends_in_range(config: &Config, message: &Message) -> bool
    ensures { IsTrue result
        ↔ (message.now.from < config.now.replicas) × (message.now.to < config.now.replicas)
        × (message.now.from ≢ message.now.to) × (message.now.number < HISTORY_MAX) }
{
    let replicas = config.replicas();
    message.from < replicas
        && message.to < replicas
        && message.from != message.to
        && message.number < HISTORY_MAX
}

// Whether each list has an item for each replica, or for each conit.
fn are_lists_whole(config: &Config, message: &Message) -> bool
    ensures { IsTrue result
        ↔ (length message.now.haves ≡ config.now.replicas)
        × (length message.now.covers ≡ config.now.replicas)
        × (length message.now.firsts ≡ config.now.replicas)
        × (length message.now.lent ≡ config.now.conits)
        × (length message.now.returned ≡ config.now.conits) }
{
    let replicas = config.replicas() as usize;
    let conits = config.conits() as usize;
    message.haves.len() == replicas
        && message.covers.len() == replicas
        && message.firsts.len() == replicas
        && message.lent.len() == conits
        && message.returned.len() == conits
}

// Whether each number can be all that one replica ever lent to another.
fn are_at_most_lent(numbers: &[u64]) -> bool
    ensures { IsTrue result ↔ All (λ number. number ≤ LENT_MAX) numbers.now }
{
    numbers.iter().all(|number| *number <= LENT_MAX)
}

// Whether the writes are few, stand by origin, and are each in range.
fn are_told_writes_in_range(config: &Config, message: &Message) -> bool
    ensures { IsTrue result
        ↔ (length message.now.writes ≤ MESSAGE_WRITES)
        × (message.now.writes ≡ flat_map (told_writes message.now) (replicas_of config.now))
        × All (IsWriteInRange config.now) message.now.writes }
{
    let writes = message.writes.items();
    writes.len() <= MESSAGE_WRITES
        && told::stand_by_origin(writes, config.replicas())
        && are_writes_in_range(config, writes)
}

fn are_writes_in_range(config: &Config, writes: &[Write]) -> bool
    ensures { IsTrue result ↔ All (IsWriteInRange config.now) writes.now }
{
    writes.iter().all(|write| is_write_in_range(config, write))
}

fn is_write_in_range(config: &Config, write: &Write) -> bool
    ensures { IsTrue result ↔ IsWriteInRange config.now write.now }
{
    1 <= write.stamp
        && write.stamp <= STAMP_MAX
        && write.moment <= MOMENT_MAX
        && are_weights_in_range(config, &write.weights)
        && is_op_in_range(&write.op)
}

// The list's type keeps all but that the conits are those of the setup.
fn are_weights_in_range(config: &Config, weights: &Weights) -> bool
    ensures { IsTrue result ↔ AreWeightsInRange config.now weights.now }
{
    let conits = config.conits();
    weights.items().iter().all(|weight| weight.conit < conits)
}

fn is_op_in_range(op: &Op) -> bool
    ensures { IsTrue result ↔ IsOpInRange op.now }
{
    match op {
        Op::Put { key, value } => *key <= KEY_MAX && value.unsigned_abs() <= VALUE_MAX,
        Op::Add { key, delta } => *key <= KEY_MAX && delta.unsigned_abs() <= VALUE_MAX,
        Op::Shift { from, to, amount } => {
            *from <= KEY_MAX && *to <= KEY_MAX && *amount <= VALUE_MAX
        }
    }
}

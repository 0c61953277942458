ghost use Rattle.std.specs.Prelude.{◌≡◌, ◌≤◌, ◌<◌, ◌-◌, ◌==◌, ◌↔◌, ℕ, [], IsTrue, filter, map, length};
ghost use Rattle.std.specs.List.{flat_map, range_with_len};
ghost use Rattle.tact_base.specs.declared.limits.TheConstants.{MOMENT_MAX, STAMP_MAX};
ghost use Rattle.run_model.specs.Taking.{told_writes};
ghost use Rattle.run_model.specs.Ranges.{IsToldInRange};

use crate::{Config, Message};
use tact_base::{Cover, HISTORY_MAX, MOMENT_MAX, STAMP_MAX, Write};

/// Whether the writes stand by origin, and each origin is below the count of replicas.
pub(crate) fn stand_by_origin(writes: &[Write], replicas: u32) -> bool
    ensures { IsTrue result
        ↔ (writes.now
        ≡ flat_map (λ origin. filter (λ write. write.origin == origin) writes.now)
        (range_with_len 0 replicas)) }
{
    let mut least = 0;
    for write in writes {
        if write.origin < least || write.origin >= replicas {
            return false;
        }
        least = write.origin;
    }
    true
}

/// Whether what is told of each origin is in range.
pub(crate) fn is_all_told_in_range(config: &Config, message: &Message) -> bool
    requires haves { config.now.replicas ≤ length message.now.haves }
    requires covers { config.now.replicas ≤ length message.now.covers }
    requires firsts { config.now.replicas ≤ length message.now.firsts }
    ensures { IsTrue result
        ↔ ((origin : ℕ) → origin < config.now.replicas → IsToldInRange message.now origin) }
{
    for origin in 0..config.replicas() {
        if !is_told_in_range(message, origin) {
            return false;
        }
    }
    true
}

fn is_told_in_range(message: &Message, origin: u32) -> bool
    requires haves { origin < length message.now.haves }
    requires covers { origin < length message.now.covers }
    requires firsts { origin < length message.now.firsts }
    ensures { IsTrue result ↔ IsToldInRange message.now origin }
{
    let have = message.haves.items()[origin as usize];
    let cover = message.covers.items()[origin as usize];
    let first = message.firsts.items()[origin as usize];
    have <= HISTORY_MAX
        && is_cover_in_range(&cover, have)
        && first <= have
        && are_told_writes_due(message, origin, first, have - first)
}

// Whether the told writes of the origin are at most so many, none where it is the receiver, and have the
// indices from `first` on.
fn are_told_writes_due(message: &Message, origin: u32, first: u64, most: u64) -> bool
    ensures { let told = told_writes message.now origin in
        IsTrue result
        ↔ (length told ≤ most) × (origin ≡ message.now.to → told ≡ [])
        × (map (λ write. write.index) told ≡ range_with_len first (length told)) }
{
    count_of(message.writes.items(), origin) <= most
        && is_told_to_others(message, origin)
        && have_indices_from(message.writes.items(), origin, first)
}

// Whether none of the origin's writes is told where it is the receiver.
fn is_told_to_others(message: &Message, origin: u32) -> bool
    ensures { IsTrue result ↔ (origin ≡ message.now.to → told_writes message.now origin ≡ []) }
{
    origin != message.to || count_of(message.writes.items(), origin) == 0
}

// Whether a cover vouches for no more writes than `have`, and its numbers are within their limits.
fn is_cover_in_range(cover: &Cover, have: u64) -> bool
    ensures { IsTrue result
        ↔ (cover.now.count ≤ have) × (cover.now.stamp ≤ STAMP_MAX) × (cover.now.moment ≤ MOMENT_MAX) }
{
    cover.count <= have && cover.stamp <= STAMP_MAX && cover.moment <= MOMENT_MAX
}

// How many of the writes are of the origin.
fn count_of(writes: &[Write], origin: u32) -> u64
    ensures { result ≡ length (filter (λ write. write.origin == origin) writes.now) }
{
    writes.iter().filter(|write| write.origin == origin).count() as u64
}

// Whether the writes of the origin have the indices from `first` on.
fn have_indices_from(writes: &[Write], origin: u32, first: u64) -> bool
    ensures { IsTrue result
        ↔ (map (λ write. write.index) (filter (λ write. write.origin == origin) writes.now)
        ≡ range_with_len first (length (filter (λ write. write.origin == origin) writes.now))) }
{
    let mut told = 0;
    for write in writes {
        if write.origin == origin {
            if write.index < first || write.index - first != told {
                return false;
            }
            told += 1;
        }
    }
    true
}

//! What a peer adds from a notice.
ghost use Rattle.std.specs.Prelude.{◌≡◌, ◌==◌, ◌&&◌, ℕ, ◌+◌, ◌-◌, ◌^◌, ◌<◌, ◌≤◌, List, [], ◌∷◌, ◌++◌, drop, filter, flat_map, get_or, if◌then◌else◌, length, map, nat_le};
ghost use Rattle.std.specs.List.{range_with_len};
ghost use Rattle.primary_commit.specs.Kept.{gained, log_after, order_after};
ghost use Rattle.primary_commit.specs.Peers.{AreNext, pick_of, primary};

use crate::logs::Logs;
use crate::peer::PRIMARY;
use crate::{Item, Notice, Pick};
use tact_base::RoomyList;

/// Puts each item at the end of the log of its origin, unless its index isn't the next one there. Takes no memory.
pub(crate) fn add_items(logs: &mut Logs, items: &[Item])
    requires { length items.now ≤ logs.old.room }
    ensures sized { length logs.new.logs ≡ length logs.old.logs }
    ensures logs { (firsts : List ℕ) → AreNext firsts items.now → (origin : ℕ) → origin < length logs.old.logs
        → get_or logs.new.logs origin []
        ≡ log_after (get_or logs.old.logs origin []) (get_or firsts origin 0) (filter (λ item. item.origin == origin) items.now) }
{
    for item in items {
        add(logs, *item);
    }
}

// Puts an item at the end of the log of its origin, if it is the next one there.
fn add(logs: &mut Logs, item: Item)
    requires { 0 < logs.old.room }
    ensures sized { length logs.new.logs ≡ length logs.old.logs }
    ensures logs { (origin : ℕ) → origin < length logs.old.logs → let log = get_or logs.old.logs origin [] in
        get_or logs.new.logs origin [] ≡ (if item.origin == origin && item.index == length log then log ++ item ∷ [] else log) }
    ensures room { logs.old.room ≤ logs.new.room + 1 }
{
    if (item.origin as usize) < logs.count() && item.index == logs.log(item.origin).len() as u64 {
        logs.push(item.origin, item);
    }
}

/// What becomes of the order at a replica where the logs went on from so many items: at the primary it gets the picks of
/// all new ones, origin by origin; elsewhere it goes on as the notice tells. Takes no memory.
pub(crate) fn learn(
    told: &mut RoomyList<Pick>,
    logs: &Logs,
    haves: &[u64],
    replica: u32,
    notice: &Notice,
)
    requires sized { length haves.now ≡ length logs.now.logs }
    requires few { length logs.now.logs < 2 ^ 32 }
    requires within { (origin : ℕ) → origin < length logs.now.logs → get_or haves.now origin 0 ≤ length (get_or logs.now.logs origin []) }
    requires room { length (gained haves.now logs.now.logs) ≤ told.old.room }
    requires room_for_picks { length notice.now.picks ≤ told.old.room }
    ensures { told.new.items ≡ (if replica == primary
        then told.old.items ++ map pick_of (gained haves.now logs.now.logs)
        else order_after told.old.items notice.now.place notice.now.picks) }
{
    if replica == PRIMARY {
        number(told, logs, haves);
    } else {
        go_on(told, notice.place, notice.picks.items());
    }
}

// Puts behind the order the picks of what the logs have past so many items, origin by origin.
fn number(told: &mut RoomyList<Pick>, logs: &Logs, haves: &[u64])
    requires sized { length haves.now ≡ length logs.now.logs }
    requires few { length logs.now.logs < 2 ^ 32 }
    requires within { (origin : ℕ) → origin < length logs.now.logs → get_or haves.now origin 0 ≤ length (get_or logs.now.logs origin []) }
    requires room { length (gained haves.now logs.now.logs) ≤ told.old.room }
    ensures { told.new.items ≡ told.old.items ++ map pick_of (gained haves.now logs.now.logs) }
{
    for origin in 0..logs.count() as u32 {
        let new = past(logs.log(origin), haves[origin as usize]);
        push_picks(told, new);
    }
}

// The items past so many.
fn past(items: &[Item], have: u64) -> &[Item]
    requires { have ≤ length items.now }
    ensures { result.now ≡ drop have items.now }
{
    &items[have as usize..]
}

// Puts the picks of items behind the order.
fn push_picks(told: &mut RoomyList<Pick>, items: &[Item])
    requires { length items.now ≤ told.old.room }
    ensures told { told.new.items ≡ told.old.items ++ map pick_of items.now }
    ensures room { told.old.room ≤ told.new.room + length items.now }
{
    for item in items {
        told.push(Pick {
            origin: item.origin,
            index: item.index,
        });
    }
}

// Puts behind the order those of the picks, told from `place` on, that it lacks, unless they begin past its end.
fn go_on(told: &mut RoomyList<Pick>, place: u64, picks: &[Pick])
    requires { length picks.now ≤ told.old.room }
    ensures { told.new.items ≡ order_after told.old.items place picks.now }
{
    let have = told.items().len() as u64;
    if place <= have {
        let known = ((have - place) as usize).min(picks.len());
        told.append(&picks[known..]);
    }
}

//! What a peer tells another.
ghost use Rattle.std.specs.Prelude.{◌≡◌, ◌^◌, ◌<◌, ◌≤◌, [], IfOk, drop, flat_map, get_or, length, map, min, take};
ghost use Rattle.std.specs.List.{range_with_len};

use crate::logs::Logs;
use crate::{ItemList, Pick, PickList};
use std::alloc::Global;
use tact_base::{NoMemory, Numbers};

/// The greatest count of items in one notice.
pub(crate) const ITEMS_MAX: usize = 64;

/// The greatest count of picks in one notice.
pub(crate) const PICKS_MAX: usize = 256;

/// By origin where the told items begin: at the given first, or at the end of the log where that is less.
pub(crate) fn firsts_told(alloc: Global, logs: &Logs, given: &[u64]) -> Result<Numbers, NoMemory>
    requires sized { length given.now ≡ length logs.now.logs }
    requires few { length logs.now.logs < 2 ^ 32 }
    ensures { IfOk result (λ firsts. firsts ≡ map (λ origin. min (length (get_or logs.now.logs origin [])) (get_or given.now origin 0))
        (range_with_len 0 (length logs.now.logs))) }
{
    let mut firsts = Numbers::with_capacity(alloc, logs.count())?;
    for origin in 0..logs.count() as u32 {
        let have = logs.log(origin).len() as u64;
        firsts.push(have.min(given[origin as usize]))?;
    }
    Ok(firsts)
}

/// The items from these firsts on, origin by origin, as many as there is room for.
pub(crate) fn items_told(alloc: Global, logs: &Logs, firsts: &[u64]) -> Result<ItemList, NoMemory>
    requires sized { length firsts.now ≡ length logs.now.logs }
    requires few { length logs.now.logs < 2 ^ 32 }
    ensures { IfOk result (λ items. items ≡ take 64 (flat_map (λ origin. drop (get_or firsts.now origin 0) (get_or logs.now.logs origin []))
        (range_with_len 0 (length logs.now.logs)))) }
{
    let mut items = ItemList::new(alloc);
    for origin in 0..logs.count() as u32 {
        let room = ITEMS_MAX - items.len();
        items.append(from_first(logs.log(origin), firsts[origin as usize], room))?;
    }
    Ok(items)
}

// At most so many from the first on.
fn from_first<T>(items: &[T], first: u64, most: usize) -> &[T]
    ensures { result.now ≡ take most (drop first items.now) }
{
    let rest = &items[(first as usize).min(items.len())..];
    &rest[..most.min(rest.len())]
}

/// The picks from a place of the order on, as many as there is room for.
pub(crate) fn picks_told(alloc: Global, told: &[Pick], place: u64) -> Result<PickList, NoMemory>
    ensures { IfOk result (λ picks. picks ≡ take 256 (drop place told.now)) }
{
    PickList::from_slice(alloc, from_first(told, place, PICKS_MAX))
}

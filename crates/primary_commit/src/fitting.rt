//! Whether items of a notice are in order.
ghost use Rattle.std.specs.Prelude.{◌≡◌, ◌↔◌, ◌==◌, ◌+◌, IsTrue, filter, get_or, length};
ghost use Rattle.primary_commit.specs.Peers.{AreNext};

use crate::Item;

/// Whether the items of each origin are those from its first on, in order. Takes no memory.
pub(crate) fn are_next(firsts: &[u64], items: &[Item]) -> bool
    ensures { IsTrue result ↔ AreNext firsts.now items.now }
{
    for (place, item) in items.iter().enumerate() {
        if !is_next(firsts, &items[..place], *item) {
            return false;
        }
    }
    true
}

// Whether an item is the next of its origin behind others.
fn is_next(firsts: &[u64], before: &[Item], item: Item) -> bool
    ensures { result ≡ (item.index == get_or firsts.now item.origin 0 + length (filter (λ other. other.origin == item.origin) before.now)) }
{
    let first = first_of(firsts, item.origin);
    item.index >= first && item.index - first == count_of(before, item.origin)
}

// The first of an origin, 0 where none is told.
fn first_of(firsts: &[u64], origin: u32) -> u64
    ensures { result ≡ get_or firsts.now origin 0 }
{
    match firsts.get(origin as usize) {
        Some(first) => *first,
        None => 0,
    }
}

// How many items are of an origin.
fn count_of(items: &[Item], origin: u32) -> u64
    ensures { result ≡ length (filter (λ item. item.origin == origin) items.now) }
{
    let mut count = 0;
    for item in items {
        if item.origin == origin {
            count += 1;
        }
    }
    count
}

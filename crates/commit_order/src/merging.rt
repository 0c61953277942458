//! Writes in order that are merged into others in order.
ghost use Rattle.std.specs.Prelude.{◌≡◌, ◌+◌, ◌<◌, ◌≤◌, ◌++◌, All, true, false, length, take, drop};
ghost use Rattle.std.specs.List.Sorted.{IsStrictlySortedBy};
ghost use Rattle.tact_base.specs.WriteOrder.{comes_before, write_cmp};
ghost use Rattle.commit_order.specs.Batches.{with_writes};

use tact_base::Write;

/// Merges writes, which are in order, into the first `held` items, which are in order and have a place behind them for
/// each of the writes. From the last write on, the items behind its place move up together, by as many places as writes
/// are left. Takes no memory.
pub(crate) fn merge_back(items: &mut [Write], held: usize, writes: &[Write])
    requires places { length items.old ≡ held + length writes.now }
    requires held { IsStrictlySortedBy write_cmp (take held items.old) }
    requires sorted { IsStrictlySortedBy write_cmp writes.now }
    ensures { items.new ≡ with_writes writes.now (take held items.old) }
{
    let mut left = held;
    let mut more = writes.len();
    while more > 0 {
        more -= 1;
        let write = &writes[more];
        let place = place_before(items, left, write);
        move_up(items, place, left, more + 1);
        items[place + more] = *write;
        left = place;
    }
}

// How many of the first `left` items, which are in order, the write doesn't come before. Most often it comes before few
// of them, so these are passed from the last on.
fn place_before(items: &[Write], left: usize, write: &Write) -> usize
    requires within { left ≤ length items.now }
    requires sorted { IsStrictlySortedBy write_cmp (take left items.now) }
    ensures within { result ≤ left }
    ensures behind { All (λ other. comes_before write.now other ≡ false) (take result items.now) }
    ensures ahead { All (λ later. comes_before write.now later ≡ true) (drop result (take left items.now)) }
{
    let mut place = left;
    while place > 0 && write.comes_before(&items[place - 1]) {
        place -= 1;
    }
    place
}

// How many items are moved at once: a machine copies longer pieces by bytes, which counts more steps.
const PIECE: usize = 16;

// Moves the items from the place `from` to the place `to` up by so many places, the last piece first. No piece is
// longer than the way it goes, so that each is copied as a whole.
fn move_up(items: &mut [Write], from: usize, to: usize, by: usize)
    requires order { from ≤ to }
    requires far { 0 < by }
    requires places { to + by ≤ length items.old }
    ensures length { length items.new ≡ length items.old }
    ensures front { take (from + by) items.new ≡ take (from + by) items.old }
    ensures moved { drop (from + by) items.new ≡ drop from (take to items.old) ++ drop (to + by) items.old }
{
    let mut end = to;
    while end > from {
        let count = (end - from).min(by).min(PIECE);
        let start = end - count;
        let (front, back) = items.split_at_mut(start + by);
        put_part(back, front, start, count);
        end = start;
    }
}

// Puts so many items from the place `start` on at the front of others.
fn put_part(others: &mut [Write], items: &[Write], start: usize, count: usize)
    requires part { start + count ≤ length items.now }
    requires places { count ≤ length others.old }
    ensures { others.new ≡ take count (drop start items.now) ++ drop count others.old }
{
    others[..count].copy_from_slice(&items[start..start + count]);
}

ghost use Rattle.std.specs.Prelude.{◌≡◌, ◌+◌, ◌<◌, ◌≤◌, ◌++◌, OnOk, OnErr, IsOk, length, vec_len};
ghost use Rattle.std.specs.Vec.{vec_capacity};

use std::alloc::AllocError;
use std::mem::size_of_val;

// A machine copies fewer bytes than these by words, and more of them byte by byte, which counts more steps.
const PIECE: usize = 4_096;

/// Appends all of `items`, in order. An error leaves the items as they were, and comes only where there was no room.
pub(crate) fn append<T: Copy>(list: &mut Vec<T>, items: &[T]) -> Result<(), AllocError>
    ensures ok { OnOk result (list.new.items ≡ list.old.items ++ items.now) }
    ensures len { OnOk result (vec_len list.new ≡ vec_len list.old + length items.now) }
    ensures err { OnErr result (list.new.items ≡ list.old.items) }
    ensures capacity { vec_capacity list.old ≤ vec_capacity list.new }
    ensures succeeds { vec_len list.old + length items.now ≤ vec_capacity list.old → IsOk result }
{
    let bytes = size_of_val(items);
    if bytes < PIECE {
        return list.extend_from_slice(items);
    }
    list.reserve(items.len())?;
    let pieces = bytes / PIECE + 1;
    append_pieces(list, items, (items.len() / pieces).max(1));
    Ok(())
}

// Appends items for which there is room, so many at once.
fn append_pieces<T: Copy>(list: &mut Vec<T>, items: &[T], at_once: usize)
    requires some { 0 < at_once }
    requires room { vec_len list.old + length items.now ≤ vec_capacity list.old }
    ensures items { list.new.items ≡ list.old.items ++ items.now }
    ensures len { vec_len list.new ≡ vec_len list.old + length items.now }
    ensures capacity { vec_capacity list.old ≤ vec_capacity list.new }
{
    let mut rest = items;
    while !rest.is_empty() {
        let (piece, others) = rest.split_at(at_once.min(rest.len()));
        if list.extend_from_slice(piece).is_err() {
            unreachable!();
        }
        rest = others;
    }
}

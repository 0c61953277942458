//! Lists whose memory was taken ahead.
ghost use Rattle.std.specs.Prelude.{◌≡◌, ◌<◌, ◌≤◌, [], ◌∷◌, ◌++◌, IfOk, vec_len};
ghost use Rattle.std.specs.Vec.{vec_capacity};

use std::alloc::Global;
use tact_base::NoMemory;

/// No item yet, and room for so many.
pub(crate) fn room_for<T: Drop>(alloc: Global, count: usize) -> Result<Vec<T>, NoMemory>
    ensures items { IfOk result (λ list. list.items ≡ []) }
    ensures room { IfOk result (λ list. count ≤ vec_capacity list) }
{
    Ok(Vec::with_capacity(alloc, count)?)
}

/// Appends an item to a list that has room for it. Takes no memory.
pub(crate) fn put<T: Drop>(list: &mut Vec<T>, item: T)
    requires { vec_len list.old < vec_capacity list.old }
    ensures items { list.new.items ≡ list.old.items ++ item ∷ [] }
    ensures capacity { vec_capacity list.old ≤ vec_capacity list.new }
{
    if list.push(item).is_err() {
        unreachable!();
    }
}

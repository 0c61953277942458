ghost use Rattle.std.specs.Prelude.{◌≡◌, [], IfOk, length, ◌==◌};
ghost use Rattle.std.specs.Cmp.Lexicographic.{pointwise, lists_equiv, lists_per};

use crate::{Items, NoMemory};
use std::alloc::{AllocError, Global};
use std::marker::Model;
use std::sync::Arc;

/// A list that doesn't change any more. One that is shared costs an allocation beside that of its items, and its clones
/// share its memory, which goes with the last of them; they may be in different threads. One that stands alone costs none
/// beside that of its items, and a clone of it copies these. Contracts see the list of its items.
#[derive(Debug, Drop)]
pub struct SharedList<T> {
    list: Held<T>,
}

// Where a list has its items.
#[derive(Debug, Drop)]
enum Held<T> {
    Nowhere,
    Alone(Items<T>),
    Shared(Arc<Items<T>, Global>),
}

impl<T> Model for SharedList<T> {
    ghost use Rattle.std.specs.Prelude.{List};
    ghost use Rattle.tact_base.specs.SharedList.{items_held};

    ghost Value = { List T };

    ghost view = { λ l. items_held l.list };
}

impl<T: Drop> SharedList<T> {
    /// The list of these items, with what its clones share in memory of `alloc`. `NoMemory` is its only error; the list
    /// that was given is dropped then.
    pub fn new(alloc: Global, list: Items<T>) -> Result<Self, NoMemory>
        ensures { IfOk result (λ shared. shared ≡ list) }
    {
        if list.is_empty() {
            return Ok(SharedList::empty());
        }
        Ok(SharedList {
            list: Held::Shared(Arc::new(alloc, list)?),
        })
    }
}

impl<T> SharedList<T> {
    /// The empty list. Takes no memory.
    pub fn empty() -> Self
        ensures { result ≡ [] }
    {
        SharedList {
            list: Held::Nowhere,
        }
    }

    /// The list of these items, which stands alone. Takes no memory.
    pub fn alone(list: Items<T>) -> Self
        ensures { result ≡ list }
    {
        SharedList {
            list: Held::Alone(list),
        }
    }

    /// The items, in order.
    pub fn items(&self) -> &[T]
        ensures { result.now ≡ self.now }
    {
        match &self.list {
            Held::Nowhere => &[],
            Held::Alone(list) => list.items(),
            Held::Shared(list) => list.items(),
        }
    }

    /// The number of items.
    pub fn len(&self) -> usize
        ensures { result ≡ length self.now }
    {
        self.items().len()
    }

    /// Whether there is no item.
    pub fn is_empty(&self) -> bool
        ensures { result ≡ (length self.now == 0) }
    {
        self.items().is_empty()
    }
}

impl<T: Copy> Clone for SharedList<T> {
    ghost is_clone = { λ old new. new ≡ old };

    fn clone(&self) -> Result<Self, AllocError> {
        Ok(match &self.list {
            Held::Nowhere => SharedList::empty(),
            Held::Alone(list) => SharedList::alone(list.copied()?),
            Held::Shared(list) => SharedList {
                list: Held::Shared(Arc::try_clone(list)?),
            },
        })
    }
}

impl<T: PartialEq> PartialEq for SharedList<T> {
    ghost eq = { pointwise T.eq };

    ghost laws = { lists_per T.laws };

    fn eq(&self, other: &Self) -> bool {
        self.items() == other.items()
    }
}

impl<T: Eq> Eq for SharedList<T> {
    ghost laws = { lists_equiv T.Eq.laws };
}

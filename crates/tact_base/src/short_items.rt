ghost use Rattle.std.specs.Prelude.{◌≡◌, ◌<◌, [], ◌∷◌, ◌++◌, OnOk, OnErr, IfOk, length, take, replicate, slice_set, ◌==◌};
ghost use Rattle.std.specs.Cmp.Lexicographic.{pointwise, lists_equiv, lists_per};

use crate::NoMemory;
use smallvec::SmallVec;
use std::alloc::{AllocError, Global};
use std::default::MadeWith;
use std::marker::Model;

/// A list that grows at its end. Up to 8 items lie in the value itself, and more in memory of an allocator. Contracts see
/// it as the list of its items.
#[derive(Debug, Drop)]
pub struct ShortItems<T> {
    items: SmallVec<T, 8>,
}

impl<T> Model for ShortItems<T> {
    ghost use Rattle.std.specs.Prelude.{List};

    ghost Value = { List T };

    ghost view = { λ l. l.items.items };
}

/// A list of u64.
pub type Numbers = ShortItems<u64>;

impl<T> ShortItems<T> {
    /// The items, in order.
    pub fn items(&self) -> &[T]
        ensures { result.now ≡ self.now }
    {
        self.items.as_slice()
    }

    /// The number of items.
    pub fn len(&self) -> usize
        ensures { result ≡ length self.now }
    {
        self.items.len()
    }

    /// Whether there is no item.
    pub fn is_empty(&self) -> bool
        ensures { result ≡ (length self.now == 0) }
    {
        self.items.is_empty()
    }
}

impl<T: MadeWith<Global> + Drop> ShortItems<T> {
    /// The empty list, whose items will lie in memory of `alloc` when they are more than 8. Takes no memory.
    pub fn new(alloc: Global) -> Self
        ensures { result ≡ [] }
    {
        ShortItems {
            items: SmallVec::new(alloc),
        }
    }

    /// The empty list, with room for `count` items: in memory of `alloc`, if they are more than 8.
    pub fn with_capacity(alloc: Global, count: usize) -> Result<Self, NoMemory>
        ensures { IfOk result (λ list. list ≡ []) }
    {
        Ok(ShortItems {
            items: SmallVec::with_capacity(alloc, count)?,
        })
    }

    /// Appends an item. `NoMemory` leaves the list as it was.
    pub fn push(&mut self, item: T) -> Result<(), NoMemory>
        ensures ok { OnOk result (self.new ≡ self.old ++ item ∷ []) }
        ensures err { OnErr result (self.new ≡ self.old) }
    {
        self.items.push(item)?;
        Ok(())
    }

    /// Puts an item in the place of another. Takes no memory.
    pub fn set(&mut self, place: usize, item: T)
        requires { place < length self.old }
        ensures { self.new ≡ slice_set self.old place item }
    {
        self.items[place] = item;
    }

    /// Drops all items from place `len` on, if there are any. Takes no memory.
    pub fn truncate(&mut self, len: usize)
        ensures { self.new ≡ take len self.old }
    {
        self.items.truncate(len);
    }
}

impl<T: MadeWith<Global> + Copy> ShortItems<T> {
    /// The list that has an item `count` times, in memory of `alloc`.
    pub fn filled(alloc: Global, item: T, count: u32) -> Result<Self, NoMemory>
        ensures { IfOk result (λ list. list ≡ replicate count item) }
    {
        let mut list = ShortItems::with_capacity(alloc, count as usize)?;
        for _place in 0..count {
            list.push(item)?;
        }
        Ok(list)
    }

    /// Appends all of `items`, in order. `NoMemory` leaves the list as it was.
    pub fn append(&mut self, items: &[T]) -> Result<(), NoMemory>
        ensures ok { OnOk result (self.new ≡ self.old ++ items.now) }
        ensures err { OnErr result (self.new ≡ self.old) }
    {
        self.items.extend_from_slice(items)?;
        Ok(())
    }

    /// Drops all items, and appends all of `items`, in order. After `NoMemory` there is none.
    pub fn replace(&mut self, items: &[T]) -> Result<(), NoMemory>
        ensures ok { OnOk result (self.new ≡ items.now) }
        ensures err { OnErr result (self.new ≡ []) }
    {
        self.items.clear();
        self.append(items)
    }

    /// The same items in a list of their own, in memory of the same allocator.
    pub fn copied(&self) -> Result<Self, AllocError>
        ensures { IfOk result (λ list. list ≡ self.now) }
    {
        Ok(ShortItems {
            items: SmallVec::from_slice(*self.items.allocator(), self.items.as_slice())?,
        })
    }

    /// A list of these items, in memory of `alloc`.
    pub fn from_slice(alloc: Global, items: &[T]) -> Result<Self, NoMemory>
        ensures { IfOk result (λ list. list ≡ items.now) }
    {
        Ok(ShortItems {
            items: SmallVec::from_slice(alloc, items)?,
        })
    }
}

impl<T: MadeWith<Global> + Copy> Clone for ShortItems<T> {
    ghost is_clone = { λ old new. new ≡ old };

    fn clone(&self) -> Result<Self, AllocError> {
        self.copied()
    }
}

impl<T: PartialEq> PartialEq for ShortItems<T> {
    ghost eq = { pointwise T.eq };

    ghost laws = { lists_per T.laws };

    fn eq(&self, other: &Self) -> bool {
        self.items() == other.items()
    }
}

impl<T: Eq> Eq for ShortItems<T> {
    ghost laws = { lists_equiv T.Eq.laws };
}

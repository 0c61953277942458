ghost use Rattle.std.specs.Prelude.{◌≡◌, [], ◌∷◌, ◌++◌, OnOk, OnErr, IfOk, length, take, ◌==◌};
ghost use Rattle.std.specs.Cmp.Lexicographic.{pointwise, lists_equiv, lists_per};

use std::alloc::{AllocError, AllocFailed, Global};
use std::marker::Model;

/// Want of memory: an allocation was refused. The call that answers it left everything as it was,
/// unless it says otherwise.
#[derive(Clone, Copy, Debug, PartialEq, Eq)]
pub struct NoMemory;

impl From<AllocError> for NoMemory {
    fn from(_: AllocError) -> Self {
        NoMemory
    }
}

impl<T: Drop> From<AllocFailed<T>> for NoMemory {
    fn from(_: AllocFailed<T>) -> Self {
        NoMemory
    }
}

/// A list that grows at its end. Contracts see it as the list of its items.
#[derive(Debug, Drop)]
pub struct Items<T> {
    items: Vec<T>,
}

impl<T> Model for Items<T> {
    ghost use Rattle.std.specs.Prelude.{List};

    ghost Value = { List T };

    ghost view = { λ l. l.items.items };
}

/// A list of bytes.
pub type Bytes = Items<u8>;

impl<T> Items<T> {
    /// The empty list, whose items will lie in memory of `alloc`. Takes no memory.
    pub fn new(alloc: Global) -> Self
        ensures { result ≡ [] }
    {
        Items {
            items: Vec::new(alloc),
        }
    }

    /// The empty list, with memory of `alloc` for `count` items.
    pub fn with_capacity(alloc: Global, count: usize) -> Result<Self, NoMemory>
        ensures { IfOk result (λ list. list ≡ []) }
    {
        Ok(Items {
            items: Vec::with_capacity(alloc, count)?,
        })
    }

    /// The empty list, with memory of `alloc` for `count` items if that can be had.
    pub fn ample(alloc: Global, count: usize) -> Self
        ensures { result ≡ [] }
    {
        let mut items = Vec::new(alloc);
        let _ = items.reserve(count);
        Items { items }
    }

    /// The items, in order.
    pub fn items(&self) -> &[T]
        ensures { result.now ≡ self.now }
    {
        &self.items
    }

    /// The number of items.
    pub fn len(&self) -> usize
        ensures { result ≡ length self.now }
    {
        self.items.len()
    }

    /// Whether there is no item.
    pub fn is_empty(&self) -> bool
        ensures { result ≡ (length self.now == 0) }
    {
        self.items.is_empty()
    }
}

impl<T: Drop> Items<T> {
    /// Appends an item. `NoMemory` leaves the list as it was.
    pub fn push(&mut self, item: T) -> Result<(), NoMemory>
        ensures ok { OnOk result (self.new ≡ self.old ++ item ∷ []) }
        ensures err { OnErr result (self.new ≡ self.old) }
    {
        self.items.push(item)?;
        Ok(())
    }

    /// Appends an item, as [`Items::push`]. A list that is full takes memory for four times its items, and for 1,024 at
    /// first, if it can, so that large items are seldom moved.
    pub fn push_amply(&mut self, item: T) -> Result<(), NoMemory>
        ensures ok { OnOk result (self.new ≡ self.old ++ item ∷ []) }
        ensures err { OnErr result (self.new ≡ self.old) }
    {
        if self.items.len() == self.items.capacity() {
            let ample = self.items.len().saturating_mul(3).max(1_024);
            if self.items.reserve(ample).is_err() {
                self.items.reserve(1)?;
            }
        }
        self.items.push_reserved(item);
        Ok(())
    }

    /// Drops all items from place `len` on, if there are any. Takes no memory.
    pub fn truncate(&mut self, len: usize)
        ensures { self.new ≡ take len self.old }
    {
        self.items.truncate(len);
    }
}

impl<T: Copy> Items<T> {
    /// Appends all of `items`, in order. `NoMemory` leaves the list as it was.
    pub fn append(&mut self, items: &[T]) -> Result<(), NoMemory>
        ensures ok { OnOk result (self.new ≡ self.old ++ items.now) }
        ensures err { OnErr result (self.new ≡ self.old) }
    {
        self.items.extend_from_slice(items)?;
        Ok(())
    }

    /// The same items in a list of their own, in memory of the same allocator.
    pub fn copied(&self) -> Result<Self, AllocError>
        ensures { IfOk result (λ list. list ≡ self.now) }
    {
        Ok(Items {
            items: Vec::from_slice(*self.items.allocator(), &self.items)?,
        })
    }

    /// A list of these items, in memory of `alloc`.
    pub fn from_slice(alloc: Global, items: &[T]) -> Result<Self, NoMemory>
        ensures { IfOk result (λ list. list ≡ items.now) }
    {
        Ok(Items {
            items: Vec::from_slice(alloc, items)?,
        })
    }
}

impl<T: PartialEq> PartialEq for Items<T> {
    ghost eq = { pointwise T.eq };

    ghost laws = { lists_per T.laws };

    fn eq(&self, other: &Self) -> bool {
        self.items() == other.items()
    }
}

impl<T: Eq> Eq for Items<T> {
    ghost laws = { lists_equiv T.Eq.laws };
}

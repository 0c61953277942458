ghost use Rattle.std.specs.Prelude.{◌≡◌, ◌≤◌, length, pos};
ghost use Rattle.std.specs.Cmp.Lexicographic.{pointwise, lists_equiv, lists_per};

use std::alloc::AllocError;
use std::marker::Model;

/// What can stand in a list that is held in place: it has a blank, which fills the places that none of the items takes.
pub trait Blank: Copy {
    /// The blank.
    ghost blank: { Self };

    /// The blank.
    fn blank() -> Self
        ensures { result ≡ blank };
}

impl Blank for u64 {
    ghost blank = { 0 };

    fn blank() -> u64 {
        0
    }
}

impl Blank for i64 {
    ghost blank = { pos 0 };

    fn blank() -> i64 {
        0
    }
}

/// A list of at most `N` items, held in place, so that it can be copied. Contracts see it as the list of its items.
#[derive(Copy, Debug)]
pub struct Few<T: Blank, const N: usize> {
    // The items, and behind them blanks.
    items: [T; N],
    len: usize,
}

impl<T: Blank, const N: usize> Model for Few<T, N> {
    ghost use Rattle.std.specs.Prelude.{◌≡◌, ◌≤◌, ◌-◌, ◌++◌, List, length, take, drop, replicate};
    ghost use Rattle.tact_base.specs.Blanks.{items_back, len_back};

    ghost Value = { List T };

    ghost view = { λ l. take l.len l.items };

    ghost invariant = { λ l. (l.len ≤ N) × (length l.items ≡ N) × (drop l.len l.items ≡ replicate (N - l.len) T.blank) };

    ghost inverse = { λ l. record { items = l ++ replicate (N - length l) T.blank; len = length l } };

    ghost inverse_ok = { λ l h i. record {
      items = items_back N T.blank l.items l.len h.0 h.1 h.2 i;
      len = len_back N l.items l.len h.0 h.1 i;
    } };
}

/// A list of at most 8 u64, held in place.
pub type Row = Few<u64, 8>;

impl<T: Blank, const N: usize> Few<T, N> {
    /// The list of these items. Takes no memory.
    pub fn new(items: &[T]) -> Self
        requires { length items.now ≤ N }
        ensures { result ≡ items.now }
    {
        let len = items.len();
        let mut list = [T::blank(); N];
        list[..len].copy_from_slice(items);
        Few { items: list, len }
    }

    /// The items, in order.
    pub fn items(&self) -> &[T]
        ensures items { result.now ≡ self.now }
        ensures few { length self.now ≤ N }
    {
        &self.items[..self.len]
    }
}

impl<T: Blank, const N: usize> Clone for Few<T, N> {
    ghost is_clone = { λ old new. new ≡ old };

    ghost is_infallible = { λ _. Unit {0} };

    fn clone(&self) -> Result<Self, AllocError> {
        Ok(*self)
    }
}

impl<T: Blank + PartialEq, const N: usize> PartialEq for Few<T, N> {
    ghost eq = { pointwise T.PartialEq.eq };

    ghost laws = { lists_per T.PartialEq.laws };

    fn eq(&self, other: &Self) -> bool {
        self.items() == other.items()
    }
}

impl<T: Blank + Eq, const N: usize> Eq for Few<T, N> {
    ghost laws = { lists_equiv T.Eq.laws };
}

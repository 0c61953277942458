ghost use Rattle.std.specs.Prelude.{◌≡◌, ◌≤◌, ◌&&◌, ◌<◌, ℕ, Bool, length, nat_le, MatchResult, Some, None, pos, []};
ghost use Rattle.std.specs.Cmp.Lexicographic.{pointwise, lists_equiv, lists_per};
ghost use Rattle.std.specs.Int.RustNames.{unsigned_abs};
ghost use Rattle.tact_base.specs.ConitList.{first_unordered, first_out_of_limits, list_fault, IsConitList};
ghost use Rattle.tact_base.specs.declared.limits.TheConstants.{AMOUNT_MAX, MOMENT_MAX, WEIGHT_MAX, LIST_MAX};

use crate::{AMOUNT_MAX, Blank, Few, LIST_MAX, MOMENT_MAX, WEIGHT_MAX};
use std::alloc::AllocError;
use std::marker::Model;

/// What a write weighs on one conit.
#[derive(Clone, Copy, Debug, Default, PartialEq, Eq)]
pub struct Weight {
    /// The conit.
    pub conit: u32,
    /// By how much the write changes the conit's value, from -10^6 to 10^6.
    pub nweight: i64,
    /// How much order error the write brings while it is tentative, at most 10^6.
    pub oweight: u64,
}

impl Blank for Weight {
    ghost blank = { record { conit = 0; nweight = pos 0; oweight = 0 } };

    fn blank() -> Weight {
        Weight {
            conit: 0,
            nweight: 0,
            oweight: 0,
        }
    }
}

/// How far what a read sees of one conit may be off.
#[derive(Clone, Copy, Debug, Default, PartialEq, Eq)]
pub struct Need {
    /// The conit.
    pub conit: u32,
    /// The greatest numerical error, at most 10^12.
    pub num: u64,
    /// The greatest order error, at most 10^12.
    pub order: u64,
    /// How old an unseen write may be, in the units of moments, at most 2^60.
    pub stale: u64,
}

impl Blank for Need {
    ghost blank = { record { conit = 0; num = 0; order = 0; stale = 0 } };

    fn blank() -> Need {
        Need {
            conit: 0,
            num: 0,
            order: 0,
            stale: 0,
        }
    }
}

/// What stands in a list by conit: a weight or a need.
pub trait OnConit: Blank {
    /// The conit that it speaks of.
    ghost conit_of: { Self → ℕ };

    /// Whether its other numbers are within their limits.
    ghost in_limits: { Self → Bool };

    /// The conit that it speaks of.
    fn conit(&self) -> u32
        ensures { result ≡ conit_of self.now };

    /// Whether its other numbers are within their limits.
    fn is_in_limits(&self) -> bool
        ensures { result ≡ in_limits self.now };
}

impl OnConit for Weight {
    ghost conit_of = { λ w. w.conit };

    ghost in_limits = { λ w. nat_le (unsigned_abs w.nweight) WEIGHT_MAX && nat_le w.oweight WEIGHT_MAX };

    fn conit(&self) -> u32 {
        self.conit
    }

    fn is_in_limits(&self) -> bool {
        self.nweight.unsigned_abs() <= WEIGHT_MAX && self.oweight <= WEIGHT_MAX
    }
}

impl OnConit for Need {
    ghost conit_of = { λ n. n.conit };

    ghost in_limits = { λ n. nat_le n.num AMOUNT_MAX && nat_le n.order AMOUNT_MAX && nat_le n.stale MOMENT_MAX };

    fn conit(&self) -> u32 {
        self.conit
    }

    fn is_in_limits(&self) -> bool {
        self.num <= AMOUNT_MAX && self.order <= AMOUNT_MAX && self.stale <= MOMENT_MAX
    }
}

/// Why a list of weights or needs was refused.
#[derive(Clone, Copy, Debug, PartialEq, Eq)]
pub enum ListFault {
    /// It has more than 4 items.
    TooMany,
    /// The conit of the item at this place doesn't pass that of the item before.
    Unordered { place: usize },
    /// A number of the item at this place is out of its limits.
    Range { place: usize },
}

/// At most 4 weights or needs with strictly rising conits, each within its limits, held in place.
/// Contracts see it as the list of its items.
#[derive(Copy, Debug)]
pub struct ConitList<T: OnConit> {
    items: Few<T, LIST_MAX>,
}

impl<T: OnConit> Model for ConitList<T> {
    ghost use Rattle.std.specs.Prelude.{List};
    ghost use Rattle.tact_base.specs.ConitList.{IsConitList};

    ghost Value = { List T };

    ghost view = { λ l. l.items };

    ghost invariant = { λ l. IsConitList T.conit_of T.in_limits l.items };

    ghost inverse = { λ l. record { items = l } };
}

/// The weights of a write.
pub type Weights = ConitList<Weight>;

/// The needs of a read.
pub type Needs = ConitList<Need>;

impl<T: OnConit> ConitList<T> {
    /// The list of these items. The refusals, in this order: `TooMany` past 4 items, `Unordered` for the
    /// first item that doesn't rise, `Range` for the first item out of its limits. Takes no memory.
    pub fn new(items: &[T]) -> Result<Self, ListFault>
        ensures { MatchResult result
            (λ list. (list_fault T.conit_of T.in_limits items.now ≡ None) × (list ≡ items.now))
            (λ fault. list_fault T.conit_of T.in_limits items.now ≡ Some fault) }
    {
        if items.len() > LIST_MAX {
            return Err(ListFault::TooMany);
        }
        if let Some(place) = first_unordered(items) {
            return Err(ListFault::Unordered { place });
        }
        if let Some(place) = first_out_of_limits(items) {
            return Err(ListFault::Range { place });
        }
        Ok(ConitList {
            items: Few::new(items),
        })
    }

    /// The list of no items. Takes no memory.
    pub fn empty() -> Self
        ensures { result ≡ [] }
    {
        match ConitList::new(&[]) {
            Ok(list) => list,
            Err(_) => unreachable!(),
        }
    }

    /// The items, in order.
    pub fn items(&self) -> &[T]
        ensures items { result.now ≡ self.now }
        ensures kept { IsConitList T.conit_of T.in_limits self.now }
    {
        self.items.items()
    }
}

fn first_unordered<T: OnConit>(items: &[T]) -> Option<usize>
    ensures { result ≡ first_unordered T.conit_of T.in_limits items.now }
{
    items
        .iter()
        .zip(items.iter().skip(1))
        .position(|(before, item)| item.conit() <= before.conit())
        .map(|place| place + 1)
}

fn first_out_of_limits<T: OnConit>(items: &[T]) -> Option<usize>
    ensures { result ≡ first_out_of_limits T.conit_of T.in_limits items.now }
{
    items.iter().position(|item| !item.is_in_limits())
}

impl<T: OnConit> Clone for ConitList<T> {
    ghost is_clone = { λ old new. new ≡ old };

    ghost is_infallible = { λ _. Unit {0} };

    fn clone(&self) -> Result<Self, AllocError> {
        Ok(*self)
    }
}

impl<T: OnConit + PartialEq> PartialEq for ConitList<T> {
    ghost eq = { pointwise T.PartialEq.eq };

    ghost laws = { lists_per T.PartialEq.laws };

    fn eq(&self, other: &Self) -> bool {
        self.items() == other.items()
    }
}

impl<T: OnConit + Eq> Eq for ConitList<T> {
    ghost laws = { lists_equiv T.Eq.laws };
}

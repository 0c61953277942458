use crate::counted::Counted;
use crate::view::{Terms, View};
use atomic_table::TableRule;
use std::marker::PhantomData;

/// The rule of a cell.
pub struct Law<T>(PhantomData<T>);

impl<T: Counted> TableRule<Option<T>, View<T::Label>, Terms<T>> for Law<T> {
    ghost use Rattle.weight_ledger.specs.Keeping.{Kept, founder};

    ghost holds = { λ key s. Kept T.label T.totals (T.label key.first.value) key.shared key.owned s };

    ghost first = { λ key. founder (T.label key.first.value) key.shared key.owned };
}

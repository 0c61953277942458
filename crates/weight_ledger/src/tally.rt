use crate::view::View;
use atomic_table::Badge;
use std::marker::Model;

/// A token whose amounts the totals of a cell's value add up. It has no bytes, may go to another thread, and can't be
/// copied or made but by the calls of a cell. The amounts of one that is dropped stay in the totals.
#[derive(Drop)]
pub struct Tally<L> {
    pub(crate) badge: Badge<View<L>>,
}

impl<L> Model for Tally<L> {
    ghost use Rattle.weight_ledger.specs.Seen.{TallyView};
    ghost use Rattle.weight_ledger.specs.Keeping.{Idle, amounts_of, owns_of};

    ghost Value = { TallyView };

    ghost view = { λ t. record { id = t.badge.table_id; amounts = amounts_of t.badge.views; owns = owns_of t.badge.views } };

    ghost invariant = { λ t. Idle t.badge.table_id.words t.badge.views };
}

ghost use Rattle.std.specs.Prelude.{◌≡◌, [], ◌∷◌};

use crate::view::View;
use atomic_table::{Badge, Seat};
use std::mem;

// The seat of a badge that is lent. A blank one stays in its place until the seat is back.
pub(crate) fn taken<S, L>(badge: &mut Badge<View<L>>) -> Seat<S, View<L>>
    requires { (v : View L) × (badge.old.views ≡ v ∷ []) }
    ensures { (result.table_id ≡ badge.old.table_id) × (result.id ≡ badge.old.id) × (badge.old.views ≡ result.me.0 ∷ []) × (result.me.1 ≡ []) }
{
    let whole = mem::replace(badge, Badge::blank());
    whole.into_seat()
}

// The names of the steps, and what each tells.
use crate::counted::Counted;
use crate::view::View;
use atomic_table::{Join, Play, Split};
use std::marker::Brand;

/// A new seat comes.
pub struct Fresh;

impl<S, L> Play<S, View<L>> for Fresh {
    ghost use Rattle.weight_ledger.specs.Telling.{came};

    ghost then = { came };
}

/// A seat claims the value, unless it is claimed or out.
pub struct Claim;

impl<S, L> Play<S, View<L>> for Claim {
    ghost use Rattle.weight_ledger.specs.Telling.{claimed};

    ghost then = { claimed };
}

/// A seat that claims reads the total of the next place.
pub struct Read;

impl<S, L> Play<S, View<L>> for Read {
    ghost use Rattle.weight_ledger.specs.Telling.{read};

    ghost then = { read };
}

/// A seat that claims and has read all places takes the value out.
pub struct Out;

impl<T: Counted> Play<Option<T>, View<T::Label>> for Out {
    ghost use Rattle.weight_ledger.specs.Telling.{went_out};

    ghost then = { went_out T.label T.totals };
}

/// The holder gives the value back.
pub struct Give;

impl<S, L> Play<S, View<L>> for Give {
    ghost use Rattle.weight_ledger.specs.Telling.{gave};

    ghost then = { gave };
}

/// The holder raises the total of a place.
pub struct Raise;

impl<S, L> Play<S, View<L>> for Raise {
    ghost use Rattle.weight_ledger.specs.Telling.{raised};

    ghost then = { raised };
}

/// The holder lowers the total of a place.
pub struct Lower;

impl<S, L> Play<S, View<L>> for Lower {
    ghost use Rattle.weight_ledger.specs.Telling.{lowered};

    ghost then = { lowered };
}

/// The holder compares its book with its amounts.
pub struct Agree;

impl<S, L> Play<S, View<L>> for Agree {
    ghost use Rattle.weight_ledger.specs.Telling.{agreed};

    ghost then = { agreed };
}

/// A seat reads the total of a place.
pub struct Bound;

impl<S, L> Play<S, View<L>> for Bound {
    ghost use Rattle.weight_ledger.specs.Telling.{bounded};

    ghost then = { bounded };
}

/// A seat takes in all that an idle one has.
pub struct Both;

impl<L> Join<View<L>> for Both {
    ghost use Rattle.weight_ledger.specs.Keeping.{both, spent};

    ghost both = { both };

    ghost spent = { spent };
}

/// A seat gives all that it has to a new one.
pub struct Off;

impl<L> Split<View<L>> for Off {
    ghost use Rattle.weight_ledger.specs.Keeping.{emptied, token};

    ghost left = { emptied };

    ghost right = { token };
}

/// What is cut off from a seat: amounts and owned places. Each call picks it.
pub trait Part {
    ghost use Rattle.std.specs.Prelude.{ℕ, List};

    ghost amounts: { List ℕ };

    ghost owns: { List ℕ };
}

impl Part for Brand {
    ghost use Rattle.std.specs.Prelude.{[]};

    ghost amounts = { [] };

    ghost owns = { [] };
}

/// A seat gives a part of what it has to a new one.
pub struct Cut<B>(B);

impl<L, B: Part> Split<View<L>> for Cut<B> {
    ghost use Rattle.weight_ledger.specs.Keeping.{less, piece};

    ghost left = { λ v. less v B.amounts B.owns };

    ghost right = { λ v. piece v B.amounts B.owns };
}

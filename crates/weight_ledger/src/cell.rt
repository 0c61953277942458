ghost use Rattle.std.specs.Prelude.{◌≡◌, ◌≢◌, ℕ, ◌+◌, ◌≤◌, ◌<◌, ◌∷◌, [], IfOk, IfErr, vec_len, slice_index};
ghost use Rattle.weight_ledger.specs.Amounts.{zeros, all_owned};

use crate::counted::Counted;
use crate::rule::Law;
use crate::tally::Tally;
use crate::view::{Terms, View};
use atomic_table::{Refused, Table};
use std::alloc::{AllocError, Global};
use std::marker::Model;
use std::snapshot::Snapshot;

/// A lock whose value has a label that stays, and totals that tallies add up. It waits only in `lock` and `end`.
#[derive(Drop)]
pub struct Cell<T: Counted> {
    pub(crate) table: Table<Option<T>, View<T::Label>, Terms<T>, Law<T>, Global>,
}

impl<T: Counted> Model for Cell<T> {
    ghost use Rattle.std.specs.Prelude.{◌≡◌, ◌+◌};
    ghost use Rattle.weight_ledger.specs.Seen.{CellView};

    ghost Value = { CellView T.Label };

    ghost view = { λ c. record { id = c.table.shared.table_id; label = T.label c.table.shared.key.first.value; shared = c.table.shared.key.shared; owned = c.table.shared.key.owned } };

    ghost invariant = { λ c. (c.table.shared.table_id.slots ≡ 1) × (c.table.shared.table_id.words ≡ c.table.shared.key.shared + c.table.shared.key.owned + 1) };
}

/// There was no memory. The value comes back.
#[derive(Drop)]
pub struct CellFault<T> {
    pub value: T,
}

impl<T: Counted> Cell<T> {
    /// A cell with the value, whose first `shared` places are shared and whose next `owned` ones are owned; and a tally
    /// with zeros that owns every owned place. Alone of all calls it takes memory, and want of memory is its only
    /// error.
    pub fn new(
        alloc: Global,
        value: T,
        shared: u32,
        owned: u32,
    ) -> Result<(Cell<T>, Tally<T::Label>), CellFault<T>>
        requires { T.totals value ≡ zeros (shared + owned) }
        ensures cell { IfOk result (λ r. (r.0.label ≡ T.label value) × (r.0.shared ≡ shared) × (r.0.owned ≡ owned)) }
        ensures tally { IfOk result (λ r. r.1 ≡ record { id = r.0.id; amounts = zeros (shared + owned); owns = all_owned shared owned }) }
        ensures refused { IfErr result (λ f. f.value ≡ value) }
    {
        let terms = Terms {
            first: Snapshot::of(&value),
            shared,
            owned,
        };
        let Ok(words) = zero_words(alloc, shared as usize + owned as usize + 1) else {
            return Err(CellFault { value });
        };
        let mut slots = Vec::new(alloc);
        if let Err(full) = slots.push(Some(value)) {
            let found = full.value;
            let Some(value) = found else { unreachable!() };
            slots.destroy_empty();
            return Err(CellFault { value });
        }
        match Table::new(alloc, words.as_slice(), slots, &terms) {
            Ok((table, seat)) => Ok((
                Cell { table },
                Tally {
                    badge: seat.into_badge(),
                },
            )),
            Err(Refused { slots }) => Err(CellFault {
                value: only_value(slots),
            }),
        }
    }
}

// So many words with 0.
fn zero_words(alloc: Global, count: usize) -> Result<Vec<u64>, AllocError>
    ensures { IfOk result (λ v. v.items ≡ zeros count) }
{
    let mut words = Vec::with_capacity(alloc, count)?;
    while words.len() < count {
        words.push(0).map_err(|_| AllocError)?;
    }
    Ok(words)
}

// The value in the one slot that a table refused.
fn only_value<T>(mut slots: Vec<Option<T>>) -> T
    requires { (v : T) × (slots.items ≡ Some v ∷ []) }
    ensures { slots.items ≡ Some result ∷ [] }
{
    let found = slots.pop();
    slots.destroy_empty();
    let Some(Some(value)) = found else {
        unreachable!()
    };
    value
}

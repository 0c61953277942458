ghost use Rattle.std.specs.Prelude.{◌≡◌, ◌≢◌, ℕ, ◌+◌, ◌-◌, ◌^◌, ◌≤◌, ◌<◌, slice_index, slice_set};

use crate::cell::Cell;
use crate::counted::Counted;
use crate::seats::taken;
use crate::steps::{Agree, Both, Give, Lower, Off, Raise};
use crate::tally::Tally;
use crate::view::View;
use atomic_table::Seat;
use std::marker::Model;

/// The value of a cell is out: what its totals have to be when it comes back. It can't be dropped.
pub struct Held<'a, T: Counted> {
    pub(crate) cell: &'a Cell<T>,
    pub(crate) seat: Seat<Option<T>, View<T::Label>>,
}

impl<'a, T: Counted> Model for Held<'a, T> {
    ghost use Rattle.std.specs.Prelude.{◌≡◌, ◌+◌, [], ◌∷◌, None, length};
    ghost use Rattle.weight_ledger.specs.Seen.{HeldView};

    ghost Value = { HeldView T.Label };

    ghost view = { λ h. record { cell = h.cell.now; book = h.seat.me.0.book } };

    ghost invariant = { λ h. (h.seat.table_id ≡ h.cell.now.id) × (h.seat.me.1 ≡ (0, None) ∷ []) × (h.seat.me.0.phase ≡ 3) × (length h.seat.me.0.book ≡ h.cell.now.shared + h.cell.now.owned) × (h.seat.me.0.amounts ≡ []) × (h.seat.me.0.owns ≡ []) };
}

impl<'a, T: Counted> Held<'a, T> {
    /// Raises the book and the tally's amount at a place.
    pub fn raise(&mut self, tally: &mut Tally<T::Label>, place: u32, amount: u64)
        requires cell { tally.old.id ≡ self.old.cell.id }
        requires place { place < self.old.cell.shared + self.old.cell.owned }
        requires owner { self.old.cell.shared ≤ place → slice_index tally.old.owns place ≢ 0 }
        requires room { slice_index self.old.book place + amount < 2 ^ 64 }
        ensures book { self.new ≡ record self.old { book = slice_set self.old.book place (slice_index self.old.book place + amount) } }
        ensures tally { tally.new ≡ record tally.old { amounts = slice_set tally.old.amounts place (slice_index tally.old.amounts place + amount) } }
        ensures mine { slice_index tally.new.amounts place ≡ slice_index tally.old.amounts place + amount }
    {
        let cell = self.cell;
        let shared = &cell.table.shared;
        let mine = taken(&mut tally.badge);
        shared.join_seat::<Both>(&mut self.seat, mine);
        shared.fetch_add::<Raise>(&mut self.seat, place as usize + 1, amount);
        tally.badge = shared.split_seat::<Off>(&mut self.seat).into_badge();
    }

    /// Lowers the book and the tally's amount at a place.
    pub fn lower(&mut self, tally: &mut Tally<T::Label>, place: u32, amount: u64)
        requires cell { tally.old.id ≡ self.old.cell.id }
        requires place { place < self.old.cell.shared + self.old.cell.owned }
        requires owner { self.old.cell.shared ≤ place → slice_index tally.old.owns place ≢ 0 }
        requires amount { amount ≤ slice_index tally.old.amounts place }
        ensures book { self.new ≡ record self.old { book = slice_set self.old.book place (slice_index self.old.book place - amount) } }
        ensures tally { tally.new ≡ record tally.old { amounts = slice_set tally.old.amounts place (slice_index tally.old.amounts place - amount) } }
        ensures mine { slice_index tally.new.amounts place ≡ slice_index tally.old.amounts place - amount }
    {
        let cell = self.cell;
        let shared = &cell.table.shared;
        let mine = taken(&mut tally.badge);
        shared.join_seat::<Both>(&mut self.seat, mine);
        shared.fetch_sub::<Lower>(&mut self.seat, place as usize + 1, amount);
        tally.badge = shared.split_seat::<Off>(&mut self.seat).into_badge();
    }

    /// Changes nothing. It tells that the book has the tally's amount at each place that the tally owns, and at least
    /// its amount at every other place.
    pub fn agree(&mut self, tally: &mut Tally<T::Label>)
        requires { tally.old.id ≡ self.old.cell.id }
        ensures book { self.new ≡ self.old }
        ensures tally { tally.new ≡ tally.old }
        ensures owned { (p : ℕ) → slice_index tally.old.owns p ≢ 0 → slice_index self.old.book p ≡ slice_index tally.old.amounts p }
        ensures least { (p : ℕ) → slice_index tally.old.amounts p ≤ slice_index self.old.book p }
    {
        let cell = self.cell;
        let shared = &cell.table.shared;
        let mine = taken(&mut tally.badge);
        shared.join_seat::<Both>(&mut self.seat, mine);
        shared.load::<Agree>(&mut self.seat, 0);
        tally.badge = shared.split_seat::<Off>(&mut self.seat).into_badge();
    }

    /// Gives the value back, and wakes a thread that waits for it.
    pub fn end(self, value: T)
        requires label { T.label value ≡ self.cell.label }
        requires totals { T.totals value ≡ self.book }
    {
        let Held { cell, mut seat } = self;
        let shared = &cell.table.shared;
        let found = shared.exchange(&mut seat, 0, Some(value));
        let None = found else { unreachable!() };
        shared.swap::<Give>(&mut seat, 0, 0);
        shared.wake_one(0);
    }
}

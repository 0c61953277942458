ghost use Rattle.std.specs.Prelude.{◌≡◌, ◌≢◌, ℕ, ◌+◌, ◌≤◌, ◌<◌, length, slice_index, [], Some};

use crate::cell::Cell;
use crate::counted::Counted;
use crate::held::Held;
use crate::seats::taken;
use crate::steps::{Both, Claim, Fresh, Out, Read};
use crate::tally::Tally;
use crate::view::View;
use atomic_table::Seat;
use std::sync::Wait;

impl<T: Counted> Cell<T> {
    // A seat that claims the value. A thread that finds the value out sleeps until one comes back.
    fn claim<R: Wait>(&self, rt: &R) -> Seat<Option<T>, View<T::Label>>
        ensures seat { (result.table_id ≡ self.now.id) × (result.me.1 ≡ []) }
        ensures label { result.me.0.label ≡ Some self.now.label }
        ensures claims { (result.me.0.phase ≡ 1) × (result.me.0.book ≡ []) × (result.me.0.amounts ≡ []) × (result.me.0.owns ≡ []) }
    {
        let shared = &self.table.shared;
        let (_, mut seat) = shared.load_new_seat::<Fresh>(0);
        for _ in rt.forever() {
            if shared.compare_exchange::<Claim>(&mut seat, 0, 0, 1) == 0 {
                return seat;
            }
            shared.park(rt, 0, 3);
        }
        unreachable!()
    }

    // Reads the totals of all places.
    fn read_all(&self, seat: &mut Seat<Option<T>, View<T::Label>>)
        requires seat { (seat.old.table_id ≡ self.now.id) × (seat.old.me.1 ≡ []) }
        requires claims { (seat.old.me.0.phase ≡ 1) × (seat.old.me.0.book ≡ []) × (seat.old.me.0.amounts ≡ []) × (seat.old.me.0.owns ≡ []) }
        ensures seat { (seat.new.table_id ≡ self.now.id) × (seat.new.me.1 ≡ []) }
        ensures label { seat.new.me.0.label ≡ seat.old.me.0.label }
        ensures claims { (seat.new.me.0.phase ≡ 1) × (length seat.new.me.0.book ≡ self.now.shared + self.now.owned) × (seat.new.me.0.amounts ≡ []) × (seat.new.me.0.owns ≡ []) }
    {
        for word in 1..self.table.word_count() {
            self.table.shared.load::<Read>(seat, word);
        }
    }

    /// Waits until the value is there, and takes it out. It has the label of the cell, and its totals are the book.
    pub fn lock<R: Wait>(&self, rt: &R) -> (Held<'_, T>, T)
        ensures cell { result.0.cell ≡ self.now }
        ensures label { T.label result.1 ≡ self.now.label }
        ensures totals { T.totals result.1 ≡ result.0.book }
        ensures places { length result.0.book ≡ self.now.shared + self.now.owned }
    {
        let mut seat = self.claim(rt);
        self.read_all(&mut seat);
        let shared = &self.table.shared;
        shared.swap::<Out>(&mut seat, 0, 3);
        let found = shared.exchange(&mut seat, 0, None);
        let Some(value) = found else { unreachable!() };
        (Held { cell: self, seat }, value)
    }

    /// Waits until the value is there, and gives it. It has the label of the cell; at each place that the tally owns
    /// its total is the tally's amount, and at every other place at least that.
    pub fn end<R: Wait>(self, rt: &R, all: Tally<T::Label>) -> T
        requires { all.id ≡ self.id }
        ensures label { T.label result ≡ self.label }
        ensures places { length (T.totals result) ≡ self.shared + self.owned }
        ensures owned { (p : ℕ) → slice_index all.owns p ≢ 0 → slice_index (T.totals result) p ≡ slice_index all.amounts p }
        ensures least { (p : ℕ) → slice_index all.amounts p ≤ slice_index (T.totals result) p }
    {
        let mut seat = self.claim(rt);
        let Tally { badge } = all;
        let Cell { table } = self;
        table.shared.join_seat::<Both>(&mut seat, badge.into_seat());
        let mut closed = table.close_with(seat);
        let found = closed.take(0);
        closed.free();
        let Some(value) = found else { unreachable!() };
        value
    }
}

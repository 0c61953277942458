ghost use Rattle.std.specs.Prelude.{◌≡◌, ◌≢◌, ℕ, ◌+◌, ◌-◌, ◌^◌, ◌≤◌, ◌<◌, All, length, slice_index, slice_set, []};
ghost use Rattle.weight_ledger.specs.Amounts.{lessened, picked, alone, joined, left_after, gone_after, IsMoved, IsLeft, IsPartOf};

use crate::cell::Cell;
use crate::counted::Counted;
use crate::seats::taken;
use crate::steps::{Both, Bound, Cut, Part};
use crate::tally::Tally;
use std::marker::Brand;

impl<T: Counted> Cell<T> {
    // Cuts a part off a tally.
    fn cut<B: Part>(&self, tally: &mut Tally<T::Label>) -> Tally<T::Label>
        requires cell { tally.old.id ≡ self.now.id }
        requires part { IsPartOf self.now.shared tally.old B.amounts B.owns }
        ensures left { tally.new ≡ record tally.old { amounts = lessened tally.old.amounts B.amounts; owns = lessened tally.old.owns B.owns } }
        ensures gone { result ≡ record tally.old { amounts = B.amounts; owns = B.owns } }
    {
        let mut mine = taken(&mut tally.badge);
        let other = self.table.shared.split_seat::<Cut<B>>(&mut mine);
        tally.badge = mine.into_badge();
        Tally {
            badge: other.into_badge(),
        }
    }

    // The same of an amount at a place. The call picks the part by its arguments.
    fn cut_amount<B: Part>(
        &self,
        tally: &mut Tally<T::Label>,
        place: u32,
        amount: u64,
    ) -> Tally<T::Label>
        requires cell { tally.old.id ≡ self.now.id }
        requires part { (B.amounts ≡ alone (length tally.old.amounts) place amount) × (B.owns ≡ []) }
        requires place { place < self.now.shared }
        requires amount { amount ≤ slice_index tally.old.amounts place }
        ensures left { tally.new ≡ record tally.old { amounts = slice_set tally.old.amounts place (slice_index tally.old.amounts place - amount) } }
        ensures gone { result ≡ record tally.old { amounts = alone (length tally.old.amounts) place amount; owns = [] } }
    {
        self.cut::<B>(tally)
    }

    // The same of all that a tally has at places that it owns.
    fn cut_places<B: Part>(&self, tally: &mut Tally<T::Label>, places: &[u32]) -> Tally<T::Label>
        requires cell { tally.old.id ≡ self.now.id }
        requires part { (B.amounts ≡ picked places.now tally.old.amounts) × (B.owns ≡ picked places.now tally.old.owns) }
        ensures left { tally.new ≡ left_after tally.old places.now }
        ensures gone { result ≡ gone_after tally.old places.now }
    {
        self.cut::<B>(tally)
    }

    /// Moves an amount of a shared place to a new tally, which owns nothing.
    pub fn split(&self, tally: &mut Tally<T::Label>, place: u32, amount: u64) -> Tally<T::Label>
        requires cell { tally.old.id ≡ self.now.id }
        requires place { place < self.now.shared }
        requires amount { amount ≤ slice_index tally.old.amounts place }
        ensures left { tally.new ≡ record tally.old { amounts = slice_set tally.old.amounts place (slice_index tally.old.amounts place - amount) } }
        ensures gone { result ≡ record tally.old { amounts = alone (length tally.old.amounts) place amount; owns = [] } }
        ensures moved { (slice_index result.amounts place ≡ amount) × (slice_index tally.new.amounts place + amount ≡ slice_index tally.old.amounts place) }
        ensures others { (p : ℕ) → p ≢ place → (slice_index result.amounts p ≡ 0) × (slice_index tally.new.amounts p ≡ slice_index tally.old.amounts p) }
    {
        self.cut_amount::<Brand>(tally, place, amount)
    }

    /// Moves owned places, with all that the tally has there, to a new tally.
    pub fn split_own(&self, tally: &mut Tally<T::Label>, places: &[u32]) -> Tally<T::Label>
        requires cell { tally.old.id ≡ self.now.id }
        requires owned { All (λ p. slice_index tally.old.owns p ≢ 0) places.now }
        ensures left { tally.new ≡ left_after tally.old places.now }
        ensures gone { result ≡ gone_after tally.old places.now }
        ensures moved { All (IsMoved tally.old tally.new result) places.now }
        ensures others { (p : ℕ) → All (λ q. q ≢ p) places.now → IsLeft tally.old tally.new result p }
    {
        self.cut_places::<Brand>(tally, places)
    }

    /// Moves all that another tally has to the tally.
    pub fn join(&self, tally: &mut Tally<T::Label>, other: Tally<T::Label>)
        requires cell { tally.old.id ≡ self.now.id }
        requires other { other.id ≡ self.now.id }
        ensures joined { tally.new ≡ joined tally.old other }
        ensures amounts { (p : ℕ) → slice_index tally.new.amounts p ≡ slice_index tally.old.amounts p + slice_index other.amounts p }
        ensures owns { (p : ℕ) → slice_index tally.new.owns p ≡ slice_index tally.old.owns p + slice_index other.owns p }
    {
        let Tally { badge } = other;
        let mut mine = taken(&mut tally.badge);
        self.table
            .shared
            .join_seat::<Both>(&mut mine, badge.into_seat());
        tally.badge = mine.into_badge();
    }

    /// Changes nothing. It tells that a tally's amount at a place is at most the greatest u64, as the place's total is.
    pub fn bound(&self, tally: &mut Tally<T::Label>, place: u32)
        requires cell { tally.old.id ≡ self.now.id }
        requires place { place < self.now.shared + self.now.owned }
        ensures tally { tally.new ≡ tally.old }
        ensures bound { slice_index tally.old.amounts place < 2 ^ 64 }
    {
        let mut mine = taken(&mut tally.badge);
        self.table
            .shared
            .load::<Bound>(&mut mine, place as usize + 1);
        tally.badge = mine.into_badge();
    }
}

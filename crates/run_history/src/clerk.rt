ghost use Rattle.std.specs.Prelude.{◌≡◌, ◌<◌, ◌∷◌, ◌++◌, []};
ghost use Rattle.run_model.specs.Histories.{part_of, IsPrefix};
ghost use Rattle.run_model.specs.Runs.{IsDue, IsRun, WasSent};
ghost use Rattle.run_history.specs.Steps.{part_with};
ghost use Rattle.run_history.specs.Ticks.{entries_of, EndsWith};

use crate::desk::Desk;
use crate::note::Note;
use crate::steps::{Seat, draw_as, learn_as, note_as};
use crate::view::View;
use atomic_table::Badge;
use run_model::Entry;
use std::marker::{Brand, Model};
use std::mem;

/// The right to draw the entries of one replica. It knows a front of the history, which has all that
/// it drew. It has no bytes beside its number, and may go to another thread.
#[derive(Drop)]
pub struct Clerk {
    pub(crate) replica: u32,
    pub(crate) badge: Badge<View>,
}

impl Model for Clerk {
    ghost use Rattle.run_history.specs.Seats.{ClerkView};
    ghost use Rattle.run_history.specs.Steps.{HoldsClerk, seen_in, pairs_in};

    ghost Value = { ClerkView };

    ghost view = { λ c. record {
      table = c.badge.table_id;
      replica = c.replica;
      seen = seen_in c.badge.views;
      pairs = pairs_in c.badge.views;
    } };

    ghost invariant = { λ c. HoldsClerk c.replica c.badge.views };
}

impl Clerk {
    // The seat by which it draws.
    pub(crate) fn into_seat(self) -> Seat
        ensures seat { (result.table_id ≡ self.table) × (result.me.1 ≡ []) }
        ensures seen { result.me.0.seen ≡ self.seen }
        ensures part { result.me.0.parts ≡ part_with self.replica self.pairs ∷ [] }
    {
        let Clerk { replica: _, badge } = self;
        badge.into_seat::<()>()
    }

    /// The replica whose entries it draws.
    pub fn replica(&self) -> u32
        ensures replica { result ≡ self.now.replica }
        ensures own { part_of self.now.seen self.now.replica ≡ entries_of self.now.pairs }
    {
        self.replica
    }

    /// Draws an entry, and gives its tick: its place in the history, from 0 on. It costs one
    /// fetch-and-add and takes no memory.
    pub fn draw(&mut self, desk: &Desk, entry: &Entry) -> u64
        requires desk { self.old.table ≡ desk.now.table }
        requires replica { entry.now.replica ≡ self.old.replica }
        requires due { IsDue desk.now.setup (entries_of self.old.pairs) entry.now }
        requires sent { WasSent self.old.seen entry.now.act }
        ensures desk { self.new.table ≡ self.old.table }
        ensures replica { self.new.replica ≡ self.old.replica }
        ensures drawn { self.new.pairs ≡ self.old.pairs ++ (result, entry.now) ∷ [] }
        ensures seen { EndsWith entry.now result self.old.seen self.new.seen }
        ensures run { IsRun desk.now.setup self.new.seen }
        ensures own { part_of self.new.seen self.new.replica ≡ entries_of self.new.pairs }
    {
        let mut seat = mem::replace(&mut self.badge, Badge::blank()).into_seat::<()>();
        let tick = draw_as::<Brand, Brand>(&desk.table, &mut seat, entry);
        self.badge = seat.into_badge();
        tick
    }

    /// A note of what it has seen.
    pub fn note(&mut self, desk: &Desk) -> Note
        requires { self.old.table ≡ desk.now.table }
        ensures kept { self.new ≡ self.old }
        ensures desk { result.table ≡ self.old.table }
        ensures seen { result.seen ≡ self.old.seen }
        ensures own { part_of self.new.seen self.new.replica ≡ entries_of self.new.pairs }
    {
        let mut seat = mem::replace(&mut self.badge, Badge::blank()).into_seat::<()>();
        let note = note_as(&desk.table, &mut seat);
        self.badge = seat.into_badge();
        Note {
            badge: note.into_badge(),
        }
    }

    /// Takes in what a note has seen.
    pub fn learn(&mut self, desk: &Desk, note: Note)
        requires desk { self.old.table ≡ desk.now.table }
        requires note { note.table ≡ desk.now.table }
        ensures desk { self.new.table ≡ self.old.table }
        ensures replica { self.new.replica ≡ self.old.replica }
        ensures among { self.new.replica < desk.now.setup.replicas }
        ensures drawn { self.new.pairs ≡ self.old.pairs }
        ensures mine { IsPrefix self.old.seen self.new.seen }
        ensures note { IsPrefix note.seen self.new.seen }
        ensures run { IsRun desk.now.setup self.new.seen }
        ensures own { part_of self.new.seen self.new.replica ≡ entries_of self.new.pairs }
    {
        let mut seat = mem::replace(&mut self.badge, Badge::blank()).into_seat::<()>();
        let Note { badge } = note;
        learn_as::<Brand>(&desk.table, &mut seat, badge.into_seat::<()>());
        self.badge = seat.into_badge();
    }
}

ghost use Rattle.std.specs.Prelude.{◌≡◌, length};
ghost use Rattle.run_model.specs.Histories.{IsPrefix};
ghost use Rattle.run_model.specs.Runs.{IsRun};

use crate::desk::Desk;
use crate::steps::{look_as, meet_as, note_as};
use crate::view::View;
use atomic_table::Badge;
use std::marker::{Brand, Model};
use std::mem;

/// A front of the history that was seen. It has no bytes, and may go to another thread.
#[derive(Drop)]
pub struct Note {
    pub(crate) badge: Badge<View>,
}

impl Model for Note {
    ghost use Rattle.run_history.specs.Seats.{NoteView};
    ghost use Rattle.run_history.specs.Steps.{HoldsNote, seen_in};

    ghost Value = { NoteView };

    ghost view = { λ n. record { table = n.badge.table_id; seen = seen_in n.badge.views } };

    ghost invariant = { λ n. HoldsNote n.badge.views };
}

impl Note {
    /// Another note of the same front.
    pub fn twin(&mut self, desk: &Desk) -> Note
        requires { self.old.table ≡ desk.now.table }
        ensures kept { self.new ≡ self.old }
        ensures twin { result ≡ self.old }
    {
        let mut seat = mem::replace(&mut self.badge, Badge::blank()).into_seat::<()>();
        let twin = note_as(&desk.table, &mut seat);
        self.badge = seat.into_badge();
        Note {
            badge: twin.into_badge(),
        }
    }

    /// Takes in what another note has seen.
    pub fn meet(&mut self, desk: &Desk, other: Note)
        requires desk { self.old.table ≡ desk.now.table }
        requires other { other.table ≡ desk.now.table }
        ensures desk { self.new.table ≡ self.old.table }
        ensures mine { IsPrefix self.old.seen self.new.seen }
        ensures other { IsPrefix other.seen self.new.seen }
        ensures run { IsRun desk.now.setup self.new.seen }
    {
        let mut seat = mem::replace(&mut self.badge, Badge::blank()).into_seat::<()>();
        let Note { badge } = other;
        meet_as::<Brand>(&desk.table, &mut seat, badge.into_seat::<()>());
        self.badge = seat.into_badge();
    }

    /// Sees the history as it is, and gives how many entries it has.
    pub fn look(&mut self, desk: &Desk) -> u64
        requires { self.old.table ≡ desk.now.table }
        ensures desk { self.new.table ≡ self.old.table }
        ensures entries { result ≡ length self.new.seen }
        ensures seen { IsPrefix self.old.seen self.new.seen }
        ensures run { IsRun desk.now.setup self.new.seen }
    {
        let mut seat = mem::replace(&mut self.badge, Badge::blank()).into_seat::<()>();
        let entries = look_as::<Brand>(&desk.table, &mut seat);
        self.badge = seat.into_badge();
        entries
    }
}

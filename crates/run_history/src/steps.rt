// The steps on the history table, as seats make them.
ghost use Rattle.std.specs.Prelude.{◌≡◌, ◌++◌, ◌<◌, ◌+◌, ◌∷◌, true, [], ℕ};
ghost use Rattle.run_model.specs.Runs.{IsDue, WasSent};
ghost use Rattle.run_history.specs.Steps.{IsClerk, IsDrawn, IsLooked, IsNote, IsSeatOf, Meets, first_pairs, joined, noted, nothing_known, part_with};
ghost use Rattle.run_history.specs.Ticks.{entries_of};

use crate::plays::{Both, Comes, Draws, Enrols, Hands, Looks, Notes, OneHistory, Told, ToldEntry};
use crate::view::View;
use run_model::{Config, Entry};
use std::alloc::Global;

pub type Seat = atomic_table::Seat<(), View>;

pub type Table = atomic_table::Table<(), View, Config, OneHistory, Global>;

/// Draws an entry with a clerk's seat, and gives its tick.
pub fn draw_as<T: Told, E: ToldEntry>(table: &Table, seat: &mut Seat, entry: &Entry) -> u64
    requires told { (T.setup ≡ table.now.shared.key) × (E.entry ≡ entry.now) }
    requires table { IsSeatOf table.now.shared.table_id seat.old.table_id }
    requires clerk { IsClerk entry.now.replica seat.old.me.0 }
    requires due { IsDue T.setup (entries_of (first_pairs seat.old.me.0.parts)) entry.now }
    requires sent { WasSent seat.old.me.0.seen entry.now.act }
    ensures seat { (seat.new.table_id ≡ seat.old.table_id) × (seat.new.me.1 ≡ seat.old.me.1) }
    ensures drawn { IsDrawn T.setup entry.now seat.old.me.0 result seat.new.me.0 }
{
    table.shared.fetch_add::<Draws<T, E>>(seat, 0, 1)
}

/// Looks with a seat, and gives the length of the history.
pub fn look_as<T: Told>(table: &Table, seat: &mut Seat) -> u64
    requires told { T.setup ≡ table.now.shared.key }
    requires table { IsSeatOf table.now.shared.table_id seat.old.table_id }
    ensures seat { (seat.new.table_id ≡ seat.old.table_id) × (seat.new.me.1 ≡ seat.old.me.1) }
    ensures looked { IsLooked T.setup seat.old.me.0 result seat.new.me.0 }
{
    table.shared.load::<Looks<T>>(seat, 0)
}

/// A note of what a seat knows.
pub fn note_as(table: &Table, seat: &mut Seat) -> Seat
    requires table { IsSeatOf table.now.shared.table_id seat.old.table_id }
    ensures seat { (seat.new.table_id ≡ seat.old.table_id) × (seat.new.me ≡ seat.old.me) }
    ensures note { (result.table_id ≡ seat.old.table_id) × (result.me ≡ (noted seat.old.me.0, [])) }
{
    table.shared.split_seat::<Notes>(seat)
}

/// Takes in what another seat has.
pub fn join_as(table: &Table, seat: &mut Seat, other: Seat)
    requires table { IsSeatOf table.now.shared.table_id seat.old.table_id }
    requires other { (other.table_id ≡ table.now.shared.table_id) × (other.me.1 ≡ []) }
    ensures seat { (seat.new.table_id ≡ seat.old.table_id)
        × (seat.new.me ≡ (joined seat.old.me.0 other.me.0, seat.old.me.1)) }
{
    table.shared.join_seat::<Both>(seat, other)
}

/// A clerk's seat takes in a note's and looks.
pub fn learn_as<T: Told>(table: &Table, seat: &mut Seat, note: Seat)
    requires told { T.setup ≡ table.now.shared.key }
    requires table { IsSeatOf table.now.shared.table_id seat.old.table_id }
    requires other { (note.table_id ≡ table.now.shared.table_id) × (note.me.1 ≡ []) }
    requires note { IsNote note.me.0 }
    ensures seat { (seat.new.table_id ≡ seat.old.table_id) × (seat.new.me.1 ≡ seat.old.me.1) }
    ensures clerk { (replica : ℕ) → IsClerk replica seat.old.me.0 → IsClerk replica seat.new.me.0 }
    ensures among { (replica : ℕ) → IsClerk replica seat.old.me.0 → replica < T.setup.replicas }
    ensures parts { seat.new.me.0.parts ≡ seat.old.me.0.parts }
    ensures seen { Meets T.setup seat.old.me.0 note.me.0 seat.new.me.0 }
{
    join_as(table, seat, note);
    let _ = look_as::<T>(table, seat);
}

/// A note's seat takes in another's and looks.
pub fn meet_as<T: Told>(table: &Table, seat: &mut Seat, other: Seat)
    requires told { T.setup ≡ table.now.shared.key }
    requires table { IsSeatOf table.now.shared.table_id seat.old.table_id }
    requires other { (other.table_id ≡ table.now.shared.table_id) × (other.me.1 ≡ []) }
    requires note { IsNote seat.old.me.0 }
    requires other_note { IsNote other.me.0 }
    ensures seat { (seat.new.table_id ≡ seat.old.table_id) × (seat.new.me.1 ≡ seat.old.me.1) }
    ensures note { IsNote seat.new.me.0 }
    ensures seen { Meets T.setup seat.old.me.0 other.me.0 seat.new.me.0 }
{
    join_as(table, seat, other);
    let _ = look_as::<T>(table, seat);
}

/// Enrols the replica of the next number, and gives the seat of its clerk.
pub fn enrol_as(table: &Table, seat: &mut Seat) -> Seat
    requires table { IsSeatOf table.now.shared.table_id seat.old.table_id }
    requires opener { (seat.old.me.0.opens ≡ true) × (seat.old.me.0.parts ≡ [])
        × (seat.old.me.0.seen ≡ []) }
    requires room { seat.old.me.0.enrolled < table.now.shared.key.replicas }
    ensures seat { (seat.new.table_id ≡ seat.old.table_id) × (seat.new.me.1 ≡ seat.old.me.1) }
    ensures opener { (seat.new.me.0.opens ≡ true) × (seat.new.me.0.parts ≡ [])
        × (seat.new.me.0.seen ≡ []) }
    ensures enrolled { seat.new.me.0.enrolled ≡ seat.old.me.0.enrolled + 1 }
    ensures clerk { (result.table_id ≡ seat.old.table_id) × (result.me.1 ≡ [])
        × IsClerk seat.old.me.0.enrolled result.me.0 }
    ensures fresh { (result.me.0.seen ≡ [])
        × (result.me.0.parts ≡ part_with seat.old.me.0.enrolled [] ∷ []) }
{
    let _ = table.shared.fetch_add::<Enrols>(seat, 1, 1);
    table.shared.split_seat::<Hands>(seat)
}

/// A seat that knows nothing.
pub fn come_as(table: &Table) -> Seat
    requires { table.now.shared.table_id.words ≡ 2 }
    ensures seat { (result.table_id ≡ table.now.shared.table_id) × (result.me ≡ (nothing_known, [])) }
{
    let (_, seat) = table.shared.load_new_seat::<Comes>(0);
    seat
}

ghost use Rattle.std.specs.Prelude.{◌≡◌, ◌≢◌, [], All, AllPairs, IfOk, map};
ghost use Rattle.std.specs.List.{range_with_len};
ghost use Rattle.run_model.specs.Histories.{IsPrefix};
ghost use Rattle.run_model.specs.Promises.{IsKept};
ghost use Rattle.run_model.specs.Runs.{IsRun};
ghost use Rattle.run_history.specs.Closing.{all_drawn, AreAllThere, Gathers};
ghost use Rattle.run_history.specs.Seats.{fresh_clerk, fresh_clerks};
ghost use Rattle.run_history.specs.Steps.{IsSeatOf, opener};
ghost use Rattle.run_history.specs.Ticks.{drawn_by, IsMerge};

use crate::clerk::Clerk;
use crate::history::History;
use crate::steps::{Seat, Table, come_as, enrol_as, join_as, look_as};
use run_model::Config;
use std::alloc::Global;
use std::marker::{Brand, Model};
use tact_base::NoMemory;

/// The history table, which all threads share: two words.
#[derive(Drop)]
pub struct Desk {
    pub(crate) table: Table,
}

impl Model for Desk {
    ghost use Rattle.std.specs.Prelude.{◌≡◌};
    ghost use Rattle.tact_base.specs.Setup.{IsSetup};
    ghost use Rattle.run_history.specs.Seats.{DeskView};

    ghost Value = { DeskView };

    ghost view = { λ d. record { table = d.table.shared.table_id; setup = d.table.shared.key } };

    ghost invariant = { λ d. (d.table.shared.table_id.words ≡ 2) × IsSetup d.table.shared.key };
}

impl Desk {
    /// A desk for the setup, with an empty history, and its clerks: one for each replica, in rising
    /// order. Alone of all calls it takes memory, and `NoMemory` is its only error.
    pub fn new(alloc: Global, config: &Config) -> Result<(Desk, Vec<Clerk>), NoMemory>
        ensures setup { IfOk result (λ made. made.0.setup ≡ config.now) }
        ensures clerks { IfOk result (λ made. made.1.items ≡ fresh_clerks made.0) }
    {
        let replicas = config.replicas();
        let (table, mut seat) = Table::of_words(alloc, &[0, 0], config)?;
        let clerks = enrol_all(alloc, &table, &mut seat, replicas)?;
        Ok((Desk { table }, clerks))
    }

    /// Ends the desk and its clerks, of which each replica's is given, and gives the history of all
    /// that they drew.
    pub fn close(self, clerks: Vec<Clerk>) -> History
        requires desk { All (λ clerk. clerk.table ≡ self.table) clerks.items }
        requires whole { AreAllThere self.setup.replicas clerks.items }
        ensures merge { IsMerge (all_drawn clerks.items) result }
        ensures parts { All (λ clerk. clerk.pairs ≡ drawn_by result clerk.replica) clerks.items }
        ensures apart { AllPairs (λ one other. one.replica ≢ other.replica) clerks.items }
        ensures run { IsRun self.setup result }
        ensures kept { IsKept self.setup result }
        ensures seen { All (λ clerk. IsPrefix clerk.seen result) clerks.items }
    {
        let mut seat = gather(&self.table, clerks);
        let count = look_as::<Brand>(&self.table, &mut seat);
        History {
            count,
            badge: seat.into_badge(),
        }
    }
}

// Enrols the clerks of all replicas, in rising order, with the first seat.
fn enrol_all(
    alloc: Global,
    table: &Table,
    seat: &mut Seat,
    replicas: u32,
) -> Result<Vec<Clerk>, NoMemory>
    requires table { IsSeatOf table.now.shared.table_id seat.old.table_id }
    requires opener { seat.old.me.0 ≡ opener table.now.shared.key }
    requires replicas { replicas ≡ table.now.shared.key.replicas }
    ensures { IfOk result (λ clerks.
        clerks.items ≡ map (fresh_clerk table.now.shared.table_id) (range_with_len 0 replicas)) }
{
    let mut clerks = Vec::new(alloc);
    for replica in 0..replicas {
        let badge = enrol_as(table, seat).into_badge();
        clerks.push(Clerk { replica, badge })?;
    }
    Ok(clerks)
}

// A seat that takes in all that clerks have.
fn gather(table: &Table, clerks: Vec<Clerk>) -> Seat
    requires table { table.now.shared.table_id.words ≡ 2 }
    requires clerks { All (λ clerk. clerk.table ≡ table.now.shared.table_id) clerks.items }
    ensures seat { (result.table_id ≡ table.now.shared.table_id) × (result.me.1 ≡ []) }
    ensures gathered { Gathers clerks.items result.me.0 }
{
    let mut seat = come_as(table);
    for clerk in clerks {
        join_as(table, &mut seat, clerk.into_seat());
    }
    seat
}

//! Places that are sold among the replicas of a setup, trade by trade.
ghost use Rattle.std.specs.Prelude.{◌≡◌, ◌<◌, ◌≤◌, ◌∷◌, ◌++◌, [], IfOk, OnErr, OnOk, length};
ghost use Rattle.tact_base.specs.declared.limits.TheConstants.{MOMENT_MAX};
ghost use Rattle.run_model.specs.Histories.{part_of, sent_in};
ghost use Rattle.run_model.specs.Order.{value};
ghost use Rattle.run_model.specs.Promises.{IsKept};
ghost use Rattle.run_model.specs.Runs.{IsRun};
ghost use Rattle.seat_app.specs.Booked.{MayTrade};
ghost use Rattle.seat_app.specs.Bookings.{booked_by, entries_of, network_of, with_trade};
ghost use Rattle.seat_app.specs.Careful.{IsCareful, IsNeverOversold};

use crate::dealing::deal;
use crate::{Handed, Outcome, Seats, TRADES_MAX, Trade};
use replica_network::Network;
use run_model::{Config, Entry};
use std::alloc::Global;
use std::marker::Model;
use tact_base::{NoMemory, RoomyList};

/// The replicas of a setup at which places are sold, all entries that the trades and the messages between the replicas
/// make, and all trades. Contracts see the setup, the places and the trades; from these all follows that was made
/// (`booked`).
#[derive(Drop)]
pub struct Booking {
    network: Network,
    seats: Seats,
    trades: RoomyList<Handed>,
}

impl Model for Booking {
    ghost use Rattle.seat_app.specs.Bookings.{BookingState, HasBooked};

    ghost Value = { BookingState };

    ghost view = { λ b. record { setup = b.network.setup; seats = b.seats; trades = b.trades.items } };

    ghost invariant = { λ b. HasBooked (view b) b.network };
}

impl Booking {
    /// The replicas of a setup, at which nothing was sold. They keep what they have in memory of `alloc`. `NoMemory` is
    /// the only error.
    pub fn new(alloc: Global, config: &Config, seats: Seats) -> Result<Booking, NoMemory>
        requires { seats.conit < config.now.conits }
        ensures { IfOk result (λ booking. booking ≡ record { setup = config.now; seats = seats; trades = [] }) }
    {
        Ok(Booking {
            network: Network::new(alloc, config)?,
            seats,
            trades: RoomyList::new(alloc),
        })
    }

    /// Makes one trade at a moment: places are sold or cancelled at a replica, as `Seats::sell` and `Seats::cancel`
    /// have it, with the key 0 and the client 0; a replica sends to another, with zeros as the firsts; or what was
    /// sent is taken. The moment of an entry is the greater of the handed one and that of the replica's last entry.
    ///
    /// Whatever is lost, repeated or reordered, the entries are a run that keeps its promises, each replica accepts
    /// only what leaves room, and at every point, of all writes that all replicas accepted, the places that are sold
    /// are between 0 and the capacity. `NoMemory` is the only error, and leaves all as it was.
    pub fn step(&mut self, moment: u64, trade: &Trade) -> Result<Outcome, NoMemory>
        requires moment { moment ≤ MOMENT_MAX }
        requires may { MayTrade (network_of self.old) trade.now }
        requires few { length self.old.trades < TRADES_MAX }
        ensures traded { OnOk result (self.new ≡ with_trade self.old moment trade.now) }
        ensures outcome { IfOk result (λ outcome.
            (booked_by self.new).outcomes ≡ (booked_by self.old).outcomes ++ outcome ∷ []) }
        ensures run { IsRun self.new.setup (entries_of self.new) }
        ensures kept { IsKept self.new.setup (entries_of self.new) }
        ensures careful { IsCareful self.new.setup self.new.seats (entries_of self.new) }
        ensures never_oversold { IsNeverOversold self.new.setup self.new.seats (entries_of self.new) }
        ensures err { OnErr result (self.new ≡ self.old) }
    {
        self.trades.reserve(1)?;
        let outcome = deal(&self.seats, &mut self.network, moment, trade)?;
        self.trades.push(Handed {
            moment,
            trade: *trade,
        });
        Ok(outcome)
    }

    /// All entries, in order. Takes no memory.
    pub fn entries(&self) -> &[Entry]
        ensures { result.now ≡ entries_of self.now }
    {
        self.network.entries()
    }

    /// How many places are sold of all that a replica has seen: its value of the conit. Takes no memory.
    pub fn value(&self, replica: u32) -> i64
        requires { replica < self.now.setup.replicas }
        ensures { result ≡ value self.now.setup replica (part_of (entries_of self.now) replica) self.now.seats.conit }
    {
        self.network.at(replica).value(self.seats.conit())
    }

    /// How many messages were sent. Takes no memory.
    pub fn sent(&self) -> u64
        ensures { result ≡ length (sent_in (entries_of self.now)) }
    {
        self.network.sent()
    }

    /// All trades, in order, each with the moment that was handed to it. Takes no memory.
    pub fn trades(&self) -> &[Handed]
        ensures { result.now ≡ self.now.trades }
    {
        self.trades.items()
    }
}

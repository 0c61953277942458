//! One trade among the replicas of a setup.
ghost use Rattle.std.specs.Prelude.{◌≡◌, ◌<◌, ◌≤◌, length, unsigned_abs, IfOk, OnErr};
ghost use Rattle.tact_base.specs.declared.limits.TheConstants.{HISTORY_MAX, MOMENT_MAX, WEIGHT_MAX};
ghost use Rattle.seat_app.specs.Booked.{MayTrade, changed, traded};
ghost use Rattle.seat_app.specs.Bookings.{GoesOnBy, SellsCarefully};
ghost use Rattle.seat_app.specs.declared.trades.Outcome.TheVariants.{Traded};

use crate::sale::sale_of;
use crate::{CLIENT, KEY, Outcome, Sale, Seats, Trade};
use replica_network::Network;
use tact_base::NoMemory;

/// Makes a trade at a moment. `NoMemory` is the only error, and leaves all as it was.
pub(crate) fn deal(
    seats: &Seats,
    network: &mut Network,
    moment: u64,
    trade: &Trade,
) -> Result<Outcome, NoMemory>
    requires careful { SellsCarefully seats.now network.old }
    requires few { length network.old.entries < HISTORY_MAX }
    requires moment { moment ≤ MOMENT_MAX }
    requires may { MayTrade network.old trade.now }
    ensures goes { IfOk result (GoesOnBy seats.now (λ before. traded seats.now before moment trade.now)
        network.old network.new) }
    ensures err { OnErr result (network.new ≡ network.old) }
{
    match *trade {
        Trade::Sell { replica, amount } => {
            let sale = change(seats, network, moment, replica, amount as i64)?;
            Ok(Outcome::Traded(sale))
        }
        Trade::Cancel { replica, amount } => {
            let sale = change(seats, network, moment, replica, -(amount as i64))?;
            Ok(Outcome::Traded(sale))
        }
        Trade::Send { from, to } => {
            network.send(moment, from, to)?;
            Ok(Outcome::Moved)
        }
        Trade::Take { message } => {
            network.take(moment, message)?;
            Ok(Outcome::Moved)
        }
    }
}

// Asks a replica for so many places more or, below 0, fewer.
fn change(
    seats: &Seats,
    network: &mut Network,
    moment: u64,
    replica: u32,
    change: i64,
) -> Result<Sale, NoMemory>
    requires careful { SellsCarefully seats.now network.old }
    requires few { length network.old.entries < HISTORY_MAX }
    requires moment { moment ≤ MOMENT_MAX }
    requires replica { replica < network.old.setup.replicas }
    requires size { unsigned_abs change ≤ WEIGHT_MAX }
    ensures goes { IfOk result (λ sale. GoesOnBy seats.now (λ before. changed seats.now before moment replica change)
        network.old network.new (Traded sale)) }
    ensures err { OnErr result (network.new ≡ network.old) }
{
    if let Some(lack) = seats.lack(network.at(replica), change) {
        return Ok(lack);
    }
    let reply = network.call(moment, replica, CLIENT, &seats.request(KEY, change))?;
    Ok(sale_of(reply))
}

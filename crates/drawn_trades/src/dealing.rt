//! One trade, and what it came to.
ghost use Rattle.std.specs.Prelude.{◌≡◌, ◌+◌, ◌<◌, ◌≤◌, ◌∷◌, ◌++◌, [], IfOk, OnOk, length};
ghost use Rattle.tact_base.specs.declared.limits.TheConstants.{MOMENT_MAX};
ghost use Rattle.run_model.specs.Runs.{IsRun};
ghost use Rattle.seat_app.specs.Booked.{MayTrade};
ghost use Rattle.seat_app.specs.Bookings.{booked_by, entries_of, network_of, with_trade};
ghost use Rattle.seat_app.specs.Careful.{IsNeverOversold};
ghost use Rattle.seat_app.specs.declared.trades.TheConstants.{TRADES_MAX};
ghost use Rattle.drawn_trades.specs.Tallies.{accepted_deal, deals_in};

use crate::tally::Deal;
use seat_app::{Booking, Outcome, Sale, Trade};
use tact_base::NoMemory;

/// Makes a trade at a moment, and tells what it came to.
#[tactic(auto, using(crate::proofs::TallyLemmas::deals_more), unfolding(crate::specs::Tallies::deal_of))]
pub(crate) fn deal(booking: &mut Booking, moment: u64, trade: &Trade) -> Result<Deal, NoMemory>
    requires moment { moment ≤ MOMENT_MAX }
    requires may { MayTrade (network_of booking.old) trade.now }
    requires few { length booking.old.trades < TRADES_MAX }
    requires each { length (booked_by booking.old).outcomes ≡ length booking.old.trades }
    ensures traded { OnOk result (booking.new ≡ with_trade booking.old moment trade.now) }
    ensures each { OnOk result (length (booked_by booking.new).outcomes ≡ length (booked_by booking.old).outcomes + 1) }
    ensures deals { IfOk result (λ deal. deals_in booking.new ≡ deals_in booking.old ++ deal ∷ []) }
    ensures run { IsRun booking.new.setup (entries_of booking.new) }
    ensures never_oversold { IsNeverOversold booking.new.setup booking.new.seats (entries_of booking.new) }
{
    Ok(match booking.step(moment, trade)? {
        Outcome::Traded(Sale::Accepted { .. }) => accepted_deal(trade),
        Outcome::Traded(Sale::Over { .. }) => Deal::Over,
        Outcome::Traded(Sale::Under { .. }) => Deal::Under,
        Outcome::Traded(Sale::Waiting(_reply)) => Deal::Waiting,
        Outcome::Moved => Deal::Moved,
    })
}

// What an accepted trade is.
#[tactic(auto, unfolding(crate::specs::Tallies::accepted_deal))]
fn accepted_deal(trade: &Trade) -> Deal
    ensures { result ≡ accepted_deal trade.now }
{
    match trade {
        Trade::Sell { .. } => Deal::Sold,
        Trade::Cancel { .. } => Deal::Cancelled,
        Trade::Send { .. } | Trade::Take { .. } => Deal::Moved,
    }
}

//! The trades that a number draws.
ghost use Rattle.std.specs.Prelude.{◌≡◌, ◌+◌, ◌<◌, ◌≤◌, IfOk, OnOk, length};
ghost use Rattle.tact_base.specs.declared.limits.TheConstants.{MOMENT_MAX};
ghost use Rattle.run_model.specs.Reference.{reference};
ghost use Rattle.seat_app.specs.Bookings.{entries_of};
ghost use Rattle.seat_app.specs.declared.trades.TheConstants.{TRADES_MAX};
ghost use Rattle.drawn_trades.specs.DrawnTrades.{SellsAmongThree, drawn_trades, places, step_drawn, three};
ghost use Rattle.drawn_trades.specs.Tallies.{IsTallyOf};

use crate::dealing::deal;
use crate::reference::sold_in_all;
use crate::tally::Tally;
use crate::trades::trade_of_kind;
use drawn_scripts::Draws;
use script_text::Script;
use seat_app::{Booking, Seats};
use std::alloc::Global;
use tact_base::NoMemory;

// How many steps are drawn.
const STEPS: u64 = 1000;

/// What trades that a number draws came to: the booking that they made, how many came to what, and how many places are sold
/// then of all that all replicas accepted.
#[derive(Drop)]
pub struct DrawnTrades {
    pub booking: Booking,
    pub tally: Tally,
    pub places_sold: i64,
}

// Draws one more step, and makes its trade.
#[tactic(auto, unfolding(crate::specs::DrawnTrades::step_drawn))]
fn draw_step(
    draws: &mut Draws,
    number: u64,
    booking: &mut Booking,
    tally: &mut Tally,
) -> Result<(), NoMemory>
    requires among { SellsAmongThree booking.old }
    requires few { length booking.old.trades < TRADES_MAX }
    requires moment { number ≤ MOMENT_MAX }
    requires counted { IsTallyOf booking.old tally.old }
    ensures drawn { OnOk result (step_drawn number booking.old.trades draws.old ≡ (booking.new.trades, draws.new)) }
    ensures among { OnOk result (SellsAmongThree booking.new) }
    ensures few { OnOk result (length booking.new.trades ≤ length booking.old.trades + 1) }
    ensures counted { OnOk result (IsTallyOf booking.new tally.new) }
{
    let kind = draws.pick(10);
    if let Some(trade) = trade_of_kind(draws, booking.sent(), kind) {
        tally.count(deal(booking, number, &trade)?);
    }
    Ok(())
}

/// Makes the trades that a number draws, of 200 places at three replicas: 1,000 steps, each a sale, a cancellation, a
/// sending, or the taking of a message that was sent, once more or late as it comes. The same for the same number, on every
/// machine. `NoMemory` is the only error.
pub fn draw_trades(alloc: Global, number: u64) -> Result<DrawnTrades, NoMemory>
    ensures drawn { IfOk result (λ drawn. drawn.booking ≡ record { setup = three; seats = places; trades = drawn_trades number }) }
    ensures among { IfOk result (λ drawn. SellsAmongThree drawn.booking) }
    ensures counted { IfOk result (λ drawn. IsTallyOf drawn.booking drawn.tally) }
    ensures places_sold { IfOk result (λ drawn. drawn.places_sold ≡ reference three (entries_of drawn.booking) places.conit) }
{
    let script = Script::start(alloc, 3, 1, 60, 20)?;
    let mut draws = Draws::new(number);
    let mut booking = Booking::new(alloc, script.config(), Seats::new(0, 200))?;
    let mut tally = Tally::new();
    for step in 0..STEPS {
        draw_step(&mut draws, step, &mut booking, &mut tally)?;
    }
    let places_sold = sold_in_all(&booking);
    Ok(DrawnTrades {
        booking,
        tally,
        places_sold,
    })
}

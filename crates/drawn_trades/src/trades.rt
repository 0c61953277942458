//! What a step draws.
ghost use Rattle.std.specs.Prelude.{◌≡◌};
ghost use Rattle.drawn_trades.specs.DrawnTrades.{cancel_drawn, kind_drawn, sell_drawn, send_drawn, take_drawn};

use drawn_scripts::Draws;
use seat_app::Trade;

// A sale.
#[tactic(auto, unfolding(crate::specs::DrawnTrades::sell_drawn))]
fn sell_trade(draws: &mut Draws) -> Trade
    ensures { sell_drawn draws.old ≡ (result, draws.new) }
{
    let replica = draws.pick(3) as u32;
    let amount = 1 + draws.pick(5);
    Trade::Sell { replica, amount }
}

// A cancellation.
#[tactic(auto, unfolding(crate::specs::DrawnTrades::cancel_drawn))]
fn cancel_trade(draws: &mut Draws) -> Trade
    ensures { cancel_drawn draws.old ≡ (result, draws.new) }
{
    let replica = draws.pick(3) as u32;
    let amount = 1 + draws.pick(2);
    Trade::Cancel { replica, amount }
}

// A sending.
#[tactic(auto, unfolding(crate::specs::DrawnTrades::send_drawn))]
fn send_trade(draws: &mut Draws) -> Trade
    ensures { send_drawn draws.old ≡ (result, draws.new) }
{
    let from = draws.pick(3) as u32;
    let step = draws.pick(2) as u32;
    let to = (from + 1 + step) % 3;
    Trade::Send { from, to }
}

// The taking of one of so many messages, where there is one.
#[tactic(auto, unfolding(crate::specs::DrawnTrades::take_drawn))]
fn take_trade(draws: &mut Draws, sent: u64) -> Option<Trade>
    ensures { take_drawn sent draws.old ≡ (result, draws.new) }
{
    let message = draws.one_of(sent)?;
    Some(Trade::Take { message })
}

/// The trade of a kind, where so many messages were sent; none, where it would take a message of none.
pub(crate) fn trade_of_kind(draws: &mut Draws, sent: u64, kind: u64) -> Option<Trade>
    ensures { kind_drawn sent kind draws.old ≡ (result, draws.new) }
{
    match kind {
        0..=4 => Some(sell_trade(draws)),
        5 => Some(cancel_trade(draws)),
        6 | 7 => Some(send_trade(draws)),
        _ => take_trade(draws, sent),
    }
}

//! Trades of places drawn by a number: the generated input of guarded sales.
#![tactic(auto)]

mod dealing;
mod drawing;
mod reference;
mod tally;
mod trades;

pub use drawing::{DrawnTrades, draw_trades};
pub use tally::{Deal, Tally};

//! Guarded sales: places of one capacity are sold at every replica, and never too many, whatever the network does.
#![tactic(auto)]

mod booking;
mod dealing;
mod laws;
mod outs;
mod sale;
mod seats;
mod trades;

pub use booking::Booking;
pub use laws::careful_runs_never_oversell;
pub use sale::Sale;
pub use seats::Seats;
pub use trades::{CLIENT, Handed, KEY, Outcome, TRADES_MAX, Trade};

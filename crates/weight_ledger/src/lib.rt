//! Cells: a lock of whose value more is known than its type. Tallies outside of the cell keep amounts that the totals
//! of the value add up.
#![tactic(auto)]

mod cell;
mod counted;
mod held;
mod lock;
mod rule;
mod seats;
mod shares;
mod steps;
mod tally;
mod view;

pub use cell::{Cell, CellFault};
pub use counted::Counted;
pub use held::Held;
pub use tally::Tally;

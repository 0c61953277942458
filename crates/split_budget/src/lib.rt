//! The numerical budgets of one replica: how much its own writes may weigh on each conit before every peer
//! is known to have them.
#![tactic(auto)]

mod budget;
mod budgets;
mod missed;
mod opening;
mod own_writes;
mod side;

pub use budget::Budget;
pub use budgets::Budgets;
pub use tact_base::Fit;

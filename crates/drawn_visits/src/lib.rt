//! Steps of roaming clients drawn by a number: the generated input of the session guarantees.
#![tactic(auto)]

mod drawing;
mod steps;

pub use drawing::{DrawnVisits, draw_visits};

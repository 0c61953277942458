//! Events among peers drawn by a number: the generated input of the primary's order.
#![tactic(auto)]

mod drawing;
mod steps;

pub use drawing::draw_events;

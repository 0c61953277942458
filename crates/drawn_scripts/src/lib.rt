//! Scripts drawn by a number: the generated input of the drill.
#![tactic(auto)]

mod draws;
mod drill;
mod sent;
mod steps;
#[cfg(test)]
mod tests;

pub use draws::Draws;
pub use drill::drill_script;
pub use sent::SentOne;

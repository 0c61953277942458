//! How the program tells the way in which a command ended: its exit status, and the line on standard error.
#![tactic(auto)]

mod exits;
mod lines;
mod names;
#[cfg(test)]
mod tests;

pub use exits::exit_of;
pub use lines::status_line;

//! The world that a script runs in, and `play`.
#![tactic(auto)]

mod comments;
mod outbox;
mod outcome;
mod page;
mod playing;
mod stage;
mod witness;
mod world;

pub use drawn_scripts::{Draws, drill_script};
pub use outcome::Outcome;
pub use playing::play;
pub use run_model::Line;
pub use script_text::{Script, ScriptFault, parse_script};
pub use witness::{Witness, one_more};
pub use world::World;

//! What the text of a script says: its reader, and the law that a script's history is a run.
#![tactic(auto)]

mod call_forms;
mod dispatch;
mod fault;
mod forms;
mod good_lines;
mod laws;
mod peer_forms;
mod reader;
mod room;
mod script;
mod sent;
mod setups;
mod word;

pub use fault::ScriptFault;
pub use laws::{a_front_is_ready_for_its_next_line, a_script_is_a_run};
pub use script::{Script, parse_script};

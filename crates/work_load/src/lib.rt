//! Workloads: what the clients of a run ask for, over which links, as one JSON object.
#![tactic(auto)]

mod bounds;
mod clients;
mod entries;
mod fault;
mod forms;
mod head;
mod items;
mod laws;
mod links;
mod lists;
mod plan;
mod reader;
mod values;

pub use fault::LoadFault;
pub use laws::items_are_done_one_by_one;
pub use plan::{Client, ITEMS_MAX, Item, Items, Plan, SETTLE_MAX};
pub use reader::parse_plan;

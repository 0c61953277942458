//! Tests of what the texts of scripts say. Nothing else stands here: their crate is proved once without them.
#![tactic(auto)]

#[cfg(test)]
mod forms;
#[cfg(test)]
mod limits;
#[cfg(test)]
mod refusals;

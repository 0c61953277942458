//! Tests of the checker of records. Nothing else stands here: its crate is proved once without them.
#![tactic(auto)]

#[cfg(test)]
mod changed;
#[cfg(test)]
mod saying;
#[cfg(test)]
mod verdicts;

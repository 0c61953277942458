//! Tests of what workloads say. Nothing else stands here: their crate is proved once without them.
#![tactic(auto)]

#[cfg(test)]
mod faults;
#[cfg(test)]
mod plans;

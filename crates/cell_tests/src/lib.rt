//! Tests of cells, with threads.
#![tactic(auto)]

#[cfg(test)]
mod purse;
#[cfg(test)]
mod turns;

//! Tests of journals of replicas, by subject. Nothing else stands here: their crate is proved once without them.
#![tactic(auto)]

#[cfg(test)]
mod journaled;
#[cfg(test)]
mod kept;
#[cfg(test)]
mod pieces;
#[cfg(test)]
mod recovering;

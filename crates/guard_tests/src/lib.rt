//! Tests of roaming clients, by subject. Nothing else stands here: their crate is proved once without them.
#![tactic(auto)]

#[cfg(test)]
mod asking;
#[cfg(test)]
mod roaming;
#[cfg(test)]
mod visiting;

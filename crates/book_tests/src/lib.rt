//! Tests of the reference book. Nothing else stands here: its crate is proved once without them.
#![tactic(auto)]

#[cfg(test)]
mod errors;
#[cfg(test)]
mod images;
#[cfg(test)]
mod writes;

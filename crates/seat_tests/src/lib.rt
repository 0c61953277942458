//! Tests of guarded sales, by subject. Nothing else stands here: their crate is proved once without them.
#![tactic(auto)]

#[cfg(test)]
mod booking;
#[cfg(test)]
mod selling;

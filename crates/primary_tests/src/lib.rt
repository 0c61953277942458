//! Tests of peers whose primary numbers. Nothing else stands here: their crate is proved once without them.
#![tactic(auto)]

#[cfg(test)]
mod peers;

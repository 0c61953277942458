//! Tests of what threads do together, by subject. What no thread needs is tested in its own crate.
#![tactic(auto)]

#[cfg(test)]
mod history;

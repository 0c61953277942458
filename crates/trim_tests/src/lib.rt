//! Tests of what a replica gives up, of want of memory, and of a long run against the plain functions. Nothing else
//! stands here: its crate is proved once without them.
#![tactic(auto)]

#[cfg(test)]
mod asking;
#[cfg(test)]
mod drawn;
#[cfg(test)]
mod dropping;
#[cfg(test)]
mod member;
#[cfg(test)]
mod memory;
#[cfg(test)]
mod peeking;
#[cfg(test)]
mod plain;
#[cfg(test)]
mod readings;

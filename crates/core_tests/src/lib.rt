//! Tests of a replica, by subject. Nothing else stands here: its crate is proved once without them.
#![tactic(auto)]

#[cfg(test)]
mod asking;
#[cfg(test)]
mod calling;
#[cfg(test)]
mod fitting;
#[cfg(test)]
mod lending;
#[cfg(test)]
mod member;
#[cfg(test)]
mod reading;
#[cfg(test)]
mod readings;
#[cfg(test)]
mod replica;
#[cfg(test)]
mod saying;
#[cfg(test)]
mod taking;

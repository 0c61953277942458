//! Tests of nodes: where one ends, when one is full, and what clients in threads spend there.
#![tactic(auto)]

#[cfg(test)]
mod headless;
#[cfg(test)]
mod limits;
#[cfg(test)]
mod lone_client;
#[cfg(test)]
mod opened;
#[cfg(test)]
mod restarts;
#[cfg(test)]
mod spenders;
#[cfg(test)]
mod steady;
#[cfg(test)]
mod twins;

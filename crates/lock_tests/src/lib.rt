//! Tests of nodes, with threads.
#![tactic(auto)]

#[cfg(test)]
mod allowances;
#[cfg(test)]
mod boxes;
#[cfg(test)]
mod client;
#[cfg(test)]
mod four_nodes;
#[cfg(test)]
mod opened;
#[cfg(test)]
mod parcels;
#[cfg(test)]
mod records;
#[cfg(test)]
mod turns;
#[cfg(test)]
mod two_nodes;
#[cfg(test)]
mod writers;

//! Tests of runs of workloads on threads.
#![tactic(auto)]

#[cfg(test)]
mod gates;
#[cfg(test)]
mod kinds;
#[cfg(test)]
mod running;
#[cfg(test)]
mod runs;
#[cfg(test)]
mod shelves;

//! Tests of scripts, of what they are read from and written to, and of journals and shelves, by subject. Nothing else stands here:
//! the crates that they test are proved once without them.
#![tactic(auto)]

#[cfg(test)]
mod faults;
#[cfg(test)]
mod journals;
#[cfg(test)]
mod limits;
#[cfg(test)]
mod playing;
#[cfg(test)]
mod refusals;
#[cfg(test)]
mod sources_and_sinks;
#[cfg(test)]
mod worked_budgets;
#[cfg(test)]
mod worked_reads;
#[cfg(test)]
mod worked_scripts;
#[cfg(test)]
mod world;

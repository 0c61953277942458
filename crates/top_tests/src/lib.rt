//! Tests of the top call, by subject. Nothing else stands here: the crate that they test is proved once
//! without them.
#![tactic(auto)]

#[cfg(test)]
mod bulletin;
#[cfg(test)]
mod command_words;
#[cfg(test)]
mod drills;
#[cfg(test)]
mod faults;
#[cfg(test)]
mod obeying;
#[cfg(test)]
mod records;
#[cfg(test)]
mod runs;

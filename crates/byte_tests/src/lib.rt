//! Tests of what is written as bytes, by subject. Nothing else stands here: its crates are proved once without
//! them.
#![tactic(auto)]

#[cfg(test)]
mod call_bytes;
#[cfg(test)]
mod field_bytes;
#[cfg(test)]
mod message_bytes;

//! Tests of records, as bytes and as text. Nothing else stands here: their crate is proved once without them.
#![tactic(auto)]

#[cfg(test)]
mod record_bytes;
#[cfg(test)]
mod record_text;

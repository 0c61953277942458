//! The entries that nodes stored, as one record, and what the checker says of it.

use replica_lock::Stored;
use run_check::{Verdict, check_record, put_verdict};
use run_model::{Config, end_of, head_of, line_of};
use run_record::parse_text;
use std::alloc::Global;
use std::process::Abort;
use tact_base::Bytes;

/// The line that the checker says of all that nodes stored.
pub fn said_of(rt: &impl Abort, alloc: Global, config: &Config, stored: &[&Stored]) -> Bytes {
    let verdict = judged(rt, alloc, config, stored);
    let mut line = Bytes::new(alloc);
    put_verdict(alloc, &verdict, &mut line).expect(rt, "a line");
    line
}

/// What the checker says of all that nodes stored: printed by tick, and read again.
pub fn judged(rt: &impl Abort, alloc: Global, config: &Config, stored: &[&Stored]) -> Verdict {
    let text = text_of(rt, alloc, config, stored);
    let record = parse_text(alloc, text.items()).expect(rt, "a record");
    check_record(alloc, &record).expect(rt, "a verdict")
}

// The record of what nodes stored, as text, with the entries by tick.
fn text_of(rt: &impl Abort, alloc: Global, config: &Config, stored: &[&Stored]) -> Bytes {
    let mut pairs = Vec::new(alloc);
    for part in stored {
        for pair in part.pairs() {
            pairs.push(pair).expect(rt, "room for a pair");
        }
    }
    pairs.sort_by_key(|pair| pair.0).expect(rt, "room to sort");
    let mut text = Bytes::new(alloc);
    head_of(config, &mut text).expect(rt, "a head");
    for (_, entry) in pairs.iter() {
        line_of(entry, &mut text).expect(rt, "a line");
    }
    end_of(pairs.len() as u64, &mut text).expect(rt, "an end");
    text
}

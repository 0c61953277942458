//! The traits of the outside: sources that bytes are read from and sinks that they are written to, journals that keep
//! pieces of bytes and shelves that they come from, each with a count of its faults and its forms in memory; the real
//! edge; clocks, and gates that calls pass.
#![tactic(auto)]

mod clock;
mod edge;
mod fault;
mod gate;
mod journal;
mod memory_journal;
mod memory_shelf;
mod memory_sink;
mod memory_source;
mod piece_list;
mod reading;
mod schedule;
mod shelf;
mod sink;
mod source;
mod std_sink;
mod std_source;
mod writing;

pub use clock::{Clock, StdClock, StepClock};
pub use edge::StdStream;
pub use fault::{Failed, OutFault};
pub use gate::{FreeGate, Gate};
pub use journal::Journal;
pub use memory_journal::{JournalFail, MemJournal, SureJournal};
pub use memory_shelf::{MemShelf, SureShelf};
pub use memory_sink::{MemSink, SureSink};
pub use memory_source::{MemSource, SureSource};
pub use reading::{ReadEnd, read_all};
pub use shelf::Shelf;
pub use sink::Sink;
pub use source::Source;
pub use std_sink::StdSink;
pub use std_source::StdSource;
pub use writing::write_all;

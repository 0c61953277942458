//! Records from text to bytes, and back.
ghost use Rattle.std.specs.Prelude.{◌≤◌, IfOk, IfErr};
ghost use Rattle.tact_top.specs.Answers.{Completes, HasCause, IsEnd, Writes};
ghost use Rattle.tact_top.specs.RecordForms.{IsByteFault, IsPacked, IsTextFault, IsUnpacked};
ghost use Rattle.tact_top.specs.Refusals.{IsRefusalBy};

use crate::job::{Job, Output, Refusal, done};
use crate::reading::{read_bytes, read_text};
use run_model::Status;
use run_record::{bytes_of, print};
use std::alloc::Global;
use tact_base::Bytes;
use tact_io::{Sink, Source};

/// Reads a record as text to its end, and writes its bytes.
///
/// - `BadInput`: what was read is no record's text; its first line at fault, counted from 1, and the fault.
/// - `TooLong`: the source gave more than 67,108,864 bytes.
/// - `ReadFault`: the source failed in this call.
/// - `WriteFault`: the sink failed in this call. A front of the bytes was written.
/// - `NoMemory`: an allocation was refused. Nothing was written, or a front of the bytes.
///
/// After each answer but Done, WriteFault and NoMemory nothing was written.
pub fn pack<S: Source, K: Sink>(alloc: Global, source: &mut S, sink: &mut K) -> Status
    ensures cause { HasCause IsPacked IsTextFault result (S.left source.old) (S.left source.new)
        (S.faults source.old) (S.faults source.new) (K.faults sink.old) (K.faults sink.new) }
    ensures written { Writes IsPacked result (S.left source.old) (K.written sink.old) (K.written sink.new) }
    ensures complete { Completes IsPacked IsTextFault result (S.left source.old)
        (S.faults source.old) (S.faults source.new) (K.faults sink.old) (K.faults sink.new) }
    ensures reads_never_fall { S.faults source.old ≤ S.faults source.new }
    ensures writes_never_fall { K.faults sink.old ≤ K.faults sink.new }
{
    done::<Packing, S, K>(alloc, source, sink)
}

/// Reads a record as bytes to its end, and writes its text, without comments.
///
/// - `BadInput`: what was read is no record's bytes; the place of its first fault, counted from 0, and the
///   fault.
///
/// The other answers are those of [`pack`].
pub fn unpack<S: Source, K: Sink>(alloc: Global, source: &mut S, sink: &mut K) -> Status
    ensures cause { HasCause IsUnpacked IsByteFault result (S.left source.old) (S.left source.new)
        (S.faults source.old) (S.faults source.new) (K.faults sink.old) (K.faults sink.new) }
    ensures written { Writes IsUnpacked result (S.left source.old) (K.written sink.old) (K.written sink.new) }
    ensures complete { Completes IsUnpacked IsByteFault result (S.left source.old)
        (S.faults source.old) (S.faults source.new) (K.faults sink.old) (K.faults sink.new) }
    ensures reads_never_fall { S.faults source.old ≤ S.faults source.new }
    ensures writes_never_fall { K.faults sink.old ≤ K.faults sink.new }
{
    done::<Unpacking, S, K>(alloc, source, sink)
}

// A record's text is made bytes.
struct Packing;

impl Job for Packing {
    ghost asks = { IsPacked };

    ghost faults = { IsTextFault };

    fn make(alloc: Global, input: Bytes) -> Result<Output, Refusal> {
        let record = read_text(alloc, input.items())?;
        drop(input);
        let mut text = Bytes::new(alloc);
        bytes_of(&record, &mut text)?;
        Ok(Output {
            text,
            status: Status::Done,
        })
    }
}

// A record's bytes are made text.
struct Unpacking;

impl Job for Unpacking {
    ghost asks = { IsUnpacked };

    ghost faults = { IsByteFault };

    fn make(alloc: Global, input: Bytes) -> Result<Output, Refusal> {
        let record = read_bytes(alloc, input.items())?;
        drop(input);
        let mut text = Bytes::new(alloc);
        print(&record, &mut text)?;
        Ok(Output {
            text,
            status: Status::Done,
        })
    }
}

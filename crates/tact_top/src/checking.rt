//! Records are checked.
ghost use Rattle.std.specs.Prelude.{◌≡◌, ◌≤◌, IfOk, IfErr};
ghost use Rattle.tact_top.specs.Answers.{Completes, HasCause, IsEnd, Writes};
ghost use Rattle.tact_top.specs.Checked.{IsChecked, status_of};
ghost use Rattle.tact_top.specs.RecordForms.{IsRecordFault};
ghost use Rattle.tact_top.specs.Refusals.{IsRefusalBy};

use crate::job::{Job, Output, Refusal, done};
use crate::reading::read_record;
use run_check::{Verdict, check_record, put_verdict};
use run_model::Status;
use std::alloc::Global;
use tact_base::Bytes;
use tact_io::{Sink, Source};

/// Reads a record as text or as bytes to its end, checks whether it is that of a run, and writes the line that
/// says so.
///
/// - `Done`: it is. The line has how many entries of each kind there are.
/// - `Bad`: it isn't. The first entry that may not stand after those before it, counted from 0, and why not.
/// - `BadInput`: what was read is no record; the place and the kind of its first fault, in bytes where it
///   begins with `T`, else in text.
/// - `TooLong`: the source gave more than 67,108,864 bytes.
/// - `ReadFault`: the source failed in this call.
/// - `WriteFault`: the sink failed in this call. A front of the line was written.
/// - `NoMemory`: an allocation was refused. Nothing was written, or a front of the line.
///
/// After each answer but Done, Bad, WriteFault and NoMemory nothing was written.
pub fn check<S: Source, K: Sink>(alloc: Global, source: &mut S, sink: &mut K) -> Status
    ensures cause { HasCause IsChecked IsRecordFault result (S.left source.old) (S.left source.new)
        (S.faults source.old) (S.faults source.new) (K.faults sink.old) (K.faults sink.new) }
    ensures written { Writes IsChecked result (S.left source.old) (K.written sink.old) (K.written sink.new) }
    ensures complete { Completes IsChecked IsRecordFault result (S.left source.old)
        (S.faults source.old) (S.faults source.new) (K.faults sink.old) (K.faults sink.new) }
    ensures reads_never_fall { S.faults source.old ≤ S.faults source.new }
    ensures writes_never_fall { K.faults sink.old ≤ K.faults sink.new }
{
    done::<Checking, S, K>(alloc, source, sink)
}

// Of a record it is said whether it is that of a run.
struct Checking;

impl Job for Checking {
    ghost asks = { IsChecked };

    ghost faults = { IsRecordFault };

    fn make(alloc: Global, input: Bytes) -> Result<Output, Refusal> {
        let record = read_record(alloc, input.items())?;
        drop(input);
        let verdict = check_record(alloc, &record)?;
        let mut text = Bytes::new(alloc);
        put_verdict(alloc, &verdict, &mut text)?;
        Ok(Output {
            text,
            status: status_of(verdict),
        })
    }
}

// The status that says a verdict.
fn status_of(verdict: Verdict) -> Status
    ensures status { result ≡ status_of verdict }
    ensures ends { IsEnd result }
{
    match verdict {
        Verdict::Run(_) => Status::Done,
        Verdict::Bad { entry, cause } => Status::Bad { entry, cause },
    }
}

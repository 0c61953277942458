//! `play`: a script in, the text of its run out.
ghost use Rattle.std.specs.Prelude.{◌≡◌, ◌≤◌, ◌⊎◌, length, IfOk};
ghost use Rattle.run_model.specs.ScriptRuns.{play_text};
ghost use Rattle.run_model.specs.declared.status.Status.TheVariants.{Done, NoMemory as OutOfMemory};
ghost use Rattle.tact_base.specs.declared.limits.TheConstants.{SCRIPT_LINES};
ghost use Rattle.tact_io.specs.Faults.{HasRisen};
ghost use Rattle.script_text.specs.Scripts.{IsScript};
ghost use Rattle.script_text.specs.Setups.{setup_of};
ghost use Rattle.script_run.specs.Playing.{Completes, HasCause, IsWritten, Writes, WritesText};

use crate::page::Page;
use crate::stage::{Stage, step_all};
use crate::witness::Count;
use run_model::{InputKind, Status, end_of, head_of};
use script_text::{Script, ScriptFault, parse_script};
use std::alloc::Global;
use tact_base::{Bytes, INPUT_MAX, NoMemory};
use tact_io::{OutFault, ReadEnd, Sink, Source, read_all, write_all};

/// Reads a script to its end, runs it, and writes the text of the run: the lines that a record begins
/// with, for each line of the script what it prints, and the line with the count of entries.
///
/// - `BadInput`: what was read is no script; its first line at fault, counted from 1, and the fault.
/// - `TooLong`: the source gave more than 67,108,864 bytes.
/// - `ReadFault`: the source failed in this call.
/// - `WriteFault`: the sink failed in this call. A front of the text was written.
/// - `NoMemory`: an allocation was refused. Nothing was written, or a front of the text.
///
/// After each answer but Done, WriteFault and NoMemory nothing was written.
pub fn play<S: Source, K: Sink>(alloc: Global, source: &mut S, sink: &mut K) -> Status
    ensures cause { HasCause result (S.left source.old) (S.left source.new) (S.faults source.old) (S.faults source.new) (K.faults sink.old) (K.faults sink.new) }
    ensures written { Writes result (S.left source.old) (K.written sink.old) (K.written sink.new) }
    ensures reads_never_fall { S.faults source.old ≤ S.faults source.new }
    ensures writes_never_fall { K.faults sink.old ≤ K.faults sink.new }

    ensures complete { Completes result (S.left source.old) (S.faults source.old) (S.faults source.new) (K.faults sink.old) (K.faults sink.new) }
{
    let input = match read_all(alloc, source, INPUT_MAX) {
        Ok(input) => input,
        Err(ReadEnd::TooLong) => return Status::TooLong,
        Err(ReadEnd::Fault) => return Status::ReadFault,
        Err(ReadEnd::NoMemory) => return Status::NoMemory,
    };
    let script = match parse_script(alloc, input.items()) {
        Ok(script) => script,
        Err(ScriptFault::NoMemory) => return Status::NoMemory,
        Err(ScriptFault::Bad { place, kind }) => {
            return Status::BadInput {
                place,
                kind: InputKind::Line(kind),
            };
        }
    };
    match text_of(alloc, &script) {
        Ok(text) => written(sink, text.items()),
        Err(NoMemory) => Status::NoMemory,
    }
}

// The status after the text was written, or a front of it.
fn written<K: Sink>(sink: &mut K, text: &[u8]) -> Status
    ensures outcome { IsWritten result (K.faults sink.old) (K.faults sink.new) }
    ensures written { WritesText text.now result (K.written sink.old) (K.written sink.new) }
    ensures never_falls { K.faults sink.old ≤ K.faults sink.new }
    ensures complete { ¬ HasRisen (K.faults sink.old) (K.faults sink.new) → (result ≡ Done) ⊎ (result ≡ OutOfMemory) }
{
    match write_all(sink, text) {
        Ok(()) => Status::Done,
        Err(OutFault::Failed) => Status::WriteFault,
        Err(OutFault::NoMemory) => Status::NoMemory,
    }
}

// For how many bytes of text memory is taken at first, if it can be had.
const AMPLE: usize = 131_072;

// The text of the script's run.
fn text_of(alloc: Global, script: &Script) -> Result<Bytes, NoMemory>
    requires script { IsScript script.now }
    requires few { length script.now ≤ SCRIPT_LINES }
    ensures { IfOk result (λ text. text ≡ play_text (setup_of script.now) script.now) }
{
    let mut page = Page::with(Bytes::ample(alloc, AMPLE));
    head_of(script.config(), &mut page.text)?;
    let mut stage = Stage::new(alloc, script.config(), true)?;
    let mut count = Count { entries: 0 };
    step_all(&mut stage, script.lines(), &mut count, &mut page)?;
    end_of(count.entries, &mut page.text)?;
    Ok(page.into_text())
}

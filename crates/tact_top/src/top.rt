//! The top call: the words of a command, and what it does.
ghost use Rattle.std.specs.Prelude.{◌≡◌, ◌≤◌, map, IfErr, string_bytes};
ghost use Rattle.tact_top.specs.Answers.{Completes, HasCause, IsDrawn, Writes};
ghost use Rattle.tact_top.specs.CommandAnswers.{asks, faults, text_of};
ghost use Rattle.tact_top.specs.Commands.{IfDraws, IfReads, IsOfReading, IsReading, IsUsage, UnlessRun, UnlessRuns, command_of};

use crate::checking::check;
use crate::drilling::drill;
use crate::ordering::primary;
use crate::packing::{pack, unpack};
use crate::playing::play;
use crate::roaming::roam;
use crate::running::run;
use crate::selling::sales;
use crate::words::{Command, Drawing, Reading, WordsFault, command_of};
use run_model::Status;
use std::alloc::Global;
use std::sync::Wait;
use std::thread::Threads;
use tact_io::{Clock, Gate, Shelf, Sink, Source};

/// Does what the words ask for. The first word is the program's name.
///
/// - `play` reads a script from the source and writes the text of its run to the sink.
/// - `check` reads a record as text or as bytes and writes the line that says whether it is that of a run.
/// - `pack` reads a record as text and writes its bytes.
/// - `unpack` reads a record as bytes and writes its text, without comments.
/// - `run` reads a workload, runs it on threads, and writes the record of the run as text, without comments. With
///   `--tries` and a number from 1 to 100 it tries each item so often at most, else 20 times. What a call records as
///   its moment is told by the clock, and each call passes the gate once. Each replica keeps a journal out of the shelf,
///   begins anew from it where it fails, and puts it back at the end. It may wait.
/// - `drill` with a number plays the script that the number draws and writes a summary. It reads nothing.
/// - `primary` with a number lets the events happen among peers that the number draws, whose order a primary gives, and
///   writes a summary. It reads nothing.
/// - `roam` with a number lets clients roam among replicas by the steps that the number draws, and writes a summary. It
///   reads nothing.
/// - `sales` with a number sells and cancels places at replicas by the steps that the number draws, and writes a summary.
///   It reads nothing.
///
/// `Usage` comes exactly where the words after the name are no command, and then nothing is read or
/// written: `NoCommand` where there is none, `UnknownCommand` where the first of them is no command's
/// name, `MissingNumber` where no word follows `drill`, `primary`, `roam` or `sales`, `BadNumber` where the one that does
/// isn't a number below 2^64, `ExtraWord` where a word follows the command's last one, and `RunWords` where `clap` refuses
/// those after `run`. `NoMemory` may come in place of `RunWords`. The other statuses are those of `script_run::play`,
/// [`check`], [`pack`], [`unpack`], [`drill`], [`primary`], [`roam`] and [`sales`], and for `run`:
///
/// - `Done`: each client did its items, each tried until its reply was final or as often as it may be. The record was
///   written.
/// - `Full`: a replica got as many entries as it may, with their count and its clock. The record of the run up to
///   there was written.
/// - `BadInput`: what was read is no workload; the first fault, and 0 or the number of the client that has it.
/// - `JournalFault`: the journal of a replica failed, or the shelf, and a call was lost, or the replica couldn't begin anew.
///   The shelf's count rose. Nothing was written.
/// - `JournalForeign`: the journal of a replica gave another piece at a place than was appended there. It never comes where
///   journals tell their pieces. Nothing was written.
/// - `TooLong`, `ReadFault`, `WriteFault` and `NoMemory`: as of [`pack`].
///
/// No other command touches the shelf, nor does `run` where it answers `BadInput`, `TooLong` or `ReadFault`.
pub fn tact<
    R: Threads + Wait + Sync,
    C: Clock + Sync,
    G: Gate + Sync,
    S: Source,
    K: Sink,
    B: Shelf,
>(
    rt: &R,
    alloc: Global,
    words: &[String],
    source: &mut S,
    sink: &mut K,
    clock: &C,
    gate: &G,
    shelf: &mut B,
) -> Status
where
    B::J: Drop + Send,
    ensures cause { IfReads (command_of (map string_bytes words.now)) (λ reading.
        HasCause (asks (record { tells = B.J.tells; before = B.faults shelf.old; after = B.faults shelf.new; stored = B.stored shelf.new }) reading) (faults reading) result (S.left source.old) (S.left source.new)
        (S.faults source.old) (S.faults source.new) (K.faults sink.old) (K.faults sink.new)) }
    ensures written { IfReads (command_of (map string_bytes words.now)) (λ reading.
        Writes (asks (record { tells = B.J.tells; before = B.faults shelf.old; after = B.faults shelf.new; stored = B.stored shelf.new }) reading) result (S.left source.old) (K.written sink.old) (K.written sink.new)) }
    ensures complete { IfReads (command_of (map string_bytes words.now)) (λ reading.
        Completes (asks (record { tells = B.J.tells; before = B.faults shelf.old; after = B.faults shelf.new; stored = B.stored shelf.new }) reading) (faults reading) result (S.left source.old)
        (S.faults source.old) (S.faults source.new) (K.faults sink.old) (K.faults sink.new)) }
    ensures drawn { IfDraws (command_of (map string_bytes words.now)) (λ drawing number. (source.new ≡ source.old)
        × IsDrawn (text_of drawing number) result (K.written sink.old) (K.written sink.new) (K.faults sink.old) (K.faults sink.new)) }
    ensures usage { IfErr (command_of (map string_bytes words.now)) (λ kind.
        IsUsage kind result × (source.new ≡ source.old) × (sink.new ≡ sink.old)) }
    ensures reads_never_fall { S.faults source.old ≤ S.faults source.new }
    ensures writes_never_fall { K.faults sink.old ≤ K.faults sink.new }
    ensures shelf_never_falls { B.faults shelf.old ≤ B.faults shelf.new }
    ensures untouched { UnlessRun (command_of (map string_bytes words.now)) (shelf.new ≡ shelf.old) }
    ensures unread { IsOfReading result → shelf.new ≡ shelf.old }
{
    match command_of(alloc, words) {
        Ok(Command::Read(reading)) => obey(rt, alloc, reading, source, sink, clock, gate, shelf),
        Ok(Command::Draw { drawing, number }) => match drawing {
            Drawing::Drill => drill(alloc, number, sink),
            Drawing::Primary => primary(alloc, number, sink),
            Drawing::Roam => roam(alloc, number, sink),
            Drawing::Sales => sales(alloc, number, sink),
        },
        Err(WordsFault::Usage(kind)) => Status::Usage(kind),
        Err(WordsFault::NoMemory) => Status::NoMemory,
    }
}

// Does what a command that reads an input says.
fn obey<R: Threads + Wait + Sync, C: Clock + Sync, G: Gate + Sync, S: Source, K: Sink, B: Shelf>(
    rt: &R,
    alloc: Global,
    reading: Reading,
    source: &mut S,
    sink: &mut K,
    clock: &C,
    gate: &G,
    shelf: &mut B,
) -> Status
where
    B::J: Drop + Send,
    requires reading { IsReading reading }
    ensures cause { HasCause (asks (record { tells = B.J.tells; before = B.faults shelf.old; after = B.faults shelf.new; stored = B.stored shelf.new }) reading) (faults reading) result (S.left source.old) (S.left source.new)
        (S.faults source.old) (S.faults source.new) (K.faults sink.old) (K.faults sink.new) }
    ensures written { Writes (asks (record { tells = B.J.tells; before = B.faults shelf.old; after = B.faults shelf.new; stored = B.stored shelf.new }) reading) result (S.left source.old) (K.written sink.old) (K.written sink.new) }
    ensures complete { Completes (asks (record { tells = B.J.tells; before = B.faults shelf.old; after = B.faults shelf.new; stored = B.stored shelf.new }) reading) (faults reading) result (S.left source.old)
        (S.faults source.old) (S.faults source.new) (K.faults sink.old) (K.faults sink.new) }
    ensures reads_never_fall { S.faults source.old ≤ S.faults source.new }
    ensures writes_never_fall { K.faults sink.old ≤ K.faults sink.new }
    ensures shelf_never_falls { B.faults shelf.old ≤ B.faults shelf.new }
    ensures untouched { UnlessRuns reading (shelf.new ≡ shelf.old) }
    ensures unread { IsOfReading result → shelf.new ≡ shelf.old }
{
    match reading {
        Reading::Play => play(alloc, source, sink),
        Reading::Check => check(alloc, source, sink),
        Reading::Pack => pack(alloc, source, sink),
        Reading::Unpack => unpack(alloc, source, sink),
        Reading::Run { tries } => run(rt, alloc, tries, source, sink, clock, gate, shelf),
    }
}

//! `play`, by the words that all commands that read an input have in common.
ghost use Rattle.std.specs.Prelude.{◌≤◌};
ghost use Rattle.tact_top.specs.Answers.{Completes, HasCause, Writes};
ghost use Rattle.tact_top.specs.ScriptForm.{IsPlayed, IsScriptFault};

use run_model::Status;
use std::alloc::Global;
use tact_io::{Sink, Source};

/// Reads a script to its end, and writes the text of its run.
#[tactic(auto, using(crate::proofs::Played::played_cause, crate::proofs::Played::played_writes))]
pub(crate) fn play<S: Source, K: Sink>(alloc: Global, source: &mut S, sink: &mut K) -> Status
    ensures cause { HasCause IsPlayed IsScriptFault result (S.left source.old) (S.left source.new)
        (S.faults source.old) (S.faults source.new) (K.faults sink.old) (K.faults sink.new) }
    ensures written { Writes IsPlayed result (S.left source.old) (K.written sink.old) (K.written sink.new) }
    ensures complete { Completes IsPlayed IsScriptFault result (S.left source.old)
        (S.faults source.old) (S.faults source.new) (K.faults sink.old) (K.faults sink.new) }
    ensures reads_never_fall { S.faults source.old ≤ S.faults source.new }
    ensures writes_never_fall { K.faults sink.old ≤ K.faults sink.new }
{
    script_run::play(alloc, source, sink)
}

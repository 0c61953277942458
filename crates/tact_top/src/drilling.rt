//! The drill: a script is drawn from a number and played, and a summary is written.
ghost use Rattle.std.specs.Prelude.{◌≡◌, ◌⊎◌, ◌<◌, ◌≤◌, ◌++◌, IfOk, OnOk, drop};
ghost use Rattle.std.specs.List.{flat_map};
ghost use Rattle.run_model.specs.declared.status.Status.TheVariants.{Done, NoMemory as OutOfMemory};
ghost use Rattle.tact_base.specs.Setup.{replicas_of};
ghost use Rattle.tact_io.specs.Faults.{HasRisen};
ghost use Rattle.tact_top.specs.Answers.{IsDrawn};
ghost use Rattle.tact_top.specs.DrillText.{drill_text, shown_line};

use crate::counting::{Counts, put_counts};
use crate::job::drawn;
use drawn_scripts::drill_script;
use run_model::Status;
use script_run::Outcome;
use std::alloc::Global;
use tact_base::{Bytes, NoMemory};
use tact_io::Sink;

/// Plays the script that a number draws, and writes a summary: a line with the counts of all entries, of the
/// replies of each kind, of messages sent and of messages taken; and for each replica what `show` would say
/// of it. The same for the same number, on every machine.
///
/// - `WriteFault`: the sink failed in this call. A front of the summary was written.
/// - `NoMemory`: an allocation was refused. Nothing was written, or a front of the summary.
pub fn drill<K: Sink>(alloc: Global, number: u64, sink: &mut K) -> Status
    ensures written { IsDrawn (drill_text number) result (K.written sink.old) (K.written sink.new) (K.faults sink.old) (K.faults sink.new) }
    ensures complete { ¬ HasRisen (K.faults sink.old) (K.faults sink.new) → (result ≡ Done) ⊎ (result ≡ OutOfMemory) }
    ensures writes_never_fall { K.faults sink.old ≤ K.faults sink.new }
{
    match summary_of(alloc, number) {
        Ok(text) => drawn(text, sink),
        Err(NoMemory) => Status::NoMemory,
    }
}

// The summary of the script that a number draws.
fn summary_of(alloc: Global, number: u64) -> Result<Bytes, NoMemory>
    ensures { IfOk result (λ text. text ≡ drill_text number) }
{
    let script = drill_script(alloc, number)?;
    let mut counts = Counts::new();
    let outcome = Outcome::of(alloc, &script, &mut counts)?;
    let mut text = Bytes::new(alloc);
    put_counts(number, &counts, &mut text)?;
    let mut scratch = Bytes::new(alloc);
    put_replicas(
        &outcome,
        script.config().replicas(),
        &mut scratch,
        &mut text,
    )?;
    Ok(text)
}

// Appends the line of each replica.
fn put_replicas(
    outcome: &Outcome,
    replicas: u32,
    scratch: &mut Bytes,
    out: &mut Bytes,
) -> Result<(), NoMemory>
    requires { replicas ≡ outcome.now.setup.replicas }
    ensures { OnOk result (out.new
        ≡ out.old ++ flat_map (shown_line outcome.now.setup outcome.now.history) (replicas_of outcome.now.setup)) }
{
    for replica in 0..replicas {
        put_replica(outcome, replica, scratch, out)?;
    }
    Ok(())
}

// Appends the line of one: the comment that shows it, without its first two characters.
fn put_replica(
    outcome: &Outcome,
    replica: u32,
    scratch: &mut Bytes,
    out: &mut Bytes,
) -> Result<(), NoMemory>
    requires { replica < outcome.now.setup.replicas }
    ensures { OnOk result (out.new ≡ out.old ++ shown_line outcome.now.setup outcome.now.history replica) }
{
    scratch.truncate(0);
    outcome.show(replica, scratch)?;
    out.append(past_two(scratch.items()))
}

// What is left of a text past its first two characters.
fn past_two(text: &[u8]) -> &[u8]
    ensures { result.now ≡ drop 2 text.now }
{
    match text {
        [_, _, rest @ ..] => rest,
        _ => &[],
    }
}

//! Roaming clients: visits are drawn from a number, and a summary is written.
ghost use Rattle.std.specs.Prelude.{◌≡◌, ◌⊎◌, ◌<◌, ◌≤◌, ◌++◌, IfOk, OnOk, count_by};
ghost use Rattle.run_model.specs.Text.{spaced};
ghost use Rattle.run_model.specs.declared.status.Status.TheVariants.{Done, NoMemory as OutOfMemory};
ghost use Rattle.tact_io.specs.Faults.{HasRisen};
ghost use Rattle.session_guard.specs.Roams.{roamed_by};
ghost use Rattle.drawn_visits.specs.DrawnVisits.{is_behind};
ghost use Rattle.tact_top.specs.Answers.{IsDrawn};
ghost use Rattle.tact_top.specs.RoamText.{pass_text, pass_tokens, passes_text, roam_text, roam_tokens, visit_counts, visits_text};

use crate::counting::{Done as DoneCalls, Heavy, Values, Waits, count, put_messages};
use crate::job::drawn;
use drawn_visits::{DrawnVisits, draw_visits};
use run_model::{Status, put_number, put_row};
use session_guard::{Pass, Roam};
use std::alloc::Global;
use tact_base::{Bytes, NoMemory};
use tact_io::Sink;

/// Lets four clients roam among four replicas by steps that a number draws, and writes a summary: a line with the counts of
/// all entries, of the visits that were kept away, of those answered by the kind of their replies, and of the messages; and
/// the numbers of each pass. The same for the same number, on every machine.
///
/// - `WriteFault`: the sink failed in this call. A front of the summary was written.
/// - `NoMemory`: an allocation was refused. Nothing was written, or a front of the summary.
pub fn roam<K: Sink>(alloc: Global, number: u64, sink: &mut K) -> Status
    ensures written { IsDrawn (roam_text number) result (K.written sink.old) (K.written sink.new)
        (K.faults sink.old) (K.faults sink.new) }
    ensures complete { ¬ HasRisen (K.faults sink.old) (K.faults sink.new) → (result ≡ Done) ⊎ (result ≡ OutOfMemory) }
    ensures writes_never_fall { K.faults sink.old ≤ K.faults sink.new }
{
    match summary_of(alloc, number) {
        Ok(text) => drawn(text, sink),
        Err(NoMemory) => Status::NoMemory,
    }
}

// The summary of the steps that a number draws.
fn summary_of(alloc: Global, number: u64) -> Result<Bytes, NoMemory>
    ensures { IfOk result (λ text. text ≡ roam_text number) }
{
    let visits = draw_visits(alloc, number)?;
    let mut text = Bytes::new(alloc);
    put_visits(number, &visits, &mut text)?;
    put_passes(&visits.roam, &mut text)?;
    Ok(text)
}

// Appends the line with the counts.
fn put_visits(number: u64, visits: &DrawnVisits, out: &mut Bytes) -> Result<(), NoMemory>
    requires { visits.now.behind ≡ count_by is_behind (roamed_by visits.now.roam).outcomes }
    ensures { OnOk result (out.new ≡ out.old ++ visits_text number (roamed_by visits.now.roam)) }
{
    out.append(b"roam")?;
    put_all(number, visits, out)?;
    out.push(b'\n')
}

fn put_all(number: u64, visits: &DrawnVisits, out: &mut Bytes) -> Result<(), NoMemory>
    requires { visits.now.behind ≡ count_by is_behind (roamed_by visits.now.roam).outcomes }
    ensures { OnOk result (out.new ≡ out.old ++ spaced (roam_tokens number (roamed_by visits.now.roam))) }
{
    let entries = visits.roam.entries();
    put_number(number, out)?;
    put_row(b"entries", &[entries.len() as u64], out)?;
    put_counts(visits, out)?;
    put_messages(entries, out)
}

fn put_counts(visits: &DrawnVisits, out: &mut Bytes) -> Result<(), NoMemory>
    requires { visits.now.behind ≡ count_by is_behind (roamed_by visits.now.roam).outcomes }
    ensures { OnOk result (out.new ≡ out.old ++ spaced (visit_counts (roamed_by visits.now.roam))) }
{
    let entries = visits.roam.entries();
    put_row(b"behind", &[visits.behind], out)?;
    put_row(b"done", &[count::<DoneCalls>(entries)], out)?;
    put_row(b"values", &[count::<Values>(entries)], out)?;
    put_row(b"waits", &[count::<Waits>(entries)], out)?;
    put_row(b"heavy", &[count::<Heavy>(entries)], out)
}

// Appends the line of each pass.
fn put_passes(roam: &Roam, out: &mut Bytes) -> Result<(), NoMemory>
    requires { 4 ≤ roam.now.passes }
    ensures { OnOk result (out.new ≡ out.old ++ passes_text (roamed_by roam.now)) }
{
    for number in 0..4 {
        put_pass(roam.pass(number), number, out)?;
    }
    Ok(())
}

// Appends the line of one.
fn put_pass(pass: &Pass, number: u32, out: &mut Bytes) -> Result<(), NoMemory>
    ensures { OnOk result (out.new ≡ out.old ++ pass_text pass.now number) }
{
    out.append(b"pass")?;
    put_numbers_of(pass, number, out)?;
    out.push(b'\n')
}

fn put_numbers_of(pass: &Pass, number: u32, out: &mut Bytes) -> Result<(), NoMemory>
    ensures { OnOk result (out.new ≡ out.old ++ spaced (pass_tokens pass.now number)) }
{
    put_number(u64::from(number), out)?;
    put_row(b"reads", pass.reads().items(), out)?;
    put_row(b"writes", pass.writes().items(), out)
}

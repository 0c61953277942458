ghost use Rattle.std.specs.Prelude.{◌≡◌, ◌≤◌, OnOk, OnErr, IsErrOf, IsOkUnless};
ghost use Rattle.tact_io.specs.Faults.{HasRisen};
ghost use Rattle.tact_io.specs.Sink.{Gains, GainsPart};

use crate::{OutFault, Sink};

/// Writes all of `text`. After an error a front of it that isn't all of it was written.
pub fn write_all<K: Sink>(sink: &mut K, text: &[u8]) -> Result<(), OutFault>
    ensures all { OnOk result (Gains (K.written sink.old) (K.written sink.new) text.now) }
    ensures part { OnErr result (GainsPart (K.written sink.old) (K.written sink.new) text.now) }
    ensures never_falls { K.faults sink.old ≤ K.faults sink.new }
    ensures failed { IsErrOf result OutFault.Failed → HasRisen (K.faults sink.old) (K.faults sink.new) }

    // It succeeds where the sink doesn't fail, unless memory runs out.
    ensures complete { ¬ HasRisen (K.faults sink.old) (K.faults sink.new) → IsOkUnless result OutFault.NoMemory }
{
    let mut done = 0;
    while done < text.len() {
        done += sink.write(&text[done..])?;
    }
    Ok(())
}

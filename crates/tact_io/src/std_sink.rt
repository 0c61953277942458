ghost use Rattle.std.specs.Prelude.{◌≡◌, ◌<◌, ◌≤◌, length, IfOk, OnOk, OnErr, IsOkUnless};
ghost use Rattle.tact_base.specs.Counts.{one_more};

use crate::edge::StdStream;
use crate::{OutFault, Sink};

/// Standard output, as a runtime or a reference to one prints to it: what a write answered has left the
/// process. It tells nothing of what it holds.
pub type StdSink<P> = StdStream<P>;

impl<P: Print> Sink for StdStream<P> {
    ghost use Rattle.std.specs.Prelude.{None};
    ghost use Rattle.tact_io.specs.Faults.{HasRisen};

    ghost faults = { λ sink. sink.faults };

    ghost written = { λ _. None };

    /// Writes once, and takes no memory. Each error counts as a fault, and so does a write of no byte of a
    /// piece that isn't empty.
    fn write(&mut self, piece: &[u8]) -> Result<usize, OutFault>
        ensures within { IfOk result (λ count. count ≤ length piece.now) }
        ensures moves { IfOk result (λ count. 0 < length piece.now → 0 < count) }
        ensures only_failed { IsOkUnless result OutFault.Failed }
        ensures ok { OnOk result (self.new.faults ≡ self.old.faults) }
        ensures err { OnErr result (self.new.faults ≡ one_more self.old.faults) }

        // What each sink ensures of its count.
        ensures never_falls { self.old.faults ≤ self.new.faults }
        ensures failed { OnErr result (HasRisen self.old.faults self.new.faults) }
    {
        match self.stream.write_some(piece) {
            Ok(count) if count > 0 || piece.is_empty() => Ok(count),
            _ => {
                self.count_fault();
                Err(OutFault::Failed)
            }
        }
    }
}

ghost use Rattle.std.specs.Prelude.{◌≡◌, ℕ, ◌<◌, ◌≤◌, List, Option, length, take, IfOk, OnErr, IsErrOf};
ghost use Rattle.tact_io.specs.Faults.{HasRisen};
ghost use Rattle.tact_io.specs.Sink.{Gains};

use crate::OutFault;

/// What bytes are written to.
pub trait Sink {
    /// How often it has failed. A count ends at the greatest u64 and stays there.
    ghost faults: { Self → ℕ };

    /// All that was written, where it is told.
    ghost written: { Self → Option (List ℕ) };

    /// Writes a front of `piece`, and answers how many bytes of it: at least one, unless `piece` is empty.
    /// After an error nothing of it was written. `NoMemory` may always come.
    fn write(&mut self, piece: &[u8]) -> Result<usize, OutFault>
        ensures within { IfOk result (λ count. count ≤ length piece.now) }
        ensures moves { IfOk result (λ count. 0 < length piece.now → 0 < count) }
        ensures gains { IfOk result (λ count. Gains (written self.old) (written self.new) (take count piece.now)) }
        ensures unchanged { OnErr result (written self.new ≡ written self.old) }
        ensures never_falls { faults self.old ≤ faults self.new }
        ensures failed { IsErrOf result OutFault.Failed → HasRisen (faults self.old) (faults self.new) };
}

ghost use Rattle.std.specs.Prelude.{◌≡◌, ℕ, ◌<◌, ◌≤◌, List, Option, length, take, IfOk, OnErr};
ghost use Rattle.tact_io.specs.Faults.{HasRisen};
ghost use Rattle.tact_io.specs.Source.{Gives, IsAtEnd};

use crate::Failed;

/// What bytes are read from.
pub trait Source {
    /// How often it has failed. A count ends at the greatest u64 and stays there.
    ghost faults: { Self → ℕ };

    /// The bytes left, where they are told.
    ghost left: { Self → Option (List ℕ) };

    /// Reads the next bytes into the front of `buf`, and answers how many. 0 for a `buf` that isn't empty
    /// is the end of input. `Failed` takes no byte. What `buf` holds behind the bytes read is left open.
    fn read(&mut self, buf: &mut [u8]) -> Result<usize, Failed>
        ensures within { IfOk result (λ count. count ≤ length buf.new) }
        ensures gives { IfOk result (λ count. Gives (left self.old) (left self.new) (take count buf.new)) }
        ensures end { result ≡ Ok 0 → 0 < length buf.old → IsAtEnd (left self.old) }
        ensures unchanged { OnErr result (left self.new ≡ left self.old) }
        ensures never_falls { faults self.old ≤ faults self.new }
        ensures failed { OnErr result (HasRisen (faults self.old) (faults self.new)) };
}

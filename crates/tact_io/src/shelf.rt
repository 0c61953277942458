ghost use Rattle.std.specs.Prelude.{◌≡◌, ◌≢◌, ℕ, ◌<◌, ◌≤◌, IsTrue, List, [], Option, Some, IfOk, IsErrOf};
ghost use Rattle.tact_base.specs.declared.limits.TheConstants.{REPLICAS_MAX};
ghost use Rattle.tact_io.specs.Faults.{HasRisen};

use crate::{Journal, OutFault};

/// Where the journals of replicas come from, and where they are put back.
pub trait Shelf {
    type J: Journal;

    /// How often it has failed, or was given back a journal that had failed. A count ends at the greatest u64 and
    /// stays there.
    ghost faults: { Self → ℕ };

    /// The pieces of the journal that was put back last for a replica, where its journals tell them; none before the
    /// first.
    ghost stored: { Self → ℕ → Option (List (List ℕ)) };

    /// An empty journal for a replica, which hasn't failed.
    fn fetch(&mut self, replica: u32) -> Result<Self::J, OutFault>
        requires { replica < REPLICAS_MAX }
        ensures empty { IfOk result (λ journal. IsTrue Self.J.tells → Self.J.pieces journal ≡ []) }
        ensures sound { IfOk result (λ journal. Self.J.faults journal ≡ 0) }
        ensures stays { (of : ℕ) → IsTrue Self.J.tells → stored self.new of ≡ stored self.old of }
        ensures never_falls { faults self.old ≤ faults self.new }
        ensures failed { IsErrOf result OutFault.Failed → HasRisen (faults self.old) (faults self.new) };

    /// Takes back the journal of a replica. The shelf's count rises exactly where that of the journal isn't 0.
    fn put_back(&mut self, replica: u32, journal: Self::J)
        requires { replica < REPLICAS_MAX }
        ensures put { IsTrue Self.J.tells → stored self.new replica ≡ Some (Self.J.pieces journal) }
        ensures others { (of : ℕ) → IsTrue Self.J.tells → of ≢ replica → stored self.new of ≡ stored self.old of }
        ensures never_falls { faults self.old ≤ faults self.new }
        ensures sound { Self.J.faults journal ≡ 0 → faults self.new ≡ faults self.old }
        ensures failed { Self.J.faults journal ≢ 0 → HasRisen (faults self.old) (faults self.new) };
}

ghost use Rattle.std.specs.Prelude.{◌≡◌, ◌≤◌};
ghost use Rattle.tact_base.specs.Counts.{one_more};
ghost use Rattle.tact_io.specs.Faults.{HasRisen};

use std::marker::Model;

/// A stream of the process, which is read or written without telling what it holds, and how often it
/// failed. A count of faults ends at the greatest u64 and stays there.
#[derive(Drop)]
pub struct StdStream<T> {
    pub(crate) stream: T,
    faults: u64,
}

impl<T> Model for StdStream<T> {
    ghost use Rattle.tact_io.specs.Edge.{Edge};

    ghost Value = { Edge T };

    ghost view = { λ s. record { stream = s.stream; faults = s.faults } };
}

impl<T> StdStream<T> {
    /// A stream that hasn't failed yet.
    pub fn new(stream: T) -> Self
        ensures { result ≡ record { stream = stream; faults = 0 } }
    {
        StdStream { stream, faults: 0 }
    }

    /// Counts a call that failed.
    pub(crate) fn count_fault(&mut self)
        ensures after { self.new ≡ record self.old { faults = one_more self.old.faults } }
        ensures never_falls { self.old.faults ≤ self.new.faults }
        ensures risen { HasRisen self.old.faults self.new.faults }
    {
        self.faults = self.faults.saturating_add(1);
    }
}

ghost use Rattle.std.specs.Prelude.{◌≡◌, ◌≤◌, length, IfOk, OnOk, OnErr};
ghost use Rattle.std.specs.Io.KnownBytes.{ReadConsumes};
ghost use Rattle.tact_base.specs.Counts.{one_more};

use crate::edge::StdStream;
use crate::{Failed, Source};
use std::io::Read;

/// Standard input, as `rt.reader()` gives it, or what else bytes are read from. It tells nothing of them.
pub type StdSource<R> = StdStream<R>;

impl<R: Read> Source for StdStream<R> {
    ghost use Rattle.std.specs.Prelude.{None};
    ghost use Rattle.tact_io.specs.Faults.{HasRisen};

    ghost faults = { λ source. source.faults };

    ghost left = { λ _. None };

    /// Reads once. Each error of the reader counts as a fault.
    fn read(&mut self, buf: &mut [u8]) -> Result<usize, Failed>
        ensures within { IfOk result (λ count. count ≤ length buf.new) }
        ensures reads { ReadConsumes (R.remaining self.old.stream) (R.remaining self.new.stream) result buf.new }
        ensures ok { OnOk result (self.new.faults ≡ self.old.faults) }
        ensures err { OnErr result (self.new.faults ≡ one_more self.old.faults) }

        // What each source ensures of its count.
        ensures never_falls { self.old.faults ≤ self.new.faults }
        ensures failed { OnErr result (HasRisen self.old.faults self.new.faults) }
    {
        match self.stream.read(buf) {
            Ok(count) => Ok(count),
            Err(_) => {
                self.count_fault();
                Err(Failed)
            }
        }
    }
}

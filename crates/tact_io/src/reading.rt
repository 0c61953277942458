ghost use Rattle.std.specs.Prelude.{◌≡◌, ℕ, ◌<◌, ◌≤◌, List, length, IfOk, IfSome, OnOk, IsErrOf, IsOkUnless};
ghost use Rattle.tact_io.specs.declared.reading.ReadEnd.TheVariants as ends;
ghost use Rattle.tact_io.specs.Faults.{HasRisen};
ghost use Rattle.tact_io.specs.Source.{Gives, IsAtEnd, IsAllOf};

use crate::{Failed, Source};
use std::alloc::Global;
use tact_base::{Bytes, NoMemory};

/// Why a reading stopped before the end of input: it is longer than what may be read, the source failed,
/// or an allocation was refused.
#[derive(Clone, Copy, Debug, PartialEq, Eq)]
pub enum ReadEnd {
    TooLong,
    Fault,
    NoMemory,
}

impl From<Failed> for ReadEnd {
    ghost from_gives = { λ _ end. end ≡ ends.Fault };

    fn from(_: Failed) -> Self {
        ReadEnd::Fault
    }
}

impl From<NoMemory> for ReadEnd {
    ghost from_gives = { λ _ end. end ≡ ends.NoMemory };

    fn from(_: NoMemory) -> Self {
        ReadEnd::NoMemory
    }
}

/// The bytes that are read at once.
const BLOCK: usize = 4_096;

/// For how many bytes memory is taken at first, if it can be had.
const AMPLE: usize = 131_072;

/// Reads to the end of input, which may have at most `most` bytes. It stops once there are more.
/// After an error the bytes that were read are gone.
pub fn read_all<S: Source>(alloc: Global, source: &mut S, most: u64) -> Result<Bytes, ReadEnd>
    ensures all { IfOk result (λ bytes. IsAllOf (S.left source.old) bytes) }
    ensures within { IfOk result (λ bytes. length bytes ≤ most) }
    ensures at_end { OnOk result (IsAtEnd (S.left source.new)) }
    ensures takes_front { (bytes : List ℕ) × Gives (S.left source.old) (S.left source.new) bytes }
    ensures never_falls { S.faults source.old ≤ S.faults source.new }

    // When each answer comes.
    ensures too_long { IsErrOf result ReadEnd.TooLong → IfSome (S.left source.old) (λ left. most < length left) }
    ensures fault { IsErrOf result ReadEnd.Fault → HasRisen (S.faults source.old) (S.faults source.new) }
    ensures complete { ¬ HasRisen (S.faults source.old) (S.faults source.new)
        → IfSome (S.left source.old) (λ left. length left ≤ most → IsOkUnless result ReadEnd.NoMemory) }
{
    let mut bytes = Bytes::ample(alloc, AMPLE);
    let mut block = [0; BLOCK];
    loop {
        let count = source.read(&mut block)?;
        if count == 0 {
            return Ok(bytes);
        }
        if count as u64 > most - bytes.len() as u64 {
            return Err(ReadEnd::TooLong);
        }
        bytes.append(&block[..count])?;
    }
}

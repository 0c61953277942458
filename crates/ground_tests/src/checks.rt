//! What tests of several subjects compare.

use std::process::Abort;

/// These numbers are those that are due.
pub(crate) fn assert_numbers(rt: &impl Abort, numbers: &[u64], due: &[u64]) {
    assert_eq!(rt; numbers, due);
}

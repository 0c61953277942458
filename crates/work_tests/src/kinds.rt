//! How many entries of each kind a run has.

use run_model::{Act, Entry};

/// Counts of entries.
#[derive(Clone, Copy, Debug, PartialEq, Eq)]
pub(crate) struct Kinds {
    pub(crate) calls: u64,
    pub(crate) sends: u64,
    pub(crate) takes: u64,
    pub(crate) lends: u64,
    pub(crate) backs: u64,
    pub(crate) restarts: u64,
}

/// How many entries of each kind there are.
pub(crate) fn kinds_of(entries: &[Entry]) -> Kinds {
    let mut kinds = Kinds {
        calls: 0,
        sends: 0,
        takes: 0,
        lends: 0,
        backs: 0,
        restarts: 0,
    };
    for entry in entries {
        match &entry.act {
            Act::Call { .. } => kinds.calls = kinds.calls.saturating_add(1),
            Act::Send { .. } => kinds.sends = kinds.sends.saturating_add(1),
            Act::Take { .. } => kinds.takes = kinds.takes.saturating_add(1),
            Act::Lend { .. } => kinds.lends = kinds.lends.saturating_add(1),
            Act::Back { .. } => kinds.backs = kinds.backs.saturating_add(1),
            Act::Restart => kinds.restarts = kinds.restarts.saturating_add(1),
        }
    }
    kinds
}

use std::snapshot::Snapshot;

/// What the table of a cell is told once: the first value, whose label the cell has, and how many places are
/// shared and owned.
#[derive(Drop)]
pub struct Terms<T> {
    pub first: Snapshot<T>,
    pub shared: u32,
    pub owned: u32,
}

/// What a seat knows. No code makes a value of it, so its arrays stand for lists of any length.
pub struct View<L> {
    /// The label of the cell.
    pub label: Option<L>,
    /// 0 for a seat that stands idle, 1 for one that claims the value, and 3 for one that holds it.
    pub phase: u64,
    /// The totals that a seat that isn't idle has read, by place.
    pub book: [u64; 0],
    /// The seat's own amounts, by place.
    pub amounts: [u64; 0],
    /// By place, 1 where the seat owns it.
    pub owns: [u64; 0],
}

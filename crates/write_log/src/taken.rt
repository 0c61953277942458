/// What became of told writes.
#[derive(Clone, Copy, Debug, PartialEq, Eq)]
pub enum Taken {
    /// So many of them were new, and were added.
    Added(u64),
    /// They begin at the index `first`, past the `have` writes that the log has. Nothing changed.
    Gap { have: u64, first: u64 },
}

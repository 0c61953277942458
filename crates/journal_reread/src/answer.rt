use replica_core::Replica;

/// What a journal gave back: the replica, made again, and whether the entry in doubt is there.
#[derive(Drop)]
pub struct Reread {
    /// The replica. It stands for the stored entries, and for the one in doubt where that is kept.
    pub replica: Replica,
    /// Whether the journal has the piece of the one in doubt.
    pub kept: bool,
}

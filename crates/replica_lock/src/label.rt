use run_history::Desk;

/// What the value behind a lock never changes: its desk, with the setup that this is made for, and its replica. No
/// value of it is made.
pub struct Label {
    pub desk: Desk,
    pub replica: u32,
}

use run_model::Cause;

/// How many entries of each kind a record has.
#[derive(Clone, Copy, Debug, PartialEq, Eq)]
pub struct Summary {
    /// All entries.
    pub entries: u64,
    /// Calls of clients.
    pub calls: u64,
    /// Of these the ones whose write was accepted.
    pub writes: u64,
    /// Of these the ones whose reply is a waiting one.
    pub waits: u64,
    /// Messages sent.
    pub sends: u64,
    /// Messages taken, each as often as it was.
    pub takes: u64,
    /// Loans.
    pub lends: u64,
    /// Amounts given back.
    pub backs: u64,
    /// New beginnings.
    pub restarts: u64,
}

/// What is said of a record.
#[derive(Debug, Drop, PartialEq, Eq)]
pub enum Verdict {
    /// It is that of a run, with so many entries of each kind.
    Run(Summary),
    /// The entry at this place, counted from 0, is the first that may not stand after those before it; and why
    /// not, by the first test that it fails.
    Bad { entry: u64, cause: Cause },
}

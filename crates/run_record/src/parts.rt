use tact_base::Row;

/// The counts of a setup, with which a record in bytes begins.
#[derive(Clone, Copy, Debug)]
pub struct Counts {
    /// The count of replicas.
    pub replicas: u32,
    /// The count of conits.
    pub conits: u32,
}

/// What is said of an owner and a conit.
#[derive(Debug, Drop)]
pub(crate) struct Bound {
    /// The alpha.
    pub alpha: u64,
    /// The loans, by holder.
    pub loans: Row,
}

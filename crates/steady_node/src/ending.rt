use replica_lock::RestartFault;

/// Why no more is done for a session.
#[derive(Clone, Copy, Debug, PartialEq, Eq)]
pub struct Ending {
    /// Why its node could make no entry, or couldn't begin anew.
    pub fault: RestartFault,
    /// Whether its last call is lost: the session is in doubt, or what came back of the call isn't what was asked for.
    pub lost: bool,
}

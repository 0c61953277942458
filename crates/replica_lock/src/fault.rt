use run_history::Clerk;
use tact_base::NoMemory;

/// Why a client got no session.
#[derive(Clone, Copy, Debug, PartialEq, Eq)]
pub enum SessionFault {
    /// It has one.
    Taken { client: u32 },
    /// An allocation was refused.
    NoMemory,
}

impl From<NoMemory> for SessionFault {
    ghost use Rattle.std.specs.Prelude.{◌≡◌};
    ghost use Rattle.replica_lock.specs.declared.fault.SessionFault.TheVariants as fault;

    ghost from_gives = { λ _ made. made ≡ fault.NoMemory };

    fn from(_fault: NoMemory) -> Self {
        SessionFault::NoMemory
    }
}

/// There was no memory for a node. Its clerk and its journal come back.
#[derive(Drop)]
pub struct NewFault<J> {
    pub clerk: Clerk,
    pub journal: J,
}

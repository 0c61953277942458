use crate::parcel::Parcel;
use entry_journal::RereadFault;
use replica_core::{CoreFault, LoanFault};
use tact_base::NoMemory;
use tact_io::Failed;

/// Why a node made no entry.
#[derive(Clone, Copy, Debug, PartialEq, Eq)]
pub enum NodeFault {
    /// In an earlier call its journal failed an append, or a restart answered `JournalReadFault` or `Foreign`. It makes no
    /// entry until a restart answers Ok.
    Halted,
    /// Its replica made 20,000 entries, or the replica's clock stands at 2^40: how many entries, and the clock.
    Full { count: u64, clock: u64 },
    /// An allocation was refused.
    NoMemory,
    /// Its journal failed in this call. It may have the entry or not; the node hasn't made it, and is halted.
    JournalFault,
}

impl From<NoMemory> for NodeFault {
    ghost use Rattle.std.specs.Prelude.{◌≡◌};
    ghost use Rattle.locked_replica.specs.declared.fault.NodeFault.TheVariants as fault;

    ghost from_gives = { λ _ made. made ≡ fault.NoMemory };

    fn from(_fault: NoMemory) -> Self {
        NodeFault::NoMemory
    }
}

impl From<Failed> for NodeFault {
    ghost use Rattle.std.specs.Prelude.{◌≡◌};
    ghost use Rattle.locked_replica.specs.declared.fault.NodeFault.TheVariants as fault;

    ghost from_gives = { λ _ made. made ≡ fault.JournalFault };

    fn from(_fault: Failed) -> Self {
        NodeFault::JournalFault
    }
}

impl From<CoreFault> for NodeFault {
    ghost use Rattle.std.specs.Prelude.{◌≡◌};
    ghost use Rattle.locked_replica.specs.Faults.{node_fault};

    ghost from_gives = { λ fault made. made ≡ node_fault fault };

    fn from(fault: CoreFault) -> Self {
        match fault {
            CoreFault::Full { count, clock } => NodeFault::Full { count, clock },
            CoreFault::NoMemory => NodeFault::NoMemory,
        }
    }
}

/// Why a node neither lent nor gave back.
#[derive(Clone, Copy, Debug, PartialEq, Eq)]
pub enum NodeLoanFault {
    /// It made no entry.
    Node(NodeFault),
    /// So much of its own bound on the conit is at home, which is less than the amount.
    Home { conit: u32, home: u64 },
    /// So much of its share of the owner's bound on the conit covers nothing, which is less than the amount.
    Free { conit: u32, free: u64 },
}

impl From<NodeFault> for NodeLoanFault {
    ghost use Rattle.std.specs.Prelude.{◌≡◌};
    ghost use Rattle.locked_replica.specs.declared.fault.NodeLoanFault.TheVariants as fault;

    ghost from_gives = { λ told made. made ≡ fault.Node told };

    fn from(fault: NodeFault) -> Self {
        NodeLoanFault::Node(fault)
    }
}

impl From<NoMemory> for NodeLoanFault {
    ghost use Rattle.std.specs.Prelude.{◌≡◌};
    ghost use Rattle.locked_replica.specs.declared.fault.NodeFault.TheVariants as node_fault;
    ghost use Rattle.locked_replica.specs.declared.fault.NodeLoanFault.TheVariants as fault;

    ghost from_gives = { λ _ made. made ≡ fault.Node node_fault.NoMemory };

    fn from(_fault: NoMemory) -> Self {
        NodeLoanFault::Node(NodeFault::NoMemory)
    }
}

impl From<LoanFault> for NodeLoanFault {
    ghost use Rattle.std.specs.Prelude.{◌≡◌};
    ghost use Rattle.locked_replica.specs.Faults.{loan_fault};

    ghost from_gives = { λ fault made. made ≡ loan_fault fault };

    fn from(fault: LoanFault) -> Self {
        match fault {
            LoanFault::Full { count, clock } => {
                NodeLoanFault::Node(NodeFault::Full { count, clock })
            }
            LoanFault::Home { conit, home } => NodeLoanFault::Home { conit, home },
            LoanFault::Free { conit, free } => NodeLoanFault::Free { conit, free },
        }
    }
}

/// Why a node didn't begin anew.
#[derive(Clone, Copy, Debug, PartialEq, Eq)]
pub enum RestartFault {
    /// Its replica made 20,000 entries, or the replica's clock stands at 2^40: how many entries, and the clock.
    Full { count: u64, clock: u64 },
    /// An allocation was refused.
    NoMemory,
    /// Its journal failed to append the Restart. It may have it or not.
    JournalFault,
    /// Its journal failed to give back a piece.
    JournalReadFault,
    /// The piece at this place, counted from 0, isn't the one that was appended there, or there is none.
    Foreign { place: u64 },
}

impl From<NoMemory> for RestartFault {
    ghost use Rattle.std.specs.Prelude.{◌≡◌};
    ghost use Rattle.locked_replica.specs.declared.fault.RestartFault.TheVariants as fault;

    ghost from_gives = { λ _ made. made ≡ fault.NoMemory };

    fn from(_fault: NoMemory) -> Self {
        RestartFault::NoMemory
    }
}

impl From<Failed> for RestartFault {
    ghost use Rattle.std.specs.Prelude.{◌≡◌};
    ghost use Rattle.locked_replica.specs.declared.fault.RestartFault.TheVariants as fault;

    ghost from_gives = { λ _ made. made ≡ fault.JournalFault };

    fn from(_fault: Failed) -> Self {
        RestartFault::JournalFault
    }
}

impl From<RereadFault> for RestartFault {
    ghost use Rattle.std.specs.Prelude.{◌≡◌};
    ghost use Rattle.locked_replica.specs.Faults.{reread_fault};

    ghost from_gives = { λ fault made. made ≡ reread_fault fault };

    fn from(fault: RereadFault) -> Self {
        match fault {
            RereadFault::Foreign { place } => RestartFault::Foreign { place },
            RereadFault::JournalReadFault => RestartFault::JournalReadFault,
            RereadFault::NoMemory => RestartFault::NoMemory,
        }
    }
}

impl From<CoreFault> for RestartFault {
    ghost use Rattle.std.specs.Prelude.{◌≡◌};
    ghost use Rattle.locked_replica.specs.Faults.{restart_fault};

    ghost from_gives = { λ fault made. made ≡ restart_fault fault };

    fn from(fault: CoreFault) -> Self {
        match fault {
            CoreFault::Full { count, clock } => RestartFault::Full { count, clock },
            CoreFault::NoMemory => RestartFault::NoMemory,
        }
    }
}

/// Why a node took no parcel, which comes back.
#[derive(Drop)]
pub struct TakeFault {
    pub fault: NodeFault,
    pub parcel: Parcel,
}

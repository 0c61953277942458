//! What a session is told that made no entry: its marks, in the totals and at the session.
ghost use Rattle.std.specs.Prelude.{◌≡◌, ◌*◌};
ghost use Rattle.tact_base.specs.declared.limits.TheConstants.{CLIENTS};
ghost use Rattle.replica_lock.specs.Ledgers.{faults_place, halts_place, lent_book, marked_at, restart_book, risen, told_book};
ghost use Rattle.replica_lock.specs.Sessions.{marked_by, marked_lent, marked_restart};

use crate::counts::Counts;
use crate::session::Session;
use locked_replica::{NodeFault, NodeLoanFault, RestartFault};
use tact_base::CLIENTS;
use tact_io::Journal;

/// Where the marks of a session stop.
const MARKS_MAX: u64 = 1 << 60;

// Marks that a session was told that the journal failed.
pub(crate) fn mark_fault<J: Journal>(counts: &mut Counts<'_, J>, session: &mut Session)
    requires cell { session.old.cell ≡ counts.old.cell.id }
    requires places { (counts.old.cell.shared ≡ session.old.conits) × (counts.old.cell.owned ≡ 5 * CLIENTS) }
    ensures book { counts.new ≡ record counts.old { book = marked_at (faults_place session.old.conits session.old.client) counts.old.book } }
    ensures session { session.new ≡ record session.old { faults = risen session.old.faults } }
{
    counts.agree(&mut session.tally);
    if session.faults < MARKS_MAX {
        let place = session.conits + 2 * CLIENTS + session.client;
        counts.raise(&mut session.tally, place, 1);
        session.faults += 1;
    }
}

// Marks that it was told that the node is halted, or that the journal gave another piece back.
pub(crate) fn mark_halt<J: Journal>(counts: &mut Counts<'_, J>, session: &mut Session)
    requires cell { session.old.cell ≡ counts.old.cell.id }
    requires places { (counts.old.cell.shared ≡ session.old.conits) × (counts.old.cell.owned ≡ 5 * CLIENTS) }
    ensures book { counts.new ≡ record counts.old { book = marked_at (halts_place session.old.conits session.old.client) counts.old.book } }
    ensures session { session.new ≡ record session.old { halts = risen session.old.halts } }
{
    counts.agree(&mut session.tally);
    if session.halts < MARKS_MAX {
        let place = session.conits + 3 * CLIENTS + session.client;
        counts.raise(&mut session.tally, place, 1);
        session.halts += 1;
    }
}

// Marks what a refusal told a session.
pub(crate) fn mark<J: Journal>(counts: &mut Counts<'_, J>, session: &mut Session, fault: NodeFault)
    requires cell { session.old.cell ≡ counts.old.cell.id }
    requires places { (counts.old.cell.shared ≡ session.old.conits) × (counts.old.cell.owned ≡ 5 * CLIENTS) }
    ensures book { counts.new ≡ record counts.old { book = told_book session.old.conits session.old.client fault counts.old.book } }
    ensures session { session.new ≡ marked_by fault session.old }
{
    match fault {
        NodeFault::Halted => mark_halt(counts, session),
        NodeFault::JournalFault => mark_fault(counts, session),
        NodeFault::Full { .. } | NodeFault::NoMemory => {}
    }
}

// The same for a loan.
pub(crate) fn mark_lent<J: Journal>(
    counts: &mut Counts<'_, J>,
    session: &mut Session,
    fault: NodeLoanFault,
)
    requires cell { session.old.cell ≡ counts.old.cell.id }
    requires places { (counts.old.cell.shared ≡ session.old.conits) × (counts.old.cell.owned ≡ 5 * CLIENTS) }
    ensures book { counts.new ≡ record counts.old { book = lent_book session.old.conits session.old.client fault counts.old.book } }
    ensures session { session.new ≡ marked_lent fault session.old }
{
    match fault {
        NodeLoanFault::Node(fault) => mark(counts, session, fault),
        NodeLoanFault::Home { .. } | NodeLoanFault::Free { .. } => {}
    }
}

// The same for a restart.
pub(crate) fn mark_restart<J: Journal>(
    counts: &mut Counts<'_, J>,
    session: &mut Session,
    fault: RestartFault,
)
    requires cell { session.old.cell ≡ counts.old.cell.id }
    requires places { (counts.old.cell.shared ≡ session.old.conits) × (counts.old.cell.owned ≡ 5 * CLIENTS) }
    ensures book { counts.new ≡ record counts.old { book = restart_book session.old.conits session.old.client fault counts.old.book } }
    ensures session { session.new ≡ marked_restart fault session.old }
{
    match fault {
        RestartFault::JournalFault | RestartFault::JournalReadFault => mark_fault(counts, session),
        RestartFault::Foreign { .. } => mark_halt(counts, session),
        RestartFault::Full { .. } | RestartFault::NoMemory => {}
    }
}

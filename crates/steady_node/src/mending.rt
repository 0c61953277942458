//! Nodes that begin anew where their journals fail.
ghost use Rattle.std.specs.Prelude.{◌≡◌, ◌⊎◌, ◌<◌, ◌≤◌, ℕ, false, IfErr, OnOk};
ghost use Rattle.tact_base.specs.declared.limits.TheConstants.{MOMENT_MAX};
ghost use Rattle.run_model.specs.declared.entry.Act.TheVariants as act;
ghost use Rattle.locked_replica.specs.declared.fault.NodeFault.TheVariants as node_fault;
ghost use Rattle.locked_replica.specs.declared.fault.RestartFault.TheVariants as restart_fault;
ghost use Rattle.replica_lock.specs.Sessions.{HasMade, IsAtNode, IsSessionOf, own_calls};
ghost use Rattle.steady_node.specs.Endings.{HasEnded, IsTold};
ghost use Rattle.steady_node.specs.Going.{GoesOn, IsUnmarked, entries_left};

use crate::ending::Ending;
use replica_lock::{Node, NodeFault, RestartFault, Session};
use std::sync::Wait;
use tact_base::MOMENT_MAX;
use tact_io::{Clock, Gate, Journal};

/// The number of a clock, as a moment: at most the greatest one.
pub fn moment(clock: &impl Clock) -> u64
    ensures { result ≤ MOMENT_MAX }
{
    clock.now().min(MOMENT_MAX)
}

/// The end of a session for want of memory, before it did anything.
pub fn no_memory() -> Ending
    ensures fault { result.fault ≡ restart_fault.NoMemory }
    ensures lost { result.lost ≡ false }
{
    Ending {
        fault: RestartFault::NoMemory,
        lost: false,
    }
}

/// Begins a node anew from its journal, at the moment of the clock. A refusal leaves the session's calls as they were, if
/// it isn't in doubt; else they are lost.
pub fn restart<R: Wait, C: Clock, J: Journal, G: Gate>(
    rt: &R,
    clock: &C,
    node: &Node<'_, J, G>,
    session: &mut Session,
) -> Result<(), Ending>
    requires session { IsAtNode node.now session.old }
    ensures on { GoesOn 1 session.old session.new }
    ensures at { IsAtNode node.now session.new }
    ensures doubt { session.new.doubt ≡ session.old.doubt }
    ensures calls { session.old.doubt ≡ false → own_calls session.new ≡ own_calls session.old }
    ensures lost { IfErr result (λ ending. ending.lost ≡ session.new.doubt) }
    ensures made { OnOk result ((moment : ℕ) × HasMade node.now.desk.setup session.old session.new moment act.Restart) }
    ensures nearer { OnOk result (entries_left session.new < entries_left session.old) }
    ensures ending { IfErr result (HasEnded J.tells session.old session.new) }
{
    let answer = node.restart(rt, session, moment(clock));
    let lost = session.in_doubt();
    match answer {
        Ok(()) => Ok(()),
        Err(fault) => Err(Ending { fault, lost }),
    }
}

/// Goes on after a session was told a fault where it made no call: where its node is halted, or its journal failed, the
/// node is begun anew.
pub fn mend<R: Wait, C: Clock, J: Journal, G: Gate>(
    rt: &R,
    clock: &C,
    node: &Node<'_, J, G>,
    session: &mut Session,
    fault: NodeFault,
) -> Result<(), Ending>
    requires session { IsSessionOf node.now session.old }
    requires told { IsTold fault session.old }
    ensures on { GoesOn 1 session.old session.new }
    ensures session { IsSessionOf node.now session.new }
    ensures calls { own_calls session.new ≡ own_calls session.old }
    ensures marked { OnOk result (IsUnmarked session.new → ⊥) }
    ensures halted { OnOk result ((fault ≡ node_fault.Halted) ⊎ (fault ≡ node_fault.JournalFault)) }
    ensures kept { IfErr result (λ ending. ending.lost ≡ false) }
    ensures nearer { OnOk result (entries_left session.new < entries_left session.old) }
    ensures ending { IfErr result (HasEnded J.tells session.old session.new) }
{
    match fault {
        NodeFault::Halted | NodeFault::JournalFault => restart(rt, clock, node, session),
        NodeFault::Full { count, clock } => Err(Ending {
            fault: RestartFault::Full { count, clock },
            lost: false,
        }),
        NodeFault::NoMemory => Err(no_memory()),
    }
}

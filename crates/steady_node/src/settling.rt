//! What became of a call that was refused.
ghost use Rattle.std.specs.Prelude.{◌≡◌, ◌≢◌, ◌<◌, true, false, IfErr, IfOk, IfSome, OnErr, OnOk, length};
ghost use Rattle.replica_lock.specs.Allowances.{IsAllowanceOf};
ghost use Rattle.replica_lock.specs.Resuming.{allowance_in};
ghost use Rattle.replica_lock.specs.Sessions.{IsAtNode, NodeView, own_calls};
ghost use Rattle.steady_node.specs.Endings.{HasEnded, IsLost};
ghost use Rattle.steady_node.specs.Going.{GoesOn, IsUnmarked, entries_left};
ghost use Rattle.steady_node.specs.Lost.{IsCallLost, IsDueBack};
ghost use Rattle.steady_node.specs.Settled.{HasComeBack, IsOutcome, IsOutcomeOf, IsRefused, IsResumedAs, back_in, is_doubtful};

use crate::ending::Ending;
use crate::mending::{mend, restart};
use replica_lock::{Allowance, Node, NodeFault, RestartFault, Resumed, Session};
use run_model::{Reply, Request};
use std::sync::Wait;
use tact_io::{Clock, Gate, Journal};

/// What became of a call that was refused: it stands, with this reply, or it wasn't made. An allowance may come back.
#[derive(Drop)]
pub(crate) enum Outcome {
    Stands {
        reply: Reply,
        back: Option<Allowance>,
    },
    Dropped {
        back: Option<Allowance>,
    },
}

/// The end of a session whose last call is lost.
pub(crate) fn lost() -> Ending
    ensures { IsLost result }
{
    Ending {
        fault: RestartFault::JournalFault,
        lost: true,
    }
}

/// What became of a call that was refused with a fault. Where its node was halted it wasn't made, and where the journal
/// failed it stands or not; the node is begun anew then.
pub(crate) fn came_of<R: Wait, C: Clock, J: Journal, G: Gate>(
    rt: &R,
    clock: &C,
    node: &Node<'_, J, G>,
    session: &mut Session,
    asked: &Request,
    fault: NodeFault,
) -> Result<Outcome, Ending>
    requires session { IsAtNode node.now session.old }
    requires refused { IsRefused fault session.old }
    ensures on { GoesOn 1 session.old session.new }
    ensures at { IsAtNode node.now session.new }
    ensures marked { OnOk result (IsUnmarked session.new → ⊥) }
    ensures nearer { OnOk result (entries_left session.new < entries_left session.old) }
    ensures certain { OnOk result (session.new.doubt ≡ false) }
    ensures outcome { IfOk result (IsOutcome node.now.desk.setup asked.now session.old session.new) }
    ensures allowance { IfOk result (λ came. IfSome (back_in came) (IsAllowanceOf node.now)) }
    ensures failed { IfOk result (IsOutcomeOf fault session.new) }
    ensures lost { IfErr result (λ ending. ending.lost ≡ is_doubtful fault) }
    ensures cause { IfErr result (λ ending. ending.lost ≡ true → IsCallLost node.now asked.now session.old session.new) }
    ensures ending { IfErr result (HasEnded J.tells session.old session.new) }
{
    if let NodeFault::JournalFault = fault {
        let resumed = resume(rt, clock, node, session)?;
        as_asked(asked, resumed)
    } else {
        mend(rt, clock, node, session, fault)?;
        Ok(Outcome::Dropped { back: None })
    }
}

// Tells what became of the call that put a session in doubt. The node is begun anew, and again where the call of another
// session halts it before that is told.
fn resume<R: Wait, C: Clock, J: Journal, G: Gate>(
    rt: &R,
    clock: &C,
    node: &Node<'_, J, G>,
    session: &mut Session,
) -> Result<Resumed, Ending>
    requires session { IsAtNode node.now session.old }
    requires doubt { session.old.doubt ≡ true }
    requires marked { session.old.faults ≢ 0 }
    requires counted { session.old.calls ≡ length (own_calls session.old) }
    ensures on { GoesOn 1 session.old session.new }
    ensures at { IsAtNode node.now session.new }
    ensures certain { OnOk result (session.new.doubt ≡ false) }
    ensures nearer { OnOk result (entries_left session.new < entries_left session.old) }
    ensures back { IfOk result (HasComeBack node.now.desk.setup session.old session.new) }
    ensures allowance { IfOk result (λ told. IfSome (allowance_in told) (IsAllowanceOf node.now)) }
    ensures marked { session.new.faults ≢ 0 }
    ensures lost { IfErr result (λ ending. ending.lost ≡ true) }
    ensures doubtful { OnErr result (session.new.doubt ≡ true) }
    ensures ending { IfErr result (HasEnded J.tells session.old session.new) }
{
    loop {
        restart(rt, clock, node, session)?;
        if let Ok(resumed) = node.resume(rt, session) {
            return Ok(resumed);
        }
    }
}

// A call that came back, if it is the one that was asked for.
fn as_asked(asked: &Request, resumed: Resumed) -> Result<Outcome, Ending>
    ensures same { IfOk result (IsResumedAs asked.now resumed) }
    ensures other { IfErr result (λ ending. IsLost ending × ((node : NodeView) → IsDueBack node asked.now resumed → ⊥)) }
{
    match resumed {
        Resumed::Stands {
            request,
            reply,
            allowance,
        } => {
            if request == *asked {
                Ok(Outcome::Stands {
                    reply,
                    back: allowance,
                })
            } else {
                Err(lost())
            }
        }
        Resumed::Dropped { allowance } => Ok(Outcome::Dropped { back: allowance }),
        Resumed::Nothing => Err(lost()),
    }
}

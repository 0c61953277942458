//! Parcels that are taken.
ghost use Rattle.std.specs.Prelude.{◌≡◌, IfErr, IfOk, OnOk, false};
ghost use Rattle.replica_lock.specs.Sessions.{IsSessionOf, own_calls};
ghost use Rattle.steady_node.specs.Endings.{HasEnded};
ghost use Rattle.steady_node.specs.Going.{GoesOn};
ghost use Rattle.steady_node.specs.Taken.{HasTaken, IsTaking};

use crate::ending::Ending;
use crate::mending::{mend, moment};
use replica_lock::{Node, Parcel, Session, TakeFault};
use std::sync::Wait;
use tact_io::{Clock, Gate, Journal};

/// Takes a parcel that is addressed to the node's replica, as `Node::take` does. Where the journal failed, or the node was
/// halted, the node is begun anew, and the parcel is taken again.
pub fn take<R: Wait, C: Clock, J: Journal, G: Gate>(
    rt: &R,
    clock: &C,
    node: &Node<'_, J, G>,
    session: &mut Session,
    mut parcel: Parcel,
) -> Result<(), Ending>
    requires session { IsSessionOf node.now session.old }
    requires desk { parcel.desk ≡ node.now.desk.table }
    requires addressed { parcel.message.to ≡ node.now.replica }
    ensures on { GoesOn 1 session.old session.new }
    ensures session { IsSessionOf node.now session.new }
    ensures calls { own_calls session.new ≡ own_calls session.old }
    ensures taken { OnOk result (HasTaken node.now session.old session.new parcel) }
    ensures kept { IfErr result (λ ending. ending.lost ≡ false) }
    ensures ending { IfErr result (HasEnded J.tells session.old session.new) }
{
    loop {
        match take_once(rt, clock, node, session, parcel)? {
            None => return Ok(()),
            Some(back) => parcel = back,
        }
    }
}

// Takes a parcel once; it comes back where it wasn't taken.
fn take_once<R: Wait, C: Clock, J: Journal, G: Gate>(
    rt: &R,
    clock: &C,
    node: &Node<'_, J, G>,
    session: &mut Session,
    parcel: Parcel,
) -> Result<Option<Parcel>, Ending>
    requires session { IsSessionOf node.now session.old }
    requires desk { parcel.desk ≡ node.now.desk.table }
    requires addressed { parcel.message.to ≡ node.now.replica }
    ensures on { GoesOn 1 session.old session.new }
    ensures session { IsSessionOf node.now session.new }
    ensures calls { own_calls session.new ≡ own_calls session.old }
    ensures taking { IfOk result (IsTaking node.now session.old session.new parcel) }
    ensures kept { IfErr result (λ ending. ending.lost ≡ false) }
    ensures ending { IfErr result (HasEnded J.tells session.old session.new) }
{
    match node.take(rt, session, moment(clock), parcel) {
        Ok(()) => Ok(None),
        Err(TakeFault { fault, parcel }) => {
            mend(rt, clock, node, session, fault)?;
            Ok(Some(parcel))
        }
    }
}

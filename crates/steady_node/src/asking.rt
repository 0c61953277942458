//! Calls of clients.
ghost use Rattle.std.specs.Prelude.{◌≡◌, ◌≢◌, ◌-◌, ◌<◌, ◌≤◌, unsigned_abs, true, false, IfErr, IfOk, IfSome, IsTrue, OnOk, None, option_map, length};
ghost use Rattle.tact_base.specs.declared.limits.TheConstants.{AMOUNT_MAX};
ghost use Rattle.run_model.specs.Ranges.{IsOpInRange, IsRequestInRange, IsWeightInRange};
ghost use Rattle.run_model.specs.declared.call.Reply.TheVariants as reply;
ghost use Rattle.run_model.specs.declared.call.Request.TheVariants as request;
ghost use Rattle.locked_replica.specs.Locks.{IsWriteOrRead};
ghost use Rattle.locked_replica.specs.declared.fault.RestartFault.TheVariants as restart_fault;
ghost use Rattle.replica_lock.specs.Allowances.{IsAllowanceOf};
ghost use Rattle.replica_lock.specs.Sessions.{IsAtNode, IsSessionOf, own_calls};
ghost use Rattle.steady_node.specs.Answered.{IsAnswered, IsMadeUp, IsNoReserving, IsOtherThan, IsPlain, IsReservedBy, IsReservedOnce, IsReservingOf, IsTakenFrom, IsTried, MakesUp, with_amount};
ghost use Rattle.steady_node.specs.Endings.{HasEnded, IsLost};
ghost use Rattle.steady_node.specs.Going.{GoesOn};
ghost use Rattle.steady_node.specs.Lost.{IsCallLost, IsDone, IsReleased};
ghost use Rattle.steady_node.specs.Settled.{back_in};

use crate::ending::Ending;
use crate::mending::{moment, no_memory};
use crate::settling::{Outcome, came_of, lost};
use replica_lock::{Accepted, Allowance, Node, Reserving, Session};
use run_model::{Reply, Request};
use std::sync::Wait;
use tact_base::{Op, Weight};
use tact_io::{Clock, Gate, Journal};

// Tells that a session that isn't in doubt has seen as many calls as it counts, and changes nothing.
fn stand(session: &Session)
    ensures { session.now.doubt ≡ false → session.now.calls ≡ length (own_calls session.now) }
{
    let _calls = session.calls();
}

// A request of its own. `NoMemory` is the only error.
fn copied(asked: &Request) -> Result<Request, Ending>
    ensures same { IfOk result (λ copy. copy ≡ asked.now) }
    ensures err { IfErr result (λ ending. (ending.fault ≡ restart_fault.NoMemory) × (ending.lost ≡ false)) }
{
    match asked.clone() {
        Ok(copy) => Ok(copy),
        Err(_) => Err(no_memory()),
    }
}

/// Answers a call that writes or reads, as `Node::call` does. Where the journal failed, the node is begun anew, and the
/// call is answered as it stands there; where it doesn't stand, and where the node was halted, it is made again.
pub fn call<R: Wait, C: Clock, J: Journal, G: Gate>(
    rt: &R,
    clock: &C,
    node: &Node<'_, J, G>,
    session: &mut Session,
    asked: &Request,
) -> Result<Reply, Ending>
    requires session { IsSessionOf node.now session.old }
    requires in_range { IsRequestInRange node.now.desk.setup asked.now }
    requires plain { IsWriteOrRead asked.now }
    ensures on { GoesOn 1 session.old session.new }
    ensures at { IsAtNode node.now session.new }
    ensures answered { IfOk result (IsAnswered node.now session.old session.new asked.now) }
    ensures lost { IfErr result (λ ending. ending.lost ≡ true → IsCallLost node.now asked.now session.old session.new) }
    ensures ending { IfErr result (HasEnded J.tells session.old session.new) }
{
    loop {
        if let Some(reply) = call_once(rt, clock, node, session, asked)? {
            return Ok(reply);
        }
    }
}

// Answers a call once; none where it wasn't made.
fn call_once<R: Wait, C: Clock, J: Journal, G: Gate>(
    rt: &R,
    clock: &C,
    node: &Node<'_, J, G>,
    session: &mut Session,
    asked: &Request,
) -> Result<Option<Reply>, Ending>
    requires session { IsSessionOf node.now session.old }
    requires in_range { IsRequestInRange node.now.desk.setup asked.now }
    requires plain { IsWriteOrRead asked.now }
    ensures on { GoesOn 1 session.old session.new }
    ensures at { IsAtNode node.now session.new }
    ensures tried { IfOk result (IsTried node.now asked.now session.old session.new) }
    ensures lost { IfErr result (λ ending. ending.lost ≡ true → IsCallLost node.now asked.now session.old session.new) }
    ensures ending { IfErr result (HasEnded J.tells session.old session.new) }
{
    let copy = copied(asked)?;
    stand(session);
    match node.call(rt, session, moment(clock), copy) {
        Ok(reply) => Ok(Some(reply)),
        Err(fault) => plain(came_of(rt, clock, node, session, asked, fault)?),
    }
}

// What a call came to that takes no allowance.
fn plain(came: Outcome) -> Result<Option<Reply>, Ending>
    ensures plain { IfOk result (IsPlain came) }
    ensures other { IfErr result (λ ending. IsLost ending × (back_in came ≢ None)) }
{
    let (reply, back) = match came {
        Outcome::Stands { reply, back } => (Some(reply), back),
        Outcome::Dropped { back } => (None, back),
    };
    if back.is_some() {
        return Err(lost());
    }
    Ok(reply)
}

/// Writes with a weight that an allowance covers, as `Node::write_held` does, and goes on as [`call`]. The allowance is
/// then less by the weight's size; after an error that isn't lost it is as it was.
pub fn write_held<R: Wait, C: Clock, J: Journal, G: Gate>(
    rt: &R,
    clock: &C,
    node: &Node<'_, J, G>,
    session: &mut Session,
    allowance: &mut Allowance,
    weight: Weight,
    op: Op,
) -> Result<Accepted, Ending>
    requires session { IsSessionOf node.now session.old }
    requires allowance { IsAllowanceOf node.now allowance.old }
    requires weight { IsWeightInRange node.now.desk.setup weight }
    requires op { IsOpInRange op }
    requires conit { weight.conit ≡ allowance.old.conit }
    requires size { unsigned_abs weight.nweight ≤ allowance.old.amount }
    ensures on { GoesOn 1 session.old session.new }
    ensures at { IsAtNode node.now session.new }
    ensures answered { IfOk result (λ accepted. IsAnswered node.now session.old session.new (request.Held weight op) (reply.Done accepted.index accepted.stamp)) }
    ensures allowance { OnOk result (allowance.new ≡ with_amount allowance.old (allowance.old.amount - unsigned_abs weight.nweight)) }
    ensures left { IfErr result (λ ending. ending.lost ≡ false → allowance.new ≡ allowance.old) }
    ensures lost { IfErr result (λ ending. ending.lost ≡ true → IsCallLost node.now (request.Held weight op) session.old session.new) }
    ensures ending { IfErr result (HasEnded J.tells session.old session.new) }
{
    loop {
        if let Some(accepted) = held_once(rt, clock, node, session, allowance, weight, op)? {
            return Ok(accepted);
        }
    }
}

// Writes so once; none where the write wasn't made, which leaves the allowance as it was.
fn held_once<R: Wait, C: Clock, J: Journal, G: Gate>(
    rt: &R,
    clock: &C,
    node: &Node<'_, J, G>,
    session: &mut Session,
    allowance: &mut Allowance,
    weight: Weight,
    op: Op,
) -> Result<Option<Accepted>, Ending>
    requires session { IsSessionOf node.now session.old }
    requires allowance { IsAllowanceOf node.now allowance.old }
    requires weight { IsWeightInRange node.now.desk.setup weight }
    requires op { IsOpInRange op }
    requires conit { weight.conit ≡ allowance.old.conit }
    requires size { unsigned_abs weight.nweight ≤ allowance.old.amount }
    ensures on { GoesOn 1 session.old session.new }
    ensures at { IsAtNode node.now session.new }
    ensures tried { IfOk result (λ tried. IsTried node.now (request.Held weight op) session.old session.new (option_map (λ accepted. reply.Done accepted.index accepted.stamp) tried)) }
    ensures allowance { IfOk result (λ tried. IfSome tried (λ accepted. allowance.new ≡ with_amount allowance.old (allowance.old.amount - unsigned_abs weight.nweight))) }
    ensures same { IfOk result (λ tried. tried ≡ None → allowance.new ≡ allowance.old) }
    ensures left { IfErr result (λ ending. ending.lost ≡ false → allowance.new ≡ allowance.old) }
    ensures lost { IfErr result (λ ending. ending.lost ≡ true → IsCallLost node.now (request.Held weight op) session.old session.new) }
    ensures ending { IfErr result (HasEnded J.tells session.old session.new) }
{
    let whole = allowance.amount();
    let left = whole - weight.nweight.unsigned_abs();
    stand(session);
    match node.write_held(rt, session, allowance, moment(clock), weight, op) {
        Ok(accepted) => Ok(Some(accepted)),
        Err(fault) => {
            let asked = Request::Held { weight, op };
            let came = match came_of(rt, clock, node, session, &asked, fault) {
                Ok(came) => came,
                Err(ending) => return Err(ending),
            };
            accepted(taken(node, allowance, came, whole, left)?)
        }
    }
}

// A held write that was accepted, by its reply; none where it wasn't made.
fn accepted(tried: Option<Reply>) -> Result<Option<Accepted>, Ending>
    ensures same { IfOk result (λ found. option_map (λ accepted. reply.Done accepted.index accepted.stamp) found ≡ tried) }
    ensures other { IfErr result (λ ending. IsLost ending × IsOtherThan IsDone tried) }
{
    match tried {
        Some(Reply::Done { index, stamp }) => Ok(Some(Accepted { index, stamp })),
        Some(_) => Err(lost()),
        None => Ok(None),
    }
}

/// Gives back all that an allowance has, as `Node::release` does, and goes on as [`call`]. It tells how much that was. The
/// allowance then has nothing; after an error that isn't lost it is as it was.
pub fn release<R: Wait, C: Clock, J: Journal, G: Gate>(
    rt: &R,
    clock: &C,
    node: &Node<'_, J, G>,
    session: &mut Session,
    allowance: &mut Allowance,
) -> Result<u64, Ending>
    requires session { IsSessionOf node.now session.old }
    requires allowance { IsAllowanceOf node.now allowance.old }
    ensures on { GoesOn 1 session.old session.new }
    ensures at { IsAtNode node.now session.new }
    ensures amount { IfOk result (λ amount. amount ≡ allowance.old.amount) }
    ensures answered { OnOk result (IsAnswered node.now session.old session.new (request.Release allowance.old.conit allowance.old.amount) reply.Released) }
    ensures allowance { OnOk result (allowance.new ≡ with_amount allowance.old 0) }
    ensures left { IfErr result (λ ending. ending.lost ≡ false → allowance.new ≡ allowance.old) }
    ensures lost { IfErr result (λ ending. ending.lost ≡ true → IsCallLost node.now (request.Release allowance.old.conit allowance.old.amount) session.old session.new) }
    ensures ending { IfErr result (HasEnded J.tells session.old session.new) }
{
    loop {
        if let Some(amount) = release_once(rt, clock, node, session, allowance)? {
            return Ok(amount);
        }
    }
}

// Gives it back once; none where the call wasn't made, which leaves the allowance as it was.
fn release_once<R: Wait, C: Clock, J: Journal, G: Gate>(
    rt: &R,
    clock: &C,
    node: &Node<'_, J, G>,
    session: &mut Session,
    allowance: &mut Allowance,
) -> Result<Option<u64>, Ending>
    requires session { IsSessionOf node.now session.old }
    requires allowance { IsAllowanceOf node.now allowance.old }
    ensures on { GoesOn 1 session.old session.new }
    ensures at { IsAtNode node.now session.new }
    ensures amount { IfOk result (λ tried. IfSome tried (λ amount. amount ≡ allowance.old.amount)) }
    ensures tried { IfOk result (λ tried. IsTried node.now (request.Release allowance.old.conit allowance.old.amount) session.old session.new (option_map (λ amount. reply.Released) tried)) }
    ensures allowance { IfOk result (λ tried. IfSome tried (λ amount. allowance.new ≡ with_amount allowance.old 0)) }
    ensures same { IfOk result (λ tried. tried ≡ None → allowance.new ≡ allowance.old) }
    ensures left { IfErr result (λ ending. ending.lost ≡ false → allowance.new ≡ allowance.old) }
    ensures lost { IfErr result (λ ending. ending.lost ≡ true → IsCallLost node.now (request.Release allowance.old.conit allowance.old.amount) session.old session.new) }
    ensures ending { IfErr result (HasEnded J.tells session.old session.new) }
{
    let whole = allowance.amount();
    let asked = Request::Release {
        conit: allowance.conit(),
        amount: whole,
    };
    stand(session);
    match node.release(rt, session, allowance, moment(clock)) {
        Ok(amount) => Ok(Some(amount)),
        Err(fault) => {
            let came = match came_of(rt, clock, node, session, &asked, fault) {
                Ok(came) => came,
                Err(ending) => return Err(ending),
            };
            released(taken(node, allowance, came, whole, 0)?, whole)
        }
    }
}

// An amount that was released, by the reply; none where it wasn't.
fn released(tried: Option<Reply>, amount: u64) -> Result<Option<u64>, Ending>
    ensures same { IfOk result (λ found. option_map (λ given. reply.Released) found ≡ tried) }
    ensures amount { IfOk result (λ found. IfSome found (λ given. given ≡ amount)) }
    ensures other { IfErr result (λ ending. IsLost ending × IsOtherThan IsReleased tried) }
{
    match tried {
        Some(Reply::Released) => Ok(Some(amount)),
        Some(_) => Err(lost()),
        None => Ok(None),
    }
}

// What a call came to that takes of an allowance, which had `whole` before. Where the call stands, it has `left` then;
// where it wasn't made, what it had given up comes back. Else the call is lost.
fn taken<J: Journal, G: Gate>(
    node: &Node<'_, J, G>,
    allowance: &mut Allowance,
    came: Outcome,
    whole: u64,
    left: u64,
) -> Result<Option<Reply>, Ending>
    requires allowance { IsAllowanceOf node.now allowance.old }
    requires back { IfSome (back_in came) (IsAllowanceOf node.now) }
    ensures taken { IfOk result (IsTakenFrom came allowance.old allowance.new whole left) }
    ensures other { IfErr result (λ ending. IsLost ending × (IsMadeUp came allowance.old whole left → ⊥)) }
{
    let (reply, back, due) = match came {
        Outcome::Stands { reply, back } => (Some(reply), back, left),
        Outcome::Dropped { back } => (None, back, whole),
    };
    if !is_restored(node, allowance, back, due) {
        return Err(lost());
    }
    Ok(reply)
}

// Joins what comes back to an allowance, and tells whether this has as much as is due then.
fn is_restored<J: Journal, G: Gate>(
    node: &Node<'_, J, G>,
    allowance: &mut Allowance,
    back: Option<Allowance>,
    due: u64,
) -> bool
    requires allowance { IsAllowanceOf node.now allowance.old }
    requires back { IfSome back (IsAllowanceOf node.now) }
    ensures restored { IsTrue result → allowance.new ≡ with_amount allowance.old due }
    ensures made_up { MakesUp allowance.old back due → IsTrue result }
{
    if let Some(back) = back {
        if node.join(allowance, back).is_err() {
            return false;
        }
    }
    allowance.amount() == due
}

/// Reserves an amount on a conit, as `Node::reserve` does, and goes on as [`call`].
pub fn reserve<R: Wait, C: Clock, J: Journal, G: Gate>(
    rt: &R,
    clock: &C,
    node: &Node<'_, J, G>,
    session: &mut Session,
    conit: u32,
    amount: u64,
) -> Result<Reserving, Ending>
    requires session { IsSessionOf node.now session.old }
    requires conit { conit < node.now.desk.setup.conits }
    requires amount { amount ≤ AMOUNT_MAX }
    ensures on { GoesOn 1 session.old session.new }
    ensures at { IsAtNode node.now session.new }
    ensures reserved { IfOk result (IsReservedBy node.now conit amount (IsAnswered node.now session.old session.new (request.Reserve conit amount))) }
    ensures lost { IfErr result (λ ending. ending.lost ≡ true → IsCallLost node.now (request.Reserve conit amount) session.old session.new) }
    ensures ending { IfErr result (HasEnded J.tells session.old session.new) }
{
    loop {
        if let Some(reserving) = reserve_once(rt, clock, node, session, conit, amount)? {
            return Ok(reserving);
        }
    }
}

// Reserves it once; none where the call wasn't made.
fn reserve_once<R: Wait, C: Clock, J: Journal, G: Gate>(
    rt: &R,
    clock: &C,
    node: &Node<'_, J, G>,
    session: &mut Session,
    conit: u32,
    amount: u64,
) -> Result<Option<Reserving>, Ending>
    requires session { IsSessionOf node.now session.old }
    requires conit { conit < node.now.desk.setup.conits }
    requires amount { amount ≤ AMOUNT_MAX }
    ensures on { GoesOn 1 session.old session.new }
    ensures at { IsAtNode node.now session.new }
    ensures tried { IfOk result (IsReservedOnce node.now conit amount session.old session.new) }
    ensures lost { IfErr result (λ ending. ending.lost ≡ true → IsCallLost node.now (request.Reserve conit amount) session.old session.new) }
    ensures ending { IfErr result (HasEnded J.tells session.old session.new) }
{
    stand(session);
    match node.reserve(rt, session, moment(clock), conit, amount) {
        Ok(reserving) => Ok(Some(reserving)),
        Err(fault) => {
            let asked = Request::Reserve { conit, amount };
            let came = match came_of(rt, clock, node, session, &asked, fault) {
                Ok(came) => came,
                Err(ending) => return Err(ending),
            };
            reserving(came, conit, amount)
        }
    }
}

// What a reserve of an amount on a conit came to; none where it wasn't made.
fn reserving(came: Outcome, conit: u32, amount: u64) -> Result<Option<Reserving>, Ending>
    ensures came { IfOk result (IsReservingOf came conit amount) }
    ensures other { IfErr result (λ ending. IsLost ending × IsNoReserving came conit amount) }
{
    match came {
        Outcome::Stands {
            reply: Reply::Granted,
            back: Some(back),
        } => {
            if back.conit() == conit && back.amount() == amount {
                Ok(Some(Reserving::Granted(back)))
            } else {
                Err(lost())
            }
        }
        Outcome::Stands {
            reply: Reply::Granted,
            back: None,
        } => Err(lost()),
        Outcome::Stands { reply, back: None } => Ok(Some(Reserving::Waiting(reply))),
        Outcome::Dropped { back: None } => Ok(None),
        _ => Err(lost()),
    }
}

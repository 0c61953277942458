//! One entry of a record after those before it, by the kind of its act. Each function is called where the
//! replica has room and the moment doesn't run back.
ghost use Rattle.std.specs.Prelude.{◌≡◌, ◌<◌, ◌≤◌, ℕ, List, length, OnOk, IfErr, MatchOption, Some};
ghost use Rattle.tact_base.specs.declared.limits.TheConstants.{HISTORY_MAX, REPLICAS_MAX};
ghost use Rattle.run_model.specs.declared.entry.Entry.{Entry};
ghost use Rattle.run_record.specs.Records.{IsShortOf};
ghost use Rattle.run_record.specs.declared.short.ShortAct.{ShortAct};
ghost use Rattle.run_record.specs.declared.short.ShortAct.TheVariants as told;
ghost use Rattle.run_check.specs.Expanded.{message_sent, with_short};
ghost use Rattle.run_check.specs.Checking.{Follow, AreSent, IsInTime, HasPassed, IsRefusalOf, IsApart, short_at};

use crate::outboxes::Outboxes;
use crate::refusal::{At, Refusal};
use replica_core::{CoreFault, LoanFault};
use replica_set::ReplicaSet;
use run_model::{Cause, Message, Reply, Request};
use run_record::are_same_replies;
use tact_base::{HISTORY_MAX, Numbers};

// Whether a replica has room for an entry at a moment.
pub(crate) fn test_time(set: &ReplicaSet, at: At) -> Result<(), Refusal>
    ghost history: { List Entry }
    requires follow { Follow history set.now }
    requires replica { at.replica < set.now.setup.replicas }
    ensures ok { OnOk result (IsInTime history at) }
    ensures err { (act : ShortAct) → IfErr result (IsRefusalOf set.now.setup history (short_at at act)) }
{
    let replica = set.at(at.replica);
    if replica.count() >= HISTORY_MAX {
        return Err(Refusal::Unlawful(Cause::Full {
            replica: at.replica,
        }));
    }
    let last = replica.last();
    if at.moment < last {
        return Err(Refusal::Unlawful(Cause::Moment {
            told: at.moment,
            last,
        }));
    }
    Ok(())
}

// A call of a client.
pub(crate) fn judge_call(
    set: &mut ReplicaSet,
    at: At,
    client: u32,
    number: u64,
    request: &Request,
    reply: &Reply,
) -> Result<(), Refusal>
    ghost history: { List Entry }
    requires follow { Follow history set.old }
    requires in_time { IsInTime history at }
    requires in_range { IsShortOf set.old.setup (short_at at (told.Call client number request.now reply.now)) }
    ensures ok { OnOk result (HasPassed set.old.setup history (short_at at (told.Call client number request.now reply.now)) set.new) }
    ensures err { IfErr result (IsRefusalOf set.old.setup history (short_at at (told.Call client number request.now reply.now))) }
{
    let calls = set.at(at.replica).calls(client);
    if number != calls {
        return Err(Refusal::Unlawful(Cause::Number {
            told: number,
            due: calls,
        }));
    }
    let due = match set.call(at.replica, at.moment, client, request) {
        Ok(due) => due,
        Err(fault) => return Err(want_of_memory(fault)),
    };
    if !are_same_replies(reply, &due) {
        return Err(Refusal::Unlawful(Cause::Reply {
            told: reply.clone()?,
            due,
        }));
    }
    Ok(())
}

// A message sent, which is kept among those of its sender.
pub(crate) fn judge_send(
    set: &mut ReplicaSet,
    sent: &mut Outboxes,
    at: At,
    to: u32,
    number: u64,
    firsts: &Numbers,
) -> Result<(), Refusal>
    ghost history: { List Entry }
    requires follow { Follow history set.old }
    requires in_time { IsInTime history at }
    requires in_range { IsShortOf set.old.setup (short_at at (told.Send to number firsts.now)) }
    requires sent { AreSent set.old.setup.replicas history sent.old }
    ensures ok { OnOk result (HasPassed set.old.setup history (short_at at (told.Send to number firsts.now)) set.new) }
    ensures sent { OnOk result (AreSent set.old.setup.replicas (with_short set.old.setup history (short_at at (told.Send to number firsts.now))) sent.new) }
    ensures err { IfErr result (IsRefusalOf set.old.setup history (short_at at (told.Send to number firsts.now))) }
{
    let due = sent.count(at.replica);
    if number != due {
        return Err(Refusal::Unlawful(Cause::Number { told: number, due }));
    }
    let message = match set.send(at.replica, at.moment, to, firsts) {
        Ok(message) => message,
        Err(fault) => return Err(want_of_memory(fault)),
    };
    if let Some(apart) = first_apart(firsts.items(), message.firsts.items()) {
        return Err(Refusal::Unlawful(Cause::First {
            origin: apart.origin,
            told: apart.told,
            due: apart.due,
        }));
    }
    sent.keep(at.replica, message)?;
    Ok(())
}

// Where two lists of numbers by origin differ first.
#[derive(Clone, Copy)]
struct Apart {
    origin: u32,
    told: u64,
    due: u64,
}

fn first_apart(told: &[u64], due: &[u64]) -> Option<Apart>
    requires same { length due.now ≡ length told.now }
    requires few { length told.now ≤ REPLICAS_MAX }
    ensures { MatchOption result (told.now ≡ due.now) (λ apart. IsApart told.now due.now apart.origin apart.told apart.due) }
{
    for origin in 0..told.len() {
        let (one, other) = (told[origin], due[origin]);
        if one != other {
            return Some(Apart {
                origin: origin as u32,
                told: one,
                due: other,
            });
        }
    }
    None
}

// A message taken, which is one of those that its sender sent.
pub(crate) fn judge_take(
    set: &mut ReplicaSet,
    sent: &Outboxes,
    at: At,
    from: u32,
    number: u64,
) -> Result<(), Refusal>
    ghost history: { List Entry }
    requires follow { Follow history set.old }
    requires in_time { IsInTime history at }
    requires in_range { IsShortOf set.old.setup (short_at at (told.Take from number)) }
    requires sent { AreSent set.old.setup.replicas history sent.now }
    ensures ok { OnOk result (HasPassed set.old.setup history (short_at at (told.Take from number)) set.new) }
    ensures err { IfErr result (IsRefusalOf set.old.setup history (short_at at (told.Take from number))) }
{
    match sent.message(from, number) {
        Ok(Some(message)) => take_sent(set, &message, at, from, number),
        Ok(None) => Err(Refusal::Unlawful(Cause::NoSend { from, number })),
        Err(fault) => Err(fault.into()),
    }
}

// A message taken that was sent under the number.
fn take_sent(
    set: &mut ReplicaSet,
    message: &Message,
    at: At,
    from: u32,
    number: u64,
) -> Result<(), Refusal>
    ghost history: { List Entry }
    requires follow { Follow history set.old }
    requires in_time { IsInTime history at }
    requires in_range { IsShortOf set.old.setup (short_at at (told.Take from number)) }
    requires sent { message_sent history from number ≡ Some message.now }
    ensures ok { OnOk result (HasPassed set.old.setup history (short_at at (told.Take from number)) set.new) }
    ensures err { IfErr result (IsRefusalOf set.old.setup history (short_at at (told.Take from number))) }
{
    if message.to != at.replica {
        return Err(Refusal::Unlawful(Cause::NotAddressed { to: message.to }));
    }
    match set.take(at.replica, at.moment, message) {
        Ok(()) => Ok(()),
        Err(fault) => Err(want_of_memory(fault)),
    }
}

// A loan.
pub(crate) fn judge_lend(
    set: &mut ReplicaSet,
    at: At,
    to: u32,
    conit: u32,
    amount: u64,
) -> Result<(), Refusal>
    ghost history: { List Entry }
    requires follow { Follow history set.old }
    requires in_time { IsInTime history at }
    requires in_range { IsShortOf set.old.setup (short_at at (told.Lend to conit amount)) }
    ensures ok { OnOk result (HasPassed set.old.setup history (short_at at (told.Lend to conit amount)) set.new) }
    ensures err { IfErr result (IsRefusalOf set.old.setup history (short_at at (told.Lend to conit amount))) }
{
    match set.lend(at.replica, at.moment, to, conit, amount) {
        Ok(()) => Ok(()),
        Err(LoanFault::Home { home, .. }) => {
            Err(Refusal::Unlawful(Cause::Home { amount, home }))
        }
        Err(LoanFault::Free { .. }) => unreachable!(),
        Err(LoanFault::Full { .. }) => unreachable!(),
    }
}

// An amount given back.
pub(crate) fn judge_back(
    set: &mut ReplicaSet,
    at: At,
    owner: u32,
    conit: u32,
    amount: u64,
) -> Result<(), Refusal>
    ghost history: { List Entry }
    requires follow { Follow history set.old }
    requires in_time { IsInTime history at }
    requires in_range { IsShortOf set.old.setup (short_at at (told.Back owner conit amount)) }
    ensures ok { OnOk result (HasPassed set.old.setup history (short_at at (told.Back owner conit amount)) set.new) }
    ensures err { IfErr result (IsRefusalOf set.old.setup history (short_at at (told.Back owner conit amount))) }
{
    match set.give_back(at.replica, at.moment, owner, conit, amount) {
        Ok(()) => Ok(()),
        Err(LoanFault::Free { free, .. }) => {
            Err(Refusal::Unlawful(Cause::Free { amount, free }))
        }
        Err(LoanFault::Home { .. }) => unreachable!(),
        Err(LoanFault::Full { .. }) => unreachable!(),
    }
}

// A new beginning.
pub(crate) fn judge_restart(set: &mut ReplicaSet, at: At) -> Result<(), Refusal>
    ghost history: { List Entry }
    requires follow { Follow history set.old }
    requires in_time { IsInTime history at }
    requires in_range { IsShortOf set.old.setup (short_at at told.Restart) }
    ensures ok { OnOk result (HasPassed set.old.setup history (short_at at told.Restart) set.new) }
    ensures err { IfErr result (IsRefusalOf set.old.setup history (short_at at told.Restart)) }
{
    match set.restart(at.replica, at.moment) {
        Ok(()) => Ok(()),
        Err(fault) => Err(want_of_memory(fault)),
    }
}

// The fault of a replica that isn't full.
fn want_of_memory(fault: CoreFault) -> Refusal
    requires { fault ≡ CoreFault.NoMemory }
    ensures { result ≡ Refusal.NoMemory }
{
    match fault {
        CoreFault::NoMemory => Refusal::NoMemory,
        CoreFault::Full { .. } => unreachable!(),
    }
}

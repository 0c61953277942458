//! What a replica does on behalf of its least client, when its workers have ended.
ghost use Rattle.std.specs.Prelude.{◌≡◌, ◌≢◌, ◌<◌, ◌≤◌, ◌+◌, Bool, IfErr, IfOk, IfSome, List, None, OnOk, false, length, map};
ghost use Rattle.run_model.specs.Histories.{IsPrefix};
ghost use Rattle.run_model.specs.declared.entry.Entry.{Entry};
ghost use Rattle.replica_lock.specs.Sessions.{IsSessionOf, own_calls};
ghost use Rattle.postbox.specs.Posts.{IsFor};
ghost use Rattle.steady_node.specs.Endings.{IsTold};
ghost use Rattle.steady_node.specs.Going.{IsUnmarked};
ghost use Rattle.steady_node.specs.Taken.{HasTaken};
ghost use Rattle.run_work.specs.Ends.{IsFaultlessEnd, IsKeptStop, IsUnmarkedEnd, made_by};
ghost use Rattle.run_work.specs.Rounds.{HasSeen, HasSeenSending, HasSeenTaking, IsLead};
ghost use Rattle.run_work.specs.Settling.{HasGoneOn, HasSeated, HasStayed, IsEndOf};
ghost use Rattle.run_work.specs.Working.{IsKeptEnd};

use crate::leaving::Stop;
use crate::seat::{End, session_of};
use replica_lock::{Node, NodeFault, Parcel, Session};
use run_history::Note;
use std::sync::Wait;
use steady_node::{Ending, mend, moment, no_memory, take};
use tact_base::NoMemory;
use tact_io::{Clock, Gate, Journal};

impl End {
    /// A session of client 0 where there is none. `NoMemory` is the only error.
    pub(crate) fn seat<J: Journal, G: Gate>(
        &mut self,
        node: &Node<'_, J, G>,
    ) -> Result<(), NoMemory>
        requires end { IsEndOf node.now self.old }
        requires whole { map (λ session. session.client) self.old.sessions.items ≡ self.old.roster.clients }
        ensures end { IsEndOf node.now self.new }
        ensures seated { OnOk result (HasSeated node.now self.old self.new) }
    {
        if self.sessions.is_empty() {
            let session = session_of(node, &mut self.roster, 0)?;
            self.sessions.push(session)?;
        }
        Ok(())
    }

    // The place of the session of the least client.
    fn lead(&self) -> usize
        requires { 0 < length self.now.sessions.items }
        ensures { IsLead (map (λ session. session.client) self.now.sessions.items) result }
    {
        let mut least = 0;
        for place in 1..self.sessions.len() {
            if self.sessions[place].client() < self.sessions[least].client() {
                least = place;
            }
        }
        least
    }

    /// Sends to another replica; nothing is sent where the journal failed or the node was halted, and it is begun anew.
    pub(crate) fn send<R: Wait, C: Clock, J: Journal, G: Gate>(
        &mut self,
        rt: &R,
        clock: &C,
        node: &Node<'_, J, G>,
        to: u32,
    ) -> Result<Option<Parcel>, Stop>
        requires end { IsEndOf node.now self.old }
        requires ready { 0 < length self.old.sessions.items }
        requires to { to < node.now.desk.setup.replicas }
        requires other { to ≢ node.now.replica }
        ensures on { HasGoneOn self.old self.new }
        ensures made { IsUnmarkedEnd self.new → made_by self.new ≤ made_by self.old + 1 }
        ensures parcel { IfOk result (λ sent. IfSome sent (IsFor node.now.desk.table to)) }
        ensures none { IfOk result (λ sent. sent ≡ None → IsUnmarkedEnd self.new → ⊥) }
        ensures sent { IfOk result (λ sent. IfSome sent (λ parcel. (front : List Entry) → HasSeen self.old front
            → HasSeenSending (HasSeen self.new) front node.now.replica to parcel.message)) }
        ensures stop { IfErr result (IsKeptStop J.tells node.now.desk (IsFaultlessEnd self.new)) }
    {
        let lead = self.lead();
        let session = &mut self.sessions[lead];
        match node.send(rt, session, moment(clock), to) {
            Ok(parcel) => Ok(Some(parcel)),
            Err(fault) => {
                mend_for(rt, clock, node, session, fault)?;
                Ok(None)
            }
        }
    }

    /// Takes a parcel, again where the journal failed or the node was halted, which is begun anew.
    pub(crate) fn take<R: Wait, C: Clock, J: Journal, G: Gate>(
        &mut self,
        rt: &R,
        clock: &C,
        node: &Node<'_, J, G>,
        parcel: Parcel,
    ) -> Result<(), Stop>
        requires end { IsEndOf node.now self.old }
        requires ready { 0 < length self.old.sessions.items }
        requires parcel { IsFor node.now.desk.table node.now.replica parcel }
        ensures on { HasGoneOn self.old self.new }
        ensures made { IsUnmarkedEnd self.new → made_by self.new ≤ made_by self.old + 1 }
        ensures taken { OnOk result (HasSeenTaking (HasSeen self.new) node.now.replica parcel.message) }
        ensures stop { IfErr result (IsKeptStop J.tells node.now.desk (IsFaultlessEnd self.new)) }
    {
        let lead = self.lead();
        take_for(rt, clock, node, &mut self.sessions[lead], parcel)
    }

    /// Hears what a note has seen.
    pub(crate) fn hear<R: Wait, J: Journal, G: Gate>(
        &mut self,
        rt: &R,
        node: &Node<'_, J, G>,
        note: Note,
    )
        requires end { IsEndOf node.now self.old }
        requires ready { 0 < length self.old.sessions.items }
        requires note { note.table ≡ node.now.desk.table }
        ensures on { HasGoneOn self.old self.new }
        ensures made { made_by self.new ≤ made_by self.old }
        ensures told { HasSeen self.new note.seen }
    {
        let lead = self.lead();
        node.hear(rt, &mut self.sessions[lead], note);
    }

    /// A note of what the session has seen.
    pub(crate) fn note<J: Journal, G: Gate>(&mut self, node: &Node<'_, J, G>) -> Note
        requires end { IsEndOf node.now self.old }
        requires ready { 0 < length self.old.sessions.items }
        ensures on { HasGoneOn self.old self.new }
        ensures made { made_by self.new ≤ made_by self.old }
        ensures table { result.table ≡ node.now.desk.table }
        ensures seen { (front : List Entry) → HasSeen self.old front → IsPrefix front result.seen }
    {
        let lead = self.lead();
        node.note(&mut self.sessions[lead])
    }

    /// That there was no memory for the replica.
    pub(crate) fn no_memory<J: Journal, G: Gate>(&mut self, node: &Node<'_, J, G>) -> Stop
        requires end { IsEndOf node.now self.old }
        requires ready { 0 < length self.old.sessions.items }
        ensures on { HasGoneOn self.old self.new }
        ensures made { made_by self.new ≤ made_by self.old }
        ensures stop { (tells : Bool) → IsKeptStop tells node.now.desk (IsFaultlessEnd self.new) result }
    {
        let lead = self.lead();
        stop(node, &mut self.sessions[lead], no_memory())
    }
}

// Tells that a session has seen as many calls as it counts, and changes nothing.
fn stand(session: &Session)
    ensures { session.now.doubt ≡ false → session.now.calls ≡ length (own_calls session.now) }
{
    let _calls = session.calls();
}

// Takes a parcel for a session, and tells where its replica stopped, if it did.
fn take_for<R: Wait, C: Clock, J: Journal, G: Gate>(
    rt: &R,
    clock: &C,
    node: &Node<'_, J, G>,
    session: &mut Session,
    parcel: Parcel,
) -> Result<(), Stop>
    requires session { IsSessionOf node.now session.old }
    requires parcel { IsFor node.now.desk.table node.now.replica parcel }
    ensures stayed { HasStayed session.old session.new }
    ensures few { IsUnmarked session.new → session.new.made ≤ session.old.made + 1 }
    ensures taken { OnOk result (HasTaken node.now session.old session.new parcel) }
    ensures stop { IfErr result (IsKeptStop J.tells node.now.desk (session.new.faults ≡ 0)) }
{
    stand(session);
    let answer = take(rt, clock, node, session, parcel);
    stand(session);
    match answer {
        Ok(()) => Ok(()),
        Err(ending) => Err(stop(node, session, ending)),
    }
}

// Goes on after a session was told a fault: where its node is halted, or its journal failed, the node is begun anew.
fn mend_for<R: Wait, C: Clock, J: Journal, G: Gate>(
    rt: &R,
    clock: &C,
    node: &Node<'_, J, G>,
    session: &mut Session,
    fault: NodeFault,
) -> Result<(), Stop>
    requires session { IsSessionOf node.now session.old }
    requires told { IsTold fault session.old }
    ensures stayed { HasStayed session.old session.new }
    ensures few { IsUnmarked session.new → session.new.made ≤ session.old.made + 1 }
    ensures marked { OnOk result (IsUnmarked session.new → ⊥) }
    ensures stop { IfErr result (IsKeptStop J.tells node.now.desk (session.new.faults ≡ 0)) }
{
    stand(session);
    let answer = mend(rt, clock, node, session, fault);
    stand(session);
    match answer {
        Ok(()) => Ok(()),
        Err(ending) => Err(stop(node, session, ending)),
    }
}

// Where a session's replica stopped, and what the session has seen.
fn stop<J: Journal, G: Gate>(node: &Node<'_, J, G>, session: &mut Session, ending: Ending) -> Stop
    requires session { IsSessionOf node.now session.old }
    ensures session { session.new ≡ session.old }
    ensures stop { (tells : Bool) → IsKeptEnd tells session.old ending → IsKeptStop tells node.now.desk (session.new.faults ≡ 0) result }
{
    Stop {
        replica: session.replica(),
        client: session.client(),
        ending,
        note: node.note(session),
    }
}

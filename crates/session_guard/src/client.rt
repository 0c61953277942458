//! A roaming client: its pass, and its trip.
ghost use Rattle.std.specs.Prelude.{◌≡◌, ◌<◌, ◌≤◌, ◌-◌, [], ◌∷◌, ◌++◌, IfOk, OnErr, OnOk, if◌then◌else◌, length, take};
ghost use Rattle.tact_base.specs.declared.limits.TheConstants.{REPLICAS_MAX, REPLICAS_MIN};
ghost use Rattle.session_guard.specs.Passes.{fresh_pass, pass_after};
ghost use Rattle.session_guard.specs.Trips.{is_granted};
ghost use Rattle.session_guard.specs.Visits.{HasNextIndex};

use crate::Pass;
use run_model::Reply;
use std::alloc::Global;
use tact_base::{NoMemory, Numbers};

/// What a client carries, and the positions of the entries that accepted its writes and answered its reads.
#[derive(Drop)]
pub(crate) struct Client {
    pub(crate) pass: Pass,
    pub(crate) trip: Numbers,
}

impl Client {
    /// A client that did nothing, among `n` replicas.
    pub(crate) fn new(alloc: Global, n: u32) -> Result<Client, NoMemory>
        requires some { REPLICAS_MIN ≤ n }
        requires few { n ≤ REPLICAS_MAX }
        ensures pass { IfOk result (λ client. client.pass ≡ fresh_pass n) }
        ensures trip { IfOk result (λ client. client.trip ≡ []) }
    {
        Ok(Client {
            pass: Pass::new(alloc, n)?,
            trip: Numbers::new(alloc),
        })
    }

    /// Stops at a position. `NoMemory` leaves the client as it was.
    pub(crate) fn stop_at(&mut self, position: u64) -> Result<(), NoMemory>
        ensures stopped { OnOk result (self.new ≡ record self.old { trip = self.old.trip ++ position ∷ [] }) }
        ensures err { OnErr result (self.new ≡ self.old) }
    {
        self.trip.push(position)
    }

    /// Takes back its last stop. Takes no memory.
    pub(crate) fn pass_by(&mut self)
        ensures { self.new ≡ record self.old { trip = take (length self.old.trip - 1) self.old.trip } }
    {
        let stops = self.trip.len();
        self.trip.truncate(stops.saturating_sub(1));
    }

    /// Takes into account the reply at its last stop, of a replica that had so many writes of each origin; where nothing
    /// was granted, it stopped in vain. Takes no memory.
    pub(crate) fn settle(&mut self, replica: u32, haves: &[u64], reply: &Reply)
        requires replica { replica < length self.old.pass.reads }
        requires haves { length haves.now ≡ length self.old.pass.reads }
        ensures pass { HasNextIndex reply.now → self.new.pass ≡ pass_after haves.now replica self.old.pass reply.now }
        ensures trip { self.new.trip ≡ (if is_granted reply.now then self.old.trip else take (length self.old.trip - 1) self.old.trip) }
    {
        self.pass.note(replica, haves, reply);
        if !is_granted(reply) {
            self.pass_by();
        }
    }
}

// Whether a reply accepts a write, or tells a value.
fn is_granted(reply: &Reply) -> bool
    ensures { result ≡ is_granted reply.now }
{
    matches!(reply, Reply::Done { .. } | Reply::Value { .. })
}

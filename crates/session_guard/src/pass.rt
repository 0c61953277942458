//! What a client carries from replica to replica.
ghost use Rattle.std.specs.Prelude.{◌≡◌, ◌<◌, ◌≤◌, max, IfOk, length, map, slice_index};
ghost use Rattle.std.specs.List.{range_with_len};
ghost use Rattle.tact_base.specs.declared.limits.TheConstants.{REPLICAS_MAX, REPLICAS_MIN};
ghost use Rattle.session_guard.specs.Passes.{fresh_pass, lack_of, pass_after, wanted};
ghost use Rattle.session_guard.specs.Visits.{HasNextIndex};

use crate::Visit;
use run_model::Reply;
use std::alloc::Global;
use std::marker::Model;
use tact_base::{NoMemory, Numbers};

/// By origin how many of its writes a client has read of, and how many there were with the last that the client made
/// there, as the replicas told it. With it the client is answered by replicas alone that have all these.
#[derive(Debug, Drop)]
pub struct Pass {
    reads: Numbers,
    writes: Numbers,
}

impl Model for Pass {
    ghost use Rattle.std.specs.Prelude.{◌≤◌, length};
    ghost use Rattle.tact_base.specs.declared.limits.TheConstants.{REPLICAS_MAX};
    ghost use Rattle.session_guard.specs.Passes.{IsPass, PassState};

    ghost Value = { PassState };

    ghost view = { λ p. record { reads = p.reads; writes = p.writes } };

    ghost invariant = { λ p. IsPass (length p.reads) (view p) × (length p.reads ≤ REPLICAS_MAX) };
}

impl Pass {
    /// The pass of a client that did nothing, among `n` replicas. Its numbers lie in memory of `alloc`.
    pub fn new(alloc: Global, n: u32) -> Result<Pass, NoMemory>
        requires some { REPLICAS_MIN ≤ n }
        requires few { n ≤ REPLICAS_MAX }
        ensures { IfOk result (λ pass. pass ≡ fresh_pass n) }
    {
        Ok(Pass {
            reads: Numbers::filled(alloc, 0, n)?,
            writes: Numbers::filled(alloc, 0, n)?,
        })
    }

    /// By origin, the most of its writes that a replica had which answered a read. Takes no memory.
    pub fn reads(&self) -> &Numbers
        ensures { result.now ≡ self.now.reads }
    {
        &self.reads
    }

    /// By origin, how many writes it had with the client's last one there. Takes no memory.
    pub fn writes(&self) -> &Numbers
        ensures { result.now ≡ self.now.writes }
    {
        &self.writes
    }

    /// Among how many replicas it is. Takes no memory.
    pub(crate) fn replicas(&self) -> u32
        ensures count { result ≡ length self.now.reads }
        ensures few { result ≤ REPLICAS_MAX }
        ensures both { length self.now.writes ≡ length self.now.reads }
    {
        self.reads.len() as u32
    }

    /// What keeps the client away from a replica that has so many writes of each origin. Takes no memory.
    pub(crate) fn lack(&self, haves: &[u64]) -> Option<Visit>
        requires { length haves.now ≡ length self.now.reads }
        ensures { result ≡ lack_of haves.now self.now }
    {
        for origin in 0..self.replicas() {
            let have = haves[origin as usize];
            let wanted = self.wanted(origin);
            if have < wanted {
                return Some(Visit::Behind {
                    origin,
                    have,
                    wanted,
                });
            }
        }
        None
    }

    // How many writes of an origin a replica needs to have.
    fn wanted(&self, origin: u32) -> u64
        requires { origin < length self.now.reads }
        ensures { result ≡ wanted self.now origin }
    {
        let place = origin as usize;
        self.reads.items()[place].max(self.writes.items()[place])
    }

    /// Takes a reply into account of a replica that had so many writes of each origin. Takes no memory.
    pub(crate) fn note(&mut self, replica: u32, haves: &[u64], reply: &Reply)
        requires replica { replica < length self.old.reads }
        requires haves { length haves.now ≡ length self.old.reads }
        ensures noted { HasNextIndex reply.now → self.new ≡ pass_after haves.now replica self.old reply.now }
        ensures sized { length self.new.reads ≡ length self.old.reads }
    {
        match reply {
            Reply::Done { index, .. } => {
                self.writes.set(replica as usize, index.saturating_add(1));
            }
            Reply::Value { .. } => raise_each(&mut self.reads, haves),
            Reply::Granted
            | Reply::Released
            | Reply::TooHeavy { .. }
            | Reply::WaitHeld { .. }
            | Reply::WaitShare { .. }
            | Reply::WaitLent { .. }
            | Reply::WaitOrder { .. }
            | Reply::WaitStale { .. }
            | Reply::NotHeld { .. } => {}
        }
    }
}

// Raises each number to that of another list.
fn raise_each(numbers: &mut Numbers, haves: &[u64])
    requires { length haves.now ≡ length numbers.old }
    ensures raised { numbers.new ≡ map (λ origin. max (slice_index numbers.old origin) (slice_index haves.now origin)) (range_with_len 0 (length haves.now)) }
    ensures sized { length numbers.new ≡ length numbers.old }
{
    for place in 0..haves.len() {
        let most = haves[place].max(numbers.items()[place]);
        numbers.set(place, most);
    }
}

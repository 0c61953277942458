//! What a replica gives up: committed writes that each replica is known to have.
ghost use Rattle.std.specs.Prelude.{◌≡◌, ℕ, ◌<◌, ◌≤◌, ◌↔◌, max, All, IsTrue, length};
ghost use Rattle.tact_base.specs.declared.limits.TheConstants.{HISTORY_MAX, REPLICAS_MAX};
ghost use Rattle.write_log.specs.Logs.{log_of, base_of, room_of};
ghost use Rattle.replica_core.specs.Dropped.{past_of};
ghost use Rattle.replica_core.specs.Trimming.{IsKnownByAll, known_all_at, longest_at, trimmed};

use super::Replica;
use crate::told_logs::ToldLogs;
use tact_base::{REPLICAS_MAX, Write};

impl Replica {
    // Gives up the committed writes at the front that each replica is known to have, in order and in the logs. It
    // costs what it gives up, and for each origin a look at each replica. Takes no memory.
    pub(super) fn trim(&mut self)
        ensures { self.new ≡ record self.old { core = trimmed self.old.core } }
    {
        let count = self.longest_front();
        let gone = &self.seen.committed()[..count as usize];
        trim_logs(&mut self.logs, self.config.replicas(), gone);
        self.seen.trim(count);
    }

    // How many of the committed writes that it holds stand before the first that some replica isn't known to have.
    fn longest_front(&self) -> u64
        ensures { result ≡ longest_at self.now.core }
    {
        let mut known = [0; REPLICAS_MAX as usize];
        let mut count = 0;
        for write in self.seen.committed() {
            if !self.is_had_by_all(write, &mut known) {
                return count;
            }
            count += 1;
        }
        count
    }

    // Whether each replica is known to have a write. By origin some number that each is known to have is kept: it is
    // looked up only where it isn't past the write.
    fn is_had_by_all(&self, write: &Write, known: &mut [u64]) -> bool
        requires origin { write.now.origin < self.now.core.setup.replicas }
        requires few { self.now.core.setup.replicas ≤ REPLICAS_MAX }
        requires sized { length known.old ≡ REPLICAS_MAX }
        requires had { IsKnownByAll self.now.core known.old }
        ensures had { IsTrue result ↔ (write.now.index < known_all_at self.now.core write.now.origin) }
        ensures sized { length known.new ≡ REPLICAS_MAX }
        ensures known { IsKnownByAll self.now.core known.new }
    {
        let origin = write.origin as usize;
        if write.index < known[origin] {
            return true;
        }
        let all = self.known_by_all(write.origin);
        known[origin] = all;
        write.index < all
    }

    // How many writes of an origin each replica is known to have: so many it has, and so many each that may lack some.
    fn known_by_all(&self, origin: u32) -> u64
        requires { origin < self.now.core.setup.replicas }
        ensures { result ≡ known_all_at self.now.core origin }
    {
        let mut least = self.have(origin);
        for peer in 0..self.config.replicas() {
            if peer != self.replica && peer != origin {
                least = least.min(self.known(peer, origin));
            }
        }
        least
    }
}

// Gives up, in the log of each origin, the writes up to the last of those that are gone.
fn trim_logs(logs: &mut ToldLogs, replicas: u32, gone: &[Write])
    requires logs_sized { length logs.old.logs ≡ replicas }
    requires bases_sized { length logs.old.bases ≡ replicas }
    requires few { All (λ write. write.index < HISTORY_MAX) gone.now }
    requires within { All (λ write. write.index < length (log_of logs.old write.origin)) gone.now }
    ensures logs { logs.new.logs ≡ logs.old.logs }
    ensures sized { length logs.new.bases ≡ length logs.old.bases }
    ensures bases { (origin : ℕ) → origin < replicas → base_of logs.new origin ≡ max (base_of logs.old origin) (past_of gone.now origin) }
    ensures room { (origin : ℕ) → room_of logs.old origin ≤ room_of logs.new origin }
{
    for origin in 0..replicas {
        logs.trim(origin, past_last(gone, origin));
    }
}

// Past the last of some writes of an origin, 0 where there is none of it.
fn past_last(writes: &[Write], origin: u32) -> u64
    requires { All (λ write. write.index < HISTORY_MAX) writes.now }
    ensures { result ≡ past_of writes.now origin }
{
    let mut past = 0;
    for write in writes {
        if write.origin == origin {
            past = past.max(write.index + 1);
        }
    }
    past
}

ghost use Rattle.std.specs.Prelude.{◌≡◌, ◌≢◌, ℕ, ◌+◌, ◌-◌, ◌<◌, ◌≤◌, [], max, IfOk, OnOk, OnErr, IsOk, length, replicate, slice_range, slice_set};
ghost use Rattle.write_log.specs.Logs.{log_of, base_of, room_of, TakesWrites};

use crate::Taken;
use crate::log::Log;
use std::alloc::Global;
use std::marker::Model;
use tact_base::{NoMemory, Write};

/// The logs of origins, by origin, of each of which the first writes may be given up. Contracts see the whole log of
/// each origin, how many of its first writes were given up, and its room: how many more of its writes can surely be
/// held without taking memory.
#[derive(Debug, Drop)]
pub struct Logs {
    logs: Vec<Log>,
}

impl Model for Logs {
    ghost use Rattle.std.specs.Prelude.{map};
    ghost use Rattle.write_log.specs.Logs.{LogState};

    ghost Value = { LogState };

    ghost view = { λ s. record {
      logs = map (λ log. log.all) s.logs.items;
      bases = map (λ log. log.base) s.logs.items;
      room = map (λ log. log.room) s.logs.items;
    } };
}

impl Logs {
    /// The empty logs of `n` origins, whose writes will lie in memory of `alloc`.
    pub fn new(alloc: Global, n: u32) -> Result<Logs, NoMemory>
        ensures logs { IfOk result (λ made. made.logs ≡ replicate n []) }
        ensures bases { IfOk result (λ made. made.bases ≡ replicate n 0) }
    {
        let mut logs = Vec::with_capacity(alloc, n as usize)?;
        for _ in 0..n {
            logs.push(Log::new(alloc))?;
        }
        Ok(Logs { logs })
    }

    /// Makes room for at least `k` more writes of the origin `i`, without memory where there is so much.
    /// Leaves all logs and the room of all other origins. `NoMemory` leaves everything as it was.
    pub fn reserve(&mut self, i: u32, k: u64) -> Result<(), NoMemory>
        requires { i < length self.old.logs }
        ensures logs { self.new.logs ≡ self.old.logs }
        ensures bases { self.new.bases ≡ self.old.bases }
        ensures room { OnOk result (k ≤ room_of self.new i) }
        ensures enough { k ≤ room_of self.old i → IsOk result }
        ensures kept { room_of self.old i ≤ room_of self.new i }
        ensures others { (j : ℕ) → j ≢ i → room_of self.new j ≡ room_of self.old j }
        ensures err { OnErr result (self.new ≡ self.old) }
    {
        let log = &mut self.logs[i as usize];
        log.reserve(k)
    }

    /// Takes told writes of the origin `i`, which begin at the index `first`: adds those that the log lacks,
    /// unless they begin past its end. All other logs stay. Takes no memory.
    pub fn extend(&mut self, i: u32, first: u64, writes: &[Write]) -> Taken
        requires origin { i < length self.old.logs }
        requires room { length writes.now ≤ room_of self.old i }
        ensures taken { TakesWrites self.old self.new i first writes.now result }
        ensures others { (j : ℕ) → j ≢ i → room_of self.new j ≡ room_of self.old j }
    {
        let log = &mut self.logs[i as usize];
        log.extend(first, writes)
    }

    /// Gives up the writes of the origin `i` below the index `upto`. All other logs stay. Takes no memory.
    pub fn trim(&mut self, i: u32, upto: u64)
        requires origin { i < length self.old.logs }
        requires within { upto ≤ length (log_of self.old i) }
        ensures logs { self.new.logs ≡ self.old.logs }
        ensures bases { self.new.bases ≡ slice_set self.old.bases i (max (base_of self.old i) upto) }
        ensures room { room_of self.old i ≤ room_of self.new i }
        ensures others { (j : ℕ) → j ≢ i → room_of self.new j ≡ room_of self.old j }
    {
        let log = &mut self.logs[i as usize];
        log.trim(upto);
    }

    /// The number of writes of the origin `i`, those that were given up among them. Takes no memory.
    pub fn count(&self, i: u32) -> u64
        requires { i < length self.now.logs }
        ensures { result ≡ length (log_of self.now i) }
    {
        self.logs[i as usize].count()
    }

    /// How many of the first writes of the origin `i` were given up: the greatest index that its log was trimmed
    /// up to, 0 at first. Takes no memory.
    pub fn base(&self, i: u32) -> u64
        requires { i < length self.now.logs }
        ensures base { result ≡ base_of self.now i }
        ensures within { result ≤ length (log_of self.now i) }
    {
        self.logs[i as usize].base()
    }

    /// The `k` writes of the origin `i` from the index `first` on, none of which was given up. Takes no memory.
    pub fn slice(&self, i: u32, first: u64, k: u64) -> &[Write]
        requires origin { i < length self.now.logs }
        requires base { base_of self.now i ≤ first }
        requires held { first + k ≤ length (log_of self.now i) }
        ensures { result.now ≡ slice_range (log_of self.now i) first (first + k) }
    {
        self.logs[i as usize].slice(first, k)
    }
}

//! The logs of a replica, with the list of writes that it last told each peer in a full message.
ghost use Rattle.std.specs.Prelude.{◌≡◌, ◌⊎◌, ◌≢◌, ℕ, ◌+◌, ◌-◌, ◌<◌, ◌≤◌, ◌++◌, [], max, take, drop, IfOk, IsOk, IsTrue, OnOk, OnErr, length, replicate, slice_index, slice_set};
ghost use Rattle.tact_base.specs.declared.limits.TheConstants.{REPLICAS_MAX};
ghost use Rattle.write_log.specs.Logs.{log_of, base_of, room_of, TakesWrites};
ghost use Rattle.replica_core.specs.Told.{AreEndsTold, nothing_told, pieces_of, told_from};

use std::alloc::Global;
use std::marker::Model;
use tact_base::{MESSAGE_WRITES, NoMemory, REPLICAS_MAX, Row, SharedWrites, Write, WriteList};
use write_log::{Logs, Taken};

/// The logs of origins, as many as there are replicas, each of which is also a peer. By peer the list of a full message
/// is kept, so that a message that tells the same writes again shares it. Contracts see the logs alone.
#[derive(Debug, Drop)]
pub(crate) struct ToldLogs {
    logs: Logs,
    replicas: u32,
    // By peer the list that was told it last.
    told: Vec<Told>,
}

impl Model for ToldLogs {
    ghost use Rattle.write_log.specs.Logs.{LogState};
    ghost use Rattle.replica_core.specs.Told.{KeepsTold};

    ghost Value = { LogState };

    ghost view = { λ l. l.logs };

    ghost invariant = { λ l. KeepsTold l.replicas l.logs.logs l.told.items };
}

// A list of told writes: by origin those from its first up to its end.
#[derive(Debug, Drop)]
struct Told {
    firsts: Row,
    ends: [u64; REPLICAS_MAX as usize],
    writes: SharedWrites,
}

impl ToldLogs {
    /// The empty logs of `replicas` origins, whose writes will lie in memory of `alloc`, with no list kept.
    pub(crate) fn new(alloc: Global, replicas: u32) -> Result<ToldLogs, NoMemory>
        requires { replicas ≤ REPLICAS_MAX }
        ensures logs { IfOk result (λ made. made.logs ≡ replicate replicas []) }
        ensures bases { IfOk result (λ made. made.bases ≡ replicate replicas 0) }
    {
        let logs = Logs::new(alloc, replicas)?;
        let told = no_lists(alloc, replicas)?;
        Ok(ToldLogs {
            logs,
            replicas,
            told,
        })
    }

    /// Makes room for at least `k` more writes of the origin `i`, as `Logs::reserve`.
    pub(crate) fn reserve(&mut self, i: u32, k: u64) -> Result<(), NoMemory>
        requires { i < length self.old.logs }
        ensures logs { self.new.logs ≡ self.old.logs }
        ensures bases { self.new.bases ≡ self.old.bases }
        ensures room { OnOk result (k ≤ room_of self.new i) }
        ensures enough { k ≤ room_of self.old i → IsOk result }
        ensures kept { room_of self.old i ≤ room_of self.new i }
        ensures others { (j : ℕ) → j ≢ i → room_of self.new j ≡ room_of self.old j }
        ensures err { OnErr result (self.new ≡ self.old) }
    {
        self.logs.reserve(i, k)
    }

    /// Takes told writes of the origin `i`, which begin at the index `first`, as `Logs::extend`. Takes no memory.
    pub(crate) fn extend(&mut self, i: u32, first: u64, writes: &[Write]) -> Taken
        requires origin { i < length self.old.logs }
        requires room { length writes.now ≤ room_of self.old i }
        ensures taken { TakesWrites self.old self.new i first writes.now result }
        ensures others { (j : ℕ) → j ≢ i → room_of self.new j ≡ room_of self.old j }
    {
        self.logs.extend(i, first, writes)
    }

    /// Gives up the writes of the origin `i` below the index `upto`, as `Logs::trim`. A list that is kept stays. Takes no
    /// memory.
    pub(crate) fn trim(&mut self, i: u32, upto: u64)
        requires origin { i < length self.old.logs }
        requires within { upto ≤ length (log_of self.old i) }
        ensures logs { self.new.logs ≡ self.old.logs }
        ensures bases { self.new.bases ≡ slice_set self.old.bases i (max (base_of self.old i) upto) }
        ensures room { room_of self.old i ≤ room_of self.new i }
        ensures others { (j : ℕ) → j ≢ i → room_of self.new j ≡ room_of self.old j }
    {
        self.logs.trim(i, upto);
    }

    /// The number of writes of the origin `i`, those that were given up among them. Takes no memory.
    pub(crate) fn count(&self, i: u32) -> u64
        requires { i < length self.now.logs }
        ensures { result ≡ length (log_of self.now i) }
    {
        self.logs.count(i)
    }

    /// What a message tells a peer: from each origin in rising order the writes from its first on, none of which is
    /// given up, as many as there is room for. The list that was kept for the peer is shared where it has the same
    /// pieces, and else one is made in memory of `alloc`: to be shared where it is full, and else alone.
    pub(crate) fn told(
        &self,
        alloc: Global,
        to: u32,
        firsts: &[u64],
    ) -> Result<SharedWrites, NoMemory>
        requires to { to < length self.now.logs }
        requires sized { length firsts.now ≡ length self.now.logs }
        requires held { (origin : ℕ) → origin < length self.now.logs → base_of self.now origin ≤ slice_index firsts.now origin }
        ensures { IfOk result (λ writes. writes ≡ told_from self.now.logs firsts.now) }
    {
        let mut ends = [0; REPLICAS_MAX as usize];
        let count = self.put_ends(firsts, &mut ends);
        let told = &self.told[to as usize];
        if count == MESSAGE_WRITES && told.is_of(firsts, &ends) {
            return Ok(told.writes.clone()?);
        }
        let writes = self.pieces(alloc, firsts, &ends, count)?;
        if count < MESSAGE_WRITES {
            return Ok(SharedWrites::alone(writes));
        }
        SharedWrites::new(alloc, writes)
    }

    /// Keeps, for a peer, the list of a message that tells it the writes from these firsts on, where the message is full:
    /// to share a shorter one costs more than it saves. Takes no memory.
    pub(crate) fn keep_told(&mut self, to: u32, firsts: &[u64], writes: &SharedWrites)
        requires to { to < length self.old.logs }
        requires sized { length firsts.now ≡ length self.old.logs }
        requires told { writes.now ≡ told_from self.old.logs firsts.now }
        ensures { self.new ≡ self.old }
    {
        if writes.len() == MESSAGE_WRITES {
            let mut ends = [0; REPLICAS_MAX as usize];
            self.put_ends(firsts, &mut ends);
            let told = &mut self.told[to as usize];
            told.set(firsts, &ends, writes);
        }
    }

    // By origin, where the told writes end that begin at these firsts; and how many they are.
    fn put_ends(&self, firsts: &[u64], ends: &mut [u64; REPLICAS_MAX as usize]) -> usize
        requires { length firsts.now ≡ length self.now.logs }
        ensures ends { AreEndsTold self.now.logs firsts.now ends.new }
        ensures count { result ≡ length (told_from self.now.logs firsts.now) }
    {
        let mut room = MESSAGE_WRITES as u64;
        for origin in 0..self.replicas {
            let first = firsts[origin as usize];
            let end = self.logs.count(origin).min(first.saturating_add(room));
            room -= end.saturating_sub(first);
            ends[origin as usize] = end;
        }
        MESSAGE_WRITES - room as usize
    }

    // The pieces from these firsts up to these ends, which are so many writes.
    fn pieces(
        &self,
        alloc: Global,
        firsts: &[u64],
        ends: &[u64; REPLICAS_MAX as usize],
        count: usize,
    ) -> Result<WriteList, NoMemory>
        requires sized { length firsts.now ≡ length self.now.logs }
        requires held { (origin : ℕ) → origin < length self.now.logs → base_of self.now origin ≤ slice_index firsts.now origin }
        requires within { (origin : ℕ) → origin < length self.now.logs → slice_index ends.now origin ≤ length (log_of self.now origin) }
        ensures { IfOk result (λ writes. writes ≡ pieces_of self.now.logs firsts.now ends.now) }
    {
        let mut writes = WriteList::with_capacity(alloc, count)?;
        for origin in 0..self.replicas {
            let piece = self.piece(origin, firsts[origin as usize], ends[origin as usize]);
            append_writes(&mut writes, piece)?;
        }
        Ok(writes)
    }

    // The writes of an origin from the first on, none of which is given up, up to an end.
    fn piece(&self, origin: u32, first: u64, end: u64) -> &[Write]
        requires origin { origin < length self.now.logs }
        requires held { base_of self.now origin ≤ first }
        requires within { end ≤ length (log_of self.now origin) }
        ensures { result.now ≡ drop first (take end (log_of self.now origin)) }
    {
        if end <= first {
            return &[];
        }
        self.logs.slice(origin, first, end - first)
    }
}

impl Told {
    // No list.
    fn nothing() -> Told
        ensures { result ≡ nothing_told }
    {
        Told {
            firsts: Row::new(&[]),
            ends: [0; REPLICAS_MAX as usize],
            writes: SharedWrites::empty(),
        }
    }

    // Shares a list, from these firsts up to these ends, in the place of what was kept. If it can't be shared, that stays.
    fn set(&mut self, firsts: &[u64], ends: &[u64; REPLICAS_MAX as usize], writes: &SharedWrites)
        requires { length firsts.now ≤ REPLICAS_MAX }
        ensures { (self.new ≡ self.old) ⊎ (self.new ≡ record { firsts = firsts.now; ends = ends.now; writes = writes.now }) }
    {
        if let Ok(writes) = writes.clone() {
            *self = Told {
                firsts: Row::new(firsts),
                ends: *ends,
                writes,
            };
        }
    }

    // Whether it is the list from these firsts up to these ends.
    fn is_of(&self, firsts: &[u64], ends: &[u64; REPLICAS_MAX as usize]) -> bool
        ensures firsts { IsTrue result → self.now.firsts ≡ firsts.now }
        ensures ends { IsTrue result → self.now.ends ≡ ends.now }
    {
        self.firsts.items() == firsts && self.ends == *ends
    }
}

// No list for any of so many peers.
fn no_lists(alloc: Global, replicas: u32) -> Result<Vec<Told>, NoMemory>
    ensures { IfOk result (λ made. made.items ≡ replicate replicas nothing_told) }
{
    let mut told = Vec::with_capacity(alloc, replicas as usize)?;
    for _ in 0..replicas {
        told.push(Told::nothing())?;
    }
    Ok(told)
}

// How many writes are copied at once.
const PIECE: usize = 16;

// Appends writes in pieces, each of which is copied by words: a machine copies longer ones by bytes, which counts more
// steps.
fn append_writes(writes: &mut WriteList, told: &[Write]) -> Result<(), NoMemory>
    ensures { OnOk result (writes.new ≡ writes.old ++ told.now) }
{
    let mut rest = told;
    while rest.len() > PIECE {
        let (piece, others) = rest.split_at(PIECE);
        writes.append(piece)?;
        rest = others;
    }
    writes.append(rest)
}

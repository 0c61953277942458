ghost use Rattle.std.specs.Prelude.{◌≡◌, ℕ, ◌+◌, ◌-◌, ◌<◌, ◌≤◌, ◌^◌, [], ◌∷◌, ◌++◌, All, IfOk, OnOk, OnErr, IsOk, length, max, slice_index, slice_set};
ghost use Rattle.tact_base.specs.Sums.{above_zero, below_zero};
ghost use Rattle.tact_base.specs.declared.limits.TheConstants.{LIST_MAX};
ghost use Rattle.split_budget.specs.Budgets.{part_sum, part_on};
ghost use Rattle.split_budget.specs.Missed.{AreMissed};
ghost use Rattle.split_budget.specs.OwnWrites.{no_writes, IsOther, missed_by, had, without_had};

use crate::missed::{Missed, Row};
use std::alloc::Global;
use std::marker::Model;
use tact_base::{Few, NoMemory, RoomyQueue, Weight};

/// The own writes of a replica that some peer may miss, and of each peer the sums of what it may miss.
/// Contracts see the writes; the sums are kept beside them.
#[derive(Debug, Drop)]
pub(crate) struct OwnWrites {
    replica: u32,
    conits: u32,
    given_up: u64,
    writes: RoomyQueue<Row>,
    known: Vec<u64>,
    missed: Vec<Missed>,
}

impl Model for OwnWrites {
    ghost use Rattle.split_budget.specs.OwnWrites.{OwnState, KeepsSums};

    ghost Value = { OwnState };

    ghost view = { λ o. record {
      replica = o.replica;
      conits = o.conits;
      given_up = o.given_up;
      weights = o.writes.items;
      known = o.known.items;
      room = o.writes.room;
    } };

    ghost invariant = { λ o. KeepsSums (view o) o.missed.items };
}

impl OwnWrites {
    /// No write yet of the replica, which is one of `replicas`.
    pub(crate) fn new(
        alloc: Global,
        replica: u32,
        replicas: u32,
        conits: u32,
    ) -> Result<OwnWrites, NoMemory>
        ensures { IfOk result (λ made. made ≡ no_writes replica replicas conits made.room) }
    {
        Ok(OwnWrites {
            replica,
            conits,
            given_up: 0,
            writes: RoomyQueue::new(alloc),
            known: vec![in alloc; 0; replicas as usize]?,
            missed: nothing_missed(alloc, replicas, conits)?,
        })
    }

    /// Of the writes that the peer isn't known to have, the sum of the positive nweights on the conit. Takes
    /// no memory.
    pub(crate) fn plus(&self, peer: u32, conit: u32) -> u64
        requires peer { IsOther self.now peer }
        requires conit { conit < self.now.conits }
        ensures { result ≡ part_on above_zero conit (missed_by self.now peer) }
    {
        self.missed[peer as usize].plus(conit)
    }

    /// Of the writes that the peer isn't known to have, the sum of the sizes of the negative nweights on the
    /// conit. Takes no memory.
    pub(crate) fn minus(&self, peer: u32, conit: u32) -> u64
        requires peer { IsOther self.now peer }
        requires conit { conit < self.now.conits }
        ensures { result ≡ part_on below_zero conit (missed_by self.now peer) }
    {
        self.missed[peer as usize].minus(conit)
    }

    /// Makes room for at least `k` more writes, without memory where there is so much. `NoMemory` leaves
    /// everything as it was.
    pub(crate) fn reserve(&mut self, k: u64) -> Result<(), NoMemory>
        ensures others { self.new ≡ record self.old { room = self.new.room } }
        ensures ok { OnOk result (k ≤ self.new.room) }
        ensures enough { k ≤ self.old.room → IsOk result }
        ensures kept { self.old.room ≤ self.new.room }
        ensures err { OnErr result (self.new ≡ self.old) }
    {
        self.writes.reserve(k)
    }

    /// Adds a write with these weights. Takes no memory.
    pub(crate) fn add(&mut self, weights: &[Weight])
        requires room { 0 < self.old.room }
        requires few { length weights.now ≤ LIST_MAX }
        requires conits { All (λ weight. weight.conit < self.old.conits) weights.now }
        requires plus { (peer conit : ℕ) → IsOther self.old peer → conit < self.old.conits →
            part_on above_zero conit (missed_by self.old peer) + part_sum above_zero conit weights.now < 2 ^ 64 }
        requires minus { (peer conit : ℕ) → IsOther self.old peer → conit < self.old.conits →
            part_on below_zero conit (missed_by self.old peer) + part_sum below_zero conit weights.now < 2 ^ 64 }
        ensures added { self.new ≡ record self.old {
          weights = self.old.weights ++ weights.now ∷ [];
          room = self.new.room;
        } }
        ensures room { self.old.room ≤ self.new.room + 1 }
    {
        let count = self.writes.items().len() as u64;
        for peer in 0..self.known.len() {
            if peer != self.replica as usize && self.known[peer] - self.given_up <= count {
                self.missed[peer].add(weights);
            }
        }
        self.writes.push(Few::new(weights));
    }

    /// Notes that the peer has the first `count` writes, and gives up those that each peer is known to have.
    /// Takes no memory.
    pub(crate) fn acked(&mut self, peer: u32, count: u64)
        requires { IsOther self.old peer }
        ensures acked { self.new ≡ record (without_had (record self.old {
          known = slice_set self.old.known peer (max (slice_index self.old.known peer) count);
        })) { room = self.new.room } }
        ensures room { self.old.room ≤ self.new.room }
    {
        self.note(peer, count);
        let spare = self.had();
        self.writes.drop_front(spare as usize);
        self.given_up += spare;
    }

    // Notes that the peer has the first `count` writes.
    fn note(&mut self, peer: u32, count: u64)
        requires { IsOther self.old peer }
        ensures { self.new ≡ record self.old {
          known = slice_set self.old.known peer (max (slice_index self.old.known peer) count);
        } }
    {
        let place = peer as usize;
        let known = self.known[place];
        let newest = known.max(count);
        let writes = self.writes.items();
        let from = ((known - self.given_up) as usize).min(writes.len());
        let to = ((newest - self.given_up) as usize).min(writes.len());
        self.missed[place].take_off(&writes[from..to]);
        self.known[place] = newest;
    }

    // How many of the writes that are kept each peer is known to have.
    fn had(&self) -> u64
        ensures { result ≡ had self.now }
    {
        let mut count = self.writes.items().len() as u64;
        for peer in 0..self.known.len() {
            if peer != self.replica as usize {
                count = count.min(self.known[peer] - self.given_up);
            }
        }
        count
    }
}

// The sums of no write, for each of so many replicas.
fn nothing_missed(alloc: Global, replicas: u32, conits: u32) -> Result<Vec<Missed>, NoMemory>
    ensures replicas { IfOk result (λ made. length made.items ≡ replicas) }
    ensures none { IfOk result (λ made. All (λ missed. AreMissed conits [] missed) made.items) }
{
    let mut missed = Vec::with_capacity(alloc, replicas as usize)?;
    for _ in 0..replicas {
        missed.push(Missed::new(alloc, conits)?)?;
    }
    Ok(missed)
}

//! The state of a replica, and what can be read of it.
ghost use Rattle.std.specs.Prelude.{◌≡◌, ◌↔◌, ℕ, ◌*◌, ◌<◌, ◌≤◌, List, [], suc, length, map, drop, replicate, slice_index, IfOk, OnOk, OnErr, IsOk, IfErr, IsTrue, true, false, max};
ghost use Rattle.tact_base.specs.Covers.{no_cover};
ghost use Rattle.tact_base.specs.declared.limits.TheConstants.{CLIENTS, HISTORY_MAX, MOMENT_MAX, REPLICAS_MAX, REPLICAS_MIN};
ghost use Rattle.tact_base.specs.WriteOrder.{committed_to, tentative_past};
ghost use Rattle.replica_core.specs.States.{IsKept, log_at, known_at, cover_at, entered, closed, is_full};
ghost use Rattle.replica_core.specs.Stands.{Stands, GoesOn, IsSameReplica};
ghost use Rattle.split_budget.specs.Budgets.{opening};
ghost use Rattle.tact_base.specs.Images.{image_of, ops_of};
ghost use Rattle.tact_base.specs.Sums.{net_sum, order_sum};
ghost use Rattle.run_model.specs.Order.{point, committed, tentative, value, image};
ghost use Rattle.replica_core.specs.BudgetReaders.{GivesPart};
ghost use Rattle.replica_core.specs.Dropped.{dropped};
ghost use Rattle.replica_core.specs.Seen.{last_one};
ghost use Rattle.replica_core.specs.Trimming.{held_committed};
ghost use Rattle.run_model.specs.declared.entry.Entry.{Entry};
ghost use Rattle.run_model.specs.declared.entry.Act.TheVariants.{Restart};

mod admitting;
mod calling;
mod fitting;
mod lending;
mod peeking;
mod reading;
mod refusing;
mod replying;
mod reserving;
mod sending;
mod taking;
mod trimming;
mod writing;

use crate::seen::Seen;
use crate::told_logs::ToldLogs;
use crate::{CoreFault, LastOne};
use run_model::Config;
use split_budget::{Budget, Budgets};
use std::alloc::Global;
use std::marker::Model;
use tact_base::{CLIENTS, Cover, HISTORY_MAX, NoMemory, Numbers, STAMP_MAX, Write};
use version_vector::Vector;

/// One replica of a setup. Contracts see what it keeps, as plain lists and numbers, and for how many more
/// writes it has room; `Stands` says when that is what the definitions say of a part of a history.
#[derive(Drop)]
pub struct Replica {
    alloc: Global,
    config: Config,
    replica: u32,
    logs: ToldLogs,
    vector: Vector,
    known: Vec<u64>,
    seen: Seen,
    clock: u64,
    budgets: Budgets,
    calls: Vec<u64>,
    sends: u64,
    count: u64,
    last: u64,
    spare: u64,
    beside: u64,
}

impl Model for Replica {
    ghost use Rattle.std.specs.Prelude.{◌≡◌};
    ghost use Rattle.replica_core.specs.States.{ReplicaState, IsKept, HasRooms};

    ghost Value = { ReplicaState };

    ghost view = { λ r. record {
      core = record {
        setup = r.config;
        replica = r.replica;
        writes = record {
          bases = r.logs.bases;
          logs = r.logs.logs;
          covers = r.vector;
          known = r.known.items;
          seen = r.seen.writes;
          dropped = r.seen.dropped;
          point = r.seen.point;
          clock = r.clock;
        };
        budgets = record r.budgets { room = 0 };
        counts = record { calls = r.calls.items; sends = r.sends; count = r.count; last = r.last };
      };
      spare = r.spare;
      beside = r.beside;
    } };

    ghost invariant = { λ r. IsKept (view r).core × HasRooms r.replica r.spare r.beside r.logs r.seen.room r.budgets.room
        × (r.seen.conits ≡ r.config.conits) };
}

impl Replica {
    /// The replica of this number of a setup, which has done nothing. It keeps its writes in memory of
    /// `alloc`.
    pub fn new(alloc: Global, config: &Config, replica: u32) -> Result<Replica, NoMemory>
        requires { replica < config.now.replicas }
        ensures setup { IfOk result (λ made. (made.core.setup ≡ config.now) × (made.core.replica ≡ replica)) }
        ensures stands { IfOk result (λ made. Stands [] made.core) }
    {
        let replicas = config.replicas();
        let own = config.copy(alloc)?;
        let logs = ToldLogs::new(alloc, replicas)?;
        let (vector, known) = nothing_known(alloc, replicas)?;
        let (seen, calls) = nothing_done(alloc, config.conits())?;
        let budgets = opening_budgets(alloc, config, replica)?;
        Ok(Replica {
            alloc,
            config: own,
            replica,
            logs,
            vector,
            known,
            seen,
            clock: 0,
            budgets,
            calls,
            sends: 0,
            count: 0,
            last: 0,
            spare: 0,
            beside: 0,
        })
    }

    /// Makes room for at least `k` more own writes, without memory where there is so much. `NoMemory`
    /// leaves everything as it was.
    pub fn reserve(&mut self, k: u64) -> Result<(), NoMemory>
        ensures core { self.new.core ≡ self.old.core }
        ensures room { OnOk result (k ≤ self.new.spare) }
        ensures kept { self.old.spare ≤ self.new.spare }
        ensures enough { k ≤ self.old.spare → IsOk result }
        ensures err { OnErr result (self.new ≡ self.old) }
    {
        if k > self.spare {
            let all = k.checked_add(self.beside).ok_or(NoMemory)?;
            self.logs.reserve(self.replica, k)?;
            self.seen.reserve(all)?;
            self.budgets.reserve_room(k)?;
            self.spare = k;
        }
        Ok(())
    }

    /// Its number among the replicas of its setup. Takes no memory.
    pub fn number(&self) -> u32
        ensures { result ≡ self.now.core.replica }
    {
        self.replica
    }

    /// How many replicas its setup has. Takes no memory.
    pub fn replicas(&self) -> u32
        ensures count { result ≡ self.now.core.setup.replicas }
        ensures few { result ≤ REPLICAS_MAX }
    {
        self.config.replicas()
    }

    /// How many writes of an origin it has. Takes no memory.
    pub fn have(&self, i: u32) -> u64
        requires { i < self.now.core.setup.replicas }
        ensures { result ≡ length (log_at self.now.core i) }
    {
        self.logs.count(i)
    }

    /// How many writes of an origin a peer is known to have. Takes no memory.
    pub fn known(&self, k: u32, i: u32) -> u64
        requires peer { k < self.now.core.setup.replicas }
        requires origin { i < self.now.core.setup.replicas }
        ensures { result ≡ known_at self.now.core k i }
    {
        self.known[(k * self.config.replicas() + i) as usize]
    }

    /// The cover of an origin: of itself its own state, at the moment of its last entry. Takes no memory.
    pub fn cover(&self, i: u32) -> Cover
        requires { i < self.now.core.setup.replicas }
        ensures { result ≡ cover_at self.now.core i }
    {
        self.vector.cover(i)
    }

    /// Its clock. Takes no memory.
    pub fn clock(&self) -> u64
        ensures { result ≡ self.now.core.writes.clock }
    {
        self.clock
    }

    /// The stamp up to which writes are committed: the least over the covers of all replicas. Takes no
    /// memory.
    pub fn point(&self) -> u64
        ensures point { result ≡ self.now.core.writes.point }
        ensures of_part { (part : List Entry) → Stands part self.now.core
            → result ≡ point self.now.core.setup self.now.core.replica part }
    {
        self.seen.point()
    }

    /// The committed writes, in order, without those that are given up (`dropped`). Takes no memory.
    pub fn committed(&self) -> &[Write]
        ensures held { result.now ≡ held_committed self.now.core }
        ensures of_part { (part : List Entry) → Stands part self.now.core
            → result.now ≡ drop (dropped self.now.core.setup self.now.core.replica part) (committed self.now.core.setup self.now.core.replica part) }
    {
        self.seen.committed()
    }

    /// The other writes that it has, in order. Takes no memory.
    pub fn tentative(&self) -> &[Write]
        ensures { result.now ≡ tentative_past self.now.core.writes.point self.now.core.writes.seen }
    {
        self.seen.tentative()
    }

    /// How many writes are committed, those that are given up among them. Takes no memory.
    pub fn committed_count(&self) -> u64
        ensures count { result ≡ length (committed_to self.now.core.writes.point self.now.core.writes.seen) }
        ensures of_part { (part : List Entry) → Stands part self.now.core
            → result ≡ length (committed self.now.core.setup self.now.core.replica part) }
    {
        self.seen.committed_count()
    }

    /// Which write is the last of the committed ones: `None` exactly where none is. Takes no memory.
    pub fn last_committed(&self) -> Option<LastOne>
        ensures last { result ≡ last_one (committed_to self.now.core.writes.point self.now.core.writes.seen) }
        ensures of_part { (part : List Entry) → Stands part self.now.core
            → result ≡ last_one (committed self.now.core.setup self.now.core.replica part) }
    {
        self.seen.last_committed()
    }

    /// How many committed writes are given up: where it last took a message, the longest front of them in which it knew
    /// each write to be had by every replica (docs/MODEL.md). Takes no memory.
    pub fn dropped(&self) -> u64
        ensures dropped { result ≡ self.now.core.writes.dropped }
        ensures of_part { (part : List Entry) → Stands part self.now.core
            → result ≡ dropped self.now.core.setup self.now.core.replica part }
    {
        self.seen.dropped()
    }

    /// How many entries it made. Takes no memory.
    pub fn count(&self) -> u64
        ensures { result ≡ self.now.core.counts.count }
    {
        self.count
    }

    /// How many calls of a client it answered. Takes no memory.
    pub fn calls(&self, client: u32) -> u64
        requires { client < CLIENTS }
        ensures { result ≡ slice_index self.now.core.counts.calls client }
    {
        self.calls[client as usize]
    }

    /// The moment of its last entry, 0 at first. Takes no memory.
    pub fn last(&self) -> u64
        ensures { result ≡ self.now.core.counts.last }
    {
        self.last
    }

    /// The value of a key: the fold of the operations of all writes that it has, in order, 0 where no write
    /// gave it one. Takes no memory.
    pub fn get(&self, key: u64) -> i64
        ensures value { result ≡ image_of (ops_of self.now.core.writes.seen) key }
        ensures of_part { (part : List Entry) → Stands part self.now.core
            → result ≡ image self.now.core.setup self.now.core.replica part key }
    {
        self.seen.get(key)
    }

    /// The value of a conit: the sum of the nweights that all writes that it has have on it. It is kept as writes
    /// come. Takes no memory.
    pub fn value(&self, conit: u32) -> i64
        requires { conit < self.now.core.setup.conits }
        ensures value { result ≡ net_sum self.now.core.writes.seen conit }
        ensures of_part { (part : List Entry) → Stands part self.now.core
            → result ≡ value self.now.core.setup self.now.core.replica part conit }
    {
        self.seen.value(conit)
    }

    /// How much its tentative writes weigh on a conit: the sum of their oweights. It is kept as writes come and are
    /// committed. Takes no memory.
    pub fn tentative_weight(&self, conit: u32) -> u64
        requires { conit < self.now.core.setup.conits }
        ensures weight { result ≡ order_sum (tentative_past self.now.core.writes.point self.now.core.writes.seen) conit }
        ensures of_part { (part : List Entry) → Stands part self.now.core
            → result ≡ order_sum (tentative self.now.core.setup self.now.core.replica part) conit }
    {
        self.seen.tentative_weight(conit)
    }

    /// Its budgets: its shares, what its own writes use of them, and what it lends. Takes no memory.
    pub fn budgets(&self) -> &Budgets
        ensures budgets { self.now.core.budgets ≡ record result.now { room = 0 } }
        ensures setup { result.now.setup ≡ self.now.core.setup }
        ensures replica { result.now.replica ≡ self.now.core.replica }
        ensures of_part { (part : List Entry) → Stands part self.now.core
            → GivesPart self.now.core.setup self.now.core.replica part result.now }
    {
        &self.budgets
    }

    /// For how many more own writes it has room. Takes no memory.
    pub fn spare(&self) -> u64
        ensures { result ≡ self.now.spare }
    {
        self.spare
    }
}

impl Replica {
    /// Begins anew, which changes nothing but the count of entries and the last moment. `Full` comes exactly
    /// where 20,000 entries were made or the clock stands at 2^40. Takes no memory.
    pub fn restart(&mut self, moment: u64) -> Result<(), CoreFault>
        requires { moment ≤ MOMENT_MAX }
        ensures goes_on { OnOk result (GoesOn self.old.core self.new.core moment (λ part. Restart)) }
        ensures same { IsSameReplica self.old.core self.new.core }
        ensures spare { self.new.spare ≡ self.old.spare }
        ensures not_full { OnOk result (is_full self.old.core ≡ false) }
        ensures full { IfErr result (λ fault. (is_full self.old.core ≡ true) × (fault ≡ CoreFault.Full self.old.core.counts.count self.old.core.writes.clock)) }
        ensures err { OnErr result (self.new ≡ self.old) }
    {
        self.may_enter()?;
        self.enter(moment);
        Ok(())
    }

    /// Whether an entry may follow: `Full` comes exactly where 20,000 entries were made or the clock stands at 2^40,
    /// and no other fault. Takes no memory.
    pub fn may_enter(&self) -> Result<(), CoreFault>
        ensures ok { OnOk result (is_full self.now.core ≡ false) }
        ensures err { OnErr result (is_full self.now.core ≡ true) }
        ensures full { IfErr result (λ fault. fault ≡ CoreFault.Full self.now.core.counts.count self.now.core.writes.clock) }
        ensures kept { IsKept self.now.core }
    {
        if self.count >= HISTORY_MAX || self.clock >= STAMP_MAX {
            return Err(CoreFault::Full {
                count: self.count,
                clock: self.clock,
            });
        }
        Ok(())
    }

    // Counts an entry at the moment that follows the handed one, and commits what can be.
    fn enter(&mut self, moment: u64)
        requires { self.old.core.counts.count < HISTORY_MAX }
        ensures { self.new ≡ record self.old { core = entered self.old.core moment } }
    {
        self.count += 1;
        self.close(moment);
    }

    // Closes an entry that is counted: its own cover is raised, and what can be is committed.
    fn close(&mut self, moment: u64)
        ensures { self.new ≡ record self.old { core = closed self.old.core moment } }
    {
        self.last = moment.max(self.last);
        let own = Cover {
            count: self.logs.count(self.replica),
            stamp: self.clock,
            moment: self.last,
        };
        self.vector.raise(self.replica, own);
        self.seen.commit_to(self.vector.least());
    }
}

// Among so many replicas, covers that tell nothing, and by peer and origin that no write is known.
fn nothing_known(alloc: Global, replicas: u32) -> Result<(Vector, Vec<u64>), NoMemory>
    requires some { REPLICAS_MIN ≤ replicas }
    requires few { replicas ≤ REPLICAS_MAX }
    ensures covers { IfOk result (λ made. made.0 ≡ replicate replicas no_cover) }
    ensures known { IfOk result (λ made. made.1.items ≡ replicate (replicas * replicas) 0) }
{
    let vector = Vector::new(alloc, replicas)?;
    let known = vec![in alloc; 0; (replicas * replicas) as usize]?;
    Ok((vector, known))
}

// No writes on so many conits, and no call of any client.
fn nothing_done(alloc: Global, conits: u32) -> Result<(Seen, Vec<u64>), NoMemory>
    ensures seen { IfOk result (λ made. made.0 ≡ record { conits = conits; writes = []; dropped = 0; point = 0; room = 0 }) }
    ensures calls { IfOk result (λ made. made.1.items ≡ replicate CLIENTS 0) }
{
    let seen = Seen::new(alloc, conits)?;
    let calls = vec![in alloc; 0; CLIENTS as usize]?;
    Ok((seen, calls))
}

// The budgets of a replica of a setup at the opening.
fn opening_budgets(alloc: Global, config: &Config, replica: u32) -> Result<Budgets, NoMemory>
    requires { replica < config.now.replicas }
    ensures { IfOk result (λ made. made ≡ opening config.now replica made.room) }
{
    let budget = Budget {
        replica,
        replicas: config.replicas(),
        conits: config.conits(),
        alphas: Numbers::from_slice(alloc, config.alphas())?,
        loans: Numbers::from_slice(alloc, config.opening_loans())?,
    };
    Budgets::new(alloc, &budget)
}

//! All accepted writes, by origin, and what is true of them.
ghost use Rattle.std.specs.Prelude.{◌≡◌, ℕ, ◌<◌, List, [], ◌∷◌, ◌++◌, All, length, map, slice_get, Some, OnOk, OnErr, IfOk};
ghost use Rattle.std.specs.Option.{option_map};
ghost use Rattle.tact_base.specs.Images.{image_of, ops_of};
ghost use Rattle.tact_base.specs.Setup.{Setup};
ghost use Rattle.tact_base.specs.Sums.{net_sum};
ghost use Rattle.tact_base.specs.WriteOrder.{in_order};
ghost use Rattle.run_model.specs.Histories.{part_of};
ghost use Rattle.run_model.specs.OwnWrites.{accepted_by};
ghost use Rattle.run_model.specs.Reference.{reference};
ghost use Rattle.run_model.specs.Runs.{IsRun};
ghost use Rattle.run_model.specs.declared.entry.Entry.{Entry};
ghost use Rattle.replica_core.specs.Stands.{Stands};
ghost use Rattle.reference_book.specs.Books.{IsNextIn, IsBookOf, HaveRisingMoments, IsLeast, with_accepted, writes_in, unseen_in, moments_of, reference_image, errors_of};

use crate::Errors;
use conit_weights::Running;
use replica_core::Replica;
use rollback_apply::Image;
use run_model::Config;
use std::alloc::Global;
use std::marker::Model;
use std::slice;
use tact_base::{NoMemory, RoomyList, Write, WriteList};

// For so many writes of an origin memory is taken at first, if it can be had.
const LOG_ROOM: usize = 1_024;

/// All writes that the replicas of a setup accepted, by origin, with the sums of their weights, which are kept as
/// writes come. Contracts see on how many conits the writes may weigh, and the writes by origin; `IsBookOf` says of
/// which history they are.
#[derive(Drop)]
pub struct Book {
    alloc: Global,
    logs: Vec<WriteList>,
    sums: Running,
}

impl Model for Book {
    ghost use Rattle.conit_weights.specs.Running.{conits_of};
    ghost use Rattle.reference_book.specs.Books.{BookState, KeepsBook};

    ghost Value = { BookState };

    ghost view = { λ b. record { conits = conits_of b.sums; logs = b.logs.items } };

    ghost invariant = { λ b. KeepsBook (view b) b.sums };
}

impl Book {
    /// The book of a setup in which nothing was accepted. It keeps its writes in memory of `alloc`.
    pub fn new(alloc: Global, config: &Config) -> Result<Book, NoMemory>
        ensures { IfOk result (IsBookOf config.now []) }
    {
        let mut logs = Vec::with_capacity(alloc, config.replicas() as usize)?;
        for _ in 0..config.replicas() {
            logs.push(WriteList::ample(alloc, LOG_ROOM))?;
        }
        let sums = Running::new(alloc, config.conits())?;
        Ok(Book { alloc, logs, sums })
    }

    /// Takes in the next write of its origin, which has fewer than 20,000. Of each history that ends with this write
    /// it is then the book. `NoMemory` leaves it as it was.
    pub fn accept(&mut self, write: &Write) -> Result<(), NoMemory>
        requires { IsNextIn self.old write.now }
        ensures ok { OnOk result (self.new ≡ with_accepted self.old write.now) }
        ensures of_history { OnOk result ((setup : Setup) (history : List Entry) (entry : Entry)
            → IsBookOf setup history self.old
            → accepted_by entry.replica entry.moment entry.act ≡ Some write.now
            → IsBookOf setup (history ++ entry ∷ []) self.new) }
        ensures err { OnErr result (self.new ≡ self.old) }
    {
        let log = &mut self.logs[write.origin as usize];
        log.append(slice::from_ref(write))?;
        self.sums.add(&write.weights);
        Ok(())
    }

    /// The true value of a conit: the sum of the nweights that all writes have on it. Takes no memory.
    pub fn value(&self, conit: u32) -> i64
        requires { conit < self.now.conits }
        ensures value { result ≡ net_sum (writes_in self.now) conit }
        ensures of_history { (setup : Setup) (history : List Entry) → IsBookOf setup history self.now
            → result ≡ reference setup history conit }
    {
        self.sums.net(conit)
    }

    /// The true value of a key: the fold of the operations of all writes in the order of stamps, origins and indices,
    /// 0 where no write gave it one. It is folded anew, in memory that is given back.
    pub fn image_value(&self, key: u64) -> Result<i64, NoMemory>
        ensures value { IfOk result (λ value. value ≡ image_of (ops_of (in_order (writes_in self.now))) key) }
        ensures of_history { IfOk result (λ value. (setup : Setup) (history : List Entry) → IsBookOf setup history self.now
            → value ≡ reference_image setup history key) }
    {
        let writes = self.ordered()?;
        let mut image = Image::new(self.alloc);
        let all = writes.items();
        image.reserve(all.len() as u64)?;
        image.insert_all(0, all, all);
        image.catch_up();
        Ok(image.get(key))
    }

    /// How far a replica is from the truth on a conit, at a moment. It costs no more for a longer history. Takes no
    /// memory.
    pub fn errors(&self, view: &Replica, moment: u64, conit: u32) -> Errors
        requires conits { view.now.core.setup.conits ≡ self.now.conits }
        requires replicas { view.now.core.setup.replicas ≡ length self.now.logs }
        requires conit { conit < self.now.conits }
        ensures { (history : List Entry) → let core = view.now.core in
            IsRun core.setup history → IsBookOf core.setup history self.now → Stands (part_of history core.replica) core
            → result ≡ errors_of core.setup history core.replica moment conit }
    {
        let oldest = self.oldest_unseen(view);
        Errors {
            num: self.value(conit).abs_diff(view.value(conit)),
            order: view.tentative_weight(conit),
            age: oldest.map_or(0, |oldest| moment.saturating_sub(oldest)),
        }
    }

    // The least moment of the writes that a replica hasn't seen, if there is one: moments of one origin rise.
    fn oldest_unseen(&self, view: &Replica) -> Option<u64>
        requires { view.now.core.setup.replicas ≡ length self.now.logs }
        ensures { All HaveRisingMoments self.now.logs → IsLeast (moments_of (unseen_in self.now view.now.core)) result }
    {
        let mut oldest = None;
        for (origin, log) in self.logs.iter().enumerate() {
            let first = moment_at(log, view.have(origin as u32));
            oldest = lesser(oldest, first);
        }
        oldest
    }

    // All writes, in order.
    fn ordered(&self) -> Result<RoomyList<Write>, NoMemory>
        ensures { IfOk result (λ writes. writes.items ≡ in_order (writes_in self.now)) }
    {
        let mut writes = RoomyList::new(self.alloc);
        for log in &self.logs {
            writes.reserve(log.len() as u64)?;
            writes.append(log.items());
        }
        writes
            .items_mut()
            .sort_unstable_by_key(|write| write.place());
        Ok(writes)
    }
}

// The moment of the write at a place, if there is one.
fn moment_at(log: &WriteList, place: u64) -> Option<u64>
    ensures { result ≡ option_map (λ write. write.moment) (slice_get log.now place) }
{
    let write = log.items().get(place as usize)?;
    Some(write.moment)
}

// The lesser of two numbers, of which each may be missing.
fn lesser(one: Option<u64>, other: Option<u64>) -> Option<u64>
    ensures { (xs ys : List ℕ) → IsLeast xs one → IsLeast ys other → IsLeast (xs ++ ys) result }
{
    match (one, other) {
        (Some(one), Some(other)) => Some(one.min(other)),
        (None, least) | (least, None) => least,
    }
}

//! What a replica has seen, in order, with its image and its sums by conit.
ghost use Rattle.std.specs.Prelude.{◌≡◌, ◌≢◌, ℕ, ◌+◌, ◌-◌, ◌<◌, ◌≤◌, List, [], ◌∷◌, ◌++◌, All, IfOk, OnOk, OnErr, IsOk, length, insert, take, drop};
ghost use Rattle.std.specs.declared.cmp.Ordering.TheVariants.{Equal};
ghost use Rattle.std.specs.List.Sorted.{IsStrictlySortedBy};
ghost use Rattle.tact_base.specs.Images.{image_of, ops_of};
ghost use Rattle.tact_base.specs.Sums.{net_sum, order_sum};
ghost use Rattle.tact_base.specs.WriteOrder.{write_cmp, committed_to, tentative_past};
ghost use Rattle.tact_base.specs.declared.conit_list.Weight.{Weight};
ghost use Rattle.tact_base.specs.declared.write.Write.{Write};
ghost use Rattle.tact_base.specs.declared.limits.TheConstants.{SUMMED_WRITES};
ghost use Rattle.commit_order.specs.Batches.{with_writes};
ghost use Rattle.conit_sums.specs.ConitSums.{AreSumsOf};
ghost use Rattle.conit_weights.specs.Running.{HoldsAll, conits_of, held_of};
ghost use Rattle.rollback_apply.specs.Image.{base_of, AreJoined};
ghost use Rattle.replica_core.specs.Seen.{AreOnConits, weights_of, last_one};

use crate::LastOne;
use commit_order::Ordered;
use conit_weights::Running;
use order_bound::Totals;
use rollback_apply::Image;
use std::alloc::Global;
use std::marker::Model;
use tact_base::{NoMemory, Write};

/// The writes that a replica has seen, in order, of which those up to the last point are committed, with the
/// image of their operations and the sums of their weights, which are kept as writes come and are committed. The
/// first of the committed ones can be given up: they aren't shown any more, and still count in the image and the
/// sums; their memory is given back later. Contracts see on how many conits the writes may weigh, all writes, how
/// many of them were given up, the last point, and the room: how many more writes can surely be put in without
/// taking memory.
#[derive(Drop)]
pub(crate) struct Seen {
    ordered: Ordered,
    image: Image,
    sums: Running,
    settled: Totals,
    last_dropped: Option<LastOne>,
    room: u64,
}

impl Model for Seen {
    ghost use Rattle.conit_weights.specs.Running.{conits_of};
    ghost use Rattle.replica_core.specs.Seen.{SeenState, KeepsSeen};

    ghost Value = { SeenState };

    ghost view = { λ s. record {
      conits = conits_of s.sums;
      writes = s.ordered.writes;
      dropped = s.ordered.dropped;
      point = s.ordered.point;
      room = s.room;
    } };

    ghost invariant = { λ s. KeepsSeen (view s) s.last_dropped s.ordered.room s.image s.sums s.settled };
}

impl Seen {
    /// No writes, on so many conits, with the last point 0 and without room, in memory of `alloc`.
    pub(crate) fn new(alloc: Global, conits: u32) -> Result<Seen, NoMemory>
        ensures { IfOk result (λ made. made ≡ record { conits = conits; writes = []; dropped = 0; point = 0; room = 0 }) }
    {
        let sums = Running::new(alloc, conits)?;
        let settled = Totals::new(alloc, conits)?;
        Ok(Seen {
            ordered: Ordered::new(alloc),
            image: Image::new(alloc),
            sums,
            settled,
            last_dropped: None,
            room: 0,
        })
    }

    /// Makes room for at least `k` more writes, without memory where there is so much. `NoMemory` leaves
    /// everything as it was.
    pub(crate) fn reserve(&mut self, k: u64) -> Result<(), NoMemory>
        ensures same { self.new ≡ record self.old { room = self.new.room } }
        ensures room { OnOk result (k ≤ self.new.room) }
        ensures kept { self.old.room ≤ self.new.room }
        ensures enough { k ≤ self.old.room → IsOk result }
        ensures err { OnErr result (self.new ≡ self.old) }
    {
        if k > self.room {
            self.ordered.reserve(k)?;
            self.image.reserve(k)?;
            self.room = k;
        }
        Ok(())
    }

    /// Puts writes, which are in order, in their places. It costs what comes after the first of them. Takes no
    /// memory.
    pub(crate) fn insert_all(&mut self, writes: &[Write])
        requires room { length writes.now ≤ self.old.room }
        requires sorted { IsStrictlySortedBy write_cmp writes.now }
        requires new { All (λ write. All (λ held. write_cmp held write ≢ Equal) self.old.writes) writes.now }
        requires past { All (λ write. self.old.point < write.stamp) writes.now }
        requires on_conits { AreOnConits self.old.conits writes.now }
        requires few { length self.old.writes + length writes.now ≤ SUMMED_WRITES }
        ensures { self.new ≡ record self.old {
          writes = with_writes writes.now self.old.writes;
          room = self.old.room - length writes.now;
        } }
    {
        let place = self.ordered.insert_all(writes);
        follow(&mut self.image, &self.ordered, place, writes);
        add_all(&mut self.sums, writes);
        self.room -= writes.len() as u64;
    }

    /// Commits the writes with a stamp of at most `stamp`. It costs what tentative writes go or stay. Takes no
    /// memory.
    pub(crate) fn commit_to(&mut self, stamp: u64)
        requires { self.old.point ≤ stamp }
        ensures { self.new ≡ record self.old { point = stamp } }
    {
        if stamp == self.ordered.point() {
            return;
        }
        let before = self.ordered.committed().len();
        let count = self.ordered.commit_to(stamp);
        self.image.commit(count);
        settle_all(&mut self.settled, committed_from(&self.ordered, before));
    }

    /// The last point. Takes no memory.
    pub(crate) fn point(&self) -> u64
        ensures { result ≡ self.now.point }
    {
        self.ordered.point()
    }

    /// The committed writes that are held, in order: all but those that were given up. Takes no memory.
    pub(crate) fn committed(&self) -> &[Write]
        ensures committed { result.now ≡ drop self.now.dropped (committed_to self.now.point self.now.writes) }
        ensures within { self.now.dropped ≤ length (committed_to self.now.point self.now.writes) }
    {
        self.ordered.committed()
    }

    /// The other writes, in order. Takes no memory.
    pub(crate) fn tentative(&self) -> &[Write]
        ensures { result.now ≡ tentative_past self.now.point self.now.writes }
    {
        self.ordered.tentative()
    }

    /// How many writes are committed, those that were given up among them. Takes no memory.
    pub(crate) fn committed_count(&self) -> u64
        ensures { result ≡ length (committed_to self.now.point self.now.writes) }
    {
        self.ordered.dropped() + self.ordered.committed().len() as u64
    }

    /// How many writes were given up, all of them committed. Takes no memory.
    pub(crate) fn dropped(&self) -> u64
        ensures dropped { result ≡ self.now.dropped }
        ensures within { result ≤ length (committed_to self.now.point self.now.writes) }
    {
        self.ordered.dropped()
    }

    /// Gives up the first `count` of the committed writes that are held. It costs what goes, and a move of what
    /// stays. Takes no memory.
    pub(crate) fn trim(&mut self, count: u64)
        requires { self.old.dropped + count ≤ length (committed_to self.old.point self.old.writes) }
        ensures { self.new ≡ record self.old { dropped = self.old.dropped + count } }
    {
        if count == 0 {
            return;
        }
        let going = &self.ordered.committed()[..count as usize];
        self.last_dropped = last_of(going).or(self.last_dropped);
        self.ordered.drop_front(count);
    }

    /// Which write is the last of the committed ones, if there is one. Takes no memory.
    pub(crate) fn last_committed(&self) -> Option<LastOne>
        ensures { result ≡ last_one (committed_to self.now.point self.now.writes) }
    {
        last_of(self.ordered.committed()).or(self.last_dropped)
    }

    /// Puts the operations that wait into the values that are kept, so that the next values cost little. Takes no memory.
    pub(crate) fn catch_up(&mut self)
        ensures { self.new ≡ self.old }
    {
        self.image.catch_up();
    }

    /// The value of a key after all writes. Takes no memory.
    pub(crate) fn get(&self, key: u64) -> i64
        ensures { result ≡ image_of (ops_of self.now.writes) key }
    {
        self.image.get(key)
    }

    /// The sum of the nweights of all writes on a conit. Takes no memory.
    pub(crate) fn value(&self, conit: u32) -> i64
        requires { conit < self.now.conits }
        ensures { result ≡ net_sum self.now.writes conit }
    {
        self.sums.net(conit)
    }

    /// The sum of the oweights of the tentative writes on a conit. Takes no memory.
    pub(crate) fn tentative_weight(&self, conit: u32) -> u64
        requires { conit < self.now.conits }
        ensures { result ≡ order_sum (tentative_past self.now.point self.now.writes) conit }
    {
        self.sums.order(conit) - self.settled.weight(conit)
    }
}

// Which of some writes is the last.
fn last_of(writes: &[Write]) -> Option<LastOne>
    ensures { result ≡ last_one writes.now }
{
    let last = writes.last()?;
    Some(LastOne {
        origin: last.origin,
        index: last.index,
    })
}

// Makes the image that of the order, which is as it was before a place, and has new writes behind it.
fn follow(image: &mut Image, ordered: &Ordered, place: u64, new: &[Write])
    requires past { image.old.committed ≤ place }
    requires committed { image.old.committed ≡ length (committed_to ordered.now.point ordered.now.writes) }
    requires within { place ≤ image.old.committed + length image.old.ops }
    requires joined { AreJoined image.old.ops (ops_of new.now) (ops_of (tentative_past ordered.now.point ordered.now.writes)) }
    requires room { length new.now ≤ image.old.room }
    requires stays { let front = place - image.old.committed in
        take front image.old.ops ≡ ops_of (take front (tentative_past ordered.now.point ordered.now.writes)) }
    requires alone { (write : Write) → new.now ≡ write ∷ [] → ops_of (tentative_past ordered.now.point ordered.now.writes)
        ≡ insert image.old.ops (place - image.old.committed) write.op }
    ensures committed { image.new.committed ≡ image.old.committed }
    ensures base { (key : ℕ) → base_of image.new key ≡ base_of image.old key }
    ensures ops { image.new.ops ≡ ops_of (tentative_past ordered.now.point ordered.now.writes) }
    ensures room { image.old.room ≡ image.new.room + length new.now }
{
    if new.len() == 1 {
        image.insert_at(place, new[0].op);
    } else {
        image.insert_all(place, new, tentative_from(ordered, place));
    }
}

// The tentative writes from a place on.
fn tentative_from(ordered: &Ordered, place: u64) -> &[Write]
    requires past { length (committed_to ordered.now.point ordered.now.writes) ≤ place }
    requires within { place
        ≤ length (committed_to ordered.now.point ordered.now.writes)
        + length (tentative_past ordered.now.point ordered.now.writes) }
    ensures { result.now
        ≡ drop (place - length (committed_to ordered.now.point ordered.now.writes))
        (tentative_past ordered.now.point ordered.now.writes) }
{
    let committed = ordered.dropped() + ordered.committed().len() as u64;
    &ordered.tentative()[(place - committed) as usize..]
}

// The committed writes that are held, from a place among these on.
fn committed_from(ordered: &Ordered, place: usize) -> &[Write]
    requires { ordered.now.dropped + place ≤ length (committed_to ordered.now.point ordered.now.writes) }
    ensures { result.now ≡ drop (ordered.now.dropped + place) (committed_to ordered.now.point ordered.now.writes) }
{
    &ordered.committed()[place..]
}

// Adds the weights of writes to the sums of those that are held.
fn add_all(sums: &mut Running, writes: &[Write])
    requires on_conits { AreOnConits (conits_of sums.old) writes.now }
    requires few { held_of sums.old + length writes.now ≤ SUMMED_WRITES }
    ensures conits { conits_of sums.new ≡ conits_of sums.old }
    ensures added { (held : List (List Weight)) → HoldsAll sums.old held → HoldsAll sums.new (held ++ weights_of writes.now) }
{
    for write in writes {
        sums.add(&write.weights);
    }
}

// Adds the order weights of writes to the totals of those that are committed.
fn settle_all(settled: &mut Totals, writes: &[Write])
    requires on_conits { AreOnConits (length settled.old.sums) writes.now }
    requires few { settled.old.held + length writes.now ≤ SUMMED_WRITES }
    ensures conits { length settled.new.sums ≡ length settled.old.sums }
    ensures added { (held : List (List Weight)) → AreSumsOf settled.old held → AreSumsOf settled.new (held ++ weights_of writes.now) }
{
    for write in writes {
        settled.add(&write.weights);
    }
}

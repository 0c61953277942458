//! A peer: what it has, what it was told, and what of it is committed.
ghost use Rattle.std.specs.Prelude.{◌≡◌, ◌≢◌, ◌↔◌, ◌==◌, ℕ, ◌<◌, ◌≤◌, ◌∷◌, ◌++◌, [], IfOk, IfErr, IsTrue, OnOk, OnErr, if◌then◌else◌, length, map};
ghost use Rattle.tact_base.specs.declared.limits.TheConstants.{HISTORY_MAX, REPLICAS_MIN, REPLICAS_MAX};
ghost use Rattle.primary_commit.specs.Faults.{IsFaultOf};
ghost use Rattle.primary_commit.specs.Kept.{IsSettled, peer_with};
ghost use Rattle.primary_commit.specs.Peers.{IsFor, accepted_item, after_accept, after_post, after_take, committed, fresh_peer, have, notice_of, origins, pick_of, primary, value};

use crate::fitting::are_next;
use crate::logs::Logs;
use crate::posting::{ITEMS_MAX, PICKS_MAX, firsts_told, items_told, picks_told};
use crate::settling::{make_room, settle};
use crate::taking::{add_items, learn};
use crate::{Item, Notice, Pick};
use rollback_apply::Image;
use std::alloc::{AllocError, Global};
use std::marker::Model;
use tact_base::{HISTORY_MAX, NoMemory, Numbers, Op, RoomyList};

/// The replica that numbers.
pub(crate) const PRIMARY: u32 = 0;

/// Why a peer refused.
#[derive(Clone, Copy, Debug, PartialEq, Eq)]
pub enum PeerFault {
    /// It was in as many events as it may, `count`.
    Full { count: u64 },
    /// An allocation was refused.
    NoMemory,
}

impl From<NoMemory> for PeerFault {
    ghost use Rattle.std.specs.Prelude.{◌≡◌};
    ghost use Rattle.primary_commit.specs.declared.peer.PeerFault.{PeerFault};
    ghost use Rattle.primary_commit.specs.declared.peer.PeerFault.TheVariants as fault;

    ghost from_gives = { λ _ made. made ≡ fault.NoMemory };

    fn from(_fault: NoMemory) -> Self {
        PeerFault::NoMemory
    }
}

/// One of 2 to 8 peers. Replica 0, the primary, numbers all operations as they come to it, and the others learn its
/// order (in outline after Bayou's primary commit). Contracts see the items that it has, the order that it was told, and
/// how many events and postings it was in; of the order a front is committed, and what keys hold is the fold of it.
#[derive(Drop)]
pub struct Peer {
    pub(crate) alloc: Global,
    pub(crate) replica: u32,
    pub(crate) logs: Logs,
    pub(crate) told: RoomyList<Pick>,
    pub(crate) committed: u64,
    pub(crate) image: Image,
    pub(crate) events: u64,
    pub(crate) posts: u64,
}

impl Model for Peer {
    ghost use Rattle.primary_commit.specs.Peers.{PeerState};
    ghost use Rattle.primary_commit.specs.Kept.{KeepsPeer};

    ghost Value = { PeerState };

    ghost view = { λ p. record {
      replica = p.replica;
      logs = p.logs.logs;
      told = p.told.items;
      events = p.events;
      posts = p.posts;
    } };

    ghost invariant = { λ p. KeepsPeer (view p) p.committed p.image };
}

impl Peer {
    /// The peer of this number among `n` that has done nothing. It keeps its items in memory of `alloc`.
    pub fn new(alloc: Global, n: u32, replica: u32) -> Result<Peer, NoMemory>
        requires some { REPLICAS_MIN ≤ n }
        requires few { n ≤ REPLICAS_MAX }
        requires among { replica < n }
        ensures { IfOk result (λ peer. peer ≡ fresh_peer n replica) }
    {
        Ok(Peer {
            alloc,
            replica,
            logs: Logs::new(alloc, n)?,
            told: RoomyList::new(alloc),
            committed: 0,
            image: Image::new(alloc),
            events: 0,
            posts: 0,
        })
    }

    /// Accepts an operation, as the next item of its own. At the primary it gets its number at once. It costs what is
    /// newly committed.
    ///
    /// `Full` comes exactly where it was in 20,000 events. Both faults leave the peer as it was.
    pub fn accept(&mut self, op: Op) -> Result<Pick, PeerFault>
        ensures accepted { OnOk result (self.new ≡ after_accept self.old op) }
        ensures pick { IfOk result (λ pick. pick ≡ pick_of (accepted_item self.old op)) }
        ensures not_full { OnOk result (self.old.events < HISTORY_MAX) }
        ensures fault { IfErr result (IsFaultOf self.old) }
        ensures err { OnErr result (self.new ≡ self.old) }
    {
        self.may_enter()?;
        let pick = Pick {
            origin: self.replica,
            index: self.have(self.replica),
        };
        make_room(
            &mut self.logs,
            &mut self.told,
            &mut self.image,
            self.committed,
            1,
            1,
        )?;
        let item = Item {
            origin: pick.origin,
            index: pick.index,
            op,
        };
        self.logs.push(self.replica, item);
        if_primary(&mut self.told, self.replica, pick);
        self.committed = settle(
            &mut self.image,
            &self.logs,
            self.told.items(),
            self.committed,
        );
        self.events += 1;
        Ok(pick)
    }

    /// Tells another peer what it has past these firsts, and the order that it was told from a place on: at most 64 items
    /// and 256 picks. It costs what it tells.
    ///
    /// `Full` comes exactly where it was in 20,000 events. Both faults leave the peer as it was.
    pub fn post(&mut self, to: u32, firsts: &Numbers, place: u64) -> Result<Notice, PeerFault>
        requires to { to < length self.old.logs }
        requires other { to ≢ self.old.replica }
        requires firsts { length firsts.now ≡ length self.old.logs }
        ensures posted { OnOk result (self.new ≡ after_post self.old) }
        ensures notice { IfOk result (λ notice. notice ≡ notice_of self.old to firsts.now place) }
        ensures not_full { OnOk result (self.old.events < HISTORY_MAX) }
        ensures fault { IfErr result (IsFaultOf self.old) }
        ensures err { OnErr result (self.new ≡ self.old) }
    {
        self.may_enter()?;
        let notice = self.notice(to, firsts.items(), place)?;
        self.events += 1;
        self.posts += 1;
        Ok(notice)
    }

    /// Takes a notice that is addressed to it: of each origin the items that it lacks, and the picks behind the order that
    /// it was told, where none before them is missing; at the primary the added items get their numbers, origin by origin.
    /// It costs what the notice has and what is newly committed.
    ///
    /// `Full` comes exactly where it was in 20,000 events. Both faults leave the peer as it was.
    pub fn take(&mut self, notice: &Notice) -> Result<(), PeerFault>
        requires { IsFor self.old notice.now }
        ensures taken { OnOk result (self.new ≡ after_take self.old notice.now) }
        ensures not_full { OnOk result (self.old.events < HISTORY_MAX) }
        ensures fault { IfErr result (IsFaultOf self.old) }
        ensures err { OnErr result (self.new ≡ self.old) }
    {
        self.may_enter()?;
        let haves = self.haves()?;
        let items = notice.items.items();
        make_room(
            &mut self.logs,
            &mut self.told,
            &mut self.image,
            self.committed,
            items.len() as u64,
            items.len().max(notice.picks.len()) as u64,
        )?;
        add_items(&mut self.logs, items);
        learn(
            &mut self.told,
            &self.logs,
            haves.items(),
            self.replica,
            notice,
        );
        self.committed = settle(
            &mut self.image,
            &self.logs,
            self.told.items(),
            self.committed,
        );
        self.events += 1;
        Ok(())
    }

    /// Whether a notice may be taken: it is addressed to this peer, with a first of each origin, its items of each origin
    /// are those from its first on, in order, and it has at most 64 items and 256 picks. Takes no memory.
    pub fn fits(&self, notice: &Notice) -> bool
        ensures { IsTrue result ↔ IsFor self.now notice.now }
    {
        notice.to == self.replica
            && notice.firsts.len() == self.logs.count()
            && notice.items.len() <= ITEMS_MAX
            && notice.picks.len() <= PICKS_MAX
            && are_next(notice.firsts.items(), notice.items.items())
    }

    /// Its number. Takes no memory.
    pub fn replica(&self) -> u32
        ensures number { result ≡ self.now.replica }
        ensures among { result < length self.now.logs }
    {
        self.replica
    }

    /// How many peers there are. Takes no memory.
    pub fn replicas(&self) -> u32
        ensures { result ≡ length self.now.logs }
    {
        self.logs.count() as u32
    }

    /// How many items of an origin it has. Takes no memory.
    pub fn have(&self, i: u32) -> u64
        requires { i < length self.now.logs }
        ensures { result ≡ have self.now i }
    {
        self.logs.log(i).len() as u64
    }

    /// How many picks of the order it was told. Takes no memory.
    pub fn told(&self) -> u64
        ensures { result ≡ length self.now.told }
    {
        self.told.items().len() as u64
    }

    /// The committed picks: those of the order up to the first whose item it hasn't. Takes no memory.
    pub fn committed(&self) -> &[Pick]
        ensures { result.now ≡ committed self.now }
    {
        &self.told.items()[..self.committed as usize]
    }

    /// The value of a key: the fold of the operations of the committed picks, in order, 0 where none gave it one. Takes
    /// no memory.
    pub fn get(&self, key: u64) -> i64
        ensures { result ≡ value self.now key }
    {
        self.image.get(key)
    }

    // How many items of each origin it has.
    fn haves(&self) -> Result<Numbers, NoMemory>
        ensures { IfOk result (λ haves. haves ≡ map (have self.now) (origins self.now)) }
    {
        let mut haves = Numbers::with_capacity(self.alloc, self.logs.count())?;
        for origin in 0..self.logs.count() as u32 {
            haves.push(self.have(origin))?;
        }
        Ok(haves)
    }

    // What it tells another, where these firsts and this place are given.
    fn notice(&self, to: u32, given: &[u64], place: u64) -> Result<Notice, NoMemory>
        requires { length given.now ≡ length self.now.logs }
        ensures { IfOk result (λ notice. notice ≡ notice_of self.now to given.now place) }
    {
        let firsts = firsts_told(self.alloc, &self.logs, given)?;
        let place = place.min(self.told());
        Ok(Notice {
            from: self.replica,
            to,
            number: self.posts,
            items: items_told(self.alloc, &self.logs, firsts.items())?,
            firsts,
            place,
            picks: picks_told(self.alloc, self.told.items(), place)?,
        })
    }

    // Whether it may be in one more event.
    fn may_enter(&self) -> Result<(), PeerFault>
        ensures free { OnOk result (self.now.events < HISTORY_MAX) }
        ensures full { IfErr result (IsFaultOf self.now) }
    {
        if self.events >= HISTORY_MAX {
            return Err(PeerFault::Full { count: self.events });
        }
        Ok(())
    }
}

// At the primary a pick goes behind the others.
fn if_primary(told: &mut RoomyList<Pick>, replica: u32, pick: Pick)
    requires { 0 < told.old.room }
    ensures { told.new.items ≡ (if replica == primary then told.old.items ++ pick ∷ [] else told.old.items) }
{
    if replica == PRIMARY {
        told.push(pick);
    }
}

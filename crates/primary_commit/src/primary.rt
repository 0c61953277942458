//! Peers and what passes between them, event by event.
ghost use Rattle.std.specs.Prelude.{◌≡◌, ◌≢◌, ◌<◌, ◌≤◌, ◌++◌, ◌∷◌, [], IfErr, IfOk, OnErr, OnOk, length};
ghost use Rattle.tact_base.specs.declared.limits.TheConstants.{REPLICAS_MAX, REPLICAS_MIN};
ghost use Rattle.primary_commit.specs.Faults.{IsFaultOf};
ghost use Rattle.primary_commit.specs.Happenings.{MayHappen};
ghost use Rattle.primary_commit.specs.Networks.{MayFollow, Network, after_event, network_after, peer_at};
ghost use Rattle.primary_commit.specs.Orders.{IsAgreed};
ghost use Rattle.primary_commit.specs.Peers.{after_accept, after_post, notice_of};

use crate::items::Notice;
use crate::peer::{Peer, PeerFault};
use std::alloc::Global;
use std::marker::Model;
use tact_base::{NoMemory, Numbers, Op, RoomyList};

/// How many events there may be among peers.
pub const EVENTS_MAX: u64 = 10_000;

/// What happens among peers: one accepts an operation, one posts to another, with firsts and a place that it is given, or
/// the posting of a number is taken, counted from 0 over all postings.
#[derive(Debug, Drop)]
pub enum Event {
    Accept {
        replica: u32,
        op: Op,
    },
    Post {
        from: u32,
        to: u32,
        firsts: Numbers,
        place: u64,
    },
    Take {
        notice: u64,
    },
}

/// Peers of which the first is the primary, all that was posted among them, and all events. Contracts see how many peers
/// there are, and the events.
#[derive(Drop)]
pub struct Primary {
    alloc: Global,
    peers: Vec<Peer>,
    notices: RoomyList<Notice>,
    events: RoomyList<Event>,
}

impl Model for Primary {
    ghost use Rattle.std.specs.Prelude.{length};
    ghost use Rattle.primary_commit.specs.Happenings.{Happened, HasLeft};

    ghost Value = { Happened };

    ghost view = { λ p. record { n = length p.peers.items; events = p.events.items } };

    ghost invariant = { λ p. HasLeft (record { n = length p.peers.items; events = p.events.items }) (record { peers = p.peers.items; notices = p.notices.items }) };
}

impl Event {
    // The same event, with memory of its own.
    fn copy(&self, alloc: Global) -> Result<Event, NoMemory>
        ensures { IfOk result (λ event. event ≡ self.now) }
    {
        Ok(match self {
            Event::Accept { replica, op } => Event::Accept {
                replica: *replica,
                op: *op,
            },
            Event::Post {
                from,
                to,
                firsts,
                place,
            } => Event::Post {
                from: *from,
                to: *to,
                firsts: Numbers::from_slice(alloc, firsts.items())?,
                place: *place,
            },
            Event::Take { notice } => Event::Take { notice: *notice },
        })
    }
}

impl Primary {
    /// So many peers to which nothing has happened. `NoMemory` is the only error.
    pub fn new(alloc: Global, n: u32) -> Result<Primary, NoMemory>
        requires some { REPLICAS_MIN ≤ n }
        requires few { n ≤ REPLICAS_MAX }
        ensures { IfOk result (λ primary. primary ≡ record { n = n; events = [] }) }
    {
        let mut peers = Vec::new(alloc);
        for replica in 0..n {
            peers.push(Peer::new(alloc, n, replica)?)?;
        }
        Ok(Primary {
            alloc,
            peers,
            notices: RoomyList::new(alloc),
            events: RoomyList::new(alloc),
        })
    }

    /// Lets one event happen, of peers that there are; a posting is to another, with a first of each origin, and what is
    /// taken was posted. Whatever was lost, repeated or reordered, the orders of all peers agree (in outline Bayou's
    /// primary commit). `NoMemory` is the only error, and leaves all as it was.
    pub fn step(&mut self, event: &Event) -> Result<(), NoMemory>
        requires may { MayFollow self.old.n self.old.events event.now }
        requires few { length self.old.events < EVENTS_MAX }
        ensures happened { OnOk result (self.new ≡ record self.old { events = self.old.events ++ event.now ∷ [] }) }
        ensures agreed { IsAgreed self.new.n self.new.events }
        ensures err { OnErr result (self.new ≡ self.old) }
    {
        let kept = event.copy(self.alloc)?;
        self.events.reserve(1)?;
        self.notices.reserve(1)?;
        happen(&mut self.peers, &mut self.notices, event)?;
        self.events.push(kept);
        Ok(())
    }

    /// A peer, as the events left it.
    pub fn peer(&self, replica: u32) -> &Peer
        requires { replica < self.now.n }
        ensures { result.now ≡ peer_at (network_after self.now.n self.now.events) replica }
    {
        &self.peers[replica as usize]
    }

    /// How many notices were posted.
    pub fn posted(&self) -> u64
        ensures { result ≡ length (network_after self.now.n self.now.events).notices }
    {
        self.notices.items().len() as u64
    }

    /// The events, in order.
    pub fn events(&self) -> &[Event]
        ensures { result.now ≡ self.now.events }
    {
        self.events.items()
    }
}

// Lets an event happen among peers, where there is room for one more notice.
fn happen(
    peers: &mut Vec<Peer>,
    notices: &mut RoomyList<Notice>,
    event: &Event,
) -> Result<(), NoMemory>
    requires may { MayHappen peers.old.items notices.old.items event.now }
    requires room { 0 < notices.old.room }
    ensures happened { OnOk result ((let after : Network = record { peers = peers.new.items; notices = notices.new.items } in after)
        ≡ after_event (record { peers = peers.old.items; notices = notices.old.items }) event.now) }
    ensures err { OnErr result ((peers.new.items ≡ peers.old.items) × (notices.new.items ≡ notices.old.items)) }
{
    let answer = match event {
        Event::Accept { replica, op } => accept(&mut peers[*replica as usize], *op),
        Event::Post {
            from,
            to,
            firsts,
            place,
        } => post(&mut peers[*from as usize], notices, *to, firsts, *place),
        Event::Take { notice } => {
            let notice = &notices.items()[*notice as usize];
            peers[notice.to as usize].take(notice)
        }
    };
    match answer {
        Ok(()) => Ok(()),
        Err(PeerFault::NoMemory) => Err(NoMemory),
        Err(PeerFault::Full { .. }) => unreachable!(),
    }
}

// A peer accepts an operation.
fn accept(peer: &mut Peer, op: Op) -> Result<(), PeerFault>
    ensures accepted { OnOk result (peer.new ≡ after_accept peer.old op) }
    ensures fault { IfErr result (IsFaultOf peer.old) }
    ensures err { OnErr result (peer.new ≡ peer.old) }
{
    peer.accept(op)?;
    Ok(())
}

// A peer posts to another.
fn post(
    peer: &mut Peer,
    notices: &mut RoomyList<Notice>,
    to: u32,
    firsts: &Numbers,
    place: u64,
) -> Result<(), PeerFault>
    requires to { to < length peer.old.logs }
    requires other { to ≢ peer.old.replica }
    requires firsts { length firsts.now ≡ length peer.old.logs }
    requires room { 0 < notices.old.room }
    ensures posted { OnOk result (peer.new ≡ after_post peer.old) }
    ensures notice { OnOk result (notices.new.items ≡ notices.old.items ++ notice_of peer.old to firsts.now place ∷ []) }
    ensures fault { IfErr result (IsFaultOf peer.old) }
    ensures err { OnErr result ((peer.new ≡ peer.old) × (notices.new ≡ notices.old)) }
{
    let notice = peer.post(to, firsts, place)?;
    notices.push(notice);
    Ok(())
}

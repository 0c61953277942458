//! Three peers: what they have, were told and committed, whatever comes twice.

ghost use Rattle.std.specs.Prelude.{◌<◌};

use primary_commit::{Notice, Peer, PeerFault, Pick};
use std::alloc::Global;
use std::process::Abort;
use std::test::Fail;
use tact_base::{Numbers, Op};

// One of three. Peers and notices are boxed, since a box is let go in one step.
fn peer(alloc: Global, replica: u32) -> Result<Box<Peer>, Fail>
    requires { replica < 3 }
{
    let peer = Peer::new(alloc, 3, replica)?;
    Ok(Box::new(alloc, peer)?)
}

// Puts a value at the key 1.
fn put(peer: &mut Peer, value: i64) -> Result<Pick, PeerFault> {
    peer.accept(Op::Put { key: 1, value })
}

// The peer puts a value, its first item.
fn assert_put(rt: &impl Abort, peer: &mut Peer, value: i64) -> Result<(), Fail> {
    let origin = peer.replica();
    let pick = put(peer, value)?;
    assert!(rt; pick == Pick { origin, index: 0 });
    Ok(())
}

// What one posts to another.
fn post(rt: &impl Abort, from: &mut Peer, to: u32, firsts: &Numbers) -> Result<Notice, PeerFault> {
    assert!(rt; to < from.replicas() && to != from.replica());
    assert!(rt; firsts.len() == from.replicas() as usize);
    from.post(to, firsts, 0)
}

fn hear(rt: &impl Abort, peer: &mut Peer, notice: &Notice) -> Result<(), PeerFault> {
    assert!(rt; peer.fits(notice));
    peer.take(notice)
}

fn notice(
    rt: &(impl Abort + AllocGlobal),
    from: &mut Peer,
    to: u32,
    firsts: &[u64; 3],
) -> Result<Box<Notice>, Fail> {
    let firsts = Numbers::from_slice(rt.alloc(), firsts)?;
    let notice = post(rt, from, to, &firsts)?;
    Ok(Box::new(rt.alloc(), notice)?)
}

// One tells another, who takes it.
fn tell(
    rt: &(impl Abort + AllocGlobal),
    from: &mut Peer,
    to: &mut Peer,
    firsts: &[u64; 3],
) -> Result<(), Fail> {
    let notice = notice(rt, from, to.replica(), firsts)?;
    Ok(hear(rt, to, &notice)?)
}

// One tells another, who takes it twice: what it knows after each.
fn tell_twice(
    rt: &(impl Abort + AllocGlobal),
    from: &mut Peer,
    to: &mut Peer,
) -> Result<[State; 2], Fail> {
    let notice = notice(rt, from, to.replica(), &[0; 3])?;
    hear(rt, to, &notice)?;
    let once = state(to);
    hear(rt, to, &notice)?;
    Ok([once, state(to)])
}

// What a peer has of the origins 1 and 2, how many picks it was told and how many are committed; and what the key 1
// holds.
type State = ([u64; 4], i64);

fn state(peer: &Peer) -> State {
    let committed = peer.committed().len() as u64;
    let counts = [have(peer, 1), have(peer, 2), peer.told(), committed];
    (counts, peer.get(1))
}

fn have(peer: &Peer, origin: u32) -> u64 {
    if origin < peer.replicas() {
        peer.have(origin)
    } else {
        u64::MAX
    }
}

static WHOLE: State = ([1, 1, 2, 2], 5);

static LACKING: State = ([1, 0, 2, 0], 0);

// The put of replica 2 stands before that of replica 1.
static ORDER: [Pick; 2] = [
    Pick {
        origin: 2,
        index: 0,
    },
    Pick {
        origin: 1,
        index: 0,
    },
];

// Replicas 1 and 2 put 5 and 6, and replica 0 hears of the latter first.
fn number(
    rt: &(impl Abort + AllocGlobal),
    zero: &mut Peer,
    one: &mut Peer,
    two: &mut Peer,
) -> Result<(), Fail> {
    assert_put(rt, one, 5)?;
    assert_put(rt, two, 6)?;
    tell(rt, two, zero, &[0; 3])?;
    tell(rt, one, zero, &[0; 3])?;
    assert!(rt; state(zero) == WHOLE);
    assert!(rt; zero.committed() == ORDER.as_slice());
    Ok(())
}

// Replica 1 is told the order without the first item, then with it, and that twice.
fn learn(rt: &(impl Abort + AllocGlobal), zero: &mut Peer, one: &mut Peer) -> Result<(), Fail> {
    tell(rt, zero, one, &[0, 0, 1])?;
    assert!(rt; state(one) == LACKING);
    assert!(rt; tell_twice(rt, zero, one)? == [WHOLE, WHOLE]);
    assert!(rt; one.committed() == ORDER.as_slice());
    Ok(())
}

#[test]
fn learns_the_order(rt: HostRuntime) -> Result<(), Fail> {
    let mut zero = peer(rt.alloc(), 0)?;
    let mut one = peer(rt.alloc(), 1)?;
    let mut two = peer(rt.alloc(), 2)?;
    number(&rt, &mut zero, &mut one, &mut two)?;
    learn(&rt, &mut zero, &mut one)
}

// Adds to the key 1 so often.
fn add(peer: &mut Peer, count: u32) -> Result<(), PeerFault> {
    for _ in 0..count {
        peer.accept(Op::Add { key: 1, delta: 1 })?;
    }
    Ok(())
}

// One of two that was in as many events as it may.
fn full(alloc: Global) -> Result<Box<Peer>, Fail> {
    let mut peer = Box::new(alloc, Peer::new(alloc, 2, 1)?)?;
    add(&mut peer, 20_000)?;
    Ok(peer)
}

#[test]
fn is_full_after_20_000_events(rt: HostRuntime) -> Result<(), Fail> {
    let mut peer = full(rt.alloc())?;
    assert!(rt; add(&mut peer, 1) == Err(PeerFault::Full { count: 20_000 }));
    Ok(())
}

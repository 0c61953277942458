//! What a step draws.
ghost use Rattle.std.specs.Prelude.{◌≡◌, ◌==◌, IfOk, length};
ghost use Rattle.primary_commit.specs.Networks.{network_after};
ghost use Rattle.drawn_events.specs.DrawnEvents.{IsAmongFour, accept_drawn, counts_of, event_drawn, firsts_given, place_given, post_drawn, take_drawn};

use drawn_scripts::Draws;
use primary_commit::{Event, Peer, Primary};
use std::alloc::Global;
use tact_base::{NoMemory, Numbers, Op};

/// An operation that a peer accepts.
#[tactic(auto, unfolding(crate::specs::DrawnEvents::accept_drawn))]
fn accept_event(draws: &mut Draws) -> Event
    ensures { accept_drawn draws.old ≡ (result, draws.new) }
{
    let replica = draws.pick(4) as u32;
    let key = draws.pick(8);
    let value = draws.pick(100) as i64;
    Event::Accept {
        replica,
        op: Op::Put { key, value },
    }
}

// How many items a peer has of each origin.
fn counts_of(alloc: Global, peer: &Peer) -> Result<Numbers, NoMemory>
    requires { length peer.now.logs ≡ 4 }
    ensures { IfOk result (λ counts. counts ≡ counts_of peer.now) }
{
    let mut counts = Numbers::with_capacity(alloc, 4)?;
    for origin in 0..4 {
        counts.push(peer.have(origin))?;
    }
    Ok(counts)
}

// The firsts that a posting to a peer is given.
fn firsts_given(alloc: Global, peer: &Peer, kind: u64) -> Result<Numbers, NoMemory>
    requires { length peer.now.logs ≡ 4 }
    ensures { IfOk result (λ firsts. firsts ≡ firsts_given peer.now kind) }
{
    if kind == 0 {
        Numbers::filled(alloc, 0, 4)
    } else {
        counts_of(alloc, peer)
    }
}

// The place that it is given.
fn place_given(peer: &Peer, kind: u64) -> u64
    ensures { result ≡ place_given peer.now kind }
{
    if kind == 0 { 0 } else { peer.told() }
}

/// A posting from one peer to another.
#[tactic(auto, unfolding(crate::specs::DrawnEvents::post_drawn))]
fn post_event(alloc: Global, draws: &mut Draws, primary: &Primary) -> Result<Event, NoMemory>
    requires { IsAmongFour primary.now }
    ensures { IfOk result (λ event. post_drawn (network_after 4 primary.now.events) draws.old ≡ (event, draws.new)) }
{
    let (from, to) = draws.two();
    let kind = draws.pick(2);
    let peer = primary.peer(to);
    Ok(Event::Post {
        from,
        to,
        firsts: firsts_given(alloc, peer, kind)?,
        place: place_given(peer, kind),
    })
}

/// The taking of one of so many notices, where there is one.
#[tactic(auto, unfolding(crate::specs::DrawnEvents::take_drawn))]
fn take_event(draws: &mut Draws, posted: u64) -> Option<Event>
    ensures { take_drawn posted draws.old ≡ (result, draws.new) }
{
    let notice = draws.one_of(posted)?;
    Some(Event::Take { notice })
}

/// The event of a step of a kind, among these peers; none, where it would take a notice of none.
pub(crate) fn event_of_kind(
    alloc: Global,
    draws: &mut Draws,
    primary: &Primary,
    kind: u64,
) -> Result<Option<Event>, NoMemory>
    requires { IsAmongFour primary.now }
    ensures { IfOk result (λ event. event_drawn (network_after 4 primary.now.events) kind draws.old ≡ (event, draws.new)) }
{
    Ok(match kind {
        0..=3 => Some(accept_event(draws)),
        4..=6 => Some(post_event(alloc, draws, primary)?),
        _ => take_event(draws, primary.posted()),
    })
}

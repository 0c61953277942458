//! The order of a primary: events among peers are drawn from a number, and a summary is written.
ghost use Rattle.std.specs.Prelude.{◌≡◌, ◌⊎◌, ◌≤◌, ◌++◌, IfOk, OnOk, count_by, length};
ghost use Rattle.run_model.specs.Text.{spaced};
ghost use Rattle.run_model.specs.declared.status.Status.TheVariants.{Done, NoMemory as OutOfMemory};
ghost use Rattle.tact_io.specs.Faults.{HasRisen};
ghost use Rattle.drawn_events.specs.DrawnEvents.{IsAmongFour};
ghost use Rattle.tact_top.specs.Answers.{IsDrawn};
ghost use Rattle.tact_top.specs.PrimaryText.{event_tokens, events_text, have_tokens, is_accept, is_post, is_take, peer_text, peer_tokens, peers_text, primary_text, told_tokens};

use crate::job::drawn;
use drawn_events::draw_events;
use primary_commit::{Event, Peer, Primary};
use run_model::{Status, put_number, put_row};
use std::alloc::Global;
use tact_base::{Bytes, NoMemory};
use tact_io::Sink;

/// Lets the events happen among four peers that a number draws, and writes a summary: a line with the counts of all
/// events and of those of each kind; and for each peer how many items it has of each origin, how many picks of the
/// primary's order it was told, and how many of these are committed. The same for the same number, on every machine.
///
/// - `WriteFault`: the sink failed in this call. A front of the summary was written.
/// - `NoMemory`: an allocation was refused. Nothing was written, or a front of the summary.
pub fn primary<K: Sink>(alloc: Global, number: u64, sink: &mut K) -> Status
    ensures written { IsDrawn (primary_text number) result (K.written sink.old) (K.written sink.new)
        (K.faults sink.old) (K.faults sink.new) }
    ensures complete { ¬ HasRisen (K.faults sink.old) (K.faults sink.new) → (result ≡ Done) ⊎ (result ≡ OutOfMemory) }
    ensures writes_never_fall { K.faults sink.old ≤ K.faults sink.new }
{
    match summary_of(alloc, number) {
        Ok(text) => drawn(text, sink),
        Err(NoMemory) => Status::NoMemory,
    }
}

// The summary of the events that a number draws.
fn summary_of(alloc: Global, number: u64) -> Result<Bytes, NoMemory>
    ensures { IfOk result (λ text. text ≡ primary_text number) }
{
    let primary = draw_events(alloc, number)?;
    let mut text = Bytes::new(alloc);
    put_events(number, primary.events(), &mut text)?;
    put_peers(&primary, &mut text)?;
    Ok(text)
}

// Appends the line with the counts of events.
fn put_events(number: u64, events: &[Event], out: &mut Bytes) -> Result<(), NoMemory>
    ensures { OnOk result (out.new ≡ out.old ++ events_text number events.now) }
{
    out.append(b"primary")?;
    put_counts(number, events, out)?;
    out.push(b'\n')
}

fn put_counts(number: u64, events: &[Event], out: &mut Bytes) -> Result<(), NoMemory>
    ensures { OnOk result (out.new ≡ out.old ++ spaced (event_tokens number events.now)) }
{
    let tally = tally_of(events);
    put_number(number, out)?;
    put_row(b"events", &[events.len() as u64], out)?;
    put_row(b"accepts", &[tally.accepts], out)?;
    put_row(b"posts", &[tally.posts], out)?;
    put_row(b"takes", &[tally.takes], out)
}

// How many events are of each kind.
#[derive(Clone, Copy)]
struct Tally {
    accepts: u64,
    posts: u64,
    takes: u64,
}

#[tactic(auto, unfolding(crate::specs::PrimaryText::is_accept, crate::specs::PrimaryText::is_post, crate::specs::PrimaryText::is_take))]
fn tally_of(events: &[Event]) -> Tally
    ensures accepts { result.accepts ≡ count_by is_accept events.now }
    ensures posts { result.posts ≡ count_by is_post events.now }
    ensures takes { result.takes ≡ count_by is_take events.now }
{
    let mut tally = Tally {
        accepts: 0,
        posts: 0,
        takes: 0,
    };
    for event in events {
        match event {
            Event::Accept { .. } => tally.accepts += 1,
            Event::Post { .. } => tally.posts += 1,
            Event::Take { .. } => tally.takes += 1,
        }
    }
    tally
}

// Appends the line of each peer.
fn put_peers(primary: &Primary, out: &mut Bytes) -> Result<(), NoMemory>
    requires { IsAmongFour primary.now }
    ensures { OnOk result (out.new ≡ out.old ++ peers_text primary.now.events) }
{
    for replica in 0..4 {
        put_peer(primary.peer(replica), replica, out)?;
    }
    Ok(())
}

// Appends the line of one.
fn put_peer(peer: &Peer, replica: u32, out: &mut Bytes) -> Result<(), NoMemory>
    requires { length peer.now.logs ≡ 4 }
    ensures { OnOk result (out.new ≡ out.old ++ peer_text peer.now replica) }
{
    out.append(b"peer")?;
    put_state(peer, replica, out)?;
    out.push(b'\n')
}

fn put_state(peer: &Peer, replica: u32, out: &mut Bytes) -> Result<(), NoMemory>
    requires { length peer.now.logs ≡ 4 }
    ensures { OnOk result (out.new ≡ out.old ++ spaced (peer_tokens peer.now replica)) }
{
    put_number(u64::from(replica), out)?;
    put_have(peer, out)?;
    put_told(peer, out)
}

fn put_have(peer: &Peer, out: &mut Bytes) -> Result<(), NoMemory>
    requires { length peer.now.logs ≡ 4 }
    ensures { OnOk result (out.new ≡ out.old ++ spaced (have_tokens peer.now)) }
{
    let have = [peer.have(0), peer.have(1), peer.have(2), peer.have(3)];
    put_row(b"have", &have, out)
}

fn put_told(peer: &Peer, out: &mut Bytes) -> Result<(), NoMemory>
    ensures { OnOk result (out.new ≡ out.old ++ spaced (told_tokens peer.now)) }
{
    put_row(b"told", &[peer.told()], out)?;
    put_row(b"committed", &[peer.committed().len() as u64], out)
}

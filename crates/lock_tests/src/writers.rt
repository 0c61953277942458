//! Two threads write at one node.
ghost use Rattle.std.specs.Prelude.{◌≡◌, ◌<◌};
ghost use Rattle.tact_base.specs.declared.limits.TheConstants.{CLIENTS};
ghost use Rattle.replica_lock.specs.Rosters.{IsRosterOf};
ghost use Rattle.replica_lock.specs.Sessions.{IsSessionOf};

use crate::opened::{Opened, node_of, open_two, plain_write};
use replica_lock::{Node, Roster, Session};
use run_model::Reply;
use std::process::Abort;
use std::sync::Wait;
use std::thread;
use tact_io::{FreeGate, SureJournal};

const WRITES: usize = 100;

// Writes many times, and gives the index of each write.
fn write_often<R: Wait + Abort>(
    rt: &R,
    node: &Node<'_, SureJournal, FreeGate>,
    mut session: Session,
) -> [u64; WRITES]
    requires { IsSessionOf node.now session }
{
    let mut indices = [0; WRITES];
    for place in 0..WRITES {
        indices[place] = write(rt, node, &mut session);
    }
    indices
}

/// Writes, and gives the index of the write.
pub fn write<R: Wait + Abort>(
    rt: &R,
    node: &Node<'_, SureJournal, FreeGate>,
    session: &mut Session,
) -> u64
    requires { IsSessionOf node.now session.old }
    ensures { IsSessionOf node.now session.new }
{
    match node.call(rt, session, 3, plain_write(rt)) {
        Ok(Reply::Done { index, .. }) => index,
        _ => panic!(rt; "a write is done at once"),
    }
}

/// A session of a client that has none.
pub fn session(
    rt: &impl Abort,
    node: &Node<'_, SureJournal, FreeGate>,
    roster: &mut Roster,
    client: u32,
) -> Session
    requires roster { IsRosterOf node.now roster.old }
    requires client { client < CLIENTS }
    ensures session { IsSessionOf node.now result }
    ensures roster { IsRosterOf node.now roster.new }
{
    node.session(roster, client).expect(rt, "a session")
}

// Each number below twice the count of writes stands once in one of the two.
fn stand_once(rt: &impl Abort, one: &[u64; WRITES], other: &[u64; WRITES]) {
    let mut seen = [false; 2 * WRITES];
    for &index in one.iter().chain(other) {
        let index = index as usize;
        assert!(rt; index < 2 * WRITES && !seen[index], "index {index} once");
        seen[index] = true;
    }
}

#[test]
fn two_threads_write_at_a_node(rt: HostRuntime) {
    let Opened {
        desk,
        config,
        first,
        second: _,
    } = open_two(&rt, rt.alloc());
    let (node, mut roster) = node_of(&rt, rt.alloc(), &desk, &config, first);
    let one = session(&rt, &node, &mut roster, 0);
    let other = session(&rt, &node, &mut roster, 1);
    let (one, other) = thread::join(
        &rt,
        || -> [u64; WRITES]
            requires { IsSessionOf node one }
        { write_often(&rt, &node, one) },
        || -> [u64; WRITES]
            requires { IsSessionOf node other }
        { write_often(&rt, &node, other) },
    );
    let ended = node.end(&rt, roster);
    stand_once(&rt, &one, &other);
    assert_eq!(rt; ended.stored.pairs().len(), 2 * WRITES);
}

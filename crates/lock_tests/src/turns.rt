//! A note from session to session, and a turn.
ghost use Rattle.std.specs.Prelude.{◌≡◌, ◌<◌, Contains};
ghost use Rattle.replica_lock.specs.Rosters.{IsRosterOf};
ghost use Rattle.replica_lock.specs.Sessions.{IsSessionOf};

use crate::opened::{Opened, node_of, open_two, plain_read, plain_write};
use crate::writers::{session, write};
use replica_lock::{Node, Roster, Session, SessionFault};
use run_model::Reply;
use std::process::Abort;
use std::sync::Wait;
use tact_io::{FreeGate, SureJournal};

// Reads key 7.
fn read<R: Wait + Abort>(
    rt: &R,
    node: &Node<'_, SureJournal, FreeGate>,
    session: &mut Session,
) -> i64
    requires { IsSessionOf node.now session.old }
    ensures { IsSessionOf node.now session.new }
{
    match node.call(rt, session, 3, plain_read(rt)) {
        Ok(Reply::Value { value, .. }) => value,
        _ => panic!(rt; "a read without needs is answered at once"),
    }
}

// Makes room and writes in one turn, and gives the index of the write.
fn write_in_turn<R: Wait + Abort>(
    rt: &R,
    node: &Node<'_, SureJournal, FreeGate>,
    session: &mut Session,
) -> u64
    requires { IsSessionOf node.now session.old }
    ensures { IsSessionOf node.now session.new }
{
    let mut turn = node.turn(rt);
    let room = turn.make_room(1);
    let answer = turn.call(session, 3, plain_write(rt));
    turn.end();
    assert_eq!(rt; room, Ok(()));
    match answer {
        Ok(Reply::Done { index, .. }) => index,
        _ => panic!(rt; "a write is done at once"),
    }
}

// Client 0 has a session.
fn is_taken(rt: &impl Abort, node: &Node<'_, SureJournal, FreeGate>, roster: &mut Roster)
    requires { IsRosterOf node.now roster.old }
    ensures { IsRosterOf node.now roster.new }
{
    let Err(fault) = node.session(roster, 0) else {
        panic!(rt; "two sessions of a client")
    };
    assert_eq!(rt; fault, SessionFault::Taken { client: 0 });
}

// One client writes, another hears of it and reads, and the first writes once more, in a turn.
fn hear_and_turn<R: Wait + Abort>(
    rt: &R,
    node: &Node<'_, SureJournal, FreeGate>,
    one: &mut Session,
    other: &mut Session,
)
    requires one { IsSessionOf node.now one.old }
    requires other { IsSessionOf node.now other.old }
{
    let first = write(rt, node, one);
    let note = node.note(one);
    node.hear(rt, other, note);
    let value = read(rt, node, other);
    let second = write_in_turn(rt, node, one);
    assert_eq!(rt; (first, value, second), (0, 1, 1));
    let counts = [one.calls(), one.made(), other.calls(), other.made()];
    assert_eq!(rt; counts, [2, 2, 1, 1]);
}

#[test]
fn a_note_and_a_turn(rt: HostRuntime) {
    let Opened {
        desk,
        config,
        first,
        second: _,
    } = open_two(&rt, rt.alloc());
    let (node, mut roster) = node_of(&rt, rt.alloc(), &desk, &config, first);
    let mut one = session(&rt, &node, &mut roster, 0);
    let mut other = session(&rt, &node, &mut roster, 1);
    is_taken(&rt, &node, &mut roster);
    hear_and_turn(&rt, &node, &mut one, &mut other);
    let ended = node.end(&rt, roster);
    assert_eq!(rt; ended.stored.pairs().len(), 3);
}

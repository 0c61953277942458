//! How a run ends: its inboxes, its nodes, and the history of all that was drawn.
ghost use Rattle.std.specs.Prelude.{◌≡◌, ◌⊎◌, ◌<◌, ◌≤◌, [], IfOk, List, ℕ, get_or, length, map};
ghost use Rattle.std.specs.Vec.{vec_capacity};
ghost use Rattle.tact_io.specs.Faults.{HasRisen};
ghost use Rattle.run_history.specs.Seats.{DeskView, NoteView};
ghost use Rattle.replica_lock.specs.Sessions.{NodeView};
ghost use Rattle.postbox.specs.Posts.{PostboxView};
ghost use Rattle.work_load.specs.declared.plan.Client.{Client};
ghost use Rattle.run_work.specs.Ends.{AreApart, AreBusy, AreCertain, AreDrawn, AreFew, AreKeys, AreUnmarked, AreWhole, HaveDrawn, HaveRosters};
ghost use Rattle.run_work.specs.Shelves.{HaveHeld};
ghost use Rattle.run_work.specs.Sites.{AreInboxes, AreNumbered, IsInboxAt, IsNodeAt};

use crate::room::{put, room_for};
use crate::seat::End;
use link_faults::Inbox;
use postbox::{Key, Postbox};
use replica_lock::{Ended, Node, Parcel};
use run_history::Clerk;
use run_model::Entry;
use std::alloc::Global;
use std::sync::Wait;
use tact_base::{NoMemory, RoomyList};
use tact_io::{Gate, Shelf};

/// By replica, the clerks of a run and the entries that they drew, with their ticks.
#[derive(Drop)]
pub(crate) struct Drawn {
    pub(crate) clerks: Vec<Clerk>,
    pub(crate) parts: Vec<RoomyList<(u64, Entry)>>,
}

/// Ends the inboxes, each with its key. `NoMemory` is the only error.
pub(crate) fn end_inboxes<R: Wait>(
    rt: &R,
    alloc: Global,
    inboxes: Vec<Postbox>,
    keys: Vec<Key>,
) -> Result<Vec<Inbox<Parcel>>, NoMemory>
    requires keys { AreKeys inboxes.items keys.items }
    ensures inboxes { (desk : DeskView) → ((replica : ℕ) (none : PostboxView) → replica < length inboxes.items → IsInboxAt desk replica (get_or inboxes.items replica none))
        → IfOk result (λ ended. (length ended.items ≡ length inboxes.items) × AreInboxes desk ended.items) }
    ensures plans { IfOk result (λ ended. map (λ inbox. inbox.plan) ended.items ≡ map (λ inbox. inbox.plan) inboxes.items) }
{
    let mut ended = Vec::new(alloc);
    let mut keys = keys.into_iter();
    for inbox in inboxes {
        let Some(key) = keys.next() else {
            unreachable!()
        };
        ended.push(inbox.end(rt, key))?;
    }
    Ok(ended)
}

/// Ends the nodes, each with its roster and the sessions of its clients, and puts their journals back on the shelf. Want of
/// memory is the only error, and leaves them there, too.
pub(crate) fn finish_all<R: Wait, G: Gate, B: Shelf>(
    rt: &R,
    alloc: Global,
    nodes: Vec<Node<'_, B::J, G>>,
    ends: Vec<End>,
    shelf: &mut B,
) -> Result<Drawn, NoMemory>
where
    B::J: Drop,
    requires nodes { AreNumbered nodes.items }
    requires ends { (clients : List Client) × (notes : List NoteView) × AreWhole clients notes nodes.items ends.items }
    ensures drawn { (desk : DeskView) (clients : List Client) (notes : List NoteView)
        → (length nodes.entry.items ≡ desk.setup.replicas)
        → ((replica : ℕ) (none : NodeView) → replica < length nodes.entry.items → IsNodeAt desk replica (get_or nodes.entry.items replica none))
        → AreWhole clients notes nodes.entry.items ends.items
        → IfOk result (λ drawn. AreDrawn desk drawn × (AreCertain ends.items → HaveDrawn clients notes drawn)) }
    ensures few { (clients : List Client) (extra : ℕ) → AreUnmarked ends.items → AreCertain ends.items → AreBusy clients extra ends.items → AreApart ends.items
        → IfOk result (λ drawn. AreFew clients extra drawn.clerks.items) }
    ensures never_falls { B.faults shelf.old ≤ B.faults shelf.new }
    ensures sure { IfOk result (λ drawn. HasRisen (B.faults shelf.old) (B.faults shelf.new) ⊎ HaveHeld B.J.tells (B.stored shelf.new) ends.items drawn.clerks.items) }
{
    let Ok(mut drawn) = nothing_drawn(alloc, nodes.len()) else {
        give_up(rt, nodes, ends, shelf);
        return Err(NoMemory);
    };
    let mut ends = ends.into_iter();
    for node in nodes {
        let Some(End { roster, sessions }) = ends.next() else {
            unreachable!()
        };
        let Ended {
            clerk,
            stored,
            journal,
        } = node.finish(rt, roster, sessions);
        shelf.put_back(clerk.replica(), journal);
        put(&mut drawn.clerks, clerk);
        put(&mut drawn.parts, stored.into_pairs());
    }
    Ok(drawn)
}

// No clerks yet, with room for so many and what they drew.
fn nothing_drawn(alloc: Global, count: usize) -> Result<Drawn, NoMemory>
    ensures clerks { IfOk result (λ drawn. (drawn.clerks.items ≡ []) × (count ≤ vec_capacity drawn.clerks)) }
    ensures parts { IfOk result (λ drawn. (drawn.parts.items ≡ []) × (count ≤ vec_capacity drawn.parts)) }
{
    Ok(Drawn {
        clerks: room_for(alloc, count)?,
        parts: room_for(alloc, count)?,
    })
}

/// Ends nodes whose sessions may be gone, each with its roster, and puts their journals back on the shelf.
pub(crate) fn give_up<R: Wait, G: Gate, B: Shelf>(
    rt: &R,
    nodes: Vec<Node<'_, B::J, G>>,
    ends: Vec<End>,
    shelf: &mut B,
)
where
    B::J: Drop,
    requires nodes { AreNumbered nodes.items }
    requires ends { HaveRosters nodes.items ends.items }
    ensures never_falls { B.faults shelf.old ≤ B.faults shelf.new }
{
    let mut ends = ends.into_iter();
    for node in nodes {
        let Some(End { roster, .. }) = ends.next() else {
            unreachable!()
        };
        let Ended { clerk, journal, .. } = node.end(rt, roster);
        let replica = clerk.replica();
        shelf.put_back(replica, journal);
    }
}

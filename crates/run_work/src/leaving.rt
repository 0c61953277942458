//! What the workers leave when all have ended.
ghost use Rattle.std.specs.Prelude.{◌≡◌, ◌<◌, ◌++◌, ◌∷◌, [], All, IfOk, IfSome, OnOk, length, map, Some};
ghost use Rattle.run_work.specs.Ends.{AreBusy, AreCertain, AreEnds, AreFaultless, AreUnmarked, HasCome, HaveEnded, HaveServed, LosesNone, IsStop, first_of, first_stop, note_of, is_before, stop_with};
ghost use Rattle.run_work.specs.Working.{HasWorked};
ghost use Rattle.work_load.specs.Entries.{EachAfter};
ghost use Rattle.work_load.specs.Ranges.{IsClientAfter};

use crate::seat::{End, stand};
use crate::site::Sites;
use crate::worker::Worker;
use run_history::Note;
use std::alloc::Global;
use steady_node::Ending;
use tact_base::NoMemory;
use tact_io::{Gate, Journal};

/// Where a run stopped: the replica and the client whose worker ended, why, and what the session had seen.
#[derive(Drop)]
pub(crate) struct Stop {
    pub(crate) replica: u32,
    pub(crate) client: u32,
    pub(crate) ending: Ending,
    pub(crate) note: Note,
}

/// What the workers leave: by client, what its session had seen; and where the run stopped first: a client whose last call
/// is lost goes before others, and of two such, or of two others, the first by replica and then by client.
#[derive(Drop)]
pub(crate) struct Left {
    pub(crate) notes: Vec<Note>,
    pub(crate) stop: Option<Stop>,
}

/// Gives the sessions of workers back, each to its replica. `NoMemory` is the only error.
pub(crate) fn leave_all<J: Journal, G: Gate>(
    alloc: Global,
    sites: &Sites<'_, '_, J, G>,
    tries: u64,
    workers: Vec<Worker<'_, '_, '_, J, G>>,
    ends: &mut [End],
) -> Result<Left, NoMemory>
    requires workers { All (HasWorked J.tells sites.now tries) workers.items }
    requires ends { AreEnds (map (λ worker. worker.client) workers.items) [] [] sites.now ends.old }
    requires clients { EachAfter (IsClientAfter sites.now.desk.setup.replicas sites.now.desk.setup.conits) [] (map (λ worker. worker.client) workers.items) }
    ensures ends { IfOk result (λ left. AreEnds (map (λ worker. worker.client) workers.entry.items) (map (λ worker. worker.client) workers.entry.items) left.notes.items sites.now ends.new) }
    ensures ended { IfOk result (λ left. HaveEnded tries (map (λ worker. worker.client) workers.entry.items) left.notes.items left.stop) }
    ensures served { IfOk result (λ left. AreUnmarked ends.new → HaveServed sites.now.desk.setup (map (λ worker. worker.client) workers.entry.items) left.notes.items left.stop) }
    ensures certain { IfOk result (λ left. LosesNone left.stop → AreCertain ends.new) }
    ensures notes { IfOk result (λ left. All (λ note. note.table ≡ sites.now.desk.table) left.notes.items) }
    ensures count { IfOk result (λ left. length left.notes.items ≡ length workers.entry.items) }
    ensures stop { IfOk result (λ left. IfSome left.stop (IsStop J.tells sites.now.desk (AreFaultless ends.new))) }
    ensures first { IfOk result (λ left. left.stop ≡ first_stop workers.entry.items) }
    ensures busy { OnOk result (AreBusy (map (λ worker. worker.client) workers.entry.items) 0 ends.new) }
    ensures rosters { map (λ end. end.roster) ends.new ≡ map (λ end. end.roster) ends.old }
{
    stand(sites);
    let mut left = Left {
        notes: Vec::new(alloc),
        stop: None,
    };
    for worker in workers {
        leave(worker, ends, &mut left)?;
    }
    Ok(left)
}

// Gives the session of a worker back.
fn leave<J: Journal, G: Gate>(
    worker: Worker<'_, '_, '_, J, G>,
    ends: &mut [End],
    left: &mut Left,
) -> Result<(), NoMemory>
    requires replica { worker.client.replica < length ends.old }
    ensures note { OnOk result (left.new.notes.items ≡ left.old.notes.items ++ note_of worker.entry ∷ []) }
    ensures stop { OnOk result (left.new.stop ≡ stop_with worker.entry worker.entry.end left.old.stop) }
    ensures end { OnOk result (HasCome worker.entry.session worker.entry.client.replica ends.old ends.new) }
    ensures rosters { map (λ end. end.roster) ends.new ≡ map (λ end. end.roster) ends.old }
{
    let Worker {
        node,
        client,
        mut session,
        end,
        ..
    } = worker;
    left.notes.push(node.note(&mut session))?;
    if let Some(ending) = end {
        let stop = Stop {
            replica: client.replica,
            client: client.client,
            ending,
            note: node.note(&mut session),
        };
        left.stop = earlier(left.stop.take(), stop);
    }
    ends[client.replica as usize].sessions.push(session)?;
    Ok(())
}

// Of two stops the first: one whose call is lost, else by replica and then by client.
fn earlier(one: Option<Stop>, other: Stop) -> Option<Stop>
    ensures { result ≡ Some (first_of one other) }
{
    match one {
        Some(one) if is_before(&one, &other) => Some(one),
        _ => Some(other),
    }
}

// Whether a stop comes before another.
fn is_before(one: &Stop, other: &Stop) -> bool
    ensures { result ≡ is_before one.now other.now }
{
    if one.ending.lost != other.ending.lost {
        return one.ending.lost;
    }
    (one.replica, one.client) < (other.replica, other.client)
}

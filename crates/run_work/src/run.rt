//! The run of a plan.
ghost use Rattle.std.specs.Prelude.{◌≡◌, ◌≢◌, ◌<◌, ◌≤◌, [], All, IfErr, IfOk, IfSome, List, None, OnOk, ℕ, length, map};
ghost use Rattle.run_model.specs.Histories.{IsPrefix};
ghost use Rattle.run_history.specs.Seats.{fresh_clerks, NoteView};
ghost use Rattle.work_load.specs.Attempts.{settling as settled_most};
ghost use Rattle.work_load.specs.Workloads.{IsWorkload};
ghost use Rattle.work_load.specs.declared.plan.Client.{Client};
ghost use Rattle.run_work.specs.Ends.{AreBusy, AreCertain, AreEnds, AreFaultless, AreUnmarked, AreWhole, HaveEnded, HaveRosters, HaveServed, LosesNone, IsStop};
ghost use Rattle.run_work.specs.Finished.{HasFinished, IsFaultOf, fault_by};
ghost use Rattle.run_work.specs.Runs.{IsDoneRun, IsStoppedRun};
ghost use Rattle.run_work.specs.Settling.{AreSettled, HaveMet, IsSettling};
ghost use Rattle.run_work.specs.Shelves.{IsOpenFault};
ghost use Rattle.run_work.specs.Sites.{AreNumbered};
ghost use Rattle.run_work.specs.Working.{HasWorked, IsFresh};

use crate::closing::{Drawn, end_inboxes, finish_all, give_up};
use crate::leaving::{Left, Stop, leave_all};
use crate::merge::in_order;
use crate::seat::{End, Opened, open, seat_all, stand};
use crate::settling::Settling;
use crate::site::Sites;
use crate::worker::Worker;
use link_faults::Inbox;
use replica_lock::{Node, Parcel, RestartFault};
use run_history::{Clerk, Desk, History, Note};
use run_model::Entry;
use std::alloc::Global;
use std::marker::Model;
use std::sync::Wait;
use std::thread;
use std::thread::Threads;
use steady_node::Ending;
use tact_base::NoMemory;
use tact_io::{Clock, Gate, Journal, Shelf};
use work_load::Plan;

/// A run that has ended: its history, and the entries of this in order of ticks.
#[derive(Drop)]
pub struct Run {
    history: History,
    entries: Vec<Entry>,
}

impl Model for Run {
    ghost use Rattle.std.specs.Prelude.{◌≡◌, List};
    ghost use Rattle.run_model.specs.declared.entry.Entry.{Entry};

    ghost Value = { List Entry };

    ghost view = { λ r. r.entries.items };

    ghost invariant = { λ r. r.entries.items ≡ r.history };
}

impl Run {
    ghost use Rattle.std.specs.Prelude.{◌≡◌};

    /// The entries, in the order in which they were drawn.
    pub fn entries(&self) -> &[Entry]
        ensures { result.now ≡ self.now }
    {
        self.entries.as_slice()
    }
}

/// Why a plan wasn't run to its end.
#[derive(Drop)]
pub enum RunFault {
    /// This replica has as many entries as it may, `count`, and its clock stands at `clock`; with the run up to there.
    Full {
        replica: u32,
        count: u64,
        clock: u64,
        run: Run,
    },
    /// The journal of this replica failed, or of its shelf, and what was asked for last wasn't found out. Or the replica is
    /// full, and a call of its client was lost before.
    JournalFault {
        replica: u32,
    },
    /// The journal of this replica gave another piece at this place than the one that was appended there.
    JournalForeign {
        replica: u32,
        place: u64,
    },
    /// An allocation was refused.
    NoMemory,
}

impl From<NoMemory> for RunFault {
    ghost use Rattle.std.specs.Prelude.{◌≡◌};
    ghost use Rattle.run_work.specs.declared.run.RunFault.TheVariants as fault;

    ghost from_gives = { λ _ made. made ≡ fault.NoMemory };

    fn from(_fault: NoMemory) -> Self {
        RunFault::NoMemory
    }
}

// The replicas of a run when its workers have ended, with where one stopped.
#[derive(Drop)]
struct Unsettled<'d, 'g, J: Journal, G: Gate> {
    desk: &'d Desk,
    nodes: Vec<Node<'d, J, &'g G>>,
    ends: Vec<End>,
    inboxes: Vec<Inbox<Parcel>>,
    stop: Option<Stop>,
}

// And after the rounds that settle them, unless there was no memory for these.
#[derive(Drop)]
struct Settled<'d, 'g, J: Journal, G: Gate> {
    nodes: Vec<Node<'d, J, &'g G>>,
    ends: Vec<End>,
    stop: Result<Option<Stop>, NoMemory>,
}

// What is left of a run when its nodes have ended.
#[derive(Drop)]
struct Finished {
    drawn: Drawn,
    stop: Option<Stop>,
}

/// Runs a plan: a worker for each client does its items in order, each tried until its reply is final, at most `tries`
/// times. When all have ended without a refusal, the plan's rounds settle the replicas. Each replica keeps a journal out of
/// the shelf; where that fails, the replica begins anew from it, and what was asked for goes on. A run in which a replica
/// became full comes back in the fault, as far as it went; with any other fault none comes back. Each journal that was
/// fetched is back on the shelf, whatever the answer.
pub fn run_plan<R: Threads + Wait + Sync, C: Clock + Sync, G: Gate + Sync, B: Shelf>(
    rt: &R,
    alloc: Global,
    plan: &Plan,
    tries: u64,
    clock: &C,
    gate: &G,
    shelf: &mut B,
) -> Result<Run, RunFault>
where
    B::J: Drop + Send,
    requires tries { 0 < tries }
    ensures done { IfOk result (IsDoneRun (record { tells = B.J.tells; before = B.faults shelf.old; after = B.faults shelf.new; stored = B.stored shelf.new }) plan.now tries) }
    ensures stopped { IfErr result (IsStoppedRun (record { tells = B.J.tells; before = B.faults shelf.old; after = B.faults shelf.new; stored = B.stored shelf.new }) plan.now tries) }
    ensures never_falls { B.faults shelf.old ≤ B.faults shelf.new }
{
    let (desk, clerks) = Desk::new(alloc, plan.config())?;
    let Finished { drawn, stop } = run_on(
        rt, alloc, &desk, plan, clerks, tries, clock, gate, shelf,
    )?;
    let history = desk.close(drawn.clerks);
    let entries = in_order(alloc, &history, drawn.parts)?;
    end_run(Run { history, entries }, stop)
}

// A run, or why it stopped.
fn end_run(run: Run, stop: Option<Stop>) -> Result<Run, RunFault>
    ensures done { IfOk result (λ ended. (ended ≡ run) × (stop ≡ None)) }
    ensures stopped { IfErr result (IsFaultOf run stop) }
{
    match stop {
        None => Ok(run),
        Some(
            Stop {
                replica,
                ending,
                ..
            },
        ) => Err(fault_of(replica, ending, run)),
    }
}

// Why a run isn't done that stopped at a replica.
fn fault_of(replica: u32, ending: Ending, run: Run) -> RunFault
    ensures { result ≡ fault_by replica ending run }
{
    match ending.fault {
        RestartFault::Full { count, clock } if !ending.lost => RunFault::Full {
            replica,
            count,
            clock,
            run,
        },
        RestartFault::Full { .. } | RestartFault::JournalFault | RestartFault::JournalReadFault => {
            RunFault::JournalFault { replica }
        }
        RestartFault::Foreign { place } => RunFault::JournalForeign { replica, place },
        RestartFault::NoMemory => RunFault::NoMemory,
    }
}

// Runs a plan on a desk whose clerks drew nothing.
fn run_on<R: Threads + Wait + Sync, C: Clock + Sync, G: Gate + Sync, B: Shelf>(
    rt: &R,
    alloc: Global,
    desk: &Desk,
    plan: &Plan,
    clerks: Vec<Clerk>,
    tries: u64,
    clock: &C,
    gate: &G,
    shelf: &mut B,
) -> Result<Finished, RunFault>
where
    B::J: Drop + Send,
    requires tries { 0 < tries }
    requires plan { IsWorkload plan.now }
    requires setup { desk.now.setup ≡ plan.now.setup }
    requires clerks { clerks.items ≡ fresh_clerks desk.now }
    ensures finished { IfOk result (HasFinished (record { tells = B.J.tells; before = B.faults shelf.old; after = B.faults shelf.new; stored = B.stored shelf.new }) plan.now tries desk.now) }
    ensures fault { IfErr result (IsOpenFault (B.faults shelf.old) (B.faults shelf.new)) }
    ensures never_falls { B.faults shelf.old ≤ B.faults shelf.new }
{
    let Opened {
        sites,
        mut ends,
        keys,
    } = open(rt, alloc, desk, plan, clerks, gate, shelf)?;
    let left = work_all(rt, alloc, &sites, ends.as_mut_slice(), plan, tries, clock);
    stand(&sites);
    let Sites { nodes, inboxes, .. } = sites;
    let Ok(Left { notes, stop }) = left else {
        give_up(rt, nodes, ends, shelf);
        return Err(RunFault::NoMemory);
    };
    let Ok(inboxes) = end_inboxes(rt, alloc, inboxes, keys) else {
        give_up(rt, nodes, ends, shelf);
        return Err(RunFault::NoMemory);
    };
    let mut note = join_all(desk, notes);
    let unsettled = Unsettled {
        desk,
        nodes,
        ends,
        inboxes,
        stop,
    };
    let Settled { nodes, ends, stop } = settle_after(
        rt,
        clock,
        unsettled,
        plan.settle(),
        &mut note,
    );
    let Ok(mut stop) = stop else {
        give_up(rt, nodes, ends, shelf);
        return Err(RunFault::NoMemory);
    };
    let mut drawn = finish_all(rt, alloc, nodes, ends, shelf)?;
    learn_first(&mut drawn.clerks[0], desk, note, &mut stop);
    Ok(Finished { drawn, stop })
}

// Settles the replicas by so many rounds, where the workers did not stop.
fn settle_after<'d, 'g, R: Wait, C: Clock, J: Journal + Drop, G: Gate>(
    rt: &R,
    clock: &C,
    unsettled: Unsettled<'d, 'g, J, G>,
    rounds: u64,
    note: &mut Note,
) -> Settled<'d, 'g, J, G>
    requires whole { (clients : List Client) × (noted : List NoteView) × AreWhole clients noted unsettled.nodes.items unsettled.ends.items }
    requires numbered { AreNumbered unsettled.nodes.items }
    requires settling { unsettled.stop ≡ None → IsSettling (record { desk = unsettled.desk.now; nodes = unsettled.nodes.items; ends = unsettled.ends.items; inboxes = unsettled.inboxes.items }) }
    requires certain { LosesNone unsettled.stop → AreCertain unsettled.ends.items }
    requires note { note.old.table ≡ unsettled.desk.now.table }
    requires stop { IfSome unsettled.stop (IsStop J.tells unsettled.desk.now (AreFaultless unsettled.ends.items)) }
    ensures note { (note.new.table ≡ note.old.table) × IsPrefix note.old.seen note.new.seen }
    ensures numbered { AreNumbered result.nodes.items }
    ensures rosters { HaveRosters result.nodes.items result.ends.items }
    ensures met { IfOk result.stop (λ stop. stop ≡ None → rounds ≢ 0 → AreUnmarked result.ends.items → HaveMet (record { desk = unsettled.entry.desk.now; nodes = unsettled.entry.nodes.items; ends = unsettled.entry.ends.items; inboxes = unsettled.entry.inboxes.items }) note.old.seen note.new.seen) }
    ensures settled { OnOk result.stop (AreSettled (record { desk = unsettled.entry.desk.now; nodes = unsettled.entry.nodes.items; ends = unsettled.entry.ends.items; inboxes = unsettled.entry.inboxes.items }) (record { desk = unsettled.entry.desk.now; nodes = result.nodes.items; ends = result.ends.items; inboxes = unsettled.entry.inboxes.items })) }
    ensures stop { IfOk result.stop (λ stop. IfSome stop (IsStop J.tells unsettled.entry.desk.now (AreFaultless result.ends.items))) }
    ensures kept { IfOk result.stop (λ stop. LosesNone stop → AreCertain result.ends.items) }
    ensures first { IfOk result.stop (λ stop. stop ≡ None → unsettled.entry.stop ≡ None) }
    ensures ended { (tries : ℕ) (clients : List Client) (noted : List NoteView)
        → HaveEnded tries clients noted unsettled.entry.stop → IfOk result.stop (HaveEnded tries clients noted) }
    ensures busy { (clients : List Client) → AreBusy clients 0 unsettled.entry.ends.items → OnOk result.stop (AreBusy clients (settled_most rounds) result.ends.items) }
{
    let Unsettled {
        desk,
        nodes,
        ends,
        inboxes,
        stop,
    } = unsettled;
    if stop.is_some() || rounds == 0 {
        return Settled {
            nodes,
            ends,
            stop: Ok(stop),
        };
    }
    let mut settling = Settling {
        desk,
        nodes,
        ends,
        inboxes,
    };
    let stop = settling.settle(rt, clock, rounds, note);
    let Settling { nodes, ends, .. } = settling;
    Settled { nodes, ends, stop }
}

// A note of what all notes have seen, of which there is one at least.
fn join_all(desk: &Desk, mut notes: Vec<Note>) -> Note
    requires some { 0 < length notes.items }
    requires notes { All (λ note. note.table ≡ desk.now.table) notes.items }
    ensures table { result.table ≡ desk.now.table }
    ensures notes { All (λ note. IsPrefix note.seen result.seen) notes.items }
{
    let Some(mut joined) = notes.pop() else {
        unreachable!()
    };
    meet_all(&mut joined, desk, notes);
    joined
}

// Lets a note take in what others have seen.
fn meet_all(note: &mut Note, desk: &Desk, others: Vec<Note>)
    requires note { note.old.table ≡ desk.now.table }
    requires others { All (λ other. other.table ≡ desk.now.table) others.items }
    ensures table { note.new.table ≡ note.old.table }
    ensures mine { IsPrefix note.old.seen note.new.seen }
    ensures others { All (λ other. IsPrefix other.seen note.new.seen) others.items }
{
    for other in others {
        note.meet(desk, other);
    }
}

// Lets a clerk learn what a note has seen, and that of a stop, so that the history begins with it.
fn learn_first(clerk: &mut Clerk, desk: &Desk, note: Note, stop: &mut Option<Stop>)
    requires clerk { clerk.old.table ≡ desk.now.table }
    requires note { note.table ≡ desk.now.table }
    requires stop { IfSome stop.old (λ stop. stop.note.table ≡ desk.now.table) }
    ensures clerk { clerk.new ≡ record clerk.old { seen = clerk.new.seen } }
    ensures note { IsPrefix note.seen clerk.new.seen }
    ensures stop { stop.new ≡ stop.old }
    ensures heard { IfSome stop.old (λ stop. IsPrefix stop.note.seen clerk.new.seen) }
{
    clerk.learn(desk, note);
    if let Some(stop) = stop {
        clerk.learn(desk, stop.note.twin(desk));
    }
}

// Each client's worker does its items, in a thread of its own, and gives its session back.
fn work_all<R: Threads + Wait + Sync, C: Clock + Sync, J: Journal + Drop + Send, G: Gate + Sync>(
    rt: &R,
    alloc: Global,
    sites: &Sites<'_, '_, J, G>,
    ends: &mut [End],
    plan: &Plan,
    tries: u64,
    clock: &C,
) -> Result<Left, NoMemory>
    requires tries { 0 < tries }
    requires setup { sites.now.desk.setup ≡ plan.now.setup }
    requires ends { AreEnds [] [] [] sites.now ends.old }
    ensures ends { IfOk result (λ left. AreEnds plan.now.clients plan.now.clients left.notes.items sites.now ends.new) }
    ensures ended { IfOk result (λ left. HaveEnded tries plan.now.clients left.notes.items left.stop) }
    ensures served { IfOk result (λ left. AreUnmarked ends.new → HaveServed sites.now.desk.setup plan.now.clients left.notes.items left.stop) }
    ensures certain { IfOk result (λ left. LosesNone left.stop → AreCertain ends.new) }
    ensures notes { IfOk result (λ left. All (λ note. note.table ≡ sites.now.desk.table) left.notes.items) }
    ensures count { IfOk result (λ left. length left.notes.items ≡ length plan.now.clients) }
    ensures stop { IfOk result (λ left. IfSome left.stop (IsStop J.tells sites.now.desk (AreFaultless ends.new))) }
    ensures busy { OnOk result (AreBusy plan.now.clients 0 ends.new) }
    ensures rosters { HaveRosters sites.now.nodes ends.new }
{
    let mut workers = seat_all(alloc, sites, ends, plan.clients())?;
    work_each(rt, sites, tries, clock, workers.as_mut_slice());
    leave_all(alloc, sites, tries, workers, ends)
}

// Each worker does its items, in a thread of its own.
fn work_each<R: Threads + Wait + Sync, C: Clock + Sync, J: Journal + Drop + Send, G: Gate + Sync>(
    rt: &R,
    sites: &Sites<'_, '_, J, G>,
    tries: u64,
    clock: &C,
    workers: &mut [Worker<'_, '_, '_, J, G>],
)
    requires tries { 0 < tries }
    requires some { 0 < length workers.old }
    requires fresh { All (IsFresh sites.now) workers.old }
    ensures worked { All (HasWorked J.tells sites.now tries) workers.new }
    ensures clients { map (λ worker. worker.client) workers.new ≡ map (λ worker. worker.client) workers.old }
{
    let threads = workers.len();
    thread::for_each_mut(
        rt,
        workers,
        threads,
        &|_, worker| { worker.work(rt, clock, tries) },
    );
}

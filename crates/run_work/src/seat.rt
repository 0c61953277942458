//! How a run begins: its nodes and inboxes, and a worker for each client.
ghost use Rattle.std.specs.Prelude.{◌≡◌, ◌<◌, ◌≤◌, ◌++◌, ◌∷◌, [], map, All, Contains, IfErr, IfOk, OnErr, OnOk, get_or};
ghost use Rattle.tact_base.specs.declared.limits.TheConstants.{CLIENTS, REPLICAS_MAX};
ghost use Rattle.link_faults.specs.Plans.{no_faults};
ghost use Rattle.run_history.specs.Seats.{fresh_clerks};
ghost use Rattle.replica_lock.specs.Rosters.{IsRosterOf};
ghost use Rattle.replica_lock.specs.Sessions.{IsSessionOf, NodeView, own_calls};
ghost use Rattle.steady_node.specs.Going.{IsUnmarked};
ghost use Rattle.work_load.specs.Entries.{EachAfter};
ghost use Rattle.work_load.specs.Ranges.{IsClientAfter, IsItemOf};
ghost use Rattle.run_work.specs.Ends.{AreEnds, AreKeys, HaveRosters, IsNewEnd};
ghost use Rattle.run_work.specs.Holding.{Holds};
ghost use Rattle.run_work.specs.Shelves.{IsOpenFault};
ghost use Rattle.run_work.specs.Sites.{AreSites, HavePlans, IsInboxAt, IsNodeAt};
ghost use Rattle.run_work.specs.Working.{IsFresh};

use crate::closing::give_up;
use crate::room::{put, room_for};
use crate::run::RunFault;
use crate::site::Sites;
use crate::worker::Worker;
use postbox::{Key, Postbox};
use replica_lock::{Allowance, NewFault, Node, Roster, Session, SessionFault};
use run_history::{Clerk, Desk};
use std::alloc::Global;
use std::sync::Wait;
use tact_base::NoMemory;
use tact_io::{Gate, Journal, OutFault, Shelf};
use work_load::{Client, Plan};

/// What ends a node: its roster, and the sessions of its clients when they come back.
#[derive(Drop)]
pub(crate) struct End {
    pub(crate) roster: Roster,
    pub(crate) sessions: Vec<Session>,
}

/// What a run begins with: the sites of its replicas, and by replica what ends the node and what ends the inbox.
#[derive(Drop)]
pub(crate) struct Opened<'d, 'g, J: Journal, G: Gate> {
    pub(crate) sites: Sites<'d, 'g, J, G>,
    pub(crate) ends: Vec<End>,
    pub(crate) keys: Vec<Key>,
}

// The place of one replica: its node, its inbox, and what ends each.
#[derive(Drop)]
struct Place<'d, 'g, J: Journal, G: Gate> {
    node: Node<'d, J, &'g G>,
    inbox: Postbox,
    end: End,
    key: Key,
}

/// The sites of a plan, whose setup the desk is made for, with the desk's clerks, and a journal for each out of a shelf. On
/// an error, which is want of memory or that the shelf failed, each journal is back on the shelf.
pub(crate) fn open<'d, 'g, R: Wait, G: Gate, B: Shelf>(
    rt: &R,
    alloc: Global,
    desk: &'d Desk,
    plan: &Plan,
    clerks: Vec<Clerk>,
    gate: &'g G,
    shelf: &mut B,
) -> Result<Opened<'d, 'g, B::J, G>, RunFault>
where
    B::J: Drop,
    requires setup { desk.now.setup ≡ plan.now.setup }
    requires clerks { clerks.items ≡ fresh_clerks desk.now }
    ensures desk { IfOk result (λ opened. opened.sites.desk ≡ desk.now) }
    ensures ends { IfOk result (λ opened. AreEnds [] [] [] opened.sites opened.ends.items) }
    ensures plans { IfOk result (λ opened. HavePlans plan.now opened.sites.inboxes) }
    ensures keys { IfOk result (λ opened. AreKeys opened.sites.inboxes opened.keys.items) }
    ensures never_falls { B.faults shelf.old ≤ B.faults shelf.new }
    ensures fault { IfErr result (IsOpenFault (B.faults shelf.old) (B.faults shelf.new)) }
{
    let count = clerks.len();
    let conits = plan.config().conits();
    let mut nodes = room_for(alloc, count)?;
    let mut inboxes = room_for(alloc, count)?;
    let mut ends = room_for(alloc, count)?;
    let mut keys = room_for(alloc, count)?;
    for clerk in clerks {
        match open_at(alloc, desk, plan, clerk, gate, shelf) {
            Ok(
                Place {
                    node,
                    inbox,
                    end,
                    key,
                },
            ) => {
                put(&mut nodes, node);
                put(&mut inboxes, inbox);
                put(&mut ends, end);
                put(&mut keys, key);
            }
            Err(fault) => {
                give_up(rt, nodes, ends, shelf);
                return Err(fault);
            }
        }
    }
    Ok(Opened {
        sites: Sites {
            desk,
            conits,
            nodes,
            inboxes,
        },
        ends,
        keys,
    })
}

// The place of a clerk's replica, with a journal out of a shelf.
fn open_at<'d, 'g, G: Gate, B: Shelf>(
    alloc: Global,
    desk: &'d Desk,
    plan: &Plan,
    mut clerk: Clerk,
    gate: &'g G,
    shelf: &mut B,
) -> Result<Place<'d, 'g, B::J, G>, RunFault>
where
    B::J: Drop,
    requires setup { desk.now.setup ≡ plan.now.setup }
    requires replica { clerk.replica < plan.now.setup.replicas }
    requires few { clerk.replica < REPLICAS_MAX }
    requires clerk { clerk.table ≡ desk.now.table }
    requires drawn { clerk.pairs ≡ [] }
    ensures node { IfOk result (λ place. IsNodeAt desk.now clerk.replica place.node) }
    ensures inbox { IfOk result (λ place. IsInboxAt desk.now clerk.replica place.inbox) }
    ensures plan { IfOk result (λ place. place.inbox.plan ≡ get_or plan.now.links clerk.replica no_faults) }
    ensures end { IfOk result (λ place. IsNewEnd place.node place.end) }
    ensures key { IfOk result (λ place. place.key ≡ place.inbox.cell) }
    ensures never_falls { B.faults shelf.old ≤ B.faults shelf.new }
    ensures fault { IfErr result (IsOpenFault (B.faults shelf.old) (B.faults shelf.new)) }
{
    let replica = clerk.replica();
    let note = clerk.note(desk);
    let (inbox, key) = Postbox::new(alloc, plan.link(replica), note, replica)?;
    let journal = match shelf.fetch(replica) {
        Ok(journal) => journal,
        Err(OutFault::Failed) => return Err(RunFault::JournalFault { replica }),
        Err(OutFault::NoMemory) => return Err(RunFault::NoMemory),
    };
    match Node::new(alloc, desk, plan.config(), clerk, journal, gate) {
        Ok((node, roster)) => Ok(Place {
            node,
            inbox,
            end: End {
                roster,
                sessions: Vec::new(alloc),
            },
            key,
        }),
        Err(NewFault { journal, .. }) => {
            shelf.put_back(replica, journal);
            Err(RunFault::NoMemory)
        }
    }
}

/// A worker for each client, at its node. `NoMemory` is the only error.
pub(crate) fn seat_all<'s, 'd, 'g, J: Journal, G: Gate>(
    alloc: Global,
    sites: &'s Sites<'d, 'g, J, G>,
    ends: &mut [End],
    clients: &'s [Client],
) -> Result<Vec<Worker<'s, 'd, 'g, J, G>>, NoMemory>
    requires ends { AreEnds [] [] [] sites.now ends.old }
    requires clients { EachAfter (IsClientAfter sites.now.desk.setup.replicas sites.now.desk.setup.conits) [] clients.now }
    ensures ends { OnOk result (AreEnds clients.now [] [] sites.now ends.new) }
    ensures clients { IfOk result (λ workers. map (λ worker. worker.client) workers.items ≡ clients.now) }
    ensures workers { IfOk result (λ workers. All (IsFresh sites.now) workers.items) }
    ensures rosters { HaveRosters sites.now.nodes ends.new }
{
    stand(sites);
    let mut workers = Vec::new(alloc);
    for client in clients {
        let worker = seat(
            alloc,
            sites,
            &mut ends[client.replica as usize].roster,
            client,
        )?;
        workers.push(worker)?;
    }
    Ok(workers)
}

// Tells what sites keep, and changes nothing.
pub(crate) fn stand<J: Journal, G: Gate>(sites: &Sites<'_, '_, J, G>)
    ensures { AreSites sites.now }
{
    let _nodes = &sites.nodes;
}

// The worker of a client that has no session yet.
fn seat<'s, 'd, 'g, J: Journal, G: Gate>(
    alloc: Global,
    sites: &'s Sites<'d, 'g, J, G>,
    roster: &mut Roster,
    client: &'s Client,
) -> Result<Worker<'s, 'd, 'g, J, G>, NoMemory>
    requires replica { client.now.replica < sites.now.desk.setup.replicas }
    requires number { client.now.client < CLIENTS }
    requires items { All (IsItemOf sites.now.desk.setup.replicas sites.now.desk.setup.conits client.now.replica) client.now.items }
    requires roster { (none : NodeView) → IsRosterOf (get_or sites.now.nodes client.now.replica none) roster.old }
    requires free { Contains roster.old.clients client.now.client → ⊥ }
    ensures client { IfOk result (λ worker. worker.client ≡ client.now) }
    ensures fresh { IfOk result (IsFresh sites.now) }
    ensures roster { OnOk result (roster.new ≡ record roster.old { clients = roster.old.clients ++ client.now.client ∷ [] }) }
    ensures same { roster.new ≡ record roster.old { clients = roster.new.clients } }
{
    let node = sites.node(client.replica);
    let mut session = session_of(node, roster, client.client)?;
    let allowances = nothing(alloc, node, &mut session, sites.conits())?;
    Ok(Worker {
        sites,
        node,
        client,
        session,
        allowances,
        end: None,
    })
}

// The session of a client that has none yet.
pub(crate) fn session_of<J: Journal, G: Gate>(
    node: &Node<'_, J, G>,
    roster: &mut Roster,
    client: u32,
) -> Result<Session, NoMemory>
    requires roster { IsRosterOf node.now roster.old }
    requires client { client < CLIENTS }
    requires free { Contains roster.old.clients client → ⊥ }
    ensures session { IfOk result (λ session. IsSessionOf node.now session × (session.client ≡ client)) }
    ensures fresh { IfOk result (λ session. (own_calls session ≡ []) × (session.made ≡ 0)) }
    ensures unmarked { IfOk result IsUnmarked }
    ensures roster { OnOk result (roster.new ≡ record roster.old { clients = roster.old.clients ++ client ∷ [] }) }
    ensures err { OnErr result (roster.new ≡ roster.old) }
{
    match node.session(roster, client) {
        Ok(session) => Ok(session),
        Err(SessionFault::NoMemory) => Err(NoMemory),
        Err(SessionFault::Taken { .. }) => unreachable!(),
    }
}

// An allowance of nothing for each conit.
fn nothing<J: Journal, G: Gate>(
    alloc: Global,
    node: &Node<'_, J, G>,
    session: &mut Session,
    conits: u32,
) -> Result<Vec<Allowance>, NoMemory>
    requires session { IsSessionOf node.now session.old }
    requires conits { conits ≡ node.now.desk.setup.conits }
    ensures session { session.new ≡ session.old }
    ensures holds { IfOk result (λ allowances. Holds node.now [] allowances.items) }
{
    let mut allowances = Vec::new(alloc);
    for conit in 0..conits {
        allowances.push(node.empty(session, conit))?;
    }
    Ok(allowances)
}

//! Four nodes, each with eight clients, in a thread of its own for each client.
ghost use Rattle.std.specs.Prelude.{◌≡◌, ◌+◌, ◌<◌, ◌≤◌, All};
ghost use Rattle.tact_base.specs.Setup.{Setup};
ghost use Rattle.run_model.specs.Ranges.{IsRequestInRange};
ghost use Rattle.locked_replica.specs.Locks.{IsWriteOrRead};
ghost use Rattle.replica_lock.specs.Rosters.{IsRosterOf};
ghost use Rattle.lock_tests.specs.Nodes.{IsOneOfFour};

use crate::boxes::Boxes;
use crate::client::{Client, HELD};
use crate::opened::{Four, node_of, open_four};
use crate::records::judged;
use link_faults::LinkPlan;
use replica_lock::{Node, Roster, Stored};
use run_check::Verdict;
use run_history::Desk;
use run_model::{Act, Config, Reply, Request};
use std::alloc::Global;
use std::process::Abort;
use std::sync::Wait;
use std::thread;
use std::thread::Threads;
use tact_base::{Need, Needs, Op, Weight, Weights};
use tact_io::{FreeGate, SureJournal};

const CLIENTS: u32 = 8;

const STEPS: u64 = 6;

// What becomes of the parcels for a replica.
const PLAN: LinkPlan = LinkPlan {
    lose: 5,
    double: 3,
    turn: 2,
};

// The request of a client's step with this number: writes and reads in turns.
fn request(rt: &impl Abort, client: u32, number: u64) -> Request
    requires client { client < 8 }
    requires number { number < 6 }
    ensures in_range { (setup : Setup) → 0 < setup.conits → IsRequestInRange setup result }
    ensures plain { IsWriteOrRead result }
{
    if number % 2 == 0 {
        write(rt, client, number)
    } else {
        read(rt, client)
    }
}

// A write of weight 1 that puts the number of the call under the client's key.
fn write(rt: &impl Abort, client: u32, number: u64) -> Request
    requires client { client < 8 }
    requires number { number < 6 }
    ensures in_range { (setup : Setup) → 0 < setup.conits → IsRequestInRange setup result }
    ensures plain { IsWriteOrRead result }
{
    let weight = Weight {
        conit: 0,
        nweight: 1,
        oweight: 1,
    };
    Request::Write {
        weights: Weights::new(&[weight]).expect(rt, "a weight"),
        op: Op::Put {
            key: u64::from(client),
            value: number as i64,
        },
    }
}

// A read of the client's key that may be off by 8, with 16 writes that have no order yet.
fn read(rt: &impl Abort, client: u32) -> Request
    requires { client < 8 }
    ensures in_range { (setup : Setup) → 0 < setup.conits → IsRequestInRange setup result }
    ensures plain { IsWriteOrRead result }
{
    let need = Need {
        conit: 0,
        num: 8,
        order: 16,
        stale: 100,
    };
    Request::Read {
        key: u64::from(client),
        needs: Needs::new(&[need]).expect(rt, "a need"),
    }
}

// One step: a call, a parcel to one of the other three replicas, and what comes first from there.
fn step<R: Wait + Abort>(
    rt: &R,
    desk: &Desk,
    boxes: &Boxes,
    client: &mut Client<'_, '_>,
    number: u64,
)
    requires client { IsOneOfFour desk.now client.old.node.now }
    requires boxes { boxes.now.desk ≡ desk.now.table }
    requires counts { (desk.now.setup.replicas ≡ 4) × (desk.now.setup.conits ≡ 1) }
    requires number { number < 6 }
    ensures { client.new.node.now ≡ client.old.node.now }
{
    let replica = client.replica();
    let to = (replica + 1 + number as u32 % 3) % 4;
    let mine = client.number();
    assert!(rt; mine < CLIENTS);
    client.ask(rt, number, request(rt, mine, number));
    let parcel = client.send(rt, to);
    boxes.of(to).put(rt, desk, parcel).expect(rt, "a put");
    if let Some(parcel) = boxes.of(replica).next(rt) {
        client.take(rt, parcel);
    }
}

// A client holds some, and then makes its steps.
fn work<R: Wait + Abort>(rt: &R, desk: &Desk, boxes: &Boxes, mut client: Client<'_, '_>)
    requires client { IsOneOfFour desk.now client.node.now }
    requires boxes { boxes.now.desk ≡ desk.now.table }
    requires counts { (desk.now.setup.replicas ≡ 4) × (desk.now.setup.conits ≡ 1) }
{
    client.hold(rt);
    for number in 0..STEPS {
        step(rt, desk, boxes, &mut client, number);
    }
}

// Each client works in a thread of its own.
fn work_all<R: Threads + Wait + Abort + Sync>(
    rt: &R,
    desk: &Desk,
    boxes: &Boxes,
    clients: Vec<Client<'_, '_>>,
)
    requires boxes { boxes.now.desk ≡ desk.now.table }
    requires counts { (desk.now.setup.replicas ≡ 4) × (desk.now.setup.conits ≡ 1) }
    requires clients { All (λ client. IsOneOfFour desk.now client.node.now) clients.items }
{
    let done = thread::map_vec(rt, clients, &|client| work(rt, desk, boxes, client));
    assert!(rt; done.is_ok(), "no memory");
}

// Gives eight clients of a node their sessions.
fn seat_eight<'n, 'd>(
    rt: &impl Abort,
    desk: &Desk,
    node: &'n Node<'d, SureJournal, FreeGate>,
    roster: &mut Roster,
    clients: &mut Vec<Client<'n, 'd>>,
)
    requires node { IsOneOfFour desk.now node.now }
    requires roster { IsRosterOf node.now roster.old }
    requires clients { All (λ client. IsOneOfFour desk.now client.node.now) clients.old.items }
    ensures roster { IsRosterOf node.now roster.new }
    ensures clients { All (λ client. IsOneOfFour desk.now client.node.now) clients.new.items }
{
    for client in 0..CLIENTS {
        let seated = Client::new(rt, node, roster, client);
        let pushed = clients.push(seated);
        assert!(rt; pushed.is_ok(), "no memory");
    }
}

// What four nodes stored.
#[derive(Drop)]
struct Ended {
    first: Stored,
    second: Stored,
    third: Stored,
    fourth: Stored,
}

// How many calls a client makes before its steps: what it reserves, and where that is granted a held write and a
// release.
fn calls_before(granted: bool) -> u64
    ensures { result ≤ 3 }
{
    if granted { 3 } else { 1 }
}

// The call of a client with this number, where it makes so many before its steps.
fn call_of(rt: &impl Abort, client: u32, number: u64, before: u64) -> Request
    requires client { client < 8 }
    requires number { number < before + 6 }
{
    if number < before {
        hold_call(number)
    } else {
        request(rt, client, number - before)
    }
}

// What a client asks before its steps.
fn hold_call(number: u64) -> Request {
    match number {
        0 => Request::Reserve {
            conit: 0,
            amount: 2,
        },
        1 => Request::Held {
            weight: HELD,
            op: Op::Add { key: 8, delta: 1 },
        },
        _ => Request::Release {
            conit: 0,
            amount: 1,
        },
    }
}

// How many calls each client made, and whether what it reserved was granted.
#[derive(Drop)]
struct Made {
    calls: [u64; 8],
    granted: [bool; 8],
}

// Of each client of a node the calls stand in the order in which it made them, each once, and no others.
// Gives how many they are.
fn calls_in_order(rt: &impl Abort, stored: &Stored) -> u64 {
    let mut made = Made {
        calls: [0; 8],
        granted: [false; 8],
    };
    for (_, entry) in stored.pairs() {
        if let Act::Call {
            client,
            number,
            request: asked,
            reply,
            ..
        } = &entry.act
        {
            assert!(rt; *client < CLIENTS);
            follows(rt, &mut made, *client, *number, asked, reply);
        }
    }
    all_made(rt, &made)
}

// The call of a client with this number follows those that it made.
fn follows(
    rt: &impl Abort,
    made: &mut Made,
    client: u32,
    number: u64,
    asked: &Request,
    reply: &Reply,
)
    requires { client < 8 }
{
    let place = client as usize;
    if matches!(reply, Reply::Granted) {
        made.granted[place] = true;
    }
    let before = calls_before(made.granted[place]);
    assert!(rt; number < before + STEPS && made.calls[place] == number);
    assert_eq!(rt; *asked, call_of(rt, client, number, before));
    made.calls[place] = number + 1;
}

// Each client made all its calls. Gives how many they are.
fn all_made(rt: &impl Abort, made: &Made) -> u64 {
    let mut count: u64 = 0;
    for place in 0..8 {
        assert_eq!(rt;
            made.calls[place],
            calls_before(made.granted[place]) + STEPS
        );
        count = count.saturating_add(made.calls[place]);
    }
    count
}

// All that was stored is the record of a run with so many calls.
fn is_lawful(rt: &impl Abort, alloc: Global, config: &Config, ended: &Ended, calls: u64) {
    let stored = [&ended.first, &ended.second, &ended.third, &ended.fourth];
    let Verdict::Run(summary) = judged(rt, alloc, config, &stored) else {
        panic!(rt; "it isn't the record of a run")
    };
    assert_eq!(rt; (summary.calls, summary.sends), (calls, 192));
    assert!(rt; 0 < summary.takes && 0 < summary.writes);
    let others = summary.takes.saturating_add(192);
    assert_eq!(rt; calls.saturating_add(others), summary.entries);
}

#[test]
fn four_nodes_with_eight_clients_each(rt: HostRuntime) {
    let Four {
        desk,
        config,
        mut first,
        second,
        third,
        fourth,
    } = open_four(&rt, rt.alloc());
    let (boxes, keys) = Boxes::new(&rt, rt.alloc(), &desk, PLAN, first.note(&desk));
    let (one, mut one_roster) = node_of(&rt, rt.alloc(), &desk, &config, first);
    let (two, mut two_roster) = node_of(&rt, rt.alloc(), &desk, &config, second);
    let (three, mut three_roster) = node_of(&rt, rt.alloc(), &desk, &config, third);
    let (four, mut four_roster) = node_of(&rt, rt.alloc(), &desk, &config, fourth);
    let mut clients = Vec::new(rt.alloc());
    seat_eight(&rt, &desk, &one, &mut one_roster, &mut clients);
    seat_eight(&rt, &desk, &two, &mut two_roster, &mut clients);
    seat_eight(&rt, &desk, &three, &mut three_roster, &mut clients);
    seat_eight(&rt, &desk, &four, &mut four_roster, &mut clients);
    work_all(&rt, &desk, &boxes, clients);
    let counts = boxes.end(&rt, keys);
    let ended = Ended {
        first: one.end(&rt, one_roster).stored,
        second: two.end(&rt, two_roster).stored,
        third: three.end(&rt, three_roster).stored,
        fourth: four.end(&rt, four_roster).stored,
    };
    let mut calls: u64 = 0;
    for stored in [&ended.first, &ended.second, &ended.third, &ended.fourth] {
        calls = calls.saturating_add(calls_in_order(&rt, stored));
    }
    assert!(rt; 232 <= calls, "at least one amount is granted at each node");
    for counts in counts {
        assert_eq!(rt; (counts.puts, counts.lost), (48, 9));
    }
    is_lawful(&rt, rt.alloc(), &config, &ended, calls);
}

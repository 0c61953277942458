//! Workloads, and what they say.

use crate::faults::fault_of;
use link_faults::LinkPlan;
use run_model::LoadKind;
use std::alloc::Global;
use std::process::Abort;
use tact_base::{Bytes, Need, Needs, Op, Weight, Weights};
use work_load::{Client, Item, LoadFault, Plan, parse_plan};

const WORKLOAD: &[u8] = b"{\"replicas\":3,\"conits\":1,\n\
    \"bounds\":[[0,0,200,[0,100,100]],[1,0,200,[100,0,100]],[2,0,200,[100,100,0]]],\n\
    \"links\":[[0,5,7,0],[1,5,7,0],[2,5,7,3]],\"settle\":4,\n\
    \"clients\":[\n\
    [0,0,[[\"write\",[\"add\",1,1],[[0,1,1]]],[\"write\",[\"add\",1,1],[[0,1,1]]],[\"read\",1,[[0,200,50,1000000]]]]],\n\
    [0,1,[[\"reserve\",0,5],[\"held\",[\"add\",2,1],[0,5,1]],[\"release\",0]]],\n\
    [1,0,[[\"write\",[\"shift\",1,2,1],[[0,-1,1]]],[\"lend\",0,0,0],[\"read\",2,[[0,200,50,1000000]]]]],\n\
    [2,0,[[\"write\",[\"put\",9,4],[[0,2,1]]],[\"back\",0,0,10],[\"read\",9,[]]]]]}";

const TALLY: Weight = Weight {
    conit: 0,
    nweight: 1,
    oweight: 1,
};

const BACK: Weight = Weight {
    conit: 0,
    nweight: -1,
    oweight: 1,
};

const TWO: Weight = Weight {
    conit: 0,
    nweight: 2,
    oweight: 1,
};

const FIVE: Weight = Weight {
    conit: 0,
    nweight: 5,
    oweight: 1,
};

const WITHIN: Need = Need {
    conit: 0,
    num: 200,
    order: 50,
    stale: 1_000_000,
};

// A write of one weight, and a read with one need.
fn write(rt: &impl Abort, op: Op, weight: Weight) -> Item {
    let weights = Weights::new(&[weight]).expect(rt, "a weight");
    Item::Write { weights, op }
}

fn read(rt: &impl Abort, key: u64) -> Item {
    let needs = Needs::new(&[WITHIN]).expect(rt, "a need");
    Item::Read { key, needs }
}

fn plan(rt: &impl Abort, alloc: Global, text: &[u8]) -> Plan {
    parse_plan(alloc, text).expect(rt, "a workload")
}

// The bounds of a run, and what is lent at its opening.
fn assert_setup(rt: &impl Abort, plan: &Plan, alphas: &[u64], loans: &[u64]) {
    assert!(rt; plan.config().alphas() == alphas);
    assert!(rt; plan.config().opening_loans() == loans);
}

// How many replicas and conits a run has, and how many rounds settle it.
fn counts(plan: &Plan) -> (u32, u32, u64) {
    (
        plan.config().replicas(),
        plan.config().conits(),
        plan.settle(),
    )
}

static SHARED: [u64; 3] = [200; 3];

static LENT: [u64; 9] = [0, 100, 100, 100, 0, 100, 100, 100, 0];

static LINKS: [LinkPlan; 3] = [
    LinkPlan {
        lose: 5,
        double: 7,
        turn: 0,
    },
    LinkPlan {
        lose: 5,
        double: 7,
        turn: 0,
    },
    LinkPlan {
        lose: 5,
        double: 7,
        turn: 3,
    },
];

// The links are these, one to each replica.
fn assert_links(rt: &impl Abort, plan: &Plan, links: &[LinkPlan]) {
    for to in 0..plan.config().replicas() {
        let link = plan.link(to);
        assert!(rt; links.get(to as usize) == Some(&link));
    }
}

#[test]
fn a_run_and_its_links(rt: HostRuntime) {
    let plan = plan(&rt, rt.alloc(), WORKLOAD);
    assert_eq!(rt; counts(&plan), (3, 1, 4));
    assert_setup(&rt, &plan, &SHARED, &LENT);
    assert_links(&rt, &plan, &LINKS);
}

fn first_items(rt: &impl Abort) -> [Item; 3] {
    let add = Op::Add { key: 1, delta: 1 };
    [write(rt, add, TALLY), write(rt, add, TALLY), read(rt, 1)]
}

fn second_items() -> [Item; 3] {
    let reserve = Item::Reserve {
        conit: 0,
        amount: 5,
    };
    let held = Item::Held {
        weight: FIVE,
        op: Op::Add { key: 2, delta: 1 },
    };
    [reserve, held, Item::Release { conit: 0 }]
}

fn third_items(rt: &impl Abort) -> [Item; 3] {
    let shift = Op::Shift {
        from: 1,
        to: 2,
        amount: 1,
    };
    let lend = Item::Lend {
        holder: 0,
        conit: 0,
        amount: 0,
    };
    [write(rt, shift, BACK), lend, read(rt, 2)]
}

fn last_items(rt: &impl Abort) -> [Item; 3] {
    let back = Item::Back {
        owner: 0,
        conit: 0,
        amount: 10,
    };
    let needs = Needs::new(&[]).expect(rt, "no needs");
    let put = write(rt, Op::Put { key: 9, value: 4 }, TWO);
    [put, back, Item::Read { key: 9, needs }]
}

// A client, by its place, is this one of a replica, and has these items.
fn assert_client(
    rt: &impl Abort,
    clients: &[Client],
    place: usize,
    due: (u32, u32),
    items: [Item; 3],
) {
    assert!(rt; place < clients.len());
    let client = &clients[place];
    assert_eq!(rt; (client.replica, client.client), due);
    assert!(rt; client.items.items() == items.as_slice());
}

#[test]
fn clients_and_their_items(rt: HostRuntime) {
    let plan = plan(&rt, rt.alloc(), WORKLOAD);
    assert_clients(&rt, plan.clients());
}

fn assert_clients(rt: &impl Abort, clients: &[Client]) {
    assert_eq!(rt; clients.len(), 4);
    assert_client(rt, clients, 0, (0, 0), first_items(rt));
    assert_client(rt, clients, 1, (0, 1), second_items());
    assert_client(rt, clients, 2, (1, 0), third_items(rt));
    assert_client(rt, clients, 3, (2, 0), last_items(rt));
}

fn assert_usual(rt: &impl Abort, plan: &Plan) {
    assert!(rt; plan.config().alphas() == [1_000_000; 128].as_slice());
    assert_usual_loans(rt, plan.config().opening_loans());
}

// What is lent where nothing is said of it, among eight replicas with sixteen conits.
fn assert_usual_loans(rt: &impl Abort, loans: &[u64]) {
    assert_eq!(rt; loans.len(), 1_024);
    for (place, loan) in loans.iter().enumerate() {
        let due = if place / 128 == place % 8 { 0 } else { 100_000 };
        assert!(rt; *loan == due, "{place}");
    }
}

#[test]
fn a_restart(rt: HostRuntime) {
    let text = b"{\"replicas\":2,\"conits\":1,\"clients\":[[1,3,[[\"restart\"]]]]}";
    let plan = plan(&rt, rt.alloc(), text);
    assert_eq!(rt; plan.clients().len(), 1);
    assert!(rt; plan.clients()[0].items.items() == [Item::Restart].as_slice());
}

#[test]
fn what_no_name_says(rt: HostRuntime) {
    let text = b"{\"clients\":[[7,7,[]]],\"replicas\":8,\"conits\":16}";
    let plan = plan(&rt, rt.alloc(), text);
    assert_eq!(rt; counts(&plan), (8, 16, 0));
    assert_usual(&rt, &plan);
    assert_links(&rt, &plan, &[LinkPlan::default(); 8]);
}

static ALPHAS: [u64; 6] = [
    1_000_000,
    1_000_000_000_000,
    1_000_000,
    1_000_000,
    1_000_000,
    5,
];

static LOANS: [u64; 12] = [0, 100_000, 0, 0, 0, 100_000, 100_000, 0, 100_000, 0, 4, 0];

static TWO_LINKS: [LinkPlan; 2] = [
    LinkPlan {
        lose: 0,
        double: 0,
        turn: 0,
    },
    LinkPlan {
        lose: 0,
        double: 2,
        turn: 0,
    },
];

#[test]
fn bounds_among_others(rt: HostRuntime) {
    let text = b" {\"replicas\":9, \"replicas\":2,\"conits\":3,\"links\":[[1,0,2,0]],\n\
        \"bounds\":[[1,2,5,[4,0]],[0,1,1000000000000,[0,0]]],\"clients\":[[1,0,[]]] }\n";
    let plan = plan(&rt, rt.alloc(), text);
    assert_setup(&rt, &plan, &ALPHAS, &LOANS);
    assert_links(&rt, &plan, &TWO_LINKS);
}

const RELEASES: &[u8] = b"{\"replicas\":2,\"conits\":1,\"clients\":[[0,0,[";

// A client of so many items.
fn with_items(rt: &impl Abort, alloc: Global, count: usize) -> Bytes {
    let mut text = Bytes::from_slice(alloc, RELEASES).expect(rt, "the front");
    for place in 0..count {
        if place > 0 {
            text.push(b',').expect(rt, "room for a comma");
        }
        text.append(b"[\"release\",0]")
            .expect(rt, "room for an item");
    }
    text
}

// Why a client of so many items is none, if it isn't.
fn fault_with(rt: &impl Abort, alloc: Global, count: usize) -> Option<LoadFault> {
    let text = with_items(rt, alloc, count);
    fault_of(rt, alloc, text.items(), b"]]]", b"}")
}

#[test]
fn a_thousand_items(rt: HostRuntime) {
    let bad = LoadFault::Bad {
        place: 1,
        kind: LoadKind::Shape,
    };
    assert_eq!(rt; fault_with(&rt, rt.alloc(), 1_000), None);
    assert_eq!(rt; fault_with(&rt, rt.alloc(), 1_001), Some(bad));
}

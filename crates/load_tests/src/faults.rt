//! Inputs that are no workloads: the first fault and its place.

use run_model::LoadKind;
use std::alloc::Global;
use std::process::Abort;
use tact_base::Bytes;
use work_load::{LoadFault, parse_plan};

// A workload of three replicas and two conits to which a name can be added, and the beginning of one that ends with an
// item of a client.
const NAMES: &[u8] = b"{\"replicas\":3,\"conits\":2,\"clients\":[[0,0,[]]],";

const FRONT: &[u8] = b"{\"replicas\":2,\"conits\":3,\"clients\":[[0,1,[]],[1,0,[[\"release\",0],";

// Lists in lists, deeper than a reader of JSON follows, and none has an end.
const DEEP: [u8; 200] = [b'['; 200];

const CLIENTS: &[u8] = b"{\"replicas\":2,\"conits\":1,\"clients\":[";

// Why a text, in three parts, is no workload.
pub(crate) fn fault_of(
    rt: &impl Abort,
    alloc: Global,
    front: &[u8],
    middle: &[u8],
    end: &[u8],
) -> Option<LoadFault> {
    let text = joined(rt, alloc, front, middle, end);
    parse_plan(alloc, text.items()).err()
}

fn joined(rt: &impl Abort, alloc: Global, front: &[u8], middle: &[u8], end: &[u8]) -> Bytes {
    let mut text = Bytes::from_slice(alloc, front).expect(rt, "the front");
    text.append(middle).expect(rt, "room for the middle");
    text.append(end).expect(rt, "room for the end");
    text
}

// The first fault of a text, in three parts, has this place and is of this kind.
fn assert_bad(
    rt: &(impl Abort + AllocGlobal),
    front: &[u8],
    middle: &[u8],
    end: &[u8],
    place: u64,
    kind: LoadKind,
) {
    let fault = fault_of(rt, rt.alloc(), front, middle, end);
    assert_eq!(rt; fault, Some(LoadFault::Bad { place, kind }));
}

#[rattlefmt::skip]
static TEXTS: [(&[u8], LoadKind); 20] = [
    (b"", LoadKind::NotJson),
    (&DEEP, LoadKind::NotJson),
    (b"{\"replicas\":2,", LoadKind::NotJson),
    (b"{} 0", LoadKind::NotJson),
    (b"\"\xff\"", LoadKind::NotJson),
    (b"[]", LoadKind::Shape),
    (b"{\"replicas\":99,\"more\":0}", LoadKind::Shape),
    (b"{\"replicas\":3,\"conits\":1,\"clients\":[],\"x\":1}", LoadKind::Shape),
    (b"{}", LoadKind::Shape),
    (b"{\"replicas\":2}", LoadKind::Shape),
    (b"{\"replicas\":2.0,\"conits\":0}", LoadKind::Shape),
    (b"{\"replicas\":1,\"conits\":\"\"}", LoadKind::Range),
    (b"{\"replicas\":9}", LoadKind::Range),
    (b"{\"replicas\":-1}", LoadKind::Range),
    (b"{\"replicas\":18446744073709551616}", LoadKind::Shape),
    (b"{\"replicas\":2,\"conits\":17}", LoadKind::Range),
    (b"{\"replicas\":2,\"conits\":0}", LoadKind::Range),
    (b"{\"replicas\":2,\"conits\":1,\"bounds\":[],\"links\":[]}", LoadKind::Shape),
    (b"{\"replicas\":2,\"conits\":1,\"clients\":{}}", LoadKind::Shape),
    (b"{\"replicas\":2,\"conits\":1,\"clients\":[]}", LoadKind::Shape),
];

#[test]
fn whole_texts(rt: HostRuntime) {
    for &(text, kind) in &TEXTS {
        assert_bad(&rt, text, b"", b"", 0, kind);
    }
}

#[rattlefmt::skip]
static SETTINGS: [(&[u8], LoadKind); 24] = [
    (b"\"bounds\":null", LoadKind::Shape),
    (b"\"bounds\":[[3,0,9,[0,0]]]", LoadKind::Shape),
    (b"\"bounds\":[[3,0,9,[0,0,0],0]]", LoadKind::Shape),
    (b"\"bounds\":[[3,2,9,[0,0,0.5]]]", LoadKind::Shape),
    (b"\"bounds\":[[3,0,9,[0,0,0]]]", LoadKind::Range),
    (b"\"bounds\":[[0,2,9,[0,0,0]]]", LoadKind::Range),
    (b"\"bounds\":[[0,0,1000000000001,[0,0,0]]]", LoadKind::Range),
    (b"\"bounds\":[[0,0,9,[0,-1,0]]]", LoadKind::Range),
    (b"\"bounds\":[[1,0,9,[0,1,0]]]", LoadKind::Range),
    (b"\"bounds\":[[1,0,9,[5,0,5]]]", LoadKind::LoansOver),
    (b"\"bounds\":[[1,0,9,[5,0,4]],[1,0,9,[9,0,9]]]", LoadKind::Twice),
    (b"\"bounds\":[[1,0,9,[5,0,5]],[1,0,9]]", LoadKind::LoansOver),
    (b"\"links\":0,\"settle\":101", LoadKind::Shape),
    (b"\"links\":[[0,0,0]]", LoadKind::Shape),
    (b"\"links\":[[3,0,0,\"0\"]]", LoadKind::Shape),
    (b"\"links\":[[3,0,0,0]]", LoadKind::Range),
    (b"\"links\":[[2,1000001,0,0]]", LoadKind::Range),
    (b"\"links\":[[2,0,1000001,0]]", LoadKind::Range),
    (b"\"links\":[[2,0,0,-9223372036854775808]]", LoadKind::Range),
    (b"\"links\":[[2,1,2,3],[2,0,0,0]]", LoadKind::Twice),
    (b"\"links\":[[2,1,2,3],[2,0,0,1000001]]", LoadKind::Range),
    (b"\"settle\":[]", LoadKind::Shape),
    (b"\"settle\":101", LoadKind::Range),
    (b"\"settle\":-0", LoadKind::Shape),
];

#[test]
fn bounds_links_and_rounds(rt: HostRuntime) {
    for &(name, kind) in &SETTINGS {
        assert_bad(&rt, NAMES, name, b"}", 0, kind);
    }
}

#[rattlefmt::skip]
static CLIENT_LISTS: [(&[u8], u64, LoadKind); 12] = [
    (b"0", 1, LoadKind::Shape),
    (b"[0,0]", 1, LoadKind::Shape),
    (b"[2,0,{}]", 1, LoadKind::Shape),
    (b"[0,0,[]],[0,[],[]]", 2, LoadKind::Shape),
    (b"[2,0,[]]", 1, LoadKind::Range),
    (b"[0,8,[0]]", 1, LoadKind::Range),
    (b"[0,0,[]],[0,0,[]]", 2, LoadKind::Twice),
    (b"[0,0,[]],[1,0,[]],[0,0,[0]]", 3, LoadKind::Twice),
    (b"[0,0,[0]],[0,0,[]]", 1, LoadKind::Shape),
    (b"[0,0,[[\"restart\"],[]]]", 1, LoadKind::Shape),
    (b"[0,0,[]],[0,1,[[\"lend\",0,0,1]]]", 2, LoadKind::Same),
    (b"[0,7,[]],[1,7,[[\"lend\",0,0,1],[\"back\",1,0,1]]]", 2, LoadKind::Same),
];

#[test]
fn clients(rt: HostRuntime) {
    for &(list, place, kind) in &CLIENT_LISTS {
        assert_bad(&rt, CLIENTS, list, b"]}", place, kind);
    }
}

#[rattlefmt::skip]
static ITEMS: [(&[u8], LoadKind); 39] = [
    (b"0", LoadKind::Shape),
    (b"[]", LoadKind::Shape),
    (b"[0]", LoadKind::Shape),
    (b"[\"writes\",[\"put\",1,1],[]]", LoadKind::Shape),
    (b"[\"write\",[\"put\",1,1]]", LoadKind::Shape),
    (b"[\"write\",[\"get\",1,1],[]]", LoadKind::Shape),
    (b"[\"write\",[\"put\",1],[]]", LoadKind::Shape),
    (b"[\"write\",[\"put\",-1,1],[[3,0]]]", LoadKind::Shape),
    (b"[\"write\",[\"put\",-1,1],[[1,0,0],[0,0,0]]]", LoadKind::Range),
    (b"[\"write\",[\"put\",1,1000000000000001],[]]", LoadKind::Range),
    (b"[\"write\",[\"add\",1,-1000000000000001],[]]", LoadKind::Range),
    (b"[\"write\",[\"add\",1,18446744073709551615],[]]", LoadKind::Range),
    (b"[\"write\",[\"shift\",1,2],[]]", LoadKind::Shape),
    (b"[\"write\",[\"shift\",1,1000000001,0],[]]", LoadKind::Range),
    (b"[\"write\",[\"shift\",1,1,-1],[]]", LoadKind::Range),
    (b"[\"write\",[\"put\",1,1],[[3,0,0]]]", LoadKind::Range),
    (b"[\"write\",[\"put\",1,1],[[0,-1000001,0]]]", LoadKind::Range),
    (b"[\"write\",[\"put\",1,1],[[0,0,1000001]]]", LoadKind::Range),
    (b"[\"write\",[\"put\",1,1],[[1,0,0],[1,0,0]]]", LoadKind::Unordered),
    (b"[\"write\",[\"put\",1,1],[[0,0,0],[1,0,0],[2,0,0],[2,0,0],[9]]]", LoadKind::Shape),
    (b"[\"held\",[\"put\",1,1],[[0,0,0]]]", LoadKind::Shape),
    (b"[\"held\",[\"put\",1,1],[0,0]]", LoadKind::Shape),
    (b"[\"held\",[\"put\",1,1],[3,0,0]]", LoadKind::Range),
    (b"[\"reserve\",0]", LoadKind::Shape),
    (b"[\"reserve\",3,1]", LoadKind::Range),
    (b"[\"reserve\",0,1000000000001]", LoadKind::Range),
    (b"[\"release\",0,0]", LoadKind::Shape),
    (b"[\"release\",3]", LoadKind::Range),
    (b"[\"read\",1]", LoadKind::Shape),
    (b"[\"read\",1000000001,[]]", LoadKind::Range),
    (b"[\"read\",1,[[0,0,0]]]", LoadKind::Shape),
    (b"[\"read\",1,[[0,0,0,1152921504606846977]]]", LoadKind::Range),
    (b"[\"read\",1,[[2,0,0,0],[0,0,0,0]]]", LoadKind::Unordered),
    (b"[\"lend\",0,0]", LoadKind::Shape),
    (b"[\"lend\",2,0,1]", LoadKind::Range),
    (b"[\"lend\",1,0,1000000000001]", LoadKind::Range),
    (b"[\"lend\",1,0,1]", LoadKind::Same),
    (b"[\"back\",1,3,1]", LoadKind::Range),
    (b"[\"restart\",0]", LoadKind::Shape),
];

#[test]
fn items(rt: HostRuntime) {
    for &(item, kind) in &ITEMS {
        assert_bad(&rt, FRONT, item, b"]]]}", 2, kind);
    }
}

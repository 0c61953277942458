//! A node that makes as many entries as it may.

use crate::lone_client::LoneClient;
use crate::opened::{Opened, open_two};
use replica_lock::NodeFault;
use std::process::Abort;
use std::sync::Wait;

const READS: u64 = 19_999;

// Reads many times, and is told a value each time.
fn read_often<R: Wait + Abort>(rt: &R, client: &mut LoneClient<'_>) {
    for _ in 0..READS {
        client.value(rt);
    }
}

// How many entries the node has, which is full.
fn count_of_full<R: Wait + Abort>(rt: &R, client: &mut LoneClient<'_>) -> u64 {
    match client.read(rt) {
        Err(NodeFault::Full { count, .. }) => count,
        _ => panic!(rt; "it isn't full"),
    }
}

#[test]
fn a_node_is_full_after_20_000_reads(rt: HostRuntime) {
    let Opened {
        desk,
        config,
        first,
        second: _,
    } = open_two(&rt, rt.alloc());
    let mut client = LoneClient::new(&rt, rt.alloc(), &desk, &config, first);
    read_often(&rt, &mut client);
    let value = client.value(&rt);
    let count = count_of_full(&rt, &mut client);
    let ended = client.finish(&rt, rt.alloc());
    assert_eq!(rt; value, 0);
    assert_eq!(rt; count, 20_000);
    assert_eq!(rt; ended.stored.pairs().len(), 20_000);
}

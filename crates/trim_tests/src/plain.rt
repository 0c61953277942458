//! What a member has to tell, from a list of all writes by plain functions: each from scratch, over whole lists.

use crate::member::Member;
use conit_weights::net;
use order_bound::tentative;
use rollback_apply::value_after;
use std::alloc::Global;
use std::process::Abort;
use tact_base::{Op, Write};

/// The writes that it has, in order.
pub(crate) fn seen(rt: &impl Abort, alloc: Global, member: &Member, all: &[Write]) -> Vec<Write> {
    let mut seen = Vec::new(alloc);
    for write in all {
        if has(member, write) {
            seen.push(copy_of(rt, write)).expect(rt, "room for a write");
        }
    }
    seen.sort_unstable_by_key(|write| write.place());
    seen
}

fn copy_of(rt: &impl Abort, write: &Write) -> Write {
    write.clone().expect(rt, "a copy")
}

fn has(member: &Member, write: &Write) -> bool {
    write.origin < member.count && write.index < member.replica.have(write.origin)
}

/// How many of the writes that it has stand up to the least stamp of its covers.
pub(crate) fn committed_count(member: &Member, seen: &[Write]) -> usize {
    let point = least_stamp(member);
    let mut count: usize = 0;
    for write in seen {
        if write.stamp <= point {
            count = count.saturating_add(1);
        }
    }
    count
}

fn least_stamp(member: &Member) -> u64 {
    let mut least = u64::MAX;
    for origin in 0..member.count {
        least = least.min(member.replica.cover(origin).stamp);
    }
    least
}

/// How many of the committed writes stand before the first that some replica isn't known to have.
pub(crate) fn dropped(member: &Member, committed: &[Write]) -> u64 {
    let mut count: u64 = 0;
    for write in committed {
        if !is_known_by_all(member, write) {
            return count;
        }
        count = count.saturating_add(1);
    }
    count
}

fn is_known_by_all(member: &Member, write: &Write) -> bool {
    for peer in 0..member.count {
        if peer != member.number && peer != write.origin && !is_known_by(member, peer, write) {
            return false;
        }
    }
    true
}

fn is_known_by(member: &Member, peer: u32, write: &Write) -> bool {
    peer < member.count
        && write.origin < member.count
        && write.index < member.replica.known(peer, write.origin)
}

/// What it tells of order: committed writes but for those that are given up, the others, and the counts.
pub(crate) fn assert_order(rt: &impl Abort, member: &Member, seen: &[Write], count: usize) {
    let replica = &member.replica;
    let dropped = replica.dropped() as usize;
    assert!(rt; dropped <= count && count <= seen.len());
    assert_eq!(rt; replica.committed_count(), count as u64);
    assert_eq!(rt; replica.committed(), &seen[dropped..count]);
    assert_eq!(rt; replica.tentative(), &seen[count..]);
}

/// What it tells of conits: the value of each, and how much the tentative writes weigh on it.
pub(crate) fn assert_sums(rt: &impl Abort, member: &Member, seen: &[Write], late: &[Write]) {
    assert!(rt; seen.len() <= 1000 && late.len() <= 1000);
    for conit in 0..2 {
        assert_eq!(rt; member.replica.value(conit), net(seen, conit));
        assert_eq!(rt;
            member.replica.tentative_weight(conit),
            tentative(late, conit)
        );
    }
}

/// What it tells of keys.
pub(crate) fn assert_keys(rt: &impl Abort, alloc: Global, member: &Member, seen: &[Write]) {
    let ops = ops_of(rt, alloc, seen);
    for key in 0..4 {
        let value = value_after(alloc, &ops, key).expect(rt, "a value");
        assert_eq!(rt; member.replica.get(key), value);
    }
}

fn ops_of(rt: &impl Abort, alloc: Global, seen: &[Write]) -> Vec<Op> {
    let mut ops = Vec::new(alloc);
    for write in seen {
        ops.push(write.op).expect(rt, "room for an op");
    }
    ops
}

//! The errors of a replica, by the book.

ghost use Rattle.std.specs.Prelude.{◌≡◌, ◌≤◌, ◌<◌, length};
ghost use Rattle.tact_base.specs.declared.limits.TheConstants.{MOMENT_MAX};
ghost use Rattle.replica_core.specs.Stands.{IsSameReplica};
ghost use Rattle.book_tests.specs.Groups.{IsBookOfTwo, IsOfTwo};

use crate::writes::{accept_of_one, accept_of_zero, config_of_two, fresh_book, write};
use reference_book::{Book, Errors};
use replica_core::Replica;
use run_model::Request;
use std::alloc::Global;
use std::process::Abort;
use tact_base::{Op, Weight, Weights};

// What a write of an amount does.
fn op_of(amount: i8) -> Op {
    Op::Add {
        key: 7,
        delta: i64::from(amount),
    }
}

// Client 0 adds an amount to key 7, which weighs as much on conit 0, and 1 in the order.
fn add(rt: &impl Abort, replica: &mut Replica, moment: u64, amount: i8)
    requires moment { moment ≤ MOMENT_MAX }
    requires conits { 0 < replica.old.core.setup.conits }
    ensures { IsSameReplica replica.old.core replica.new.core }
{
    let weight = Weight {
        conit: 0,
        nweight: i64::from(amount),
        oweight: 1,
    };
    let request = Request::Write {
        weights: Weights::new(&[weight]).expect(rt, "a weight"),
        op: Op::Add {
            key: 7,
            delta: i64::from(amount),
        },
    };
    replica.call(moment, 0, &request).expect(rt, "an answer");
}

fn assert_errors(rt: &impl Abort, book: &Book, view: &Replica, moment: u64, errors: (u64, u64, u64))
    requires conits { view.now.core.setup.conits ≡ book.now.conits }
    requires replicas { view.now.core.setup.replicas ≡ length book.now.logs }
    requires conit { 0 < book.now.conits }
{
    let (num, order, age) = errors;
    assert_eq!(rt; book.errors(view, moment, 0), Errors { num, order, age });
}

// Replica 0 adds 4, and replica 1, of which it hears nothing, adds 5 and takes it back.
fn measure(rt: &impl Abort, book: &mut Book, zero: &mut Replica)
    requires book { IsBookOfTwo book.old 0 0 }
    requires zero { IsOfTwo zero.old.core 0 }
{
    add(rt, zero, 2, 4);
    assert_errors(rt, book, zero, 10, (4, 1, 0));
    accept_of_zero(rt, book, &write(rt, 0, 0, 1, 2, 4, op_of(4)));
    assert_errors(rt, book, zero, 10, (0, 1, 0));
    accept_of_one(rt, book, &write(rt, 1, 0, 1, 3, 5, op_of(5)));
    assert_errors(rt, book, zero, 10, (5, 1, 7));
    assert_errors(rt, book, zero, 2, (5, 1, 0));
    accept_of_one(rt, book, &write(rt, 1, 1, 2, 6, -5, op_of(-5)));
    assert_errors(rt, book, zero, 10, (0, 1, 7));
}

fn fresh_zero(rt: &impl Abort, alloc: Global) -> Replica
    ensures { IsOfTwo result.core 0 }
{
    let config = config_of_two(rt, alloc);
    Replica::new(alloc, &config, 0).expect(rt, "a replica")
}

#[test]
fn measures_by_all_accepted_writes(rt: HostRuntime) {
    let mut book = fresh_book(&rt, rt.alloc());
    let mut zero = fresh_zero(&rt, rt.alloc());
    measure(&rt, &mut book, &mut zero);
}

//! Sales and cancellations at one replica.

ghost use Rattle.std.specs.Prelude.{◌≡◌};

use replica_core::{CoreFault, Replica};
use run_model::Config;
use seat_app::{Sale, Seats};
use std::alloc::Global;
use std::process::Abort;

/// Replica 0 of two, which has 4 of 10 out at its peer.
#[derive(Drop)]
struct Counter {
    replica: Replica,
    ghost conits: { replica.core.setup.conits ≡ 1 },
}

impl Counter {
    fn new(rt: &impl Abort, alloc: Global) -> Box<Counter> {
        let config = Config::new(alloc, 2, 1, &[10; 2], &[0, 4, 10, 0]).expect(rt, "a setup");
        let counter = Counter {
            replica: Replica::new(alloc, &config, 0).expect(rt, "a replica"),
        };
        Box::new(alloc, counter).expect(rt, "a counter")
    }

    fn sell(&mut self, rt: &impl Abort, amount: u64) -> Sale {
        assert!(rt; 1 <= amount);
        assert!(rt; amount <= 10);
        let sale = Seats::new(0, 10).sell(&mut self.replica, 5, 3, 7, amount);
        sale.expect(rt, "a sale")
    }

    fn cancel(&mut self, rt: &impl Abort, amount: u64) -> Sale {
        assert!(rt; 1 <= amount);
        assert!(rt; amount <= 10);
        let sale = Seats::new(0, 10).cancel(&mut self.replica, 5, 3, 7, amount);
        sale.expect(rt, "a sale")
    }

    /// It answers that it is full, whatever is asked.
    fn assert_full(&mut self, rt: &impl Abort) {
        let full = CoreFault::Full {
            count: 20_000,
            clock: 0,
        };
        let seats = Seats::new(0, 10);
        let sold = seats.sell(&mut self.replica, 5, 3, 7, 10);
        assert_eq!(rt; sold, Err(full));
        let cancelled = seats.cancel(&mut self.replica, 5, 3, 7, 10);
        assert_eq!(rt; cancelled, Err(full));
    }

    /// It begins anew, as often as it may.
    fn fill(&mut self, rt: &impl Abort) {
        for _ in 0..20_000 {
            self.replica.restart(0).expect(rt, "a restart");
        }
    }
}

fn assert_sale(rt: &impl Abort, sale: &Sale, said: Sale) {
    assert_eq!(rt; sale, &said);
}

fn accepted(index: u64, stamp: u64) -> Sale {
    Sale::Accepted { index, stamp }
}

// Sells no more than the capacity.
fn sell_up(rt: &impl Abort, counter: &mut Counter) {
    let over = Sale::Over {
        value: 0,
        out: 4,
        amount: 7,
        capacity: 10,
    };
    assert_sale(rt, &counter.sell(rt, 7), over);
    assert_sale(rt, &counter.sell(rt, 6), accepted(0, 1));
}

// Cancels no more than was sold.
fn cancel_down(rt: &impl Abort, counter: &mut Counter) {
    let under = Sale::Under {
        value: 6,
        out: 4,
        amount: 3,
    };
    assert_sale(rt, &counter.cancel(rt, 3), under);
    assert_sale(rt, &counter.cancel(rt, 2), accepted(1, 2));
}

#[test]
fn sells_up_to_the_capacity_and_cancels_down_to_none(rt: HostRuntime) {
    let mut counter = Counter::new(&rt, rt.alloc());
    sell_up(&rt, &mut counter);
    cancel_down(&rt, &mut counter);
    assert_eq!(rt; counter.replica.get(7), 4);
    assert_eq!(rt; counter.replica.count(), 2);
}

#[test]
fn takes_no_memory_where_it_was_reserved(rt: HostRuntime) {
    let mut counter = Counter::new(&rt, rt.alloc());
    counter.replica.reserve(1).expect(&rt, "room");
    assert_sale(&rt, &counter.sell(&rt, 1), accepted(0, 1));
    assert_eq!(rt; counter.replica.spare(), 0);
}

#[test]
fn is_full_before_it_is_over(rt: HostRuntime) {
    let mut counter = Counter::new(&rt, rt.alloc());
    counter.fill(&rt);
    counter.assert_full(&rt);
}

//! Ten places that are sold at two replicas, trade by trade.

ghost use Rattle.std.specs.Prelude.{◌≡◌};

use run_model::{Act, Config, Entry, Reply, Request};
use seat_app::{Booking, Outcome, Sale, Seats, Trade};
use std::alloc::Global;
use std::process::Abort;

/// Two replicas with one conit, on which each allows the other 4.
#[derive(Drop)]
struct Office {
    booking: Booking,
    ghost replicas: { booking.setup.replicas ≡ 2 },
}

impl Office {
    fn new(rt: &impl Abort, alloc: Global) -> Box<Office> {
        let config = Config::new(alloc, 2, 1, &[4; 2], &[0, 4, 4, 0]).expect(rt, "a setup");
        let office = Office {
            booking: Booking::new(alloc, &config, Seats::new(0, 10)).expect(rt, "a booking"),
        };
        Box::new(alloc, office).expect(rt, "an office")
    }

    fn sell(&mut self, rt: &impl Abort, replica: u32, amount: u64) -> Outcome {
        assert!(rt; replica < 2);
        assert!(rt; 1 <= amount);
        assert!(rt; amount <= 10);
        assert!(rt; self.booking.trades().len() < 100);
        let trade = Trade::Sell { replica, amount };
        self.booking.step(1, &trade).expect(rt, "an outcome")
    }

    fn cancel(&mut self, rt: &impl Abort, replica: u32, amount: u64) -> Outcome {
        assert!(rt; replica < 2);
        assert!(rt; 1 <= amount);
        assert!(rt; amount <= 10);
        assert!(rt; self.booking.trades().len() < 100);
        let trade = Trade::Cancel { replica, amount };
        self.booking.step(1, &trade).expect(rt, "an outcome")
    }

    /// One sends to the other, which takes the message.
    fn tell(&mut self, rt: &impl Abort, from: u32, to: u32) {
        assert!(rt; from < 2);
        assert!(rt; to < 2);
        assert!(rt; from != to);
        assert!(rt; self.booking.trades().len() < 100);
        let message = self.booking.sent();
        let trade = Trade::Send { from, to };
        let sent = self.booking.step(2, &trade).expect(rt, "an outcome");
        assert_eq!(rt; sent, Outcome::Moved);
        self.take(rt, message);
    }

    fn take(&mut self, rt: &impl Abort, message: u64) {
        assert!(rt; message < self.booking.sent());
        assert!(rt; self.booking.trades().len() < 100);
        let trade = Trade::Take { message };
        let taken = self.booking.step(3, &trade).expect(rt, "an outcome");
        assert_eq!(rt; taken, Outcome::Moved);
    }

    /// What each replica sees, and what is sold in all.
    fn assert_sold(&self, rt: &impl Abort, values: [i64; 2], all: i64) {
        assert_eq!(rt; self.booking.value(0), values[0]);
        assert_eq!(rt; self.booking.value(1), values[1]);
        assert_eq!(rt; sold_in(self.booking.entries()), all);
    }
}

// The sum of the nweights of all accepted writes.
fn sold_in(entries: &[Entry]) -> i64 {
    let mut all = 0_i64;
    for entry in entries {
        if let Act::Call {
            request: Request::Write { weights, .. },
            reply: Reply::Done { .. },
            ..
        } = &entry.act
        {
            for weight in weights.items() {
                all = all.wrapping_add(weight.nweight);
            }
        }
    }
    all
}

fn assert_traded(rt: &impl Abort, outcome: &Outcome, said: Sale) {
    assert_eq!(rt; outcome, &Outcome::Traded(said));
}

fn accepted(index: u64, stamp: u64) -> Sale {
    Sale::Accepted { index, stamp }
}

// Replica 0 sells 3, and waits with 2 more.
fn sell_and_wait(rt: &impl Abort, office: &mut Office) {
    assert_traded(rt, &office.sell(rt, 0, 3), accepted(0, 1));
    let waits = Reply::WaitShare {
        conit: 0,
        peer: 1,
        missing: 3,
        reserved: 0,
        weight: 2,
        share: 4,
    };
    assert_traded(rt, &office.sell(rt, 0, 2), Sale::Waiting(waits));
}

// Replica 1 sells 4, and can neither sell 3 more nor cancel one.
fn sell_and_stay(rt: &impl Abort, office: &mut Office) {
    assert_traded(rt, &office.sell(rt, 1, 4), accepted(0, 1));
    let over = Sale::Over {
        value: 4,
        out: 4,
        amount: 3,
        capacity: 10,
    };
    assert_traded(rt, &office.sell(rt, 1, 3), over);
    let under = Sale::Under {
        value: 4,
        out: 4,
        amount: 1,
    };
    assert_traded(rt, &office.cancel(rt, 1, 1), under);
}

// Each sells what it may, without a word between them.
fn sell_apart(rt: &impl Abort, office: &mut Office) {
    sell_and_wait(rt, office);
    sell_and_stay(rt, office);
    office.assert_sold(rt, [3, 4], 7);
}

// They tell each other, and one cancels what it sold.
fn cancel_together(rt: &impl Abort, office: &mut Office) {
    office.tell(rt, 0, 1);
    office.tell(rt, 1, 0);
    office.assert_sold(rt, [7, 7], 7);
    assert_traded(rt, &office.cancel(rt, 0, 3), accepted(1, 2));
    office.assert_sold(rt, [4, 7], 4);
}

#[test]
fn sells_at_both_and_never_too_many(rt: HostRuntime) {
    let mut office = Office::new(&rt, rt.alloc());
    sell_apart(&rt, &mut office);
    cancel_together(&rt, &mut office);
    assert_eq!(rt; office.booking.entries().len(), 8);
    assert_eq!(rt; office.booking.trades().len(), 10);
}

//! One client at one replica.

ghost use Rattle.std.specs.Prelude.{◌≡◌, length};

use crate::asking::{Ask, done, request};
use replica_core::{CoreFault, Replica};
use run_model::Config;
use session_guard::{Pass, Visit, visit};
use std::alloc::Global;
use std::process::Abort;

/// Replica 0 of two, and a pass.
#[derive(Drop)]
struct Stop {
    replica: Replica,
    pass: Pass,
    ghost replicas: { replica.core.setup.replicas ≡ 2 },
    ghost sized: { length pass.reads ≡ 2 },
}

impl Stop {
    fn new(rt: &impl Abort, alloc: Global) -> Box<Stop> {
        let config = Config::new(alloc, 2, 1, &[10; 2], &[0, 10, 10, 0]).expect(rt, "a setup");
        let stop = Stop {
            replica: Replica::new(alloc, &config, 0).expect(rt, "a replica"),
            pass: Pass::new(alloc, 2).expect(rt, "a pass"),
        };
        Box::new(alloc, stop).expect(rt, "a stop")
    }

    fn ask(&mut self, rt: &impl Abort, ask: Ask) -> Result<Visit, CoreFault> {
        visit(&mut self.replica, &mut self.pass, 5, 3, &request(rt, ask))
    }

    /// It begins anew, as often as it may.
    fn fill(&mut self, rt: &impl Abort) {
        for _ in 0..20_000 {
            self.replica.restart(0).expect(rt, "a restart");
        }
    }

    /// It answers that it is full.
    fn assert_full(&mut self, rt: &impl Abort) {
        let full = CoreFault::Full {
            count: 20_000,
            clock: 0,
        };
        assert_eq!(rt; self.ask(rt, Ask::Read), Err(full));
    }
}

#[test]
fn takes_no_memory_where_it_was_reserved(rt: HostRuntime) {
    let mut stop = Stop::new(&rt, rt.alloc());
    stop.replica.reserve(1).expect(&rt, "room");
    assert_eq!(rt; stop.ask(&rt, Ask::Add), Ok(done(0, 1)));
    assert_eq!(rt; stop.replica.spare(), 0);
}

#[test]
fn is_full_after_20_000_entries(rt: HostRuntime) {
    let mut stop = Stop::new(&rt, rt.alloc());
    stop.fill(&rt);
    stop.assert_full(&rt);
}

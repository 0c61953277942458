//! One client that goes from a replica to another and back, step by step.

ghost use Rattle.std.specs.Prelude.{◌≡◌};

use crate::asking::{Ask, done, lacks, request, told};
use run_model::Config;
use session_guard::{Outcome, Roam, Step, Visit};
use std::alloc::Global;
use std::process::Abort;

/// Two replicas with one conit, and one pass.
#[derive(Drop)]
struct Tour {
    roam: Roam,
    ghost replicas: { roam.setup.replicas ≡ 2 },
    ghost passes: { roam.passes ≡ 1 },
}

impl Tour {
    fn new(rt: &impl Abort, alloc: Global) -> Box<Tour> {
        let config = Config::new(alloc, 2, 1, &[10; 2], &[0, 10, 10, 0]).expect(rt, "a setup");
        let tour = Tour {
            roam: Roam::new(alloc, &config, 1).expect(rt, "replicas"),
        };
        Box::new(alloc, tour).expect(rt, "a tour")
    }

    /// The client visits a replica.
    fn visit(&mut self, rt: &impl Abort, replica: u32, ask: Ask) -> Outcome {
        assert!(rt; replica < 2);
        assert!(rt; self.roam.steps().len() < 100);
        let step = Step::Visit {
            pass: 0,
            replica,
            request: request(rt, ask),
        };
        self.roam.step(1, &step).expect(rt, "an outcome")
    }

    /// One sends to the other, which takes the message.
    fn tell(&mut self, rt: &impl Abort, from: u32, to: u32) {
        assert!(rt; from < 2 && to < 2 && from != to);
        assert!(rt; self.roam.steps().len() < 100);
        let message = self.roam.sent();
        let sent = self.roam.step(2, &Step::Send { from, to });
        assert_eq!(rt; sent.expect(rt, "an outcome"), Outcome::Moved);
        self.take(rt, message);
    }

    fn take(&mut self, rt: &impl Abort, message: u64) {
        assert!(rt; message < self.roam.sent());
        assert!(rt; self.roam.steps().len() < 100);
        let taken = self.roam.step(3, &Step::Take { message });
        assert_eq!(rt; taken.expect(rt, "an outcome"), Outcome::Moved);
    }

    /// What the pass has, and where the trip stopped.
    fn assert_pass(&self, rt: &impl Abort, reads: [u64; 2], writes: [u64; 2], trip: &[u64]) {
        let pass = self.roam.pass(0);
        assert!(rt; pass.reads().items() == reads.as_slice());
        assert!(rt; pass.writes().items() == writes.as_slice());
        assert!(rt; self.roam.trip(0).items() == trip);
    }
}

fn assert_visited(rt: &impl Abort, outcome: &Outcome, said: Visit) {
    assert_eq!(rt; outcome, &Outcome::Visited(said));
}

// It reads its write at the other replica once that has it.
fn follow_a_write(rt: &impl Abort, tour: &mut Tour) {
    assert_visited(rt, &tour.visit(rt, 0, Ask::Add), done(0, 1));
    assert_visited(rt, &tour.visit(rt, 1, Ask::Read), lacks(0, 1));
    tour.tell(rt, 0, 1);
    assert_visited(rt, &tour.visit(rt, 1, Ask::Read), told(1));
    tour.assert_pass(rt, [1, 0], [1, 0], &[0, 3]);
}

// It writes there, and is kept away from the first one.
fn write_there(rt: &impl Abort, tour: &mut Tour) {
    assert_visited(rt, &tour.visit(rt, 1, Ask::Add), done(0, 2));
    tour.assert_pass(rt, [1, 0], [1, 1], &[0, 3, 4]);
    assert_visited(rt, &tour.visit(rt, 0, Ask::Read), lacks(1, 1));
    assert_visited(rt, &tour.visit(rt, 0, Ask::Add), lacks(1, 1));
    tour.tell(rt, 1, 0);
    assert_visited(rt, &tour.visit(rt, 0, Ask::Read), told(2));
    tour.assert_pass(rt, [1, 1], [1, 1], &[0, 3, 4, 7]);
}

#[test]
fn keeps_what_it_wrote_and_read(rt: HostRuntime) {
    let mut tour = Tour::new(&rt, rt.alloc());
    follow_a_write(&rt, &mut tour);
    write_there(&rt, &mut tour);
    assert_eq!(rt; tour.roam.entries().len(), 8);
    assert_eq!(rt; tour.roam.steps().len(), 11);
}

use std::rt;
use std::sync::atomic::{AtomicU64, Ordering};
use std::time::{SystemTime, UNIX_EPOCH};

/// What tells the moments of calls. It has no faults, and contracts know nothing of its numbers: they may fall, and
/// whoever asks caps them at 2^60.
pub trait Clock {
    /// The number now.
    fn now(&self) -> u64;
}

/// A clock that goes on by a step whenever it is asked. What one thread does by it can be done again with the same
/// moments; of threads that share it, the order in which they ask decides who is told which.
#[derive(Debug, Drop)]
pub struct StepClock {
    next: AtomicU64,
    step: u64,
}

impl StepClock {
    /// A clock that tells `first`, and then each time `step` more than before. Past the greatest u64 it goes on from 0.
    pub fn new(first: u64, step: u64) -> Self {
        StepClock {
            next: AtomicU64::new(first),
            step,
        }
    }
}

impl Clock for StepClock {
    fn now(&self) -> u64 {
        self.next.fetch_add(self.step, Ordering::SeqCst)
    }
}

/// The system's clock, as a runtime or a reference to one reads it.
#[derive(Debug, Drop)]
pub struct StdClock<R> {
    runtime: R,
}

impl<R: rt::Clock> StdClock<R> {
    /// The clock that this runtime reads.
    pub fn new(runtime: R) -> Self {
        StdClock { runtime }
    }
}

impl<R: rt::Clock> Clock for StdClock<R> {
    /// Milliseconds since the Unix epoch: 0 before it, and where the clock can't be read.
    fn now(&self) -> u64 {
        let Ok(now) = SystemTime::now(&self.runtime) else {
            return 0;
        };
        match now.duration_since(UNIX_EPOCH) {
            Ok(since) => u64::try_from(since.as_millis()).unwrap_or(u64::MAX),
            Err(_) => 0,
        }
    }
}

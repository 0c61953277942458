//! What roaming clients do, and what they are answered.
ghost use Rattle.std.specs.Prelude.{◌≡◌, ◌<◌, ◌∷◌, ◌++◌, []};

use replica_network::copied_request;
use run_model::{Reply, Request};
use tact_base::RoomyList;

/// What a visit of a client at a replica comes to.
#[derive(Debug, Drop, PartialEq, Eq)]
pub enum Visit {
    /// The replica lacks writes that the client has read of, or made: of the origin, the least one, it has so many, and
    /// more are wanted. Nothing was asked.
    Behind { origin: u32, have: u64, wanted: u64 },
    /// The replica answered.
    Answered(Reply),
}

/// A step of roaming clients: the client with a pass visits a replica, a replica sends to another, or the message of a
/// number is taken by its receiver, counted from 0 over all sendings.
#[derive(Debug, Drop)]
pub enum Step {
    Visit {
        pass: u32,
        replica: u32,
        request: Request,
    },
    Send {
        from: u32,
        to: u32,
    },
    Take {
        message: u64,
    },
}

/// A step, with the moment that was handed to it.
#[derive(Debug, Drop)]
pub struct Handed {
    pub moment: u64,
    pub step: Step,
}

/// What a step comes to: what its visit does, or that a message was moved.
#[derive(Debug, Drop, PartialEq, Eq)]
pub enum Outcome {
    Visited(Visit),
    Moved,
}

/// Puts a step at the end of others, with the moment that was handed to it. Takes no memory.
pub(crate) fn keep(steps: &mut RoomyList<Handed>, moment: u64, step: &Step)
    requires { 0 < steps.old.room }
    ensures { steps.new.items ≡ steps.old.items ++ record { moment = moment; step = step.now } ∷ [] }
{
    let step = match step {
        Step::Visit {
            pass,
            replica,
            request,
        } => Step::Visit {
            pass: *pass,
            replica: *replica,
            request: copied_request(request),
        },
        Step::Send { from, to } => Step::Send {
            from: *from,
            to: *to,
        },
        Step::Take { message } => Step::Take { message: *message },
    };
    steps.push(Handed { moment, step });
}

//! The events that a number draws.
ghost use Rattle.std.specs.Prelude.{◌≡◌, ◌+◌, ◌<◌, ◌≤◌, [], IfOk, OnOk, length};
ghost use Rattle.primary_commit.specs.declared.primary.TheConstants.{EVENTS_MAX};
ghost use Rattle.drawn_events.specs.DrawnEvents.{IsAmongFour, drawn_events, step_drawn};

use crate::steps::event_of_kind;
use drawn_scripts::Draws;
use primary_commit::Primary;
use std::alloc::Global;
use tact_base::NoMemory;

// How many steps are drawn.
const STEPS: u64 = 1000;

// Draws one more step, and lets its event happen.
#[tactic(auto, unfolding(crate::specs::DrawnEvents::step_drawn))]
fn draw_step(alloc: Global, draws: &mut Draws, primary: &mut Primary) -> Result<(), NoMemory>
    requires among { IsAmongFour primary.old }
    requires few { length primary.old.events < EVENTS_MAX }
    ensures drawn { OnOk result (step_drawn primary.old.events draws.old ≡ (primary.new.events, draws.new)) }
    ensures among { OnOk result (IsAmongFour primary.new) }
    ensures few { OnOk result (length primary.new.events ≤ length primary.old.events + 1) }
{
    let kind = draws.pick(10);
    if let Some(event) = event_of_kind(alloc, draws, primary, kind)? {
        primary.step(&event)?;
    }
    Ok(())
}

/// What happens among four peers by the events that a number draws: 1,000 steps, each an operation that one accepts, a
/// posting, or the taking of a notice that was posted, once more or late as it comes. The same for the same number, on
/// every machine.
pub fn draw_events(alloc: Global, number: u64) -> Result<Primary, NoMemory>
    ensures drawn { IfOk result (λ primary. primary ≡ record { n = 4; events = drawn_events number }) }
    ensures among { IfOk result IsAmongFour }
{
    let mut draws = Draws::new(number);
    let mut primary = Primary::new(alloc, 4)?;
    for _step in 0..STEPS {
        draw_step(alloc, &mut draws, &mut primary)?;
    }
    Ok(primary)
}

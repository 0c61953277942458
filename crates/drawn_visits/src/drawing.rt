//! The steps that a number draws.
ghost use Rattle.std.specs.Prelude.{◌≡◌, ◌+◌, ◌<◌, ◌≤◌, [], ◌++◌, IfOk, IfSome, OnOk, if◌then◌else◌, length};
ghost use Rattle.tact_base.specs.declared.limits.TheConstants.{MOMENT_MAX};
ghost use Rattle.session_guard.specs.Roaming.{MayStep};
ghost use Rattle.session_guard.specs.Roams.{entries_of, roamed_by, with_step};
ghost use Rattle.session_guard.specs.declared.roam.TheConstants.{STEPS_MAX};
ghost use Rattle.drawn_visits.specs.DrawnVisits.{IsAmongFour, drawn_steps, four, handed_at, kept_away, step_drawn};

use crate::steps::step_of_kind;
use drawn_scripts::Draws;
use script_text::Script;
use session_guard::{Outcome, Roam, Step, Visit};
use std::alloc::Global;
use tact_base::NoMemory;

// How many steps are drawn.
const STEPS: u64 = 1000;

/// What four clients did by steps that a number draws, and how many of their visits were kept away.
#[derive(Drop)]
pub struct DrawnVisits {
    pub roam: Roam,
    pub behind: u64,
}

// Draws one more step, and makes it.
#[tactic(auto, unfolding(crate::specs::DrawnVisits::step_drawn))]
fn draw_step(draws: &mut Draws, number: u64, visits: &mut DrawnVisits) -> Result<(), NoMemory>
    requires among { IsAmongFour visits.old.roam }
    requires few { length visits.old.roam.steps < STEPS_MAX }
    requires moment { number ≤ MOMENT_MAX }
    requires counted { visits.old.behind ≡ kept_away (roamed_by visits.old.roam) }
    requires count { visits.old.behind ≤ number }
    ensures drawn { OnOk result (step_drawn number visits.old.roam.steps draws.old ≡ (visits.new.roam.steps, draws.new)) }
    ensures among { OnOk result (IsAmongFour visits.new.roam) }
    ensures few { OnOk result (length visits.new.roam.steps ≤ length visits.old.roam.steps + 1) }
    ensures counted { OnOk result (visits.new.behind ≡ kept_away (roamed_by visits.new.roam)) }
    ensures count { OnOk result (visits.new.behind ≤ visits.old.behind + 1) }
{
    let kind = draws.pick(10);
    let step = step_of_kind(draws, visits.roam.sent(), kind);
    make_step(number, step, visits)
}

// Makes a step, where there is one.
fn make_step(number: u64, step: Option<Step>, visits: &mut DrawnVisits) -> Result<(), NoMemory>
    requires may { IfSome step (MayStep visits.old.roam.setup visits.old.roam.passes (entries_of visits.old.roam)) }
    requires few { length visits.old.roam.steps < STEPS_MAX }
    requires moment { number ≤ MOMENT_MAX }
    requires counted { visits.old.behind ≡ kept_away (roamed_by visits.old.roam) }
    requires count { visits.old.behind ≤ number }
    ensures made { OnOk result (visits.new.roam ≡ record visits.old.roam { steps = visits.old.roam.steps ++ handed_at number step }) }
    ensures counted { OnOk result (visits.new.behind ≡ kept_away (roamed_by visits.new.roam)) }
    ensures count { OnOk result (visits.new.behind ≤ visits.old.behind + 1) }
{
    if let Some(step) = step {
        visits.behind += u64::from(keeps_away(&mut visits.roam, number, step)?);
    }
    Ok(())
}

// Makes a step, and tells whether it kept a client away.
#[tactic(auto, using(crate::proofs::StepLemmas::counted_more), unfolding(crate::specs::DrawnVisits::is_behind))]
fn keeps_away(roam: &mut Roam, moment: u64, step: Step) -> Result<bool, NoMemory>
    requires moment { moment ≤ MOMENT_MAX }
    requires may { MayStep roam.old.setup roam.old.passes (entries_of roam.old) step }
    requires few { length roam.old.steps < STEPS_MAX }
    ensures stepped { OnOk result (roam.new ≡ with_step roam.old moment step) }
    ensures counted { IfOk result (λ away. kept_away (roamed_by roam.new) ≡ kept_away (roamed_by roam.old) + (if away then 1 else 0)) }
{
    Ok(match roam.step(moment, &step)? {
        Outcome::Visited(Visit::Behind { .. }) => true,
        Outcome::Visited(Visit::Answered(_reply)) => false,
        Outcome::Moved => false,
    })
}

/// What four clients do that roam among four replicas by steps that a number draws: 1,000 steps, each a visit for a write or
/// a read, a sending, or the taking of a message that was sent, once more or late as it comes. The same for the same
/// number, on every machine.
pub fn draw_visits(alloc: Global, number: u64) -> Result<DrawnVisits, NoMemory>
    ensures drawn { IfOk result (λ visits. visits.roam ≡ record { setup = four; passes = 4; steps = drawn_steps number }) }
    ensures behind { IfOk result (λ visits. visits.behind ≡ kept_away (roamed_by visits.roam)) }
{
    let script = Script::start(alloc, 4, 1, 1000, 250)?;
    let mut draws = Draws::new(number);
    let mut visits = DrawnVisits {
        roam: Roam::new(alloc, script.config(), 4)?,
        behind: 0,
    };
    for step in 0..STEPS {
        draw_step(&mut draws, step, &mut visits)?;
    }
    Ok(visits)
}

//! What a step draws.
ghost use Rattle.std.specs.Prelude.{◌≡◌, ◌<◌, ◌∷◌, []};
ghost use Rattle.drawn_visits.specs.DrawnVisits.{kind_drawn, read_drawn, send_drawn, take_drawn, weight_of, write_drawn};

use drawn_scripts::Draws;
use run_model::Request;
use session_guard::Step;
use tact_base::{Needs, Op, Weight, Weights};

// A visit for a write.
#[tactic(auto, unfolding(crate::specs::DrawnVisits::write_drawn))]
fn write_step(draws: &mut Draws) -> Step
    ensures { write_drawn draws.old ≡ (result, draws.new) }
{
    let pass = draws.pick(4) as u32;
    let replica = draws.pick(4) as u32;
    let size = draws.pick(5);
    let key = draws.pick(8);
    Step::Visit {
        pass,
        replica,
        request: Request::Write {
            weights: one_weight(size),
            op: Op::Add { key, delta: 1 },
        },
    }
}

// The weights of a write: one, of a size, on conit 0.
fn one_weight(size: u64) -> Weights
    requires { size < 5 }
    ensures { result ≡ weight_of size ∷ [] }
{
    let weight = Weight {
        conit: 0,
        nweight: size as i64,
        oweight: 1,
    };
    match Weights::new(&[weight]) {
        Ok(weights) => weights,
        Err(_) => unreachable!(),
    }
}

// A visit for a read.
#[tactic(auto, unfolding(crate::specs::DrawnVisits::read_drawn))]
fn read_step(draws: &mut Draws) -> Step
    ensures { read_drawn draws.old ≡ (result, draws.new) }
{
    let pass = draws.pick(4) as u32;
    let replica = draws.pick(4) as u32;
    let key = draws.pick(8);
    Step::Visit {
        pass,
        replica,
        request: Request::Read {
            key,
            needs: no_needs(),
        },
    }
}

// The needs of a read: none.
fn no_needs() -> Needs
    ensures { result ≡ [] }
{
    match Needs::new(&[]) {
        Ok(needs) => needs,
        Err(_) => unreachable!(),
    }
}

// A sending.
#[tactic(auto, unfolding(crate::specs::DrawnVisits::send_drawn))]
fn send_step(draws: &mut Draws) -> Step
    ensures { send_drawn draws.old ≡ (result, draws.new) }
{
    let (from, to) = draws.two();
    Step::Send { from, to }
}

// The taking of one of so many messages, where there is one.
#[tactic(auto, unfolding(crate::specs::DrawnVisits::take_drawn))]
fn take_step(draws: &mut Draws, sent: u64) -> Option<Step>
    ensures { take_drawn sent draws.old ≡ (result, draws.new) }
{
    let message = draws.one_of(sent)?;
    Some(Step::Take { message })
}

/// The step of a kind, where so many messages were sent; none, where it would take one of none.
pub(crate) fn step_of_kind(draws: &mut Draws, sent: u64, kind: u64) -> Option<Step>
    ensures { kind_drawn sent kind draws.old ≡ (result, draws.new) }
{
    match kind {
        0..=2 => Some(write_step(draws)),
        3..=5 => Some(read_step(draws)),
        6 | 7 => Some(send_step(draws)),
        _ => take_step(draws, sent),
    }
}

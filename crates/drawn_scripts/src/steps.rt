//! What a step of the drill draws.
ghost use Rattle.std.specs.Prelude.{◌≡◌, ◌<◌, [], ◌∷◌, IfOk};
ghost use Rattle.drawn_scripts.specs.DrawnScripts.{weight_of, need_of, write_drawn, send_drawn, sync_drawn, take_drawn, read_drawn, line_drawn};

use crate::draws::Draws;
use crate::sent::SentOne;
use run_model::Line;
use std::alloc::Global;
use tact_base::{Need, Needs, NoMemory, Numbers, Op, Weight, Weights};

// The weights of one weight, of a size that 4 is taken from.
fn one_weight(conit: u32, size: u64) -> Weights
    requires { size < 9 }
    ensures { result ≡ weight_of conit size ∷ [] }
{
    let weight = Weight {
        conit,
        nweight: size as i64 - 4,
        oweight: 1,
    };
    match Weights::new(&[weight]) {
        Ok(weights) => weights,
        Err(_) => unreachable!(),
    }
}

// The needs of one need.
fn one_need(conit: u32) -> Needs
    ensures { result ≡ need_of conit ∷ [] }
{
    let need = Need {
        conit,
        num: 60,
        order: 8,
        stale: 200,
    };
    match Needs::new(&[need]) {
        Ok(needs) => needs,
        Err(_) => unreachable!(),
    }
}

/// A write of one weight.
#[tactic(auto, unfolding(crate::specs::DrawnScripts::write_drawn))]
fn write_line(draws: &mut Draws) -> Line
    ensures { write_drawn draws.old ≡ (result, draws.new) }
{
    let replica = draws.pick(4) as u32;
    let conit = draws.pick(2) as u32;
    let size = draws.pick(9);
    let key = draws.pick(16);
    Line::Write {
        replica,
        client: 0,
        op: Op::Add { key, delta: 1 },
        weights: one_weight(conit, size),
    }
}

/// A sending, with zeros as its firsts.
#[tactic(auto, unfolding(crate::specs::DrawnScripts::send_drawn))]
fn send_line(alloc: Global, draws: &mut Draws) -> Result<Line, NoMemory>
    ensures { IfOk result (λ line. send_drawn draws.old ≡ (line, draws.new)) }
{
    let (from, to) = draws.two();
    let firsts = Numbers::filled(alloc, 0, 4)?;
    Ok(Line::Send { from, to, firsts })
}

/// A meeting of two.
#[tactic(auto, unfolding(crate::specs::DrawnScripts::sync_drawn))]
fn sync_line(draws: &mut Draws) -> Line
    ensures { sync_drawn draws.old ≡ (result, draws.new) }
{
    let (first, second) = draws.two();
    Line::Sync { first, second }
}

/// A taking of one of these messages, where there is one.
#[tactic(auto, unfolding(crate::specs::DrawnScripts::take_drawn))]
fn take_line(draws: &mut Draws, sent: &[SentOne]) -> Option<Line>
    ensures { take_drawn sent.now draws.old ≡ (result, draws.new) }
{
    if sent.is_empty() {
        return None;
    }
    let one = sent[draws.pick(sent.len() as u64) as usize];
    Some(Line::Take {
        replica: one.to,
        from: one.from,
        number: one.number,
    })
}

/// A read with one need.
#[tactic(auto, unfolding(crate::specs::DrawnScripts::read_drawn))]
fn read_line(draws: &mut Draws) -> Line
    ensures { read_drawn draws.old ≡ (result, draws.new) }
{
    let replica = draws.pick(4) as u32;
    let conit = draws.pick(2) as u32;
    let key = draws.pick(16);
    Line::Read {
        replica,
        client: 0,
        key,
        needs: one_need(conit),
    }
}

/// The line of a step of a kind, where these messages were sent; none, where it would take one of none.
pub(crate) fn line_of_kind(
    alloc: Global,
    draws: &mut Draws,
    sent: &[SentOne],
    kind: u64,
) -> Result<Option<Line>, NoMemory>
    ensures { IfOk result (λ line. line_drawn sent.now kind draws.old ≡ (line, draws.new)) }
{
    Ok(match kind {
        0..=4 => Some(write_line(draws)),
        5 | 6 => Some(send_line(alloc, draws)?),
        7 => take_line(draws, sent),
        8 => Some(sync_line(draws)),
        _ => Some(read_line(draws)),
    })
}

//! The script that a number draws.
ghost use Rattle.std.specs.Prelude.{◌≡◌, ◌+◌, ◌*◌, ◌<◌, ◌≤◌, All, length, IfOk, OnOk};
ghost use Rattle.script_text.specs.Scripts.{IsScript};
ghost use Rattle.drawn_scripts.specs.Counting.{IsAmongFour};
ghost use Rattle.drawn_scripts.specs.DrawnScripts.{drawn_script, step_drawn, messages_of};

use crate::draws::Draws;
use crate::sent::SentAll;
use crate::steps::line_of_kind;
use run_model::Line;
use script_text::Script;
use std::alloc::Global;
use tact_base::NoMemory;

// How many steps a drill has.
const STEPS: u64 = 2000;

/// A script that is being drawn: the draws, its lines so far, and the messages that they sent.
#[derive(Drop)]
struct Drill {
    draws: Draws,
    script: Script,
    sent: SentAll,
}

// Draws one more step, handed its number as the moment.
#[tactic(auto, unfolding(crate::specs::DrawnScripts::step_drawn))]
fn draw_step(alloc: Global, drill: &mut Drill, step: u64) -> Result<(), NoMemory>
    requires sent { drill.old.sent ≡ messages_of drill.old.script }
    requires among { All IsAmongFour drill.old.sent }
    requires few { length drill.old.sent < 9999 }
    ensures drawn { OnOk result (step_drawn step drill.old.script drill.old.draws ≡ (drill.new.script, drill.new.draws)) }
    ensures sent { OnOk result (drill.new.sent ≡ messages_of drill.new.script) }
    ensures few { OnOk result (length drill.new.sent ≤ length drill.old.sent + 2) }
{
    let kind = drill.draws.pick(10);
    let line = line_of_kind(alloc, &mut drill.draws, drill.sent.messages(), kind)?;
    drill.script.push(Line::At { moment: step })?;
    if let Some(line) = line {
        drill.sent.note(&line)?;
        drill.script.push(line)?;
    }
    Ok(())
}

/// The script that a number draws: four replicas and two conits, alphas of 60 and loans of 20, and 2,000
/// steps with the moments 0 to 1,999, each a write, a sending, a taking, a meeting or a read. The same for
/// the same number, on every machine.
pub fn drill_script(alloc: Global, number: u64) -> Result<Script, NoMemory>
    ensures lines { IfOk result (λ script. script ≡ drawn_script number) }
    ensures script { IfOk result IsScript }
{
    let mut drill = Drill {
        draws: Draws::new(number),
        script: Script::start(alloc, 4, 2, 60, 20)?,
        sent: SentAll::new(alloc),
    };
    for step in 0..STEPS {
        draw_step(alloc, &mut drill, step)?;
    }
    let Drill {
        draws: _,
        script,
        sent: _,
    } = drill;
    Ok(script)
}

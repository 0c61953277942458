//! What a script comes to, where nothing is printed.
ghost use Rattle.std.specs.Prelude.{◌≡◌, ◌<◌, ◌≤◌, ◌++◌, [], length, IfOk, OnOk, OnErr};
ghost use Rattle.tact_base.specs.declared.limits.TheConstants.{SCRIPT_LINES};
ghost use Rattle.run_model.specs.ScriptRuns.{history_of, show_text};
ghost use Rattle.script_text.specs.Scripts.{IsScript};
ghost use Rattle.script_text.specs.Setups.{setup_of};

use crate::comments::show;
use crate::page::Page;
use crate::stage::{Stage, step_all};
use crate::witness::Witness;
use script_text::Script;
use std::alloc::Global;
use std::marker::Model;
use tact_base::{Bytes, NoMemory};

/// What the replicas of a script have come to, once all its lines are done. Contracts see the setup and the history that
/// the lines tell, of which it holds no entry.
#[derive(Drop)]
pub struct Outcome {
    stage: Stage,
}

impl Model for Outcome {
    ghost use Rattle.script_run.specs.Stages.{Ended, Keeps};

    ghost Value = { Ended };

    ghost view = { λ o. record { setup = o.stage.set.setup; history = o.stage.history.items } };

    ghost invariant = { λ o. Keeps o.stage };
}

impl Outcome {
    /// Does what the lines of a script say, and prints nothing. A witness that wasn't told of any entry is told of each.
    pub fn of<W: Witness>(
        alloc: Global,
        script: &Script,
        witness: &mut W,
    ) -> Result<Outcome, NoMemory>
        requires script { IsScript script.now }
        requires few { length script.now ≤ SCRIPT_LINES }
        requires saw { W.saw witness.old [] }
        ensures setup { IfOk result (λ outcome. outcome.setup ≡ setup_of script.now) }
        ensures history { IfOk result (λ outcome. outcome.history ≡ history_of (setup_of script.now) script.now) }
        ensures saw { OnOk result (W.saw witness.new (history_of (setup_of script.now) script.now)) }
    {
        let mut stage = Stage::new(alloc, script.config(), false)?;
        let mut scratch = Page::with(Bytes::new(alloc));
        step_all(&mut stage, script.lines(), witness, &mut scratch)?;
        Ok(Outcome { stage })
    }

    /// Appends the comment that shows a replica, with its line feed. `NoMemory` leaves `out` as it was.
    pub fn show(&self, replica: u32, out: &mut Bytes) -> Result<(), NoMemory>
        requires { replica < self.now.setup.replicas }
        ensures ok { OnOk result (out.new ≡ out.old ++ show_text self.now.setup self.now.history replica) }
        ensures err { OnErr result (out.new ≡ out.old) }
    {
        self.stage.show(replica, out)
    }
}

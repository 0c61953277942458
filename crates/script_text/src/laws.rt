//! What is true of every script. Each function states it by its clauses and does nothing.
ghost use Rattle.std.specs.Prelude.{◌≤◌, ℕ, List, ◌∷◌, ◌++◌, length};
ghost use Rattle.tact_base.specs.declared.limits.TheConstants.{HISTORY_MAX, SCRIPT_LINES};
ghost use Rattle.tact_base.specs.Setup.{IsSetup};
ghost use Rattle.run_model.specs.Histories.{part_of};
ghost use Rattle.run_model.specs.Runs.{IsRun};
ghost use Rattle.run_model.specs.ScriptRuns.{played_by, history_of};
ghost use Rattle.run_model.specs.declared.script_line.Line.{Line};
ghost use Rattle.script_text.specs.Fronts.{IsReady};
ghost use Rattle.script_text.specs.Scripts.{IsScript};
ghost use Rattle.script_text.specs.Setups.{setup_of};

/// The setup of a script isn't refused, its history is a run, and no replica has more entries than it may
/// have.
pub fn a_script_is_a_run()
    ensures setup { (lines : List Line) → IsScript lines → length lines ≤ SCRIPT_LINES → IsSetup (setup_of lines) }
    ensures run { (lines : List Line) → IsScript lines → length lines ≤ SCRIPT_LINES
        → IsRun (setup_of lines) (history_of (setup_of lines) lines) }
    ensures room { (lines : List Line) (replica : ℕ) → IsScript lines → length lines ≤ SCRIPT_LINES
        → length (part_of (history_of (setup_of lines) lines) replica) ≤ HISTORY_MAX }
{}

/// What the lines of a script up to one of them have made, under the setup of the whole script, is a run
/// with room for two more entries of each replica; that line is in range, and the message that it takes, if
/// it takes one, was sent to its replica.
pub fn a_front_is_ready_for_its_next_line()
    ensures { (front rest : List Line) (next : Line) → 1 ≤ length front
        → IsScript (front ++ next ∷ rest) → length (front ++ next ∷ rest) ≤ SCRIPT_LINES
        → IsReady (setup_of (front ++ next ∷ rest)) (played_by (setup_of (front ++ next ∷ rest)) front) next }
{}

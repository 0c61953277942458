//! The lines of a script in memory: their room.
ghost use Rattle.std.specs.Prelude.{◌≡◌, ◌<◌, List, [], ◌∷◌, ◌++◌, length, IfOk, OnOk, vec_len};
ghost use Rattle.std.specs.Vec.{vec_capacity};
ghost use Rattle.run_model.specs.declared.script_line.Line.{Line};

use run_model::Line;
use std::alloc::Global;
use tact_base::NoMemory;

/// The lines that there is room for when a script is begun, so that few are moved later.
const FIRST_ROOM: usize = 1_024;

/// A first line, with room for more.
pub(crate) fn first_lines(alloc: Global, line: Line) -> Result<Vec<Line>, NoMemory>
    ensures { IfOk result (λ lines. lines.items ≡ line ∷ []) }
{
    let mut lines = Vec::with_capacity(alloc, FIRST_ROOM)?;
    lines.push(line)?;
    Ok(lines)
}

/// Makes room for one more line.
pub(crate) fn make_room(lines: &mut Vec<Line>) -> Result<(), NoMemory>
    ensures kept { lines.new.items ≡ lines.old.items }
    ensures room { OnOk result (vec_len lines.new < vec_capacity lines.new) }
{
    if lines.len() < lines.capacity() {
        return Ok(());
    }
    more_room(lines)
}

/// Makes room that is full four times as large, if it can.
pub(crate) fn more_room(lines: &mut Vec<Line>) -> Result<(), NoMemory>
    ensures kept { lines.new.items ≡ lines.old.items }
    ensures room { OnOk result (vec_len lines.new < vec_capacity lines.new) }
{
    let _ = lines.reserve(lines.len().saturating_mul(3));
    lines.reserve(1)?;
    Ok(())
}

/// The last of some lines.
pub(crate) fn last_of(lines: &[Line]) -> &Line
    requires { 0 < length lines.now }
    ensures { (before : List Line) (line : Line) → lines.now ≡ before ++ line ∷ [] → result.now ≡ line }
{
    &lines[lines.len() - 1]
}

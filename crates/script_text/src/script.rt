//! Scripts: their setup and their lines.
ghost use Rattle.std.specs.Prelude.{◌≡◌, ◌≤◌, false, [], ◌∷◌, ◌++◌, length, IfOk, OnOk, OnErr};
ghost use Rattle.tact_base.specs.Setup.{IsSetup};
ghost use Rattle.tact_base.specs.declared.limits.TheConstants.{CONITS_MAX, REPLICAS_MAX, SCRIPT_LINES};
ghost use Rattle.run_model.specs.declared.script_line.Line.TheVariants.{Start};
ghost use Rattle.script_text.specs.Setups.{opening, setup_of, sets_up};
ghost use Rattle.script_text.specs.Scripts.{IsScript};
ghost use Rattle.script_text.specs.Texts.{script_of, Reads};

use crate::fault::ScriptFault;
use crate::reader::{Reader, read_first, read_later};
use crate::room::more_room;
use crate::setups::opening;
use run_model::{Config, Line};
use run_record::LineFault;
use std::alloc::Global;
use std::marker::Model;
use tact_base::NoMemory;

/// A script: its setup, and its lines that aren't skipped, the `start` line first.
#[derive(Debug, Drop)]
pub struct Script {
    config: Config,
    lines: Vec<Line>,
}

impl Model for Script {
    ghost use Rattle.std.specs.Prelude.{◌≡◌, List};
    ghost use Rattle.run_model.specs.declared.script_line.Line.{Line};
    ghost use Rattle.script_text.specs.Setups.{setup_of};

    ghost Value = { List Line };

    ghost view = { λ s. s.lines.items };

    ghost invariant = { λ s. s.config ≡ setup_of s.lines.items };
}

impl Script {
    /// The script of one `start` line, whose setup isn't refused.
    pub fn start(
        alloc: Global,
        replicas: u32,
        conits: u32,
        alpha: u64,
        loan: u64,
    ) -> Result<Script, NoMemory>
        requires few_replicas { replicas ≤ REPLICAS_MAX }
        requires few_conits { conits ≤ CONITS_MAX }
        requires good { IsSetup (opening replicas conits alpha loan) }
        ensures { IfOk result (λ script. script ≡ Start replicas conits alpha loan ∷ []) }
    {
        let config = match opening(alloc, replicas, conits, alpha, loan) {
            Ok(config) => config,
            Err(LineFault::NoMemory) => return Err(NoMemory),
            Err(LineFault::Kind(_)) => unreachable!(),
        };
        let mut lines = Vec::new(alloc);
        lines.push(Line::Start {
            replicas,
            conits,
            alpha,
            loan,
        })?;
        Ok(Script { config, lines })
    }

    /// Adds a line that doesn't set up. Whether it may stand there isn't asked here. `NoMemory` leaves the
    /// script as it was.
    pub fn push(&mut self, line: Line) -> Result<(), NoMemory>
        requires { sets_up line ≡ false }
        ensures ok { OnOk result (self.new ≡ self.old ++ line ∷ []) }
        ensures err { OnErr result (self.new ≡ self.old) }
    {
        if self.lines.len() == self.lines.capacity() {
            more_room(&mut self.lines)?;
        }
        self.lines.push_reserved(line);
        Ok(())
    }

    /// The setup that the `start` line and the `bound` lines make.
    pub fn config(&self) -> &Config
        ensures { result.now ≡ setup_of self.now }
    {
        &self.config
    }

    /// The lines that aren't skipped, in order.
    pub fn lines(&self) -> &[Line]
        ensures { result.now ≡ self.now }
    {
        &self.lines
    }
}

/// Reads the text of a script. A text that is none is refused with its first line at fault and that
/// line's first fault.
pub fn parse_script(alloc: Global, bytes: &[u8]) -> Result<Script, ScriptFault>
    ensures script { IfOk result IsScript }
    ensures few { IfOk result (λ script. length script ≤ SCRIPT_LINES) }
    ensures read { Reads result (script_of bytes.now) }
{
    let (mut reader, number, rest) = read_first(alloc, bytes)?;
    read_later(&mut reader, alloc, number, rest)?;
    let Reader {
        config,
        lines,
        past: _,
        sent: _,
    } = reader;
    Ok(Script { config, lines })
}

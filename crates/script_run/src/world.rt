//! The world that a script runs in.
ghost use Rattle.std.specs.Prelude.{◌≡◌, [], ◌∷◌, ◌++◌, true, false, IfOk, OnOk, OnErr, IsErr};
ghost use Rattle.run_model.specs.ScriptRuns.{played_by, history_of, text_after};
ghost use Rattle.script_run.specs.Worlds.{AreFirstLines};

use crate::page::Page;
use crate::stage::Stage;
use given_up::GivenUp;
use run_model::{Config, Entry, Line};
use std::alloc::Global;
use std::marker::Model;
use tact_base::{Bytes, Items, NoMemory};

/// What the lines of a script have made so far. Contracts see the setup, the lines that were stepped, and
/// whether memory was refused: from then on the world is spent. Of the lines it holds nothing: what they made stands
/// in the entries.
#[derive(Drop)]
pub struct World {
    stage: Stage,
    /// What happened, in order.
    entries: Items<Entry>,
    lines: GivenUp<Line>,
    /// What the last line printed.
    page: Page,
    spent: bool,
}

impl Model for World {
    ghost use Rattle.script_run.specs.Worlds.{WorldState, PlaysOn};

    ghost Value = { WorldState };

    ghost view = { λ w. record { setup = w.stage.set.setup; lines = w.lines.items; spent = w.spent } };

    ghost invariant = { λ w. PlaysOn w.stage w.entries (view w) };
}

impl World {
    /// The world of a setup, in which nothing has happened. It lies in memory of `alloc`.
    pub fn new(alloc: Global, config: &Config) -> Result<World, NoMemory>
        ensures setup { IfOk result (λ world. world.setup ≡ config.now) }
        ensures lines { IfOk result (λ world. world.lines ≡ []) }
        ensures unspent { IfOk result (λ world. world.spent ≡ false) }
    {
        Ok(World {
            stage: Stage::new(alloc, config, true)?,
            entries: Items::new(alloc),
            lines: GivenUp::new(),
            page: Page::with(Bytes::new(alloc)),
            spent: false,
        })
    }

    /// Does what the next line of a script says, and appends what the line prints: the lines of its entries, and
    /// comments. `NoMemory` leaves `out` as it was; each later step answers it too.
    pub fn step(&mut self, line: &Line, out: &mut Bytes) -> Result<(), NoMemory>
        requires first { self.old.spent ≡ false → AreFirstLines self.old.setup (self.old.lines ++ line.now ∷ []) }
        ensures setup { self.new.setup ≡ self.old.setup }
        ensures unspent { OnOk result ((self.old.spent ≡ false) × (self.new.spent ≡ false)) }
        ensures lines { OnOk result (self.new.lines ≡ self.old.lines ++ line.now ∷ []) }
        ensures text { OnOk result (out.new ≡ out.old ++ text_after self.old.setup (played_by self.old.setup self.old.lines) line.now) }
        ensures spent { OnErr result (self.new.spent ≡ true) }
        ensures err { OnErr result (out.new ≡ out.old) }
        ensures stays { self.old.spent ≡ true → IsErr result }
    {
        if self.spent {
            return Err(NoMemory);
        }
        self.spent = true;
        self.lines = self.lines.and(line);
        self.page.clear();
        self.stage.step(line, &mut self.entries, &mut self.page)?;
        out.append(self.page.bytes())?;
        self.spent = false;
        Ok(())
    }

    /// What happened, in order, unless the world is spent.
    pub fn entries(&self) -> &[Entry]
        ensures { self.now.spent ≡ false → result.now ≡ history_of self.now.setup self.now.lines }
    {
        self.entries.items()
    }
}

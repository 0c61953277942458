//! Who is told of the entries that a script makes.
ghost use Rattle.std.specs.Prelude.{◌≡◌, List, [], ◌∷◌, ◌++◌, ◌+◌, length, OnOk, IfOk};
ghost use Rattle.run_model.specs.declared.entry.Entry.{Entry as Made};

use run_model::Entry;
use tact_base::{Items, NoMemory};

/// Who is told of each entry that a script makes, in order, and keeps of it what serves it. The entry itself is given up
/// then.
pub trait Witness {
    /// What it keeps is that of the entries that it was told of.
    ghost saw: { Self → List Made → Type 0 };

    /// Is told of the next entry. After `NoMemory` nothing is said of what it keeps.
    fn sees(&mut self, entry: &Entry) -> Result<(), NoMemory>
        ensures { OnOk result ((history : List Made) → saw self.old history → saw self.new (history ++ entry.now ∷ [])) };
}

/// Keeps all of them.
impl Witness for Items<Entry> {
    ghost saw = { λ entries history. entries ≡ history };

    fn sees(&mut self, entry: &Entry) -> Result<(), NoMemory> {
        self.push_amply(entry.clone()?)
    }
}

/// Keeps how many there were.
#[derive(Drop)]
pub(crate) struct Count {
    pub(crate) entries: u64,
}

impl Witness for Count {
    ghost saw = { λ count history. count.entries ≡ length history };

    fn sees(&mut self, _entry: &Entry) -> Result<(), NoMemory> {
        self.entries = one_more(self.entries)?;
        Ok(())
    }
}

/// The next number. No script makes so many entries that there is none.
pub fn one_more(count: u64) -> Result<u64, NoMemory>
    ensures { IfOk result (λ next. next ≡ count + 1) }
{
    count.checked_add(1).ok_or(NoMemory)
}

use run_history::Clerk;
use run_model::Entry;
use std::marker::Model;
use tact_base::RoomyList;

/// The entries that a node stored, each with its tick.
#[derive(Drop)]
pub struct Stored {
    pub(crate) pairs: RoomyList<(u64, Entry)>,
}

impl Model for Stored {
    ghost use Rattle.std.specs.Prelude.{ℕ, List};
    ghost use Rattle.run_model.specs.declared.entry.Entry.{Entry};

    ghost Value = { List (ℕ × Entry) };

    ghost view = { λ s. s.pairs.items };
}

impl Stored {
    ghost use Rattle.std.specs.Prelude.{◌≡◌};

    /// The entries with their ticks, in the order in which they were drawn.
    pub fn pairs(&self) -> &[(u64, Entry)]
        ensures { result.now ≡ self.now }
    {
        self.pairs.items()
    }

    /// The list of them.
    pub fn into_pairs(self) -> RoomyList<(u64, Entry)>
        ensures { result.items ≡ self }
    {
        self.pairs
    }
}

/// What a node leaves: the clerk, with its part of the history, the entries that it stored, and its journal.
#[derive(Drop)]
pub struct Ended<J> {
    pub clerk: Clerk,
    pub stored: Stored,
    pub journal: J,
}

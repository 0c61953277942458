ghost use Rattle.std.specs.Prelude.{◌≡◌, length};

use crate::view::View;
use atomic_table::Badge;
use std::marker::Model;

/// What a desk's closing gives: the history, which exists in contracts alone. It keeps the count.
#[derive(Drop)]
pub struct History {
    pub(crate) count: u64,
    pub(crate) badge: Badge<View>,
}

impl Model for History {
    ghost use Rattle.std.specs.Prelude.{◌≡◌, List, length};
    ghost use Rattle.run_model.specs.declared.entry.Entry.{Entry};

    ghost Value = { List Entry };

    ghost use Rattle.run_history.specs.Steps.{seen_in};

    ghost view = { λ h. seen_in h.badge.views };

    ghost invariant = { λ h. h.count ≡ length (seen_in h.badge.views) };
}

impl History {
    /// How many entries it has.
    pub fn entries(&self) -> u64
        ensures { result ≡ length self.now }
    {
        self.count
    }
}

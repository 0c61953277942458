use crate::label::Label;
use run_history::Note;
use std::marker::Model;
use tact_base::Items;
use weight_ledger::Tally;

/// The clients of a node that have a session, and the right to give each other client its one session. It is made with
/// its node.
#[derive(Drop)]
pub struct Roster {
    pub(crate) replica: u32,
    pub(crate) conits: u32,
    pub(crate) clients: Items<u32>,
    pub(crate) note: Note,
    pub(crate) tally: Tally<Label>,
}

impl Model for Roster {
    ghost use Rattle.replica_lock.specs.Rosters.{KeepsRoster, RosterView};

    ghost Value = { RosterView };

    ghost view = { λ r. record {
      cell = r.tally.id;
      desk = r.note.table;
      conits = r.conits;
      replica = r.replica;
      clients = r.clients;
    } };

    ghost invariant = { λ r. KeepsRoster (view r) r.note.seen r.tally };
}

impl Roster {
    ghost use Rattle.std.specs.Prelude.{◌≡◌, Contains, MatchBool};

    /// The clients that have a session, in the order in which they came.
    pub fn clients(&self) -> &[u32]
        ensures { result.now ≡ self.now.clients }
    {
        self.clients.items()
    }

    // Whether a client has a session.
    pub(crate) fn has(&self, client: u32) -> bool
        ensures { MatchBool result (Contains self.now.clients client) (Contains self.now.clients client → ⊥) }
    {
        self.clients.items().contains(&client)
    }
}

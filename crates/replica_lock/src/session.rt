use crate::label::Label;
use run_history::Note;
use std::marker::Model;
use weight_ledger::Tally;

/// A client's place at a node: the right to its calls, one after another, and what it has seen of the history. It may
/// go to another thread, and can't be copied or made but by its node.
#[derive(Drop)]
pub struct Session {
    pub(crate) replica: u32,
    pub(crate) conits: u32,
    pub(crate) client: u32,
    pub(crate) calls: u64,
    pub(crate) made: u64,
    pub(crate) faults: u64,
    pub(crate) halts: u64,
    pub(crate) doubt: bool,
    pub(crate) note: Note,
    pub(crate) tally: Tally<Label>,
}

impl Model for Session {
    ghost use Rattle.replica_lock.specs.Sessions.{KeepsSession, SessionView};

    ghost Value = { SessionView };

    ghost view = { λ s. record {
      cell = s.tally.id;
      desk = s.note.table;
      conits = s.conits;
      replica = s.replica;
      client = s.client;
      calls = s.calls;
      made = s.made;
      faults = s.faults;
      halts = s.halts;
      doubt = s.doubt;
      seen = s.note.seen;
    } };

    ghost invariant = { λ s. KeepsSession (view s) s.tally };
}

impl Session {
    ghost use Rattle.std.specs.Prelude.{◌≡◌, false, length};
    ghost use Rattle.replica_lock.specs.Sessions.{own_calls};

    /// The number of its client.
    pub fn client(&self) -> u32
        ensures { result ≡ self.now.client }
    {
        self.client
    }

    /// The number of its replica.
    pub fn replica(&self) -> u32
        ensures { result ≡ self.now.replica }
    {
        self.replica
    }

    /// How many calls its client made: all that it has seen of the client, while it isn't in doubt.
    pub fn calls(&self) -> u64
        ensures count { result ≡ self.now.calls }
        ensures seen { self.now.doubt ≡ false → result ≡ length (own_calls self.now) }
    {
        self.calls
    }

    /// How many entries were made for its client.
    pub fn made(&self) -> u64
        ensures { result ≡ self.now.made }
    {
        self.made
    }

    /// How often it was told that the journal failed. It stops at 2^60.
    pub fn faults(&self) -> u64
        ensures { result ≡ self.now.faults }
    {
        self.faults
    }

    /// How often it was told that its node is halted, or that the journal gave another piece back. It stops at 2^60.
    pub fn halts(&self) -> u64
        ensures { result ≡ self.now.halts }
    {
        self.halts
    }

    /// Whether it is in doubt: of its last call it isn't known whether it stands.
    pub fn in_doubt(&self) -> bool
        ensures { result ≡ self.now.doubt }
    {
        self.doubt
    }
}

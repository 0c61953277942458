//! What is true of every run. Each function states it by its clauses, for all histories, and does nothing.
ghost use Rattle.std.specs.Prelude.{ℕ, List};
ghost use Rattle.tact_base.specs.Setup.{Setup, IsSetup};
ghost use Rattle.run_model.specs.Histories.{part_of};
ghost use Rattle.run_model.specs.Promises.{IsKept};
ghost use Rattle.run_model.specs.Runs.{IsPart, IsRun};
ghost use Rattle.run_model.specs.declared.entry.Entry.{Entry};

/// Every run keeps its promises, whatever is lost, repeated or reordered: each answered access keeps its
/// three bounds; and at every point what a peer may miss, with what is reserved, is within the share lent
/// for it, loans total exactly, and of two committed prefixes one is a prefix of the other.
pub fn runs_keep_their_promises()
    ensures { (setup : Setup) (history : List Entry) → IsSetup setup → IsRun setup history → IsKept setup history }
{}

/// What a replica does in a run is a part that can be: each of its entries is due after those before it,
/// and each message that it takes fits there.
pub fn each_part_can_be()
    ensures { (setup : Setup) (history : List Entry) (replica : ℕ) → IsRun setup history → IsPart setup replica (part_of history replica) }
{}

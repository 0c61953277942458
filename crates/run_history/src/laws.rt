//! What the history rule says. The function states it by its clauses, and does nothing.
ghost use Rattle.std.specs.Prelude.{◌≡◌, ◌<◌, ℕ, List, slice_index};
ghost use Rattle.tact_base.specs.Setup.{Setup};
ghost use Rattle.run_model.specs.declared.entry.Entry.{Entry};
ghost use Rattle.run_history.specs.declared.view.Part.{Part};
ghost use Rattle.run_history.specs.declared.view.View.{View};
ghost use Rattle.run_history.specs.Rule.{IsOneHistory};
ghost use Rattle.run_history.specs.Standing.{HoldsPart, HoldsPair, IsDrawnOnce, IsDrawnPart, IsHistoryOf};

/// Whenever the history rule holds of a table, which is between any two steps: each number below word 0
/// is the tick of just one pair of all parts, and no other tick stands there; the ticks of a part rise,
/// and its entries name its replica, which is below word 1 and has no other part; and the history by
/// tick is a run, of which all that the seats have seen are fronts.
pub fn rule_of_history()
    ensures ticks { (setup : Setup) (words : List ℕ) (views : List View)
        → IsOneHistory setup words views
        → (tick : ℕ) → tick < slice_index words 0 → IsDrawnOnce views tick }
    ensures no_other { (setup : Setup) (words : List ℕ) (views : List View)
        → IsOneHistory setup words views
        → (seat place index tick : ℕ) (entry : Entry)
        → HoldsPair views seat place index (tick, entry) → tick < slice_index words 0 }
    ensures parts { (setup : Setup) (words : List ℕ) (views : List View)
        → IsOneHistory setup words views
        → (seat place : ℕ) (part : Part)
        → HoldsPart views seat place part → IsDrawnPart (slice_index words 1) part }
    ensures replicas { (setup : Setup) (words : List ℕ) (views : List View)
        → IsOneHistory setup words views
        → (seat other_seat place other_place : ℕ) (part other : Part)
        → HoldsPart views seat place part → HoldsPart views other_seat other_place other
        → part.replica ≡ other.replica → (seat ≡ other_seat) × (place ≡ other_place) }
    ensures history { (setup : Setup) (words : List ℕ) (views : List View)
        → IsOneHistory setup words views
        → (history : List Entry) × IsHistoryOf setup (slice_index words 0) views history }
{}

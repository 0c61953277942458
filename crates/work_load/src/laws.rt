//! Laws of what a plan asks.
ghost use Rattle.std.specs.Prelude.{ℕ, List, [], ◌∷◌, ◌++◌};
ghost use Rattle.run_model.specs.declared.entry.Entry.{Entry};
ghost use Rattle.work_load.specs.Attempts.{AreCallsFor, Attempts, Begun, asked};
ghost use Rattle.work_load.specs.declared.plan.Item.{Item};

/// Who has done all its items has done one more by the calls of that one, and who has done all has begun.
pub fn items_are_done_one_by_one()
    ensures none { (tries : ℕ) → Attempts tries [] [] }
    ensures more { (tries : ℕ) (items : List Item) (item : Item) (calls tried : List Entry)
        → Attempts tries items calls → AreCallsFor tries (asked calls item) tried
        → Attempts tries (items ++ item ∷ []) (calls ++ tried) }
    ensures begun { (tries : ℕ) (items : List Item) (calls : List Entry) → Attempts tries items calls → Begun tries items calls }
{}

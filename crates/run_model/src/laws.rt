//! What is true of every run.

ghost use Rattle.std.specs.Prelude.{List};
ghost use Rattle.tact_base.specs.Setup.{Setup};
ghost use Rattle.run_model.specs.Runs.{IsRun};
ghost use Rattle.run_model.specs.Promises.{IsAgreed};
ghost use Rattle.run_model.specs.declared.entry.Entry.{Entry};

/// Every run is agreed, whatever is lost, repeated or reordered: of what any two replicas have committed,
/// at any two times, one is a prefix of the other.
pub fn runs_agree()
    ensures { (setup : Setup) (history : List Entry) → IsRun setup history → IsAgreed setup history }
{}

//! What is true of careful runs. The function states it by its clause, for all histories, and does nothing.
ghost use Rattle.std.specs.Prelude.{List};
ghost use Rattle.tact_base.specs.Setup.{Setup};
ghost use Rattle.run_model.specs.Runs.{IsRun};
ghost use Rattle.run_model.specs.declared.entry.Entry.{Entry};
ghost use Rattle.seat_app.specs.Careful.{IsCareful, IsNeverOversold};
ghost use Rattle.seat_app.specs.Seats.{SeatsState};

/// A careful run never sells too many places, whatever is lost, repeated or reordered: at every point, of all writes
/// that all replicas accepted, the reference value is between 0 and the capacity.
pub fn careful_runs_never_oversell()
    ensures { (setup : Setup) (seats : SeatsState) (history : List Entry)
        → IsRun setup history → IsCareful setup seats history → IsNeverOversold setup seats history }
{}

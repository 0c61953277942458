// The history rule, and what each kind of step tells.
use crate::view::View;
use atomic_table::{Join, Play, Split, TableRule};
use run_model::Config;
use std::marker::{Brand, PhantomData};

/// The history rule, for the setup of the desk.
pub struct OneHistory;

impl TableRule<(), View, Config> for OneHistory {
    ghost use Rattle.run_history.specs.Rule.{KeepsHistory};
    ghost use Rattle.run_history.specs.Steps.{opener};

    ghost holds = { KeepsHistory };

    ghost first = { opener };
}

/// What a step is told for the proof alone: the setup of the desk.
pub trait Told {
    ghost use Rattle.tact_base.specs.Setup.{Setup};

    ghost setup: { Setup };
}

/// What a draw is told for the proof alone: the entry.
pub trait ToldEntry {
    ghost use Rattle.run_model.specs.declared.entry.Entry.{Entry};

    ghost entry: { Entry };
}

impl Told for Brand {
    ghost use Rattle.std.specs.Prelude.{[]};
    ghost use Rattle.tact_base.specs.Setup.{setup as setup_of};

    ghost setup = { setup_of 0 0 [] [] };
}

impl ToldEntry for Brand {
    ghost use Rattle.run_model.specs.declared.entry.Act.TheVariants as act;

    ghost entry = { record { replica = 0; moment = 0; act = act.Restart } };
}

/// Enrol: a fetch-and-add on word 1.
pub struct Enrols;

impl Play<(), View> for Enrols {
    ghost use Rattle.std.specs.Prelude.{◌≡◌};
    ghost use Rattle.run_history.specs.Steps.{IsEnrolled};

    ghost then = { λ step before found after. (after.1 ≡ before.1)
        × IsEnrolled before.0 found after.0 };
}

/// Draw: a fetch-and-add on word 0.
pub struct Draws<T: Told, E: ToldEntry> {
    marker: PhantomData<(T, E)>,
}

impl<T: Told, E: ToldEntry> Play<(), View> for Draws<T, E> {
    ghost use Rattle.std.specs.Prelude.{◌≡◌};
    ghost use Rattle.run_history.specs.Steps.{IsDrawn};

    ghost then = { λ step before found after. (after.1 ≡ before.1)
        × IsDrawn T.setup E.entry before.0 found after.0 };
}

/// Look: a load of word 0.
pub struct Looks<T: Told> {
    marker: PhantomData<T>,
}

impl<T: Told> Play<(), View> for Looks<T> {
    ghost use Rattle.std.specs.Prelude.{◌≡◌};
    ghost use Rattle.run_history.specs.Steps.{IsLooked};

    ghost then = { λ step before found after. (after.1 ≡ before.1)
        × IsLooked T.setup before.0 found after.0 };
}

/// A look by which a seat comes that knows nothing.
pub struct Comes;

impl Play<(), View> for Comes {
    ghost use Rattle.std.specs.Prelude.{◌≡◌};
    ghost use Rattle.run_history.specs.Steps.{nothing_known};

    ghost then = { λ step before found after. after.0 ≡ nothing_known };
}

/// A note of a seat.
pub struct Notes;

impl Split<View> for Notes {
    ghost use Rattle.run_history.specs.Steps.{noted};

    ghost left = { λ view. view };

    ghost right = { noted };
}

/// The opener's part goes to a seat of its own.
pub struct Hands;

impl Split<View> for Hands {
    ghost use Rattle.run_history.specs.Steps.{handing, handed};

    ghost left = { handing };

    ghost right = { handed };
}

/// What two seats know.
pub struct Both;

impl Join<View> for Both {
    ghost use Rattle.run_history.specs.Steps.{joined, nothing_known};

    ghost both = { joined };

    ghost spent = { nothing_known };
}

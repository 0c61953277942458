ghost use Rattle.std.specs.Prelude.{◌≡◌};
ghost use Rattle.link_faults.specs.Plans.{names, fate_of};

/// The greatest count of items that wait in an inbox.
pub const INBOX_MAX: usize = 1_024;

/// Which puts a link loses, doubles and turns: a field names those whose number it divides, and 0 names
/// none.
#[derive(Clone, Copy, Debug, Default, PartialEq, Eq)]
pub struct LinkPlan {
    /// The puts that are lost.
    pub lose: u64,
    /// The puts that a copy goes with, if there is room for both.
    pub double: u64,
    /// The puts that go before what waits, and not behind.
    pub turn: u64,
}

/// What became of an item that was put.
#[derive(Clone, Copy, Debug, PartialEq, Eq)]
pub enum Fate {
    /// It was lost by the plan.
    Lost,
    /// It was lost, since 1,024 items wait.
    LostFull,
    /// It waits, and so does a copy.
    Doubled,
    /// It waits.
    Queued,
}

// Whether a field of a plan names the put of this number.
pub(crate) fn is_named(every: u64, number: u64) -> bool
    ensures { result ≡ names every number }
{
    every != 0 && number % every == 0
}

// The fate of a put, by its number and the count of items that wait.
pub(crate) fn fate_by(plan: LinkPlan, number: u64, waiting: usize) -> Fate
    ensures { result ≡ fate_of plan number waiting }
{
    if is_named(plan.lose, number) {
        Fate::Lost
    } else if waiting >= INBOX_MAX {
        Fate::LostFull
    } else if is_named(plan.double, number) && waiting + 2 <= INBOX_MAX {
        Fate::Doubled
    } else {
        Fate::Queued
    }
}

//! What trades came to, counted.
ghost use Rattle.std.specs.Prelude.{◌≡◌, ◌+◌, if◌then◌else◌};
ghost use Rattle.drawn_trades.specs.Tallies.{HasRoom, is_cancelled, is_over, is_sold, is_under, is_waiting};

/// What a trade came to: an accepted sale or cancellation, a sale that was over, a cancellation that was under, either that
/// a replica answered otherwise for the sake of its shares, or a message that was moved.
#[derive(Clone, Copy, Debug, PartialEq, Eq)]
pub enum Deal {
    Sold,
    Cancelled,
    Over,
    Under,
    Waiting,
    Moved,
}

/// How many trades came to what.
#[derive(Clone, Copy, Debug, PartialEq, Eq)]
pub struct Tally {
    pub sold: u64,
    pub cancelled: u64,
    pub over: u64,
    pub under: u64,
    pub waiting: u64,
}

impl Tally {
    /// Of no trade.
    pub(crate) fn new() -> Tally
        ensures { result ≡ record { sold = 0; cancelled = 0; over = 0; under = 0; waiting = 0 } }
    {
        Tally {
            sold: 0,
            cancelled: 0,
            over: 0,
            under: 0,
            waiting: 0,
        }
    }

    /// Counts one more trade by what it came to.
    #[tactic(auto, unfolding(crate::specs::Tallies::is_sold, crate::specs::Tallies::is_cancelled, crate::specs::Tallies::is_over, crate::specs::Tallies::is_under, crate::specs::Tallies::is_waiting))]
    pub(crate) fn count(&mut self, deal: Deal)
        requires { HasRoom self.old }
        ensures sold { self.new.sold ≡ self.old.sold + (if is_sold deal then 1 else 0) }
        ensures cancelled { self.new.cancelled ≡ self.old.cancelled + (if is_cancelled deal then 1 else 0) }
        ensures over { self.new.over ≡ self.old.over + (if is_over deal then 1 else 0) }
        ensures under { self.new.under ≡ self.old.under + (if is_under deal then 1 else 0) }
        ensures waiting { self.new.waiting ≡ self.old.waiting + (if is_waiting deal then 1 else 0) }
    {
        match deal {
            Deal::Sold => self.sold += 1,
            Deal::Cancelled => self.cancelled += 1,
            Deal::Over => self.over += 1,
            Deal::Under => self.under += 1,
            Deal::Waiting => self.waiting += 1,
            Deal::Moved => {}
        }
    }
}

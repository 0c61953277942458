use weight_ledger::Counted;

/// A value with a shared place and an owned one. Its number is the label; how often it was visited is neither.
#[derive(Drop)]
pub struct Purse {
    pub number: u64,
    pub paid: u64,
    pub turns: u64,
    pub visits: u64,
}

impl Counted for Purse {
    type Label = u64;

    ghost use Rattle.std.specs.Prelude.{◌∷◌, []};

    ghost label = { λ p. p.number };

    ghost totals = { λ p. p.paid ∷ p.turns ∷ [] };
}

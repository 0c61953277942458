/// A value of which a cell knows more than its type.
pub trait Counted {
    /// Plain data, which the value of one cell never changes.
    type Label;

    ghost use Rattle.std.specs.Prelude.{ℕ, List};

    ghost label: { Self → Self.Label };
    // The numbers that tallies add up, by place.
    ghost totals: { Self → List ℕ };
}

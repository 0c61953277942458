/// What of the writes that a peer may miss counts against an amount.
#[derive(Clone, Copy, Debug, PartialEq, Eq)]
pub(crate) enum Side {
    /// Their positive nweights.
    Plus,
    /// Their negative ones.
    Minus,
    /// The greater of both.
    Greater,
}

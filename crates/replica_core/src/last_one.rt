/// Which write is the last of some.
#[derive(Clone, Copy, Debug, PartialEq, Eq)]
pub struct LastOne {
    /// The replica that accepted it.
    pub origin: u32,
    /// How many writes that replica accepted before it.
    pub index: u64,
}

/// How far a replica is, on a conit and at a moment, from what is true of all accepted writes (the three errors after
/// Yu and Vahdat's conits).
#[derive(Clone, Copy, Debug, PartialEq, Eq)]
pub struct Errors {
    /// The distance of its value from the true value, in units of weight.
    pub num: u64,
    /// The order weight of its tentative writes.
    pub order: u64,
    /// How long before the moment the oldest write that it hasn't seen was accepted, 0 where there is none:
    /// milliseconds where a clock gives moments.
    pub age: u64,
}

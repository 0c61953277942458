/// How a try of an item ended.
#[derive(Clone, Copy, Debug, PartialEq, Eq)]
pub(crate) enum Tried {
    /// Its reply is final, or it is no call.
    Final,
    /// Its reply waits. The replica that it wishes word of, if it names one.
    Waiting(Option<u32>),
}

/// How an amount meets the shares that a replica has of its peers' bounds.
#[derive(Clone, Copy, Debug, PartialEq, Eq)]
pub enum Fit {
    /// It is within each share, with what is reserved and what the peer may miss.
    Fits,
    /// By itself it passes the share of the peer's bound.
    TooHeavy {
        peer: u32,
        weight: u64,
        share: u64,
    },
    /// With what is reserved it passes the share of the peer's bound.
    WaitHeld {
        peer: u32,
        reserved: u64,
        weight: u64,
        share: u64,
    },
    /// With what is reserved and what the peer may miss it passes the share of the peer's bound.
    WaitShare {
        peer: u32,
        missing: u64,
        reserved: u64,
        weight: u64,
        share: u64,
    },
}

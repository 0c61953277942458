/// What each call of a client passes once: under the lock of its replica, and before the place of its entry is drawn.
/// It changes nothing that a contract sees.
pub trait Gate: Drop {
    /// A call of a client of a replica has come so far.
    fn reached(&self, replica: u32, client: u32);
}

impl<G: Gate> Gate for &G {
    fn reached(&self, replica: u32, client: u32) {
        (**self).reached(replica, client)
    }
}

/// A gate that everyone passes at once.
#[derive(Clone, Copy, Debug)]
pub struct FreeGate;

impl FreeGate {
    /// A gate that everyone passes at once.
    pub fn new() -> Self {
        FreeGate
    }
}

impl Gate for FreeGate {
    fn reached(&self, _replica: u32, _client: u32) {}
}

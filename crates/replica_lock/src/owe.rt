ghost use Rattle.std.specs.Prelude.{◌≡◌};
ghost use Rattle.replica_lock.specs.Ledgers.{amount_in, nothing_owed};

/// What is kept for a client whose session is in doubt: whether a call of it stands that it must still resume, and what
/// goes to it then on a conit: what its call gave up, or what it was granted. And how many entries restarts drew that
/// count for the client.
#[derive(Clone, Copy)]
pub struct Owe {
    pub stands: bool,
    pub conit: u32,
    pub amount: Option<u64>,
    pub kept: u64,
}

impl Owe {
    /// Nothing.
    pub fn nothing() -> Owe
        ensures { result ≡ nothing_owed }
    {
        Owe {
            stands: false,
            conit: 0,
            amount: None,
            kept: 0,
        }
    }

    /// How much goes to the client.
    pub fn size(&self) -> u64
        ensures { result ≡ amount_in self.now.amount }
    {
        match self.amount {
            Some(amount) => amount,
            None => 0,
        }
    }
}

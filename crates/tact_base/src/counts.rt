ghost use Rattle.std.specs.Prelude.{◌≡◌};
ghost use Rattle.tact_base.specs.Counts.{first_index};

/// Where the writes of an origin begin in a message to a receiver: past those that the receiver has, by
/// what is known or by what is given, and past all of the receiver's own (the rule of sending in
/// docs/MODEL.md). `have` are at hand. Takes no memory.
pub fn first_index(receiver: u32, origin: u32, have: u64, known: u64, given: u64) -> u64
    ensures { result ≡ first_index receiver origin have known given }
{
    if origin == receiver {
        have
    } else {
        have.min(given.max(known))
    }
}

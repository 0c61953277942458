ghost use Rattle.std.specs.Prelude.{IfOk};
ghost use Rattle.link_faults.specs.Twins.{IsAlike};

use tact_base::NoMemory;

/// An item of which a twin can be made, with the help of a value that fits it.
pub trait Twin: Sized + Drop {
    /// What serves to make a twin.
    type With;

    // What items can carry.
    ghost Carried: { Type 0 };
    // What an item carries.
    ghost carries: { Self → Self.Carried };
    // A value serves to make a twin of an item.
    ghost fits: { Self → Self.With → Type 0 };

    /// An item alike to this one, which stays alike to what it was, after `NoMemory` too: it carries the
    /// same, and the same fits it.
    fn twin(&mut self, with: &Self::With) -> Result<Self, NoMemory>
        requires { Self.fits self.old with.now }
        ensures kept { IsAlike Self.carries Self.fits self.old self.new }
        ensures twin { IfOk result (λ twin. IsAlike Self.carries Self.fits self.old twin) };
}

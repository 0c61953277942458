ghost use Rattle.std.specs.Borrow.{ftrue};
ghost use Rattle.std.specs.Prelude.{◌≡◌, List, [], ◌∷◌, ◌++◌};

use std::fmt;
use std::marker::{Model, PhantomData};

/// A list that only proofs read, which a clause reads as `items`. A type that gives up what it held remembers that
/// here, so that its contracts go on speaking of all that it ever held. It takes no memory.
#[derive(Drop)]
pub struct GivenUp<A> {
    of: PhantomData<A>,
    pub ghost items: { List A },
}

impl<A> Model for GivenUp<A> {
    ghost also_owns = { λ _. ftrue };
}

impl<A> fmt::Debug for GivenUp<A> {
    fn fmt<W: fmt::Write>(&self, f: &mut fmt::Formatter<W>) -> fmt::Result {
        f.write_str("GivenUp")
    }
}

// It owns nothing.
unsafe impl<A: Send> Send for GivenUp<A> {}

impl<A> GivenUp<A> {
    /// The empty list.
    pub fn new() -> GivenUp<A>
        ensures { result.items ≡ [] }
    {
        GivenUp::of_items(&(), &())
    }

    /// The list with one more item at its end.
    pub fn and(&self, item: &A) -> GivenUp<A>
        ensures { result.items ≡ self.now.items ++ item.now ∷ [] }
    {
        GivenUp::of_items(self, item)
    }

    /// Puts more items at its end.
    pub fn extend(&mut self, more: &[A])
        ensures { self.new.items ≡ self.old.items ++ more.now }
    {
        for item in more {
            *self = self.and(item);
        }
    }

    // The list of the items that the caller's proof makes of what the two are.
    fn of_items<S, T>(_front: &S, _last: &T) -> GivenUp<A>
        ghost items: { List A }
        ensures { result.items ≡ items }
    {
        GivenUp { of: PhantomData }
    }
}

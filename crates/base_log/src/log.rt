//! What only proofs read. It takes no memory, and its methods do nothing at run time.
//!
//! What such a value says is tied to nothing by itself: only a clause of a trait that speaks of it binds whoever implements the trait.
ghost use Rattle.std.specs.Prelude.{◌≡◌, List, [], ◌∷◌, ◌++◌};
ghost use Rattle.std.specs.Borrow.{ftrue};

use std::marker::{Model, PhantomData};

/// A list of values as they were. A clause reads them as `items`.
#[derive(Drop)]
pub struct Log<A> {
    of: PhantomData<A>,
    pub ghost items: { List A },
}

impl<A> Model for Log<A> {
    ghost also_owns = { λ _. ftrue };
}

impl<A> Log<A> {
    /// With nothing in it.
    pub fn new() -> Log<A>
        ensures { result.items ≡ [] }
    {
        Log { of: PhantomData }
    }

    /// With one more behind, as it is now.
    pub fn and(&self, last: &A) -> Log<A>
        ensures { result.items ≡ self.now.items ++ last.now ∷ [] }
    {
        Log { of: PhantomData }
    }
}

/// A value as it was. A clause reads it as `value`.
#[derive(Drop)]
pub struct Was<A> {
    of: PhantomData<A>,
    pub ghost value: { A },
}

impl<A> Model for Was<A> {
    ghost also_owns = { λ _. ftrue };
}

impl<A> Was<A> {
    /// The value as it is now.
    pub fn of(now: &A) -> Was<A>
        ensures { result.value ≡ now.now }
    {
        Was { of: PhantomData }
    }
}

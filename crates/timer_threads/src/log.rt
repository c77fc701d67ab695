//! A list that only contracts and proofs read. It has no bytes, and its functions do nothing at run time.
ghost use Rattle.std.specs.Prelude.{◌≡◌, List, [], ◌∷◌, ◌++◌};
ghost use Rattle.std.specs.Borrow.{ftrue};

use std::marker::{Model, PhantomData};

/// What was noted so far, in order.
#[derive(Drop)]
pub struct Log<T> {
    of: PhantomData<T>,
    pub ghost items: { List T },
}

impl<T> Model for Log<T> {
    ghost also_owns = { λ _. ftrue };
}

// It owns nothing.
unsafe impl<T: Send> Send for Log<T> {}

impl<T> Log<T> {
    /// Nothing was noted yet.
    pub fn new() -> Log<T>
        ensures { result.items ≡ [] }
    {
        Log { of: PhantomData }
    }

    /// The same, with this noted last.
    pub fn and(&self, item: &T) -> Log<T>
        ensures { result.items ≡ self.now.items ++ item.now ∷ [] }
    {
        Log { of: PhantomData }
    }
}

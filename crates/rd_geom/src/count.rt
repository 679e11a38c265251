//! A number that only clauses read.

ghost use Rattle.std.specs.Prelude.{◌≡◌, ℕ, ◌+◌};
ghost use Rattle.std.specs.Borrow.{ftrue};

use std::marker::{Model, PhantomData};

/// A number without bytes. It stands on nothing: what it counts is said by those that raise it.
#[derive(Drop)]
pub struct Count {
    marker: PhantomData<u8>,
    pub ghost number: { ℕ },
}

impl Model for Count {
    ghost also_owns = { λ _. ftrue };
}

impl Count {
    pub(crate) fn none() -> Count
        ensures { result.number ≡ 0 }
    {
        Count {
            marker: PhantomData,
        }
    }

    pub(crate) fn rise(&mut self)
        ensures { self.new.number ≡ self.old.number + 1 }
    {}
}

//! The iterator of an array or an object that a leaf doesn't have.
ghost use Rattle.std.specs.Prelude.{[]};
ghost use Rattle.std.specs.Iterator.{YieldsFirst, at_most};

use std::marker::PhantomData;

/// Iterates over nothing.
#[derive(Drop)]
pub struct NoItems<T> {
    of: PhantomData<T>,
}

impl<T> Iterator for NoItems<T> {
    type Item = T;

    ghost next_gives = { YieldsFirst (λ _. []) };

    ghost remaining = { λ _. at_most 0 };

    fn next(&mut self) -> Option<T> {
        None
    }
}

//! The pairs of a map of values by their fields. tantivy's `FieldCopyingIterator`.
ghost use Rattle.std.specs.Prelude.{◌≡◌, ℕ, Option, option_map};
ghost use Rattle.std.specs.Borrow.{Bor};

use seg_values::Field;
use std::marker::PhantomData;

/// Gives fields by value, where the inner iterator lends them.
#[derive(Drop)]
pub struct FieldCopyingIterator<'a, V, I> {
    inner: I,
    lends: PhantomData<(&'a Field, &'a V)>,
}

impl<'a, V, I> FieldCopyingIterator<'a, V, I> {
    pub fn new(inner: I) -> FieldCopyingIterator<'a, V, I>
        ensures { result.inner ≡ inner }
    {
        FieldCopyingIterator {
            inner,
            lends: PhantomData,
        }
    }
}

impl<'a, V, I: Iterator<Item = (&'a Field, &'a V)>> Iterator for FieldCopyingIterator<'a, V, I> {
    type Item = (Field, &'a V);

    ghost can_next = { λ s. I.can_next s.inner };

    ghost next_gives = { λ s r t. (lent : Option (Bor ℕ × Bor V)) × I.next_gives s.inner lent t.inner
        × (r ≡ option_map (λ p. (p.0.now, p.1)) lent) };

    ghost remaining = { λ s. I.remaining s.inner };

    fn next(&mut self) -> Option<(Field, &'a V)> {
        let (field, value) = self.inner.next()?;
        Some((*field, value))
    }

    fn size_hint(&self) -> (usize, Option<usize>) {
        (0, None)
    }
}

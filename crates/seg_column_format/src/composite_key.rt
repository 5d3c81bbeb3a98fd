//! A key of two parts, a small value and bytes, as a table keeps it and is asked for it.
ghost use Rattle.std.specs.Prelude.{◌≡◌, ◌++◌, [], ◌∷◌, IfOk};
ghost use Rattle.std.specs.Cmp.{partial_equiv_from_equiv, on_equiv, on_per};
ghost use Rattle.seg_column_format.specs.CompositeKeys.{asked, key_eq, key_eq_per, key_eq_equiv, writes, same_writes};

use indexmap::Equivalent;
use std::alloc::{AllocError, Global};
use std::hash::{Hash, Hasher};
use std::marker::Model;

/// Bytes, told apart from equal ones by what stands at their head: the kind of a column's values with its path, or the
/// number of a path with a part below it.
#[derive(Debug, Drop)]
pub struct CompositeKey<T> {
    head: T,
    bytes: Vec<u8>,
}

impl<T> Model for CompositeKey<T> {
    ghost use Rattle.seg_column_format.specs.CompositeKeys.{Composite};

    ghost Value = { Composite T };

    ghost view = { λ k. record { head = k.head; bytes = k.bytes.items } };
}

impl<T: Copy> CompositeKey<T> {
    pub fn copy_of(
        alloc: Global,
        parts: CompositeKeyParts<'_, T>,
    ) -> Result<CompositeKey<T>, AllocError>
        ensures { IfOk result (λ copy. copy ≡ asked parts.entry) }
    {
        Ok(CompositeKey {
            head: parts.head,
            bytes: Vec::from_slice(alloc, parts.bytes)?,
        })
    }

    pub fn head(&self) -> T
        ensures { result ≡ self.now.head }
    {
        self.head
    }

    pub fn bytes(&self) -> &[u8]
        ensures { result.now ≡ self.now.bytes }
    {
        &self.bytes
    }
}

impl<T: PartialEq> PartialEq for CompositeKey<T> {
    ghost eq = { key_eq T.eq };

    ghost laws = { key_eq_per T.laws };

    #[inline]
    fn eq(&self, other: &CompositeKey<T>) -> bool {
        self.head == other.head && self.bytes == other.bytes
    }
}

impl<T: Eq> Eq for CompositeKey<T> {
    ghost laws = { key_eq_equiv T.Eq.laws };
}

impl<T: Hash> Hash for CompositeKey<T> {
    ghost hash_input = { writes T.hash_input };

    ghost respects_eq = { same_writes T.PartialEq.eq T.hash_input T.respects_eq };

    #[inline]
    fn hash<H: Hasher>(&self, state: &mut H) {
        self.head.hash(state);
        state.write(self.bytes.as_slice());
    }
}

/// What a `CompositeKey` is looked up by.
#[derive(Debug, Clone, Copy)]
pub struct CompositeKeyParts<'a, T> {
    pub head: T,
    pub bytes: &'a [u8],
}

impl<'a, T: PartialEq> PartialEq for CompositeKeyParts<'a, T> {
    ghost eq = { λ x y. key_eq T.eq (asked x) (asked y) };

    ghost laws = { on_per asked (key_eq_per T.laws) };

    #[inline]
    fn eq(&self, other: &CompositeKeyParts<'a, T>) -> bool {
        self.head == other.head && self.bytes == other.bytes
    }
}

impl<'a, T: Eq> Eq for CompositeKeyParts<'a, T> {
    ghost laws = { on_equiv asked (key_eq_equiv T.Eq.laws) };
}

impl<'a, T: Hash> Hash for CompositeKeyParts<'a, T> {
    ghost hash_input = { λ x. writes T.hash_input (asked x) };

    ghost respects_eq = { λ x y. same_writes T.PartialEq.eq T.hash_input T.respects_eq (asked x) (asked y) };

    #[inline]
    fn hash<H: Hasher>(&self, state: &mut H) {
        self.head.hash(state);
        state.write(self.bytes);
    }
}

impl<'a, T: Copy + Hash> Equivalent<CompositeKey<T>> for CompositeKeyParts<'a, T> {
    ghost equivalent = { λ q key. key_eq T.eq (asked q) key };

    ghost respects_hash = { λ q key. same_writes T.PartialEq.eq T.hash_input T.respects_eq (asked q) key };

    ghost respects_eq = { λ q x y. (key_eq_equiv T.Eq.laws).congr (asked q) x y };

    #[inline]
    fn equivalent(&self, key: &CompositeKey<T>) -> bool {
        self.head == key.head && self.bytes == key.bytes.as_slice()
    }
}

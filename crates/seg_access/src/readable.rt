//! A value to be read, with no lifetime in the bound: a function that calls itself can't have one there.
ghost use Rattle.std.specs.Prelude.{◌≡◌, List, ℕ, Option, IfOk};
ghost use Rattle.std.specs.Iterator.{IsFinite, YieldsFirstBy};
ghost use Rattle.seg_access.specs.ReadTrees.{tree_of_reading};
ghost use Rattle.seg_values.specs.Tree.{Tree};

use crate::leaf_copy::leaf_to_owned;
use crate::value::{ReferenceValue, Value};
use seg_values::OwnedValue;
use std::alloc::{AllocError, Global};
use std::convert::AsStr;
use std::marker::PhantomData;

/// An owned leaf, or what iterates over the values of an array or an object.
pub(crate) enum Reading<R: Readable> {
    Leaf(OwnedValue),
    Array(R::Items),
    Object(R::Members),
}

pub(crate) trait Readable: Drop {
    type Key: AsStr + Drop;

    type Items: Iterator<Item = Self> + Drop;

    type Members: Iterator<Item = (Self::Key, Self)> + Drop;

    ghost tree: { Self → Tree };

    ghost items_left: { Self.Items → List Tree };

    ghost members_left: { Self.Members → List (List ℕ × Tree) };

    fn read(self, alloc: Global) -> Result<Reading<Self>, AllocError>
        ensures { IfOk result (λ r. tree_of_reading items_left members_left r ≡ tree self) };

    ghost items_end: { (it : Self.Items) → Self.Items.can_next it × IsFinite (Self.Items.remaining it) };

    ghost items_step: { (it after : Self.Items) (r : Option Self) → Self.Items.next_gives it r after
        → YieldsFirstBy tree items_left it r after };

    ghost members_end: { (it : Self.Members) → Self.Members.can_next it × IsFinite (Self.Members.remaining it) };

    ghost members_step: { (it after : Self.Members) (r : Option (Self.Key × Self)) → Self.Members.next_gives it r after
        → YieldsFirstBy (λ m. (Self.Key.text m.0, tree m.1)) members_left it r after };
}

/// A value that was lent.
#[derive(Drop)]
pub(crate) struct Lent<'a, V: Value<'a>> {
    pub(crate) value: V,
    pub(crate) of: PhantomData<&'a u8>,
}

#[derive(Drop)]
pub(crate) struct LentItems<'a, V, I> {
    items: I,
    of: PhantomData<(&'a u8, V)>,
}

#[derive(Drop)]
pub(crate) struct LentMembers<'a, V, I> {
    members: I,
    of: PhantomData<(&'a u8, V)>,
}

impl<'a, V: Value<'a>> Iterator for LentItems<'a, V, V::ArrayIter> {
    type Item = Lent<'a, V>;

    ghost can_next = { λ s. V.ArrayIter.can_next s.items };

    ghost next_gives = { YieldsFirstBy (λ x. V.tree x.value) (λ s. V.array_left s.items) };

    ghost remaining = { λ s. V.ArrayIter.remaining s.items };

    fn next(&mut self) -> Option<Lent<'a, V>> {
        let value = self.items.next()?;
        Some(Lent {
            value,
            of: PhantomData,
        })
    }

    fn size_hint(&self) -> (usize, Option<usize>) {
        (0, None)
    }
}

impl<'a, V: Value<'a>> Iterator for LentMembers<'a, V, V::ObjectIter> {
    type Item = (&'a str, Lent<'a, V>);

    ghost can_next = { λ s. V.ObjectIter.can_next s.members };

    ghost next_gives = { YieldsFirstBy (λ x. (x.0.now, V.tree x.1.value)) (λ s. V.object_left s.members) };

    ghost remaining = { λ s. V.ObjectIter.remaining s.members };

    fn next(&mut self) -> Option<(&'a str, Lent<'a, V>)> {
        let (key, value) = self.members.next()?;
        Some((
            key,
            Lent {
                value,
                of: PhantomData,
            },
        ))
    }

    fn size_hint(&self) -> (usize, Option<usize>) {
        (0, None)
    }
}

impl<'a, V: Value<'a>> Readable for Lent<'a, V> {
    type Key = &'a str;

    type Items = LentItems<'a, V, V::ArrayIter>;

    type Members = LentMembers<'a, V, V::ObjectIter>;

    ghost tree = { λ x. V.tree x.value };

    ghost items_left = { λ it. V.array_left it.items };

    ghost members_left = { λ it. V.object_left it.members };

    ghost items_end = { λ it. V.array_ends it.items };

    ghost items_step = { λ it after r h. h };

    ghost members_end = { λ it. V.object_ends it.members };

    ghost members_step = { λ it after r h. h };

    fn read(self, alloc: Global) -> Result<Reading<Lent<'a, V>>, AllocError> {
        match self.value.as_value() {
            ReferenceValue::Leaf(leaf) => Ok(Reading::Leaf(leaf_to_owned(alloc, leaf)?)),
            ReferenceValue::Array(items) => Ok(Reading::Array(LentItems {
                items,
                of: PhantomData,
            })),
            ReferenceValue::Object(members) => Ok(Reading::Object(LentMembers {
                members,
                of: PhantomData,
            })),
        }
    }
}

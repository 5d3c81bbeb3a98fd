//! Access to a value: a leaf, or what iterates over the values of an array or an object. tantivy's
//! `schema::document::value`.
ghost use Rattle.std.specs.Prelude.{◌≡◌, List, ℕ, [], Option};
ghost use Rattle.std.specs.Borrow.{Bor};
ghost use Rattle.std.specs.Iterator.{IsFinite, YieldsFirstBy};
ghost use Rattle.seg_access.specs.ReadTrees.{tree_read};
ghost use Rattle.seg_values.specs.Tree.{Tree};

use seg_common::DateTime;
use seg_tokens::PreTokenizedString;
use std::net::Ipv6Addr;

/// A leaf, of which texts and bytes are lent. A facet is its encoded text.
#[derive(Clone, Copy)]
pub enum ReferenceValueLeaf<'a> {
    Null,
    Str(&'a str),
    PreTokStr(&'a PreTokenizedString),
    U64(u64),
    I64(i64),
    Bool(bool),
    Date(DateTime),
    Facet(&'a str),
    Bytes(&'a [u8]),
    IpAddr(Ipv6Addr),
}

/// What a value is read as: a leaf, the values of an array, or the members of an object, both in order.
pub enum ReferenceValue<'a, V: Value<'a>> {
    Leaf(ReferenceValueLeaf<'a>),
    Array(V::ArrayIter),
    Object(V::ObjectIter),
}

/// A value that can be read, mostly a reference. It stands for one tree.
pub trait Value<'a>: Copy {
    type ArrayIter: Iterator<Item = Self> + Drop;

    type ObjectIter: Iterator<Item = (&'a str, Self)> + Drop;

    ghost tree: { Self → Tree };

    ghost array_left: { Self.ArrayIter → List Tree } = { λ _. [] };

    ghost object_left: { Self.ObjectIter → List (List ℕ × Tree) } = { λ _. [] };

    fn as_value(&self) -> ReferenceValue<'a, Self>
        ensures { tree_read array_left object_left result ≡ tree self.now };

    ghost array_ends: { (it : Self.ArrayIter) → Self.ArrayIter.can_next it × IsFinite (Self.ArrayIter.remaining it) };

    ghost array_steps: { (it after : Self.ArrayIter) (r : Option Self) → Self.ArrayIter.next_gives it r after
        → YieldsFirstBy tree array_left it r after };

    ghost object_ends: { (it : Self.ObjectIter)
        → Self.ObjectIter.can_next it × IsFinite (Self.ObjectIter.remaining it) };

    ghost object_steps: { (it after : Self.ObjectIter) (r : Option (Bor (List ℕ) × Self))
        → Self.ObjectIter.next_gives it r after → YieldsFirstBy (λ m. (m.0.now, tree m.1)) object_left it r after };
}

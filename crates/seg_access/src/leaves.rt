//! References to leaves.
ghost use Rattle.std.specs.Prelude.{string_bytes};
ghost use Rattle.std.specs.Net.Addr.{ipv6_octets};
ghost use Rattle.std.proofs.Common.{rules};
ghost use Rattle.seg_values.specs.Tree.{leaf, text, pre_tokenized, unsigned, signed, boolean, date, facet, byte_string, ip};

use crate::no_items::NoItems;
use crate::value::{ReferenceValue, ReferenceValueLeaf, Value};
use seg_common::DateTime;
use seg_tokens::PreTokenizedString;
use seg_values::Facet;
use std::net::Ipv6Addr;

impl<'a> Value<'a> for &'a str {
    type ArrayIter = NoItems<&'a str>;

    type ObjectIter = NoItems<(&'a str, &'a str)>;

    ghost tree = { λ r. leaf (text r.now) };

    ghost array_ends = { λ it. Prim.search rules };

    ghost array_steps = { λ it after r h. Prim.search rules };

    ghost object_ends = { λ it. Prim.search rules };

    ghost object_steps = { λ it after r h. Prim.search rules };

    fn as_value(&self) -> ReferenceValue<'a, &'a str> {
        ReferenceValue::Leaf(ReferenceValueLeaf::Str(self))
    }
}

impl<'a> Value<'a> for &'a &'a str {
    type ArrayIter = NoItems<&'a &'a str>;

    type ObjectIter = NoItems<(&'a str, &'a &'a str)>;

    ghost tree = { λ r. leaf (text r.now.now) };

    ghost array_ends = { λ it. Prim.search rules };

    ghost array_steps = { λ it after r h. Prim.search rules };

    ghost object_ends = { λ it. Prim.search rules };

    ghost object_steps = { λ it after r h. Prim.search rules };

    fn as_value(&self) -> ReferenceValue<'a, &'a &'a str> {
        ReferenceValue::Leaf(ReferenceValueLeaf::Str(self))
    }
}

impl<'a> Value<'a> for &'a String {
    type ArrayIter = NoItems<&'a String>;

    type ObjectIter = NoItems<(&'a str, &'a String)>;

    ghost tree = { λ r. leaf (text (string_bytes r.now)) };

    ghost array_ends = { λ it. Prim.search rules };

    ghost array_steps = { λ it after r h. Prim.search rules };

    ghost object_ends = { λ it. Prim.search rules };

    ghost object_steps = { λ it after r h. Prim.search rules };

    fn as_value(&self) -> ReferenceValue<'a, &'a String> {
        ReferenceValue::Leaf(ReferenceValueLeaf::Str(self.as_str()))
    }
}

impl<'a> Value<'a> for &'a PreTokenizedString {
    type ArrayIter = NoItems<&'a PreTokenizedString>;

    type ObjectIter = NoItems<(&'a str, &'a PreTokenizedString)>;

    ghost tree = { λ r. leaf (pre_tokenized r.now) };

    ghost array_ends = { λ it. Prim.search rules };

    ghost array_steps = { λ it after r h. Prim.search rules };

    ghost object_ends = { λ it. Prim.search rules };

    ghost object_steps = { λ it after r h. Prim.search rules };

    fn as_value(&self) -> ReferenceValue<'a, &'a PreTokenizedString> {
        ReferenceValue::Leaf(ReferenceValueLeaf::PreTokStr(self))
    }
}

impl<'a> Value<'a> for &'a u64 {
    type ArrayIter = NoItems<&'a u64>;

    type ObjectIter = NoItems<(&'a str, &'a u64)>;

    ghost tree = { λ r. leaf (unsigned r.now) };

    ghost array_ends = { λ it. Prim.search rules };

    ghost array_steps = { λ it after r h. Prim.search rules };

    ghost object_ends = { λ it. Prim.search rules };

    ghost object_steps = { λ it after r h. Prim.search rules };

    fn as_value(&self) -> ReferenceValue<'a, &'a u64> {
        ReferenceValue::Leaf(ReferenceValueLeaf::U64(**self))
    }
}

impl<'a> Value<'a> for &'a i64 {
    type ArrayIter = NoItems<&'a i64>;

    type ObjectIter = NoItems<(&'a str, &'a i64)>;

    ghost tree = { λ r. leaf (signed r.now) };

    ghost array_ends = { λ it. Prim.search rules };

    ghost array_steps = { λ it after r h. Prim.search rules };

    ghost object_ends = { λ it. Prim.search rules };

    ghost object_steps = { λ it after r h. Prim.search rules };

    fn as_value(&self) -> ReferenceValue<'a, &'a i64> {
        ReferenceValue::Leaf(ReferenceValueLeaf::I64(**self))
    }
}

impl<'a> Value<'a> for &'a bool {
    type ArrayIter = NoItems<&'a bool>;

    type ObjectIter = NoItems<(&'a str, &'a bool)>;

    ghost tree = { λ r. leaf (boolean r.now) };

    ghost array_ends = { λ it. Prim.search rules };

    ghost array_steps = { λ it after r h. Prim.search rules };

    ghost object_ends = { λ it. Prim.search rules };

    ghost object_steps = { λ it after r h. Prim.search rules };

    fn as_value(&self) -> ReferenceValue<'a, &'a bool> {
        ReferenceValue::Leaf(ReferenceValueLeaf::Bool(**self))
    }
}

impl<'a> Value<'a> for &'a DateTime {
    type ArrayIter = NoItems<&'a DateTime>;

    type ObjectIter = NoItems<(&'a str, &'a DateTime)>;

    ghost tree = { λ r. leaf (date r.now) };

    ghost array_ends = { λ it. Prim.search rules };

    ghost array_steps = { λ it after r h. Prim.search rules };

    ghost object_ends = { λ it. Prim.search rules };

    ghost object_steps = { λ it after r h. Prim.search rules };

    fn as_value(&self) -> ReferenceValue<'a, &'a DateTime> {
        ReferenceValue::Leaf(ReferenceValueLeaf::Date(**self))
    }
}

impl<'a> Value<'a> for &'a Facet {
    type ArrayIter = NoItems<&'a Facet>;

    type ObjectIter = NoItems<(&'a str, &'a Facet)>;

    ghost tree = { λ r. leaf (facet r.now) };

    ghost array_ends = { λ it. Prim.search rules };

    ghost array_steps = { λ it after r h. Prim.search rules };

    ghost object_ends = { λ it. Prim.search rules };

    ghost object_steps = { λ it after r h. Prim.search rules };

    fn as_value(&self) -> ReferenceValue<'a, &'a Facet> {
        ReferenceValue::Leaf(ReferenceValueLeaf::Facet(self.encoded_str()))
    }
}

impl<'a> Value<'a> for &'a [u8] {
    type ArrayIter = NoItems<&'a [u8]>;

    type ObjectIter = NoItems<(&'a str, &'a [u8])>;

    ghost tree = { λ r. leaf (byte_string r.now) };

    ghost array_ends = { λ it. Prim.search rules };

    ghost array_steps = { λ it after r h. Prim.search rules };

    ghost object_ends = { λ it. Prim.search rules };

    ghost object_steps = { λ it after r h. Prim.search rules };

    fn as_value(&self) -> ReferenceValue<'a, &'a [u8]> {
        ReferenceValue::Leaf(ReferenceValueLeaf::Bytes(self))
    }
}

impl<'a> Value<'a> for &'a &'a [u8] {
    type ArrayIter = NoItems<&'a &'a [u8]>;

    type ObjectIter = NoItems<(&'a str, &'a &'a [u8])>;

    ghost tree = { λ r. leaf (byte_string r.now.now) };

    ghost array_ends = { λ it. Prim.search rules };

    ghost array_steps = { λ it after r h. Prim.search rules };

    ghost object_ends = { λ it. Prim.search rules };

    ghost object_steps = { λ it after r h. Prim.search rules };

    fn as_value(&self) -> ReferenceValue<'a, &'a &'a [u8]> {
        ReferenceValue::Leaf(ReferenceValueLeaf::Bytes(self))
    }
}

impl<'a> Value<'a> for &'a Vec<u8> {
    type ArrayIter = NoItems<&'a Vec<u8>>;

    type ObjectIter = NoItems<(&'a str, &'a Vec<u8>)>;

    ghost tree = { λ r. leaf (byte_string r.now.items) };

    ghost array_ends = { λ it. Prim.search rules };

    ghost array_steps = { λ it after r h. Prim.search rules };

    ghost object_ends = { λ it. Prim.search rules };

    ghost object_steps = { λ it after r h. Prim.search rules };

    fn as_value(&self) -> ReferenceValue<'a, &'a Vec<u8>> {
        ReferenceValue::Leaf(ReferenceValueLeaf::Bytes(self.as_slice()))
    }
}

impl<'a> Value<'a> for &'a Ipv6Addr {
    type ArrayIter = NoItems<&'a Ipv6Addr>;

    type ObjectIter = NoItems<(&'a str, &'a Ipv6Addr)>;

    ghost tree = { λ r. leaf (ip (ipv6_octets r.now)) };

    ghost array_ends = { λ it. Prim.search rules };

    ghost array_steps = { λ it after r h. Prim.search rules };

    ghost object_ends = { λ it. Prim.search rules };

    ghost object_steps = { λ it after r h. Prim.search rules };

    fn as_value(&self) -> ReferenceValue<'a, &'a Ipv6Addr> {
        ReferenceValue::Leaf(ReferenceValueLeaf::IpAddr(**self))
    }
}

//! References to owned values.
ghost use Rattle.std.specs.Prelude.{drop, length};
ghost use Rattle.std.specs.Iterator.{YieldsFirstBy, item_count};
ghost use Rattle.std.proofs.Common.{rules};
ghost use Rattle.seg_values.specs.ValueTrees.{tree_of};

use crate::value::{ReferenceValue, ReferenceValueLeaf, Value};
use seg_values::{Members, OwnedValue, Values};
use std::marker::Model;

/// Iterates over the values of an array. It is seen as the trees that are left.
#[derive(Drop)]
pub struct ArrayIter<'a> {
    values: &'a Values,
    place: usize,
}

impl<'a> Model for ArrayIter<'a> {
    ghost use Rattle.std.specs.Prelude.{◌≤◌, List, drop, length};
    ghost use Rattle.seg_values.specs.Tree.{Tree};
    ghost use Rattle.std.specs.Coded.{coded_list};
    ghost use Rattle.seg_values.specs.ValueCodes.{tree_code};

    ghost Value = { List Tree };

    ghost coded = { coded_list tree_code };

    ghost view = { λ s. drop s.place s.values.now };

    ghost invariant = { λ s. s.place ≤ length s.values.now };
}

impl<'a> Iterator for ArrayIter<'a> {
    type Item = &'a OwnedValue;

    ghost next_gives = { YieldsFirstBy (λ r. tree_of r.now) (λ s. s) };

    ghost remaining = { item_count (λ s. s) };

    fn next(&mut self) -> Option<&'a OwnedValue> {
        if self.place == self.values.len() {
            return None;
        }
        let value = self.values.get(self.place);
        self.place += 1;
        Some(value)
    }
}

/// Iterates over the members of an object. It is seen as the keys and trees that are left.
#[derive(Drop)]
pub struct ObjectMapIter<'a> {
    members: &'a Members,
    place: usize,
}

impl<'a> Model for ObjectMapIter<'a> {
    ghost use Rattle.std.specs.Prelude.{◌≤◌, ℕ, List, drop, length};
    ghost use Rattle.seg_values.specs.Tree.{Tree};
    ghost use Rattle.std.specs.Coded.{coded_list, coded×};
    ghost use Rattle.seg_tokens.specs.TokenCodes.{key_code};
    ghost use Rattle.seg_values.specs.ValueCodes.{tree_code};

    ghost Value = { List (List ℕ × Tree) };

    ghost coded = { coded_list (coded× key_code tree_code) };

    ghost view = { λ s. drop s.place s.members.now };

    ghost invariant = { λ s. s.place ≤ length s.members.now };
}

impl<'a> Iterator for ObjectMapIter<'a> {
    type Item = (&'a str, &'a OwnedValue);

    ghost next_gives = { YieldsFirstBy (λ m. (m.0.now, tree_of m.1.now)) (λ s. s) };

    ghost remaining = { item_count (λ s. s) };

    fn next(&mut self) -> Option<(&'a str, &'a OwnedValue)> {
        if self.place == self.members.len() {
            return None;
        }
        let member = self.members.get(self.place);
        self.place += 1;
        Some(member)
    }
}

impl<'a> Value<'a> for &'a OwnedValue {
    type ArrayIter = ArrayIter<'a>;

    type ObjectIter = ObjectMapIter<'a>;

    ghost tree = { λ r. tree_of r.now };

    ghost array_left = { λ it. it };

    ghost object_left = { λ it. it };

    ghost array_ends = { λ it. Prim.search rules };

    ghost array_steps = { λ it after r h. h };

    ghost object_ends = { λ it. Prim.search rules };

    ghost object_steps = { λ it after r h. h };

    fn as_value(&self) -> ReferenceValue<'a, &'a OwnedValue> {
        match *self {
            OwnedValue::Null => ReferenceValue::Leaf(ReferenceValueLeaf::Null),
            OwnedValue::Str(text) => ReferenceValue::Leaf(ReferenceValueLeaf::Str(text.as_str())),
            OwnedValue::PreTokStr(text) => ReferenceValue::Leaf(ReferenceValueLeaf::PreTokStr(
                text,
            )),
            OwnedValue::U64(number) => ReferenceValue::Leaf(ReferenceValueLeaf::U64(*number)),
            OwnedValue::I64(number) => ReferenceValue::Leaf(ReferenceValueLeaf::I64(*number)),
            OwnedValue::Bool(truth) => ReferenceValue::Leaf(ReferenceValueLeaf::Bool(*truth)),
            OwnedValue::Date(date) => ReferenceValue::Leaf(ReferenceValueLeaf::Date(*date)),
            OwnedValue::Facet(facet) => ReferenceValue::Leaf(ReferenceValueLeaf::Facet(
                facet.encoded_str(),
            )),
            OwnedValue::Bytes(bytes) => ReferenceValue::Leaf(ReferenceValueLeaf::Bytes(
                bytes.as_slice(),
            )),
            OwnedValue::Array(values) => ReferenceValue::Array(ArrayIter { values, place: 0 }),
            OwnedValue::Object(members) => {
                ReferenceValue::Object(ObjectMapIter { members, place: 0 })
            }
            OwnedValue::IpAddr(address) => ReferenceValue::Leaf(ReferenceValueLeaf::IpAddr(
                *address,
            )),
        }
    }
}

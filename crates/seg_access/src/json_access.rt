//! References to JSON values.
ghost use Rattle.std.specs.Prelude.{◌≡◌, drop, length};
ghost use Rattle.std.specs.Iterator.{YieldsFirstBy, item_count};
ghost use Rattle.std.proofs.Common.{rules};
ghost use Rattle.seg_access.specs.ReadTrees.{leaf_of};
ghost use Rattle.seg_access.specs.JsonTrees.{tree_of_json, whole};

use crate::json_value::{JsonMembers, JsonValue, JsonValues};
use crate::value::{ReferenceValue, ReferenceValueLeaf, Value};
use std::marker::Model;

/// Iterates over the values of an array. It is seen as the trees that are left.
#[derive(Drop)]
pub struct JsonArrayIter<'a> {
    values: &'a JsonValues,
    place: usize,
}

impl<'a> Model for JsonArrayIter<'a> {
    ghost use Rattle.std.specs.Prelude.{◌≤◌, List, drop, length};
    ghost use Rattle.seg_values.specs.Tree.{Tree};
    ghost use Rattle.std.specs.Coded.{coded_list};
    ghost use Rattle.seg_values.specs.ValueCodes.{tree_code};

    ghost Value = { List Tree };

    ghost coded = { coded_list tree_code };

    ghost view = { λ s. drop s.place s.values.now };

    ghost invariant = { λ s. s.place ≤ length s.values.now };
}

impl<'a> Iterator for JsonArrayIter<'a> {
    type Item = &'a JsonValue;

    ghost next_gives = { YieldsFirstBy (λ r. tree_of_json r.now) (λ s. s) };

    ghost remaining = { item_count (λ s. s) };

    fn next(&mut self) -> Option<&'a JsonValue> {
        if self.place == self.values.len() {
            return None;
        }
        let value = self.values.get(self.place);
        self.place += 1;
        Some(value)
    }
}

/// Iterates over the members of an object. It is seen as the keys and trees that are left.
#[derive(Drop)]
pub struct JsonObjectIter<'a> {
    members: &'a JsonMembers,
    place: usize,
}

impl<'a> Model for JsonObjectIter<'a> {
    ghost use Rattle.std.specs.Prelude.{◌≤◌, ℕ, List, drop, length};
    ghost use Rattle.seg_values.specs.Tree.{Tree};
    ghost use Rattle.std.specs.Coded.{coded_list, coded×};
    ghost use Rattle.seg_tokens.specs.TokenCodes.{key_code};
    ghost use Rattle.seg_values.specs.ValueCodes.{tree_code};

    ghost Value = { List (List ℕ × Tree) };

    ghost coded = { coded_list (coded× key_code tree_code) };

    ghost view = { λ s. drop s.place s.members.now };

    ghost invariant = { λ s. s.place ≤ length s.members.now };
}

impl<'a> Iterator for JsonObjectIter<'a> {
    type Item = (&'a str, &'a JsonValue);

    ghost next_gives = { YieldsFirstBy (λ m. (m.0.now, tree_of_json m.1.now)) (λ s. s) };

    ghost remaining = { item_count (λ s. s) };

    fn next(&mut self) -> Option<(&'a str, &'a JsonValue)> {
        if self.place == self.members.len() {
            return None;
        }
        let member = self.members.get(self.place);
        self.place += 1;
        Some(member)
    }
}

impl<'a> Value<'a> for &'a JsonValue {
    type ArrayIter = JsonArrayIter<'a>;

    type ObjectIter = JsonObjectIter<'a>;

    ghost tree = { λ r. tree_of_json r.now };

    ghost array_left = { λ it. it };

    ghost object_left = { λ it. it };

    ghost array_ends = { λ it. Prim.search rules };

    ghost array_steps = { λ it after r h. h };

    ghost object_ends = { λ it. Prim.search rules };

    ghost object_steps = { λ it after r h. h };

    fn as_value(&self) -> ReferenceValue<'a, &'a JsonValue> {
        match *self {
            JsonValue::Null => ReferenceValue::Leaf(ReferenceValueLeaf::Null),
            JsonValue::Bool(truth) => ReferenceValue::Leaf(ReferenceValueLeaf::Bool(*truth)),
            JsonValue::U64(number) => ReferenceValue::Leaf(whole_number(*number)),
            JsonValue::I64(number) => ReferenceValue::Leaf(ReferenceValueLeaf::I64(*number)),
            JsonValue::Str(text) => ReferenceValue::Leaf(ReferenceValueLeaf::Str(text.as_str())),
            JsonValue::Array(values) => ReferenceValue::Array(JsonArrayIter { values, place: 0 }),
            JsonValue::Object(members) => {
                ReferenceValue::Object(JsonObjectIter { members, place: 0 })
            }
        }
    }
}

fn whole_number(number: u64) -> ReferenceValueLeaf<'static>
    ensures { leaf_of result ≡ whole number }
{
    if number <= i64::MAX as u64 {
        ReferenceValueLeaf::I64(number as i64)
    } else {
        ReferenceValueLeaf::U64(number)
    }
}

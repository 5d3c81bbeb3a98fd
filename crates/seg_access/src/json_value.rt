//! A JSON value without floats: a leaf, a list of values, or a list of keys with values.
ghost use Rattle.std.specs.Prelude.{◌≡◌, ◌<◌, slice_get, Some, List, ℕ, [], ◌∷◌, ◌++◌, length, OnOk, OnErr};

use seg_tokens::Text;
use std::alloc::{AllocError, Global};
use std::marker::Model;

/// A JSON value whose numbers are whole. A number has no type of its own: it stands for an i64 where it is one, else
/// for a u64, whichever variant holds it.
#[cycle(json)]
#[derive(Drop)]
pub enum JsonValue {
    Null,
    Bool(bool),
    U64(u64),
    I64(i64),
    Str(Text),
    Array(JsonValues),
    Object(JsonMembers),
}

/// JSON values, in order.
#[cycle(json)]
#[derive(Drop)]
pub struct JsonValues {
    values: Vec<JsonValue>,
}

/// A key with its JSON value.
#[cycle(json)]
#[derive(Drop)]
pub struct JsonMember {
    key: Text,
    value: JsonValue,
}

/// Keys with JSON values, in order.
#[cycle(json)]
#[derive(Drop)]
pub struct JsonMembers {
    members: Vec<JsonMember>,
}

impl Model for JsonValues {
    ghost use Rattle.std.specs.Prelude.{List, map};
    ghost use Rattle.std.specs.Coded.{coded_list};
    ghost use Rattle.std.proofs.Common.{arith};
    ghost use Rattle.seg_values.specs.Tree.{Tree, trees_from, most_levels};
    ghost use Rattle.seg_values.specs.ValueCodes.{tree_code};

    ghost Value = { List Tree };

    ghost coded = { coded_list tree_code };

    ghost use Rattle.seg_access.specs.JsonTrees.{tree_of_json};

    ghost view = { λ a. map tree_of_json a.values.items };

    ghost size = { λ ts. most_levels (trees_from ts) };

    ghost use Rattle.seg_access.specs.JsonLevels.{most_deep-le};

    ghost size_decreases = { λ a h. Prim.omega (arith, most_deep-le a.values.items) };
}

impl Model for JsonMembers {
    ghost use Rattle.std.specs.Prelude.{List, ℕ, map};
    ghost use Rattle.std.specs.Coded.{coded_list, coded×};
    ghost use Rattle.std.proofs.Common.{arith};
    ghost use Rattle.seg_values.specs.Tree.{Tree, members_from, most_member_levels};
    ghost use Rattle.seg_tokens.specs.TokenCodes.{key_code};
    ghost use Rattle.seg_values.specs.ValueCodes.{tree_code};

    ghost Value = { List (List ℕ × Tree) };

    ghost coded = { coded_list (coded× key_code tree_code) };

    ghost use Rattle.seg_access.specs.JsonTrees.{member_of_json};

    ghost view = { λ a. map member_of_json a.members.items };

    ghost size = { λ ms. most_member_levels (members_from ms) };

    ghost use Rattle.seg_access.specs.JsonLevels.{most_member_deep-le};

    ghost size_decreases = { λ a h. Prim.omega (arith, most_member_deep-le a.members.items) };
}

impl JsonValues {
    ghost use Rattle.seg_access.specs.JsonTrees.{tree_of_json};

    /// The value at a place.
    pub fn get(&self, at: usize) -> &JsonValue
        requires { at < length self.now }
        ensures { slice_get self.now at ≡ Some (tree_of_json result.now) }
    {
        &self.values[at]
    }

    pub fn new(alloc: Global) -> JsonValues
        ensures { result ≡ [] }
    {
        JsonValues {
            values: Vec::new(alloc),
        }
    }

    pub fn len(&self) -> usize
        ensures { result ≡ length self.now }
    {
        self.values.len()
    }

    pub fn push(&mut self, value: JsonValue) -> Result<(), AllocError>
        ensures ok { OnOk result (self.new ≡ self.old ++ tree_of_json value ∷ []) }
        ensures err { OnErr result (self.new ≡ self.old) }
    {
        self.values.push(value)?;
        Ok(())
    }
}

impl JsonMembers {
    ghost use Rattle.seg_access.specs.JsonTrees.{tree_of_json};

    /// The key and the value at a place.
    pub fn get(&self, at: usize) -> (&str, &JsonValue)
        requires { at < length self.now }
        ensures { slice_get self.now at ≡ Some (result.0.now, tree_of_json result.1.now) }
    {
        let member = &self.members[at];
        (member.key.as_str(), &member.value)
    }

    pub fn push(&mut self, key: Text, value: JsonValue) -> Result<(), AllocError>
        ensures ok { OnOk result (self.new ≡ self.old ++ (key, tree_of_json value) ∷ []) }
        ensures err { OnErr result (self.new ≡ self.old) }
    {
        self.members.push(JsonMember { key, value })?;
        Ok(())
    }

    pub fn new(alloc: Global) -> JsonMembers
        ensures { result ≡ [] }
    {
        JsonMembers {
            members: Vec::new(alloc),
        }
    }

    pub fn len(&self) -> usize
        ensures { result ≡ length self.now }
    {
        self.members.len()
    }
}

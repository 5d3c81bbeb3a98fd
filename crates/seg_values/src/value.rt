//! A value: a leaf, a list of values, or a list of keys with values.
ghost use Rattle.std.specs.Prelude.{◌≡◌, ◌<◌, slice_get, Some, List, ℕ, [], ◌∷◌, ◌++◌, length, OnOk, OnErr};

use crate::facet::Facet;
use seg_common::DateTime;
use seg_tokens::{Bytes, PreTokenizedString, Text};
use std::alloc::{AllocError, Global};
use std::marker::Model;
use std::net::Ipv6Addr;

/// The most levels of a value that an index takes.
pub const MOST_LEVELS: u32 = 200;

#[cycle(value)]
#[derive(Debug, Drop)]
pub enum OwnedValue {
    Null,
    Str(Text),
    PreTokStr(PreTokenizedString),
    U64(u64),
    I64(i64),
    Bool(bool),
    Date(DateTime),
    Facet(Facet),
    Bytes(Bytes),
    Array(Values),
    Object(Members),
    IpAddr(Ipv6Addr),
}

/// Values, in order.
#[cycle(value)]
#[derive(Debug, Drop)]
pub struct Values {
    pub(crate) values: Vec<OwnedValue>,
}

/// A key with its value.
#[cycle(value)]
#[derive(Debug, Drop)]
pub struct Member {
    pub key: Text,
    pub value: OwnedValue,
}

/// Keys with values, in order.
#[cycle(value)]
#[derive(Debug, Drop)]
pub struct Members {
    pub(crate) members: Vec<Member>,
}

impl Model for Values {
    ghost use Rattle.std.specs.Prelude.{List, map};
    ghost use Rattle.std.specs.Coded.{coded_list};
    ghost use Rattle.std.proofs.Common.{arith};
    ghost use Rattle.seg_values.specs.Tree.{Tree, trees_from, most_levels};
    ghost use Rattle.seg_values.specs.ValueCodes.{tree_code};

    ghost Value = { List Tree };

    ghost coded = { coded_list tree_code };

    ghost use Rattle.seg_values.specs.ValueTrees.{tree_of};

    ghost view = { λ a. map tree_of a.values.items };

    ghost size = { λ ts. most_levels (trees_from ts) };

    ghost use Rattle.seg_values.specs.TreeLevels.{most_deep-le};

    ghost size_decreases = { λ a h. Prim.omega (arith, most_deep-le a.values.items) };
}

impl Model for Members {
    ghost use Rattle.std.specs.Prelude.{List, ℕ, map};
    ghost use Rattle.std.specs.Coded.{coded_list, coded×};
    ghost use Rattle.std.proofs.Common.{arith};
    ghost use Rattle.seg_values.specs.Tree.{Tree, members_from, most_member_levels};
    ghost use Rattle.seg_tokens.specs.TokenCodes.{key_code};
    ghost use Rattle.seg_values.specs.ValueCodes.{tree_code};

    ghost Value = { List (List ℕ × Tree) };

    ghost coded = { coded_list (coded× key_code tree_code) };

    ghost use Rattle.seg_values.specs.ValueTrees.{member_of};

    ghost view = { λ a. map member_of a.members.items };

    ghost size = { λ ms. most_member_levels (members_from ms) };

    ghost use Rattle.seg_values.specs.TreeLevels.{most_member_deep-le};

    ghost size_decreases = { λ a h. Prim.omega (arith, most_member_deep-le a.members.items) };
}

impl Values {
    ghost use Rattle.seg_values.specs.ValueTrees.{tree_of};

    /// The value at a place.
    pub fn get(&self, at: usize) -> &OwnedValue
        requires { at < length self.now }
        ensures { slice_get self.now at ≡ Some (tree_of result.now) }
    {
        &self.values[at]
    }

    pub fn new(alloc: Global) -> Values
        ensures { result ≡ [] }
    {
        Values {
            values: Vec::new(alloc),
        }
    }

    pub fn len(&self) -> usize
        ensures { result ≡ length self.now }
    {
        self.values.len()
    }

    pub fn push(&mut self, value: OwnedValue) -> Result<(), AllocError>
        ensures ok { OnOk result (self.new ≡ self.old ++ tree_of value ∷ []) }
        ensures err { OnErr result (self.new ≡ self.old) }
    {
        self.values.push(value)?;
        Ok(())
    }
}

impl Members {
    ghost use Rattle.seg_values.specs.ValueTrees.{tree_of};

    /// The key and the value at a place.
    pub fn get(&self, at: usize) -> (&str, &OwnedValue)
        requires { at < length self.now }
        ensures { slice_get self.now at ≡ Some (result.0.now, tree_of result.1.now) }
    {
        let member = &self.members[at];
        (member.key.as_str(), &member.value)
    }

    pub fn push(&mut self, key: Text, value: OwnedValue) -> Result<(), AllocError>
        ensures ok { OnOk result (self.new ≡ self.old ++ (key, tree_of value) ∷ []) }
        ensures err { OnErr result (self.new ≡ self.old) }
    {
        self.members.push(Member { key, value })?;
        Ok(())
    }

    pub fn new(alloc: Global) -> Members
        ensures { result ≡ [] }
    {
        Members {
            members: Vec::new(alloc),
        }
    }

    pub fn len(&self) -> usize
        ensures { result ≡ length self.now }
    {
        self.members.len()
    }
}

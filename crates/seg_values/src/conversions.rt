//! What a value is made of, and the number of its kind.
ghost use Rattle.std.specs.Prelude.{◌≡◌, Some, map, string_bytes, slice_get, IfOk, IsOkUnless};
ghost use Rattle.std.specs.Net.Addr.{ipv6_octets};
ghost use Rattle.seg_values.specs.StoredBytes.{tree_form};
ghost use Rattle.seg_values.specs.ValueTags.{tag};
ghost use Rattle.seg_values.specs.Tree as trees;
ghost use Rattle.seg_values.specs.ValueTrees.{tree_of, named_tree};

use crate::facet::Facet;
use crate::value::{Members, OwnedValue};
use crate::value_error::ValueError;
use seg_common::DateTime;
use seg_tokens::{Bytes, PreTokenizedString, Text};
use std::alloc::{AllocError, Global};
use std::collections::BTreeMap;
use std::net::Ipv6Addr;

impl OwnedValue {
    /// The number of the value's kind, which its stored form begins with.
    pub fn discriminant_value(&self) -> u8
        ensures number { result ≡ tag (tree_of self.now) }
        ensures stored { slice_get (tree_form (tree_of self.now)) 0 ≡ Some result }
    {
        match self {
            OwnedValue::Null => 0,
            OwnedValue::Str(_) => 1,
            OwnedValue::PreTokStr(_) => 2,
            OwnedValue::U64(_) => 3,
            OwnedValue::I64(_) => 4,
            OwnedValue::Bool(_) => 6,
            OwnedValue::Date(_) => 7,
            OwnedValue::Facet(_) => 8,
            OwnedValue::Bytes(_) => 9,
            OwnedValue::Array(_) => 10,
            OwnedValue::Object(_) => 11,
            OwnedValue::IpAddr(_) => 12,
        }
    }

    pub fn from_text(alloc: Global, text: &str) -> Result<OwnedValue, ValueError>
        ensures ok { IfOk result (λ v. tree_of v ≡ trees.leaf (trees.text text.now)) }
        ensures memory { IsOkUnless result ValueError.OutOfMemory }
    {
        Ok(OwnedValue::Str(Text::copy_of(alloc, text)?))
    }

    pub fn from_slice(alloc: Global, bytes: &[u8]) -> Result<OwnedValue, ValueError>
        ensures ok { IfOk result (λ v. tree_of v ≡ trees.leaf (trees.byte_string bytes.now)) }
        ensures memory { IsOkUnless result ValueError.OutOfMemory }
    {
        Ok(OwnedValue::from(Vec::from_slice(alloc, bytes)?))
    }

    /// The object with the members of a map, which are moved, in the order of their keys.
    pub fn from_map(
        alloc: Global,
        members: BTreeMap<String, OwnedValue>,
    ) -> Result<OwnedValue, ValueError>
        ensures ok { IfOk result
            (λ v. tree_of v ≡ trees.object (trees.members_from (map named_tree members.entries))) }
        ensures memory { IsOkUnless result ValueError.OutOfMemory }
    {
        Ok(OwnedValue::Object(members_from(alloc, members)?))
    }
}

fn members_from(alloc: Global, entries: BTreeMap<String, OwnedValue>) -> Result<Members, AllocError>
    ensures { IfOk result (λ ms. ms ≡ map named_tree entries.entries) }
{
    let mut members = Members::new(alloc);
    for (key, value) in entries {
        members.push(Text::from_string(key), value)?;
    }
    Ok(members)
}

impl AsRef<OwnedValue> for OwnedValue {
    fn as_ref(&self) -> &OwnedValue
        ensures { result.now ≡ self.now }
    {
        self
    }
}

impl From<String> for OwnedValue {
    ghost from_gives = { λ text v. tree_of v ≡ trees.leaf (trees.text (string_bytes text)) };

    fn from(text: String) -> OwnedValue {
        OwnedValue::Str(Text::from_string(text))
    }
}

impl From<PreTokenizedString> for OwnedValue {
    ghost from_gives = { λ text v. tree_of v ≡ trees.leaf (trees.pre_tokenized text) };

    fn from(text: PreTokenizedString) -> OwnedValue {
        OwnedValue::PreTokStr(text)
    }
}

impl From<u64> for OwnedValue {
    ghost from_gives = { λ number v. tree_of v ≡ trees.leaf (trees.unsigned number) };

    fn from(number: u64) -> OwnedValue {
        OwnedValue::U64(number)
    }
}

impl From<i64> for OwnedValue {
    ghost from_gives = { λ number v. tree_of v ≡ trees.leaf (trees.signed number) };

    fn from(number: i64) -> OwnedValue {
        OwnedValue::I64(number)
    }
}

impl From<bool> for OwnedValue {
    ghost from_gives = { λ truth v. tree_of v ≡ trees.leaf (trees.boolean truth) };

    fn from(truth: bool) -> OwnedValue {
        OwnedValue::Bool(truth)
    }
}

impl From<DateTime> for OwnedValue {
    ghost from_gives = { λ moment v. tree_of v ≡ trees.leaf (trees.date moment) };

    fn from(moment: DateTime) -> OwnedValue {
        OwnedValue::Date(moment)
    }
}

impl From<Facet> for OwnedValue {
    ghost from_gives = { λ facet v. tree_of v ≡ trees.leaf (trees.facet facet) };

    fn from(facet: Facet) -> OwnedValue {
        OwnedValue::Facet(facet)
    }
}

impl From<Vec<u8>> for OwnedValue {
    ghost from_gives = { λ bytes v. tree_of v ≡ trees.leaf (trees.byte_string bytes.items) };

    fn from(bytes: Vec<u8>) -> OwnedValue {
        OwnedValue::Bytes(Bytes::from_vec(bytes))
    }
}

impl From<Ipv6Addr> for OwnedValue {
    ghost from_gives = { λ address v. tree_of v ≡ trees.leaf (trees.ip (ipv6_octets address)) };

    fn from(address: Ipv6Addr) -> OwnedValue {
        OwnedValue::IpAddr(address)
    }
}

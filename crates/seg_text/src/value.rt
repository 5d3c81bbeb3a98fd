//! Values as JSON.
ghost use Rattle.std.specs.Prelude.{◌≡◌, ◌++◌, ◌∷◌, map, IfOk, OnOk};
ghost use Rattle.json.specs.Print.{quoted};
ghost use Rattle.serde_json.specs.Data.{no_members};
ghost use Rattle.serde_json.specs.Written.{compact_text};
ghost use Rattle.seg_values.specs.Tree.{array, object, trees_from, members_from};
ghost use Rattle.seg_values.specs.ValueTrees.{tree_of};
ghost use Rattle.seg_values.specs.ValueJson.{value_json, members_json};
ghost use Rattle.seg_text.specs.PlacedMembers.{placed_members, ArePlaces};

use crate::comma::push_comma_if;
use crate::decimal::{push_decimal, push_signed};
use crate::leaf::{push_address, push_base64, push_bool, push_date, push_facet};
use crate::pre_tokenized_text::push_pre_tokenized;
use crate::quoted_text::push_quoted;
use seg_values::{Members, OwnedValue, Values};
use std::alloc::{AllocError, Global};
use std::collections::BTreeMap;

/// The compact JSON text of a value.
#[cycle(push_value)]
pub(crate) fn push_value(
    out: &mut Vec<u8>,
    alloc: Global,
    value: &OwnedValue,
) -> Result<(), AllocError>
    ensures { OnOk result (out.new.items ≡ out.old.items ++ compact_text (value_json (tree_of value.now))) }
{
    match value {
        OwnedValue::Null => out.extend_from_slice(b"null"),
        OwnedValue::Str(text) => push_quoted(out, alloc, text.as_str()),
        OwnedValue::PreTokStr(text) => push_pre_tokenized(out, alloc, text),
        OwnedValue::U64(number) => push_decimal(out, *number),
        OwnedValue::I64(number) => push_signed(out, *number),
        OwnedValue::Bool(bit) => push_bool(out, *bit),
        OwnedValue::Date(date) => push_date(out, *date),
        OwnedValue::Facet(facet) => push_facet(out, alloc, facet),
        OwnedValue::Bytes(bytes) => push_base64(out, alloc, bytes.as_slice()),
        OwnedValue::Array(values) => push_array(out, alloc, values),
        OwnedValue::Object(members) => push_object(out, alloc, members),
        OwnedValue::IpAddr(address) => push_address(out, alloc, *address),
    }
}

#[cycle(push_value)]
fn push_array(out: &mut Vec<u8>, alloc: Global, values: &Values) -> Result<(), AllocError>
    ensures { OnOk result (out.new.items ≡ out.old.items ++ compact_text (value_json (array (trees_from values.now)))) }
{
    out.push(b'[')?;
    let mut later = false;
    for at in 0..values.len() {
        push_comma_if(out, later)?;
        push_value(out, alloc, values.get(at))?;
        later = true;
    }
    out.push(b']')?;
    Ok(())
}

/// Members in the byte order of their keys, of which the last of equal keys stays.
#[cycle(push_value)]
fn push_object(out: &mut Vec<u8>, alloc: Global, members: &Members) -> Result<(), AllocError>
    ensures { OnOk result (out.new.items
        ≡ out.old.items ++ compact_text (value_json (object (members_from members.now)))) }
{
    let places = last_places(alloc, members)?;
    out.push(b'{')?;
    let mut later = false;
    for (key, place) in &places {
        push_comma_if(out, later)?;
        push_member(out, alloc, key, members.get(*place).1)?;
        later = true;
    }
    out.push(b'}')?;
    Ok(())
}

#[cycle(push_value)]
fn push_member(
    out: &mut Vec<u8>,
    alloc: Global,
    key: &str,
    value: &OwnedValue,
) -> Result<(), AllocError>
    ensures { OnOk result (out.new.items
        ≡ out.old.items ++ quoted key.now ++ 58 ∷ compact_text (value_json (tree_of value.now))) }
{
    push_quoted(out, alloc, key)?;
    out.push(b':')?;
    push_value(out, alloc, value)
}

/// The place of the last member of each key.
fn last_places<'a>(
    alloc: Global,
    members: &'a Members,
) -> Result<BTreeMap<&'a str, usize>, AllocError>
    ensures members { IfOk result (λ places. members_json no_members (members_from members.now)
        ≡ placed_members members.now (map (λ p. (p.0.now, p.1)) places.entries)) }
    ensures places { IfOk result (λ places. ArePlaces members.now (map (λ p. (p.0.now, p.1)) places.entries)) }
{
    let mut places = BTreeMap::new(alloc);
    for place in 0..members.len() {
        places.insert(members.get(place).0, place)?;
    }
    Ok(places)
}

//! Values as JSON values.
ghost use Rattle.std.specs.Prelude.{◌≡◌, IfOk, IsOkUnless};
ghost use Rattle.serde_json.specs.Data.{array, no_members, string};
ghost use Rattle.serde_json.specs.View.{view, items_view, members_view};
ghost use Rattle.base64.specs.Engines.{standard};
ghost use Rattle.base64.specs.GeneralPurpose.{encode_of};
ghost use Rattle.seg_common.specs.DateText.{date_text};
ghost use Rattle.seg_values.specs.Facets.{path_of};
ghost use Rattle.seg_values.specs.Tree.{pre_tokenized, trees_from, members_from};
ghost use Rattle.seg_values.specs.ValueJson.{value_json, leaf_json, items_json, members_json, token_json, tokens_items};
ghost use Rattle.seg_values.specs.ValueTrees.{tree_of};

use crate::address::shown_address;
use crate::facet::Facet;
use crate::value::{Members, OwnedValue, Values};
use crate::value_error::ValueError;
use base64::engine::general_purpose::STANDARD;
use seg_common::DateTime;
use seg_tokens::{PreTokenizedString, Token};
use serde_json::{Map, Value, json, put};
use std::alloc::{AllocError, Global};

impl OwnedValue {
    /// The value as JSON, which has no dates, facets, bytes and addresses: they are texts. Of members with the same key
    /// the last stays. The call goes as deep as the value.
    pub fn to_json(&self, alloc: Global) -> Result<Value, ValueError>
        ensures ok { IfOk result (λ json. view json ≡ value_json (tree_of self.now)) }
        ensures memory { IsOkUnless result ValueError.OutOfMemory }
    {
        Ok(json_from(alloc, self)?)
    }
}

#[cycle(write_json)]
pub(crate) fn json_from(alloc: Global, value: &OwnedValue) -> Result<Value, AllocError>
    ensures { IfOk result (λ json. view json ≡ value_json (tree_of value.now)) }
{
    match value {
        OwnedValue::Null => Ok(Value::Null),
        OwnedValue::Str(text) => Ok(Value::String(String::from_str(alloc, text.as_str())?)),
        OwnedValue::PreTokStr(text) => tokenized_json(alloc, text),
        OwnedValue::U64(number) => Ok(Value::from(*number)),
        OwnedValue::I64(number) => Ok(Value::from(*number)),
        OwnedValue::Bool(bit) => Ok(Value::Bool(*bit)),
        OwnedValue::Date(date) => date_json(alloc, *date),
        OwnedValue::Facet(facet) => facet_json(alloc, facet),
        OwnedValue::Bytes(bytes) => Ok(Value::String(STANDARD.encode(alloc, bytes.as_slice())?)),
        OwnedValue::Array(values) => Ok(Value::Array(items_from(alloc, values)?)),
        OwnedValue::Object(members) => Ok(Value::Object(map_from(alloc, members)?)),
        OwnedValue::IpAddr(address) => Ok(Value::String(shown_address(alloc, *address)?)),
    }
}

#[cycle(write_json)]
fn items_from(alloc: Global, values: &Values) -> Result<Vec<Value>, AllocError>
    ensures { IfOk result (λ items. items_view items.items ≡ items_json (trees_from values.now)) }
{
    let mut items = Vec::new(alloc);
    for at in 0..values.len() {
        items.push(json_from(alloc, values.get(at))?)?;
    }
    Ok(items)
}

#[cycle(write_json)]
fn map_from(alloc: Global, members: &Members) -> Result<Map<String, Value>, AllocError>
    ensures { IfOk result (λ map. members_view map.entries ≡ members_json no_members (members_from members.now)) }
{
    let mut map = Map::new(alloc);
    for at in 0..members.len() {
        let (key, value) = members.get(at);
        put(&mut map, alloc, key, json_from(alloc, value)?)?;
    }
    Ok(map)
}

fn date_json(alloc: Global, date: DateTime) -> Result<Value, AllocError>
    ensures { IfOk result (λ json. view json ≡ string (date_text date)) }
{
    match date.to_rfc3339(alloc) {
        Ok(text) => Ok(Value::String(text)),
        Err(_) => Err(AllocError),
    }
}

/// The path of a facet.
fn facet_json(alloc: Global, facet: &Facet) -> Result<Value, AllocError>
    ensures { IfOk result (λ json. view json ≡ string (path_of facet.now)) }
{
    match facet.to_path_string(alloc) {
        Ok(path) => Ok(Value::String(path)),
        Err(_) => Err(AllocError),
    }
}

fn tokenized_json(alloc: Global, text: &PreTokenizedString) -> Result<Value, AllocError>
    ensures { IfOk result (λ json. view json ≡ leaf_json (pre_tokenized text.now)) }
{
    let tokens = tokens_json(alloc, text.tokens.as_slice())?;
    json!(in alloc; {"text": text.text.as_str(), "tokens": tokens})
}

fn tokens_json(alloc: Global, tokens: &[Token]) -> Result<Value, AllocError>
    ensures { IfOk result (λ json. view json ≡ array (tokens_items tokens.now)) }
{
    let mut items = Vec::new(alloc);
    for token in tokens {
        items.push(token_json(alloc, token)?)?;
    }
    Ok(Value::Array(items))
}

fn token_json(alloc: Global, token: &Token) -> Result<Value, AllocError>
    ensures { IfOk result (λ json. view json ≡ token_json token.now) }
{
    json!(in alloc; {
        "offset_from": token.offset_from,
        "offset_to": token.offset_to,
        "position": token.position,
        "position_length": token.position_length,
        "text": token.text.as_str()
    })
}

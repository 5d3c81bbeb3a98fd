//! Texts and numbers as leaves.
ghost use Rattle.std.specs.Prelude.{◌≡◌, option_map, IfOk, None, string_bytes};
ghost use Rattle.serde_json.specs.View.{number_view};
ghost use Rattle.seg_values.specs.declared.schema.FieldKind.TheVariants as kind;
ghost use Rattle.seg_values.specs.Tree.{leaf};
ghost use Rattle.seg_values.specs.ValueTrees.{tree_of};
ghost use Rattle.seg_script_values.specs.Leaves.{told_leaf, text_leaf, signed_first, unsigned_first, number_leaf};

use crate::addresses::address_from;
use crate::byte_texts::bytes_from;
use crate::facet_texts::facet_from;
use seg_common::{DateTime, can_be_rfc3339_date_time};
use seg_tokens::Text;
use seg_values::{FieldKind, OwnedValue};
use serde_json::Number;
use std::alloc::{AllocError, Global};

/// The leaf that a text is by a kind. A text that tells nothing else is moved.
pub(crate) fn text_leaf(
    alloc: Global,
    kind: FieldKind,
    text: String,
) -> Result<OwnedValue, AllocError>
    ensures { IfOk result (λ value. tree_of value ≡ leaf (text_leaf kind (string_bytes text))) }
{
    match told_leaf(alloc, kind, text.as_str())? {
        Some(value) => Ok(value),
        None => Ok(OwnedValue::Str(Text::from_string(text))),
    }
}

/// What a text tells by a kind, but itself.
fn told_leaf(alloc: Global, kind: FieldKind, text: &str) -> Result<Option<OwnedValue>, AllocError>
    ensures { IfOk result (λ value. option_map tree_of value ≡ option_map leaf (told_leaf kind text.now)) }
{
    match kind {
        FieldKind::Text | FieldKind::U64 | FieldKind::I64 | FieldKind::Bool => Ok(None),
        FieldKind::Date => Ok(date_leaf(text)),
        FieldKind::Facet => facet_leaf(alloc, text),
        FieldKind::Bytes => bytes_leaf(alloc, text),
        FieldKind::IpAddr => Ok(address_leaf(text)),
        FieldKind::Json => Ok(json_leaf(text)),
    }
}

fn date_leaf(text: &str) -> Option<OwnedValue>
    ensures { option_map tree_of result ≡ option_map leaf (told_leaf kind.Date text.now) }
{
    Some(OwnedValue::Date(DateTime::parse_rfc3339(text)?))
}

fn facet_leaf(alloc: Global, text: &str) -> Result<Option<OwnedValue>, AllocError>
    ensures { IfOk result (λ value. option_map tree_of value ≡ option_map leaf (told_leaf kind.Facet text.now)) }
{
    match facet_from(alloc, text)? {
        Some(facet) => Ok(Some(OwnedValue::Facet(facet))),
        None => Ok(None),
    }
}

fn bytes_leaf(alloc: Global, text: &str) -> Result<Option<OwnedValue>, AllocError>
    ensures { IfOk result (λ value. option_map tree_of value ≡ option_map leaf (told_leaf kind.Bytes text.now)) }
{
    match bytes_from(alloc, text)? {
        Some(bytes) => Ok(Some(OwnedValue::Bytes(bytes))),
        None => Ok(None),
    }
}

fn address_leaf(text: &str) -> Option<OwnedValue>
    ensures { option_map tree_of result ≡ option_map leaf (told_leaf kind.IpAddr text.now) }
{
    Some(OwnedValue::IpAddr(address_from(text)?))
}

fn json_leaf(text: &str) -> Option<OwnedValue>
    ensures { option_map tree_of result ≡ option_map leaf (told_leaf kind.Json text.now) }
{
    if can_be_rfc3339_date_time(text) {
        date_leaf(text)
    } else {
        None
    }
}

/// The leaf that a number is by a kind; none where it isn't whole.
pub(crate) fn number_leaf(kind: FieldKind, number: &Number) -> Option<OwnedValue>
    ensures { option_map tree_of result ≡ option_map leaf (number_leaf kind (number_view number.now)) }
{
    match kind {
        FieldKind::U64 => unsigned_first(number),
        _ => signed_first(number),
    }
}

fn unsigned_first(number: &Number) -> Option<OwnedValue>
    ensures { option_map tree_of result ≡ option_map leaf (unsigned_first (number_view number.now)) }
{
    match number.as_u64() {
        Some(value) => Some(OwnedValue::U64(value)),
        None => Some(OwnedValue::I64(number.as_i64()?)),
    }
}

fn signed_first(number: &Number) -> Option<OwnedValue>
    ensures { option_map tree_of result ≡ option_map leaf (signed_first (number_view number.now)) }
{
    match number.as_i64() {
        Some(value) => Some(OwnedValue::I64(value)),
        None => Some(OwnedValue::U64(number.as_u64()?)),
    }
}

//! The members of a JSON object.
ghost use Rattle.std.specs.Prelude.{◌≡◌, ◌<◌, map, option_map, Some, None, Err, IfOk, IfSome};
ghost use Rattle.std.specs.List.{list_any};
ghost use Rattle.std.specs.Str.{bytes_eq};
ghost use Rattle.serde_json.specs.Find.{as_bool, as_str};
ghost use Rattle.serde_json.specs.View.{view};
ghost use Rattle.seg_meta.specs.JsonReaders.{required, natural, below, nullable, has_only};

use crate::ReadError;
use seg_tokens::Text;
use serde_json::Value;
use std::alloc::Global;

/// Whether a value is an object with no member but these.
pub fn has_only(json: &Value, names: &[&str]) -> bool
    ensures { result ≡ has_only (map (λ n. n.now) names.now) (view json.now) }
{
    let Some(members) = json.as_object() else {
        return false;
    };
    for (name, _) in members.iter() {
        if !is_among(name.as_str(), names) {
            return false;
        }
    }
    true
}

/// The text that a member is.
pub fn text_at<'a>(json: &'a Value, name: &str) -> Option<&'a str>
    ensures { option_map (λ s. s.now) result ≡ required as_str name.now (view json.now) }
{
    json.get(name)?.as_str()
}

/// The text that a member is, where it isn't null.
pub(crate) fn optional_text_at(
    alloc: Global,
    json: &Value,
    name: &str,
) -> Result<Option<Text>, ReadError>
    ensures ok { IfOk result (λ t. required (nullable as_str) name.now (view json.now) ≡ Some t) }
    ensures none { result ≡ Err ReadError.NoMeta → required (nullable as_str) name.now (view json.now) ≡ None }
{
    match json.get(name) {
        Some(Value::Null) => Ok(None),
        Some(Value::String(text)) => Ok(Some(Text::copy_of(alloc, text.as_str())?)),
        _ => Err(ReadError::NoMeta),
    }
}

/// The truth value that a member is.
pub(crate) fn flag_at(json: &Value, name: &str) -> Option<bool>
    ensures { result ≡ required as_bool name.now (view json.now) }
{
    json.get(name)?.as_bool()
}

/// The natural number that a member is.
pub fn number_at(json: &Value, name: &str) -> Option<u64>
    ensures { result ≡ required natural name.now (view json.now) }
{
    json.get(name)?.as_u64()
}

/// The natural number below a limit that a member is.
pub(crate) fn below_at(json: &Value, name: &str, limit: u64) -> Option<u64>
    ensures value { result ≡ required (below limit) name.now (view json.now) }
    ensures small { IfSome result (λ n. n < limit) }
{
    let number = json.get(name)?.as_u64()?;
    if number < limit { Some(number) } else { None }
}

fn is_among(name: &str, names: &[&str]) -> bool
    ensures { result ≡ list_any (λ n. bytes_eq name.now n.now) names.now }
{
    names.iter().any(|other| name == *other)
}

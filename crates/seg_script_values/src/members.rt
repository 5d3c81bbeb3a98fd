//! The members of a JSON object.
ghost use Rattle.std.specs.Prelude.{◌≡◌, ◌^◌, option_map};
ghost use Rattle.serde_json.specs.Find.{as_bool, get};
ghost use Rattle.serde_json.specs.View.{view};
ghost use Rattle.seg_meta.specs.JsonReaders.{required, below};
ghost use Rattle.seg_script_values.specs.OptionalMembers.{optional};

use serde_json::Value;

/// The truth value that a member is, or the default.
pub fn flag_or(default: bool, json: &Value, name: &str) -> Option<bool>
    ensures { result ≡ optional default as_bool name.now (view json.now) }
{
    match json.get(name) {
        None => Some(default),
        Some(value) => value.as_bool(),
    }
}

/// The number of 32 bits that a member is.
pub fn small_at(json: &Value, name: &str) -> Option<u32>
    ensures { result ≡ required (below (2 ^ 32)) name.now (view json.now) }
{
    small_from(json.get(name)?)
}

/// The number of 32 bits that a member is, or the default.
pub fn small_or(default: u32, json: &Value, name: &str) -> Option<u32>
    ensures { result ≡ optional default (below (2 ^ 32)) name.now (view json.now) }
{
    match json.get(name) {
        None => Some(default),
        Some(value) => small_from(value),
    }
}

/// The number of 32 bits that a value is.
fn small_from(json: &Value) -> Option<u32>
    ensures { result ≡ below (2 ^ 32) (view json.now) }
{
    let number = json.as_u64()?;
    if number < 1 << 32 {
        Some(number as u32)
    } else {
        None
    }
}

/// The member with a name, moved out of its object.
pub fn take_member(json: Value, name: &str) -> Option<Value>
    ensures { option_map view result ≡ get name.now (view json) }
{
    match json {
        Value::Object(mut members) => members.remove(name),
        _ => None,
    }
}

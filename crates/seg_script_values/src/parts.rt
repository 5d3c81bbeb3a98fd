//! Parts of JSON values, moved out of them.
ghost use Rattle.std.specs.Prelude.{◌≡◌, ◌≢◌, [], ◌∷◌, length, MatchOption, option_map, string_bytes};
ghost use Rattle.serde_json.specs.Find.{as_str};
ghost use Rattle.serde_json.specs.View.{view};

use serde_json::{Map, Value};

/// The text of a value that is one.
pub fn text_of(json: Value) -> Option<String>
    ensures { option_map string_bytes result ≡ as_str (view json) }
{
    match json {
        Value::String(text) => Some(text),
        _ => None,
    }
}

/// The name and the value of the one member of an object of one.
pub fn only_member(mut members: Map<String, Value>) -> Option<(String, Value)>
    ensures { MatchOption result (length members.entries ≢ 1) (λ p. members.entries ≡ p ∷ []) }
{
    if members.len() != 1 {
        return None;
    }
    members.pop_first()
}

/// The names and the values of the members of an object of two, in the order of their names.
pub(crate) fn two_members(mut members: Map<String, Value>) -> Option<(String, Value, String, Value)>
    ensures { MatchOption result (length members.entries ≢ 2) (λ p. members.entries ≡ (p.0, p.1) ∷ (p.2, p.3) ∷ []) }
{
    if members.len() != 2 {
        return None;
    }
    let (first, value) = members.pop_first()?;
    let (second, other) = members.pop_first()?;
    Some((first, value, second, other))
}

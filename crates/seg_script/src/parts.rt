//! The values of a short list, moved out of it.
ghost use Rattle.std.specs.Prelude.{◌≡◌, ◌≢◌, [], ◌∷◌, length, MatchOption, option_map};
ghost use Rattle.serde_json.specs.View.{view, items_view};
ghost use Rattle.seg_script.specs.Pairs.{two_or_three};

use serde_json::Value;

/// The values of a list of two or of three.
pub(crate) fn two_or_three(mut items: Vec<Value>) -> Option<(Value, Value, Option<Value>)>
    ensures { option_map (λ p. (view p.0, view p.1, option_map view p.2)) result
        ≡ two_or_three (items_view items.items) }
{
    if items.len() == 3 {
        let third = items.pop()?;
        let (first, second) = two(items)?;
        return Some((first, second, Some(third)));
    }
    let (first, second) = two(items)?;
    Some((first, second, None))
}

/// The values of a list of two.
fn two(mut items: Vec<Value>) -> Option<(Value, Value)>
    ensures { MatchOption result (length items.items ≢ 2) (λ p. items.items ≡ p.0 ∷ p.1 ∷ []) }
{
    if items.len() != 2 {
        return None;
    }
    let second = items.pop()?;
    let first = items.pop()?;
    Some((first, second))
}

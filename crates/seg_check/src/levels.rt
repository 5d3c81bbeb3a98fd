//! How deep values are nested.
ghost use Rattle.std.specs.Prelude.{◌≡◌, nat_le};
ghost use Rattle.std.specs.List.{list_all};
ghost use Rattle.seg_values.specs.StoredBytes.{most_levels_read};
ghost use Rattle.seg_values.specs.Tree.{levels};
ghost use Rattle.seg_values.specs.ValueTrees.{tree_of};

use seg_values::{MOST_LEVELS, OwnedValue, Pairs};

/// Whether no value has more than the most levels.
#[tactic(auto, using(crate::proofs::ListTails::drop_at))]
pub(crate) fn are_shallow(document: &Pairs<'_>) -> bool
    ensures { result ≡ list_all (λ p. nat_le (levels p.1) most_levels_read) document.now }
{
    for at in 0..document.len() {
        let (_, value) = document.pair(at);
        if !is_within(value, MOST_LEVELS) {
            return false;
        }
    }
    true
}

/// Whether a value has at most this many levels.
fn is_within(value: &OwnedValue, most: u32) -> bool
    ensures { result ≡ nat_le (levels (tree_of value.now)) most }
{
    if most == 0 {
        return false;
    }
    match value {
        OwnedValue::Array(values) => {
            for at in 0..values.len() {
                if !is_within(values.get(at), most - 1) {
                    return false;
                }
            }
            true
        }
        OwnedValue::Object(members) => {
            for index in 0..members.len() {
                let (_, child) = members.get(index);
                if !is_within(child, most - 1) {
                    return false;
                }
            }
            true
        }
        _ => true,
    }
}

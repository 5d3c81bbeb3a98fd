//! The codes of the leaves of JSON values that are no texts.
ghost use Rattle.std.specs.Prelude.{◌≡◌};
ghost use Rattle.seg_model.specs.Occurrences.{coded_value};
ghost use Rattle.seg_paths.specs.NumberedLeaves.{leaf_in};
ghost use Rattle.seg_values.specs.ValueTrees.{tree_of};
ghost use Rattle.seg_build.specs.CodedLeaves.{codes_of};

use seg_values::{LeafCode, OwnedValue};

/// The code of a leaf, if it has one.
pub(crate) fn coded_leaf(leaf: &OwnedValue) -> Option<LeafCode>
    ensures { codes_of result ≡ coded_value (leaf_in (tree_of leaf.now)) }
{
    match leaf {
        OwnedValue::U64(number) => Some(seg_values::coded_leaf(*number)),
        OwnedValue::I64(number) => Some(seg_values::coded_leaf(*number)),
        OwnedValue::Bool(truth) => Some(seg_values::coded_leaf(*truth)),
        OwnedValue::Date(moment) => Some(seg_values::coded_leaf(*moment)),
        _ => None,
    }
}

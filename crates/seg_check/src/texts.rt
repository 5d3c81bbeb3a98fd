//! The texts of JSON fields.
ghost use Rattle.std.specs.Prelude.{◌≡◌, ◌++◌, map, IfOk, IsTrue, OnOk};
ghost use Rattle.seg_model.specs.Occurrences as occurrences;
ghost use Rattle.seg_check.specs.TextSizes.{measured};
ghost use Rattle.seg_check.specs.ValueLeaves.{leaf_in};
ghost use Rattle.seg_values.specs.ValueTrees.{tree_of};

use crate::field_text::analyzed;
use crate::size::{TextSize, text_size};
use seg_tokens::{Analyzers, Tokens};
use seg_values::OwnedValue;
use std::alloc::{AllocError, Global};

/// Cuts a leaf of a JSON field, where it is a text, whose tokens come after those of the texts before it. The size of
/// the leaf; none where positions decrease.
pub(crate) fn cut_leaf<Z: Analyzers>(
    texts: &mut Vec<Tokens>,
    alloc: Global,
    analyzers: &Z,
    tokenizer: &str,
    leaf: &OwnedValue,
) -> Result<Option<TextSize>, AllocError>
    requires { IsTrue (Z.knows analyzers.now tokenizer.now) }
    ensures size { IfOk result (λ size. size
        ≡ measured (map (Z.tokens_of analyzers.now tokenizer.now)
        (occurrences.leaf_text (leaf_in (tree_of leaf.now))))) }
    ensures cut { OnOk result (texts.new.items ≡ texts.old.items
        ++ map (Z.tokens_of analyzers.now tokenizer.now) (occurrences.leaf_text (leaf_in (tree_of leaf.now)))) }
{
    match leaf {
        OwnedValue::Str(text) => {
            let tokens = analyzed(alloc, analyzers, tokenizer, text.as_str())?;
            let size = text_size(tokens.as_slice());
            texts.push(tokens)?;
            Ok(size)
        }
        _ => Ok(Some(TextSize::none())),
    }
}

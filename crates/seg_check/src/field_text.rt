//! A text of a document, cut into its tokens.
ghost use Rattle.std.specs.Prelude.{◌≡◌, [], true, IfOk, IsTrue};
ghost use Rattle.seg_check.specs.KnownTokenizers.{KnowsTexts};
ghost use Rattle.seg_check.specs.TextTokens.{cut_or_given, IsCut};
ghost use Rattle.seg_model.specs.Fields as fields;
ghost use Rattle.seg_model.specs.Occurrences.{value_tokens};
ghost use Rattle.seg_values.specs.ValueTrees.{tree_of};

use crate::entry::indexing_tokenizer;
use seg_tokens::{Analyzers, Token, Tokens};
use seg_values::{FieldEntry, FieldKind, OwnedValue};
use std::alloc::{AllocError, Global};

/// A value of a field, which is at a place of its document, as a text.
#[derive(Drop)]
pub(crate) struct FieldText {
    pub field: u32,
    pub at: usize,
    /// The tokens that it was cut into, unless it comes with its own.
    pub cut: Option<Tokens>,
}

impl FieldText {
    /// The tokens that the value was cut into, or else its own.
    pub fn tokens<'a>(&'a self, value: &'a OwnedValue) -> &'a [Token]
        ensures { result.now ≡ cut_or_given self.now.cut (tree_of value.now) }
    {
        if let Some(tokens) = &self.cut {
            return tokens.as_slice();
        }
        given_tokens(value)
    }
}

/// The tokens that a value comes with.
pub fn given_tokens(value: &OwnedValue) -> &[Token]
    ensures { result.now ≡ value_tokens (λ _. []) (tree_of value.now) }
{
    match value {
        OwnedValue::PreTokStr(given) => given.tokens.as_slice(),
        _ => &[],
    }
}

/// The tokens that a value of an indexed text field is cut into, unless it comes with its own; none in another field.
pub(crate) fn cut_tokens<Z: Analyzers>(
    alloc: Global,
    analyzers: &Z,
    entry: &FieldEntry,
    value: &OwnedValue,
) -> Result<Option<Tokens>, AllocError>
    requires known { KnowsTexts (Z.knows analyzers.now) entry.now }
    requires indexed { fields.is_indexed entry.now ≡ true }
    ensures { IfOk result (λ cut. IsCut (Z.tokens_of analyzers.now) entry.now cut (tree_of value.now)) }
{
    match (entry.kind, value) {
        (FieldKind::Text, OwnedValue::Str(text)) => {
            let tokens = analyzed(alloc, analyzers, indexing_tokenizer(entry), text.as_str())?;
            Ok(Some(tokens))
        }
        _ => Ok(None),
    }
}

/// The tokens of a text.
pub(crate) fn analyzed<Z: Analyzers>(
    alloc: Global,
    analyzers: &Z,
    tokenizer: &str,
    text: &str,
) -> Result<Tokens, AllocError>
    requires { IsTrue (Z.knows analyzers.now tokenizer.now) }
    ensures { IfOk result (λ tokens. tokens ≡ Z.tokens_of analyzers.now tokenizer.now text.now) }
{
    let mut tokens = Tokens::new(alloc);
    analyzers.tokens(alloc, tokenizer, text, &mut tokens)?;
    Ok(tokens)
}

//! A value of a document in an indexed field.
ghost use Rattle.seg_check.specs.IndexedValues.{IsFormOf};

use seg_tokens::Tokens;
use seg_values::{FieldEntry, FieldKind};

/// A value that is at a place of its document, in an indexed field.
#[derive(Drop)]
pub struct IndexedValue {
    pub field: u32,
    pub at: usize,
    pub form: ValueForm,
}

/// What gives the terms of a value.
#[derive(Drop)]
pub enum ValueForm {
    /// The tokens that its text was cut into.
    Cut(Tokens),
    /// The tokens that it comes with.
    PreTokenized,
    /// The leaves of a JSON value, with the tokens of those that are texts, from left to right.
    Leaves {
        expand_dots: bool,
        texts: Vec<Tokens>,
    },
    /// The value itself.
    Whole,
}

/// What gives the terms of a value that was cut into tokens or not, and whose leaves have these texts.
pub(crate) fn value_form(entry: &FieldEntry, cut: Option<Tokens>, texts: Vec<Tokens>) -> ValueForm
    ensures { IsFormOf entry.now cut texts.items result }
{
    match (entry.kind, cut) {
        (FieldKind::Text, Some(tokens)) => ValueForm::Cut(tokens),
        (FieldKind::Text, None) => ValueForm::PreTokenized,
        (FieldKind::Json, _) => ValueForm::Leaves {
            expand_dots: entry.expand_dots,
            texts,
        },
        _ => ValueForm::Whole,
    }
}

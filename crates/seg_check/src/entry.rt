//! What the entry of a field says about its texts.
ghost use Rattle.std.specs.Prelude.{◌≡◌};
ghost use Rattle.seg_model.specs.Fields as fields;

use seg_values::{FieldEntry, FieldKind};

/// The name of the tokenizer under which a field is indexed.
pub fn indexing_tokenizer(entry: &FieldEntry) -> &str
    ensures { result.now ≡ fields.indexing_tokenizer entry.now }
{
    let has_texts = match entry.kind {
        FieldKind::Text => true,
        FieldKind::Json => true,
        _ => false,
    };
    if !entry.is_indexed() || !has_texts {
        return "default";
    }
    match &entry.tokenizer {
        Some(name) => name.as_str(),
        None => "default",
    }
}

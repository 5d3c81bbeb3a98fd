//! The tokenizers that fast fields name.
ghost use Rattle.std.specs.Prelude.{◌≡◌, ◌||◌, option_map};
ghost use Rattle.std.specs.List.{list_any};
ghost use Rattle.seg_model.specs.Columns as model;
ghost use Rattle.seg_model.specs.Fields as fields;
ghost use Rattle.seg_model.specs.ValidInputs.{has_unknown_fast_tokenizer};

use seg_tokens::Analyzers;
use seg_values::{FieldEntry, FieldKind};

/// The fast tokenizer of a fast text or JSON field.
pub fn column_tokenizer(entry: &FieldEntry) -> Option<&str>
    ensures { option_map (λ t. t.now) result ≡ model.column_tokenizer entry.now }
{
    if !entry.fast || !has_texts(entry.kind) {
        return None;
    }
    match &entry.fast_tokenizer {
        Some(name) => Some(name.as_str()),
        None => None,
    }
}

fn has_texts(kind: FieldKind) -> bool
    ensures { result ≡ (fields.is_text kind || fields.is_json kind) }
{
    match kind {
        FieldKind::Text => true,
        FieldKind::Json => true,
        _ => false,
    }
}

/// Whether a field names a fast tokenizer that is unknown.
pub fn lack_tokenizers<Z: Analyzers>(analyzers: &Z, schema: &[FieldEntry]) -> bool
    ensures { result ≡ list_any (has_unknown_fast_tokenizer (Z.knows analyzers.now)) schema.now }
{
    schema.iter().any(|entry| lacks_tokenizer(analyzers, entry))
}

fn lacks_tokenizer<Z: Analyzers>(analyzers: &Z, entry: &FieldEntry) -> bool
    ensures { result ≡ has_unknown_fast_tokenizer (Z.knows analyzers.now) entry.now }
{
    match column_tokenizer(entry) {
        Some(name) => !analyzers.known(name),
        None => false,
    }
}

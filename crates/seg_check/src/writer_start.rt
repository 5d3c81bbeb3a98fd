//! When no writer of a segment is made.
ghost use Rattle.std.specs.Prelude.{◌≡◌, ◌<◌, ◌^◌, true, None, length, nat_lt, IfSome, IsTrue};
ghost use Rattle.std.specs.List.{list_all, AllByRecursion};
ghost use Rattle.seg_meta.specs.MetaMeaning.{settings_of};
ghost use Rattle.seg_model.specs.Fields.{indexing_tokenizer};
ghost use Rattle.seg_model.specs.ValidInputs as valid;
ghost use Rattle.seg_column_format.specs.FastTokenizers.{AreKnown};
ghost use Rattle.seg_check.specs.WriterStart.{IsStartError, start_refusal};

use crate::entry::indexing_tokenizer;
use seg_column_format::lack_tokenizers;
use seg_meta::IndexSettings;
use seg_tokens::Analyzers;
use seg_values::{ArgumentCause, Compressor, Field, FieldEntry, Schema, SchemaCause, TantivyError};

/// The fewest bytes of a budget.
pub const LEAST_BUDGET: usize = 15_000;

/// Why no writer is made, out of memory aside: the first of `Budget`, `FieldName`, `Settings`, `Tokenizer`,
/// `FastTokenizer`.
pub fn start_refusal<Z: Analyzers>(
    analyzers: &Z,
    budget: usize,
    schema: &Schema,
    settings: &IndexSettings,
) -> Option<TantivyError>
    ensures first { result ≡ start_refusal (Z.knows analyzers.now) budget schema.now settings.now }
    ensures errors { IfSome result IsStartError }
    ensures names { result ≡ None → valid.names_fit schema.now ≡ true }
    ensures known { result ≡ None
        → AllByRecursion (λ e. IsTrue (Z.knows analyzers.now (indexing_tokenizer e))) schema.now
        × AreKnown (Z.knows analyzers.now) schema.now }
{
    if budget < LEAST_BUDGET {
        return Some(TantivyError::InvalidArgument(ArgumentCause::Budget));
    }
    let entries = schema.fields();
    if !names_fit(entries) {
        return Some(TantivyError::InvalidArgument(ArgumentCause::FieldName));
    }
    if !settings_fit(settings) {
        return Some(TantivyError::InvalidArgument(ArgumentCause::Settings));
    }
    schema.fields_are_valid();
    if let Some(field) = unknown_tokenizer(analyzers, entries) {
        return Some(TantivyError::SchemaError(SchemaCause::Tokenizer { field }));
    }
    if lack_tokenizers(analyzers, entries) {
        return Some(TantivyError::InvalidArgument(ArgumentCause::FastTokenizer));
    }
    None
}

/// No name holds U+0000 or U+0001.
fn names_fit(schema: &[FieldEntry]) -> bool
    ensures { result ≡ valid.names_fit schema.now }
{
    schema.iter().all(name_fits)
}

fn name_fits(entry: &FieldEntry) -> bool
    ensures { result ≡ list_all (λ b. nat_lt 1 b) entry.now.name }
{
    entry.name.as_bytes().iter().all(|byte| *byte > 1)
}

/// Stored documents are not compressed, and no thread of its own is asked for.
pub fn settings_fit(settings: &IndexSettings) -> bool
    ensures { result ≡ valid.settings_fit (settings_of settings.now) }
{
    match settings.docstore_compression {
        Compressor::None => !settings.docstore_compress_dedicated_thread,
        _ => false,
    }
}

/// The first field whose tokenizer is unknown.
fn unknown_tokenizer<Z: Analyzers>(analyzers: &Z, schema: &[FieldEntry]) -> Option<Field>
    requires few { length schema.now < 2 ^ 32 }
    ensures first { result ≡ valid.unknown_tokenizer_of (Z.knows analyzers.now) schema.now }
    ensures known { result ≡ None
        → AllByRecursion (λ e. IsTrue (Z.knows analyzers.now (indexing_tokenizer e))) schema.now }
{
    for (place, entry) in schema.iter().enumerate() {
        if !analyzers.known(indexing_tokenizer(entry)) {
            return Some(Field::from_field_id(place as u32));
        }
    }
    None
}

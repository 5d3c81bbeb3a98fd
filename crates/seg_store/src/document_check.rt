//! Whether bytes are a stored document with pairs of some fields alone.
//!
//! Each document is taken apart once, and nothing is made of it, so no memory is asked for.
ghost use Rattle.std.specs.Prelude.{◌≡◌, None, option_map};
ghost use Rattle.seg_doc_bytes.specs.FrontReaders as read;
ghost use Rattle.seg_doc_bytes.specs.PassedBytes.{Passes};
ghost use Rattle.seg_store.specs.CheckedFields.{is_document_of, may_have, pair_of};
ghost use Rattle.seg_store.specs.StoredFields as fields;

use seg_doc_bytes::{pass_tree, take_field, take_varint};
use seg_values::{MOST_LEVELS, Schema};

/// Whether bytes are a stored document, from the first to the last, of which each pair has a stored field of the
/// schema; without a schema a pair may have any field.
pub(crate) fn is_document(bytes: &[u8], schema: Option<&Schema>) -> bool
    ensures { result ≡ is_document_of (may_have (option_map (λ s. s.now) schema.entry)) bytes.now }
{
    let mut left = bytes;
    match pass_pairs(&mut left, schema) {
        Some(()) => left.is_empty(),
        None => false,
    }
}

/// Passes pairs after their number.
fn pass_pairs(bytes: &mut &[u8], schema: Option<&Schema>) -> Option<()>
    ensures { Passes (read.counted_at (pair_of (may_have (option_map (λ s. s.now) schema.entry))))
        bytes.old.now bytes.new.now result }
{
    let count = take_varint(bytes)?;
    for _ in 0..count {
        pass_pair(bytes, schema)?;
    }
    Some(())
}

/// Passes a field that a pair may have, with its tree.
fn pass_pair(bytes: &mut &[u8], schema: Option<&Schema>) -> Option<()>
    ensures { Passes (pair_of (may_have (option_map (λ s. s.now) schema.entry))) bytes.old.now bytes.new.now result }
{
    let field = take_field(bytes)?;
    if !may_have(schema, field) {
        return None;
    }
    pass_tree(bytes, MOST_LEVELS)
}

/// Whether a pair may have a field: a stored one of the schema, or any without a schema.
fn may_have(schema: Option<&Schema>, field: u32) -> bool
    ensures { result ≡ may_have (option_map (λ s. s.now) schema.entry) field }
{
    match schema {
        Some(schema) => is_stored_field(schema, field),
        None => true,
    }
}

fn is_stored_field(schema: &Schema, field: u32) -> bool
    ensures { result ≡ fields.is_stored_field schema.now field }
{
    match schema.fields().get(field as usize) {
        Some(entry) => entry.stored,
        None => false,
    }
}

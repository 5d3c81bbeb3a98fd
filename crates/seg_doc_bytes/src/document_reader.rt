//! Documents from their stored bytes.
ghost use Rattle.std.specs.Prelude.{◌≡◌, ◌<◌, ℕ, List, Some, None, IfOk, MatchOption};
ghost use Rattle.seg_values.specs.Tree.{Document};
ghost use Rattle.seg_values.specs.ValueTrees.{tree_of};
ghost use Rattle.seg_doc_bytes.specs.FrontValues.{Makes};
ghost use Rattle.seg_doc_bytes.specs.FrontReaders as read;
ghost use Rattle.seg_doc_bytes.specs.StoredDocument as documents;

use crate::pieces::{take_small, take_varint};
use crate::tree_reader::read_tree;
use seg_values::{Field, MOST_LEVELS, OwnedValue, TantivyDocument};
use std::alloc::{AllocError, Global};

/// The document that bytes, from the first to the last, are the stored form of; `None` where they are that of none.
///
/// The one error is that there isn't memory enough.
pub fn document_of(alloc: Global, stored: &[u8]) -> Result<Option<TantivyDocument>, AllocError>
    ensures { IfOk result (λ o. MatchOption o (documents.stored_document_of stored.now ≡ None)
        (λ d. documents.stored_document_of stored.now ≡ Some d)) }
{
    let mut left = stored;
    let Some(document) = read_pairs(alloc, &mut left)? else {
        return Ok(None);
    };
    if !left.is_empty() {
        return Ok(None);
    }
    Ok(Some(document))
}

/// Pairs after their number.
fn read_pairs(alloc: Global, bytes: &mut &[u8]) -> Result<Option<TantivyDocument>, AllocError>
    ensures { IfOk result
        (Makes (read.counted_at documents.pair_at) (λ (d : Document). d) bytes.old.now bytes.new.now) }
{
    let Some(count) = take_varint(bytes) else {
        return Ok(None);
    };
    let mut document = TantivyDocument::new(alloc);
    for _ in 0..count {
        let Some(pair) = read_pair(alloc, bytes)? else {
            return Ok(None);
        };
        let Ok(()) = document.add_field_value(pair.0, pair.1) else {
            return Err(AllocError);
        };
    }
    Ok(Some(document))
}

/// A field with its tree.
fn read_pair(alloc: Global, bytes: &mut &[u8]) -> Result<Option<(Field, OwnedValue)>, AllocError>
    ensures { IfOk result (Makes documents.pair_at (λ p. (p.0, tree_of p.1)) bytes.old.now bytes.new.now) }
{
    let Some(field) = take_small(bytes) else {
        return Ok(None);
    };
    let Some(value) = read_tree(alloc, bytes, MOST_LEVELS)? else {
        return Ok(None);
    };
    if !is_top(&value) {
        return Ok(None);
    }
    Ok(Some((Field::from_field_id(field), value)))
}

/// Whether a field may have a value by itself, and not only within another.
fn is_top(value: &OwnedValue) -> bool
    ensures { result ≡ documents.is_top (tree_of value.now) }
{
    !matches!(value, OwnedValue::PreTokStr(_))
}

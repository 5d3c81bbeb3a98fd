//! The pairs of a stored document, as JSON: each call prints what is at the front of bytes, or gives up.
ghost use Rattle.std.specs.Prelude.{IfOk, MatchOption};
ghost use Rattle.serde_json.specs.Written.{compact_text};
ghost use Rattle.seg_doc_bytes.specs.FrontReaders as read;
ghost use Rattle.seg_doc_bytes.specs.StoredDocument.{pair_at};
ghost use Rattle.seg_text.specs.DocumentText.{document_json, pair_json};
ghost use Rattle.seg_text.specs.PrintedFronts.{HasMore, IsPrinted, Prints};

use crate::comma::push_comma_if;
use crate::pair::push_name;
use crate::stored_tree::push_stored_tree;
use seg_doc_bytes::{take_field, take_varint};
use seg_values::{Field, MOST_LEVELS, Schema};
use std::alloc::{AllocError, Global};

/// The list of all pairs of a stored document, or `None`, perhaps with some of it printed.
pub(crate) fn push_stored_pairs(
    out: &mut Vec<u8>,
    alloc: Global,
    schema: &Schema,
    stored: &[u8],
) -> Result<Option<()>, AllocError>
    ensures { IfOk result (λ o. MatchOption o (HasMore out.old.items out.new.items)
        (λ _. IsPrinted (λ d. compact_text (document_json schema.now d)) stored.now out.old.items out.new.items)) }
{
    let mut left = stored;
    let Some(()) = push_counted_pairs(out, alloc, schema, &mut left)? else {
        return Ok(None);
    };
    if !left.is_empty() {
        return Ok(None);
    }
    Ok(Some(()))
}

/// Pairs after their number.
fn push_counted_pairs(
    out: &mut Vec<u8>,
    alloc: Global,
    schema: &Schema,
    bytes: &mut &[u8],
) -> Result<Option<()>, AllocError>
    ensures { IfOk result (Prints (read.counted_at pair_at)
        (λ ps. compact_text (document_json schema.now ps)) bytes.old.now bytes.new.now out.old.items out.new.items) }
{
    let Some(count) = take_varint(bytes) else {
        return Ok(None);
    };
    out.push(b'[')?;
    let mut later = false;
    for _ in 0..count {
        push_comma_if(out, later)?;
        let Some(()) = push_stored_pair(out, alloc, schema, bytes)? else {
            return Ok(None);
        };
        later = true;
    }
    out.push(b']')?;
    Ok(Some(()))
}

/// The name of a field, and its tree.
fn push_stored_pair(
    out: &mut Vec<u8>,
    alloc: Global,
    schema: &Schema,
    bytes: &mut &[u8],
) -> Result<Option<()>, AllocError>
    ensures { IfOk result (Prints pair_at
        (λ p. compact_text (pair_json schema.now p)) bytes.old.now bytes.new.now out.old.items out.new.items) }
{
    let Some(field) = take_field(bytes) else {
        return Ok(None);
    };
    out.push(b'[')?;
    push_name(out, alloc, schema, Field::from_field_id(field))?;
    out.push(b',')?;
    let Some(()) = push_stored_tree(out, alloc, bytes, MOST_LEVELS)? else {
        return Ok(None);
    };
    out.push(b']')?;
    Ok(Some(()))
}

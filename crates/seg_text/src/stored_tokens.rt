//! Stored texts that come with their tokens, as JSON: each call prints what is at the front of bytes, or gives up.
ghost use Rattle.std.specs.Prelude.{IfOk};
ghost use Rattle.serde_json.specs.Data.{array};
ghost use Rattle.serde_json.specs.Written.{compact_text};
ghost use Rattle.seg_doc_bytes.specs.FrontReaders as read;
ghost use Rattle.seg_doc_bytes.specs.StoredTree as trees;
ghost use Rattle.seg_values.specs.ValueJson.{leaf_json, token_json, tokens_items};
ghost use Rattle.seg_text.specs.PrintedFronts.{Prints};

use crate::comma::push_comma_if;
use crate::pre_tokenized_text::push_token_parts;
use crate::quoted_text::push_quoted;
use seg_doc_bytes::{take_small, take_text, take_varint};
use std::alloc::{AllocError, Global};

/// A text with its tokens.
pub(crate) fn push_stored_pre_tokenized(
    out: &mut Vec<u8>,
    alloc: Global,
    bytes: &mut &[u8],
) -> Result<Option<()>, AllocError>
    ensures { IfOk result (Prints trees.pre_tokenized_at
        (λ l. compact_text (leaf_json l)) bytes.old.now bytes.new.now out.old.items out.new.items) }
{
    let Some(text) = take_text(bytes) else {
        return Ok(None);
    };
    out.extend_from_slice(b"{\"text\":")?;
    push_quoted(out, alloc, text)?;
    out.extend_from_slice(b",\"tokens\":")?;
    let Some(()) = push_stored_tokens(out, alloc, bytes)? else {
        return Ok(None);
    };
    out.push(b'}')?;
    Ok(Some(()))
}

/// Tokens after their number.
fn push_stored_tokens(
    out: &mut Vec<u8>,
    alloc: Global,
    bytes: &mut &[u8],
) -> Result<Option<()>, AllocError>
    ensures { IfOk result (Prints (read.counted_at trees.token_at)
        (λ ts. compact_text (array (tokens_items ts))) bytes.old.now bytes.new.now out.old.items out.new.items) }
{
    let Some(count) = take_varint(bytes) else {
        return Ok(None);
    };
    out.push(b'[')?;
    let mut later = false;
    for _ in 0..count {
        push_comma_if(out, later)?;
        let Some(()) = push_stored_token(out, alloc, bytes)? else {
            return Ok(None);
        };
        later = true;
    }
    out.push(b']')?;
    Ok(Some(()))
}

fn push_stored_token(
    out: &mut Vec<u8>,
    alloc: Global,
    bytes: &mut &[u8],
) -> Result<Option<()>, AllocError>
    ensures { IfOk result (Prints trees.token_at
        (λ t. compact_text (token_json t)) bytes.old.now bytes.new.now out.old.items out.new.items) }
{
    let Some(offset_from) = take_varint(bytes) else {
        return Ok(None);
    };
    let Some(offset_to) = take_varint(bytes) else {
        return Ok(None);
    };
    let Some(position) = take_small(bytes) else {
        return Ok(None);
    };
    let Some(position_length) = take_small(bytes) else {
        return Ok(None);
    };
    let Some(text) = take_text(bytes) else {
        return Ok(None);
    };
    push_token_parts(
        out,
        alloc,
        offset_from,
        offset_to,
        position,
        position_length,
        text,
    )?;
    Ok(Some(()))
}

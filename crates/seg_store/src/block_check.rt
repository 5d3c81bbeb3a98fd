//! Whether bytes are a block.
ghost use Rattle.std.specs.Prelude.{◌≡◌, ◌≤◌, ◌*◌, length, true, false, option_map, MatchOption};
ghost use Rattle.seg_store.specs.Block as block;
ghost use Rattle.seg_store.specs.CheckedFields.{is_block_of, is_document_of, may_have};
ghost use Rattle.seg_store.specs.CutParts.{are_parts};
ghost use Rattle.seg_store.specs.Ends.{numbers_of};

use crate::document_check::is_document;
use crate::parts::part;
use seg_common::{u32_at, u64_at};
use seg_values::Schema;

/// How many documents a block has; nothing where bytes are no block, or a pair has no stored field of the schema.
pub(crate) fn checked_len(bytes: &[u8], schema: Option<&Schema>) -> Option<u32>
    ensures { MatchOption result
        (is_block_of (may_have (option_map (λ s. s.now) schema.entry)) bytes.now ≡ false)
        (λ n. (is_block_of (may_have (option_map (λ s. s.now) schema.entry)) bytes.now ≡ true)
        × (n ≡ length (block.documents_in bytes.now))) }
{
    if bytes.len() < 4 {
        return None;
    }
    let (rest, footer) = bytes.split_at(bytes.len() - 4);
    let count = u32_at(footer, 0);
    if count == 0 {
        return None;
    }
    if count as usize > rest.len() / 8 {
        return None;
    }
    let (body, ends) = rest.split_at(rest.len() - 8 * count as usize);
    if !are_documents(body, ends, count as usize, schema) {
        return None;
    }
    Some(count)
}

/// Whether the first ends of a table cut bytes into stored documents.
fn are_documents(bytes: &[u8], ends: &[u8], count: usize, schema: Option<&Schema>) -> bool
    requires { 8 * count ≤ length ends.now }
    ensures { result ≡ are_parts (is_document_of (may_have (option_map (λ s. s.now) schema.entry)))
        0 (numbers_of count ends.now) bytes.now }
{
    let mut start = 0;
    for index in 0..count {
        let end = u64_at(ends, 8 * index);
        let Some(document) = part(bytes, start, end) else {
            return false;
        };
        if !is_document(document, schema) {
            return false;
        }
        start = end;
    }
    start == bytes.len() as u64
}

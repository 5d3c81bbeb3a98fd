//! Whether bytes are a store.
ghost use Rattle.std.specs.Prelude.{◌≡◌, ◌≤◌, ◌+◌, ◌*◌, length, option_map};
ghost use Rattle.seg_store.specs.CheckedFields.{is_block_of, is_store_of, may_have};
ghost use Rattle.seg_store.specs.CutParts.{are_blocks};
ghost use Rattle.seg_store.specs.Store as store;

use crate::block_check::checked_len;
use crate::checkpoint::{CHECKPOINT_BYTES, checkpoint_at};
use crate::parts::part;
use seg_common::u32_at;
use seg_values::Schema;

/// How many bytes the numbers of blocks and documents take at the end, with the byte that says that no block is
/// compressed.
pub(crate) const FOOTER_BYTES: usize = 9;

/// Whether bytes are a store, of which each pair has a stored field of the schema; without a schema a pair may have any
/// field.
pub(crate) fn is_store(bytes: &[u8], schema: Option<&Schema>) -> bool
    ensures { result ≡ is_store_of (may_have (option_map (λ s. s.now) schema.entry)) bytes.now }
{
    if bytes.len() < FOOTER_BYTES {
        return false;
    }
    let (rest, footer) = bytes.split_at(bytes.len() - FOOTER_BYTES);
    let count = u32_at(footer, 0) as usize;
    if count > rest.len() / CHECKPOINT_BYTES {
        return false;
    }
    if footer[8] != 0 {
        return false;
    }
    let (body, table) = rest.split_at(rest.len() - CHECKPOINT_BYTES * count);
    are_blocks(body, table, count, u32_at(footer, 4), schema)
}

/// Whether the first checkpoints of a table cut bytes into blocks with this many documents.
fn are_blocks(bytes: &[u8], table: &[u8], count: usize, total: u32, schema: Option<&Schema>) -> bool
    requires { 12 * count ≤ length table.now }
    ensures { result ≡ are_blocks (is_block_of (may_have (option_map (λ s. s.now) schema.entry)))
        0 total 0 (store.checkpoints_of count table.now) bytes.now }
{
    let mut documents = 0;
    let mut start = 0;
    for index in 0..count {
        let checkpoint = checkpoint_at(table, index);
        let Some(block) = part(bytes, start, checkpoint.byte_end) else {
            return false;
        };
        let Some(len) = checked_len(block, schema) else {
            return false;
        };
        if checkpoint.doc_end as u64 != documents as u64 + len as u64 {
            return false;
        }
        documents = checkpoint.doc_end;
        start = checkpoint.byte_end;
    }
    start == bytes.len() as u64 && total == documents
}

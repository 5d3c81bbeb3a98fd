//! Where documents lie in a store: the block by a search in the checkpoints, and the document by the ends in that
//! block.
ghost use Rattle.std.specs.Prelude.{◌≡◌, ◌≤◌, ◌<◌, ◌+◌, ◌*◌, ℕ, true, length, take, map, slice_range, Some};
ghost use Rattle.std.specs.List.{slice_get};
ghost use Rattle.seg_common.specs.LittleEndian as numbers;
ghost use Rattle.seg_store.specs.Block.{block_table, is_block, documents_in};
ghost use Rattle.seg_store.specs.Cache.{block_of};
ghost use Rattle.seg_store.specs.Ends.{numbers_of, start_of};
ghost use Rattle.seg_store.specs.Store.{store_table, store_body, checkpoints_of, is_store, blocks_of, raw_documents, document_count};

use crate::checkpoint::{CHECKPOINT_BYTES, checkpoint_at};
use crate::store_check::FOOTER_BYTES;
use seg_common::{u32_at, u64_at};

/// Where a document starts and ends in a store.
pub(crate) fn document_place(bytes: &[u8], doc: u32) -> (usize, usize)
    requires store { is_store bytes.now ≡ true }
    requires within { doc < document_count (blocks_of bytes.now) }
    ensures order { result.0 ≤ result.1 }
    ensures within { result.1 ≤ length bytes.now }
    ensures is { slice_get (raw_documents (blocks_of bytes.now)) doc ≡ Some (slice_range bytes.now result.0 result.1) }
{
    let number = block_number(bytes, doc);
    place_in_store(bytes, number, doc)
}

/// Where a document of a block starts and ends in a store.
pub(crate) fn place_in_store(bytes: &[u8], number: usize, doc: u32) -> (usize, usize)
    requires store { is_store bytes.now ≡ true }
    requires number { number < length (blocks_of bytes.now) }
    requires from { document_count (take number (blocks_of bytes.now)) ≤ doc }
    requires to { doc < document_count (take (number + 1) (blocks_of bytes.now)) }
    ensures order { result.0 ≤ result.1 }
    ensures within { result.1 ≤ length bytes.now }
    ensures is { slice_get (raw_documents (blocks_of bytes.now)) doc ≡ Some (slice_range bytes.now result.0 result.1) }
{
    let (start, end) = block_place(bytes, number);
    let first = first_document(checkpoint_table(bytes), number);
    let (from, to) = place_in_block(&bytes[start..end], (doc - first) as usize);
    (start + from, start + to)
}

/// The number of the block that has a document.
pub(crate) fn block_number(bytes: &[u8], doc: u32) -> usize
    requires store { is_store bytes.now ≡ true }
    requires within { doc < document_count (blocks_of bytes.now) }
    ensures is { result ≡ block_of (blocks_of bytes.now) doc }
    ensures number { result < length (blocks_of bytes.now) }
    ensures from { document_count (take result (blocks_of bytes.now)) ≤ doc }
    ensures to { doc < document_count (take (result + 1) (blocks_of bytes.now)) }
{
    first_past(checkpoint_table(bytes), doc)
}

/// Where a block starts and ends in a store.
pub(crate) fn block_place(bytes: &[u8], number: usize) -> (usize, usize)
    requires store { is_store bytes.now ≡ true }
    requires number { number < length (blocks_of bytes.now) }
    ensures order { result.0 ≤ result.1 }
    ensures within { result.1 ≤ length bytes.now }
    ensures block { is_block (slice_range bytes.now result.0 result.1) ≡ true }
    ensures is { slice_get (blocks_of bytes.now) number
        ≡ Some (documents_in (slice_range bytes.now result.0 result.1)) }
{
    let table = checkpoint_table(bytes);
    let start = block_start(table, number);
    let end = checkpoint_at(table, number).byte_end as usize;
    (start, end)
}

/// The table of checkpoints.
pub(crate) fn checkpoint_table(bytes: &[u8]) -> &[u8]
    requires { is_store bytes.now ≡ true }
    ensures { result.now ≡ store_table bytes.now }
{
    blocks_and_table(bytes).1
}

/// The bytes of the blocks, and the table of checkpoints.
pub(crate) fn blocks_and_table(bytes: &[u8]) -> (&[u8], &[u8])
    requires { is_store bytes.now ≡ true }
    ensures blocks { result.0.now ≡ store_body bytes.now }
    ensures table { result.1.now ≡ store_table bytes.now }
{
    let (rest, footer) = bytes.split_at(bytes.len() - FOOTER_BYTES);
    let count = u32_at(footer, 0) as usize;
    rest.split_at(rest.len() - CHECKPOINT_BYTES * count)
}

/// The first block of a table that ends past a document, or the number of blocks.
fn first_past(table: &[u8], doc: u32) -> usize
    ensures within { 12 * result ≤ length table.now }
    ensures before { (i : ℕ) → i + 1 ≡ result → numbers.u32_at table.now (12 * i) ≤ doc }
    ensures past { 12 * (result + 1) ≤ length table.now → doc < numbers.u32_at table.now (12 * result) }
{
    let mut low = 0;
    let mut high = table.len() / CHECKPOINT_BYTES;
    while low < high {
        let middle = low + (high - low) / 2;
        if checkpoint_at(table, middle).doc_end <= doc {
            low = middle + 1;
        } else {
            high = middle;
        }
    }
    low
}

/// Where a block starts.
fn block_start(table: &[u8], index: usize) -> usize
    requires { 12 * index ≤ length table.now }
    ensures { (n : ℕ) → index ≤ n → result ≡ start_of 0 (map (λ c. c.1) (checkpoints_of n table.now)) index }
{
    if index == 0 {
        return 0;
    }
    checkpoint_at(table, index - 1).byte_end as usize
}

/// The number of the first document of a block.
pub(crate) fn first_document(table: &[u8], index: usize) -> u32
    requires { 12 * index ≤ length table.now }
    ensures first { index ≡ 0 → result ≡ 0 }
    ensures after { (i : ℕ) → index ≡ i + 1 → result ≡ numbers.u32_at table.now (12 * i) }
{
    if index == 0 {
        return 0;
    }
    checkpoint_at(table, index - 1).doc_end
}

/// Where a document starts and ends in a block.
pub(crate) fn place_in_block(block: &[u8], index: usize) -> (usize, usize)
    requires block { is_block block.now ≡ true }
    requires within { index < length (documents_in block.now) }
    ensures order { result.0 ≤ result.1 }
    ensures within { result.1 ≤ length block.now }
    ensures is { slice_get (documents_in block.now) index ≡ Some (slice_range block.now result.0 result.1) }
{
    let ends = end_table(block);
    (document_start(ends, index), document_end(ends, index))
}

/// The table of where documents end in a block.
fn end_table(block: &[u8]) -> &[u8]
    requires { is_block block.now ≡ true }
    ensures { result.now ≡ block_table block.now }
{
    let (rest, footer) = block.split_at(block.len() - 4);
    let count = u32_at(footer, 0) as usize;
    rest.split_at(rest.len() - 8 * count).1
}

/// Where a document starts in a block.
fn document_start(ends: &[u8], index: usize) -> usize
    requires { 8 * index ≤ length ends.now }
    ensures { (n : ℕ) → index ≤ n → result ≡ start_of 0 (numbers_of n ends.now) index }
{
    if index == 0 {
        return 0;
    }
    document_end(ends, index - 1)
}

/// Where a document ends in a block.
fn document_end(ends: &[u8], index: usize) -> usize
    requires { 8 * (index + 1) ≤ length ends.now }
    ensures { result ≡ numbers.u64_at ends.now (8 * index) }
{
    u64_at(ends, 8 * index) as usize
}

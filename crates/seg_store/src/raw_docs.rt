//! The stored bytes of documents, one after another.
ghost use Rattle.std.specs.Prelude.{◌≡◌, ◌<◌, ◌≤◌, ◌+◌, ℕ, length, take, true, false, option_map, MatchOption};
ghost use Rattle.std.specs.Iterator.{YieldsFirst, item_count};
ghost use Rattle.seg_store.specs.AliveDocuments.{alive_at, alive_from, IsFirstAlive};
ghost use Rattle.seg_store.specs.Store.{is_store, blocks_of, raw_documents, document_count};

use crate::checkpoint::checkpoint_at;
use crate::document_places::{checkpoint_table, place_in_store};
use seg_bits::ReadOnlyBitSet;
use seg_common::OwnedBytes;
use std::iter::FusedIterator;
use std::marker::Model;

/// The stored bytes of the documents that are alive, in order: seen as the list of those that are left. It goes from
/// block to block, and takes no memory.
#[derive(Drop)]
pub struct RawDocs<'a> {
    bytes: &'a OwnedBytes,
    alive: Option<&'a ReadOnlyBitSet>,
    total: u32,
    block: usize,
    doc: u32,
}

impl<'a> Model for RawDocs<'a> {
    ghost use Rattle.std.specs.Prelude.{◌≡◌, ◌≤◌, ℕ, List, true, length, take, option_map};
    ghost use Rattle.seg_store.specs.AliveDocuments.{alive_from};
    ghost use Rattle.seg_store.specs.Store.{is_store, blocks_of, raw_documents, document_count};

    ghost Value = { List (List ℕ) };

    ghost view = { λ it. alive_from it.doc (option_map (λ set. set.now) it.alive)
        (raw_documents (blocks_of it.bytes.now)) };

    ghost invariant = { λ it. (is_store it.bytes.now ≡ true) × (it.total ≡ document_count (blocks_of it.bytes.now))
        × (it.doc ≤ it.total) × (document_count (take it.block (blocks_of it.bytes.now)) ≤ it.doc) };
}

impl<'a> RawDocs<'a> {
    /// All documents of a store that are alive.
    pub(crate) fn new(
        bytes: &'a OwnedBytes,
        alive: Option<&'a ReadOnlyBitSet>,
        total: u32,
    ) -> RawDocs<'a>
        requires store { is_store bytes.now ≡ true }
        requires total { total ≡ document_count (blocks_of bytes.now) }
        ensures { result
            ≡ alive_from 0 (option_map (λ set. set.now) alive.entry) (raw_documents (blocks_of bytes.now)) }
    {
        RawDocs {
            bytes,
            alive,
            total,
            block: 0,
            doc: 0,
        }
    }
}

impl<'a> Iterator for RawDocs<'a> {
    type Item = OwnedBytes;

    ghost next_gives = { YieldsFirst (λ rest. rest) };

    ghost remaining = { item_count (λ rest. rest) };

    fn next(&mut self) -> Option<OwnedBytes> {
        let doc = first_alive(self.alive, self.doc, self.total)?;
        let bytes = self.bytes.as_slice();
        self.block = block_from(bytes, self.block, doc);
        self.doc = doc + 1;
        let (start, end) = place_in_store(bytes, self.block, doc);
        Some(self.bytes.slice(start, end))
    }
}

impl<'a> FusedIterator for RawDocs<'a> {}

/// The first document from one on that is alive.
fn first_alive(alive: Option<&ReadOnlyBitSet>, from: u32, total: u32) -> Option<u32>
    ensures { MatchOption result
        ((k : ℕ) → from ≤ k → k < total → alive_at (option_map (λ set. set.now) alive.entry) k ≡ false)
        (λ doc. IsFirstAlive (option_map (λ set. set.now) alive.entry) from total doc) }
{
    let mut doc = from;
    while doc < total {
        if is_alive(alive, doc) {
            return Some(doc);
        }
        doc += 1;
    }
    None
}

/// Whether a document is alive in a set, without which all are.
fn is_alive(alive: Option<&ReadOnlyBitSet>, doc: u32) -> bool
    ensures { result ≡ alive_at (option_map (λ set. set.now) alive.entry) doc }
{
    match alive {
        Some(set) => set.contains(doc),
        None => true,
    }
}

/// The number of the block that has a document, from one on that doesn't begin after the document.
fn block_from(bytes: &[u8], first: usize, doc: u32) -> usize
    requires store { is_store bytes.now ≡ true }
    requires within { doc < document_count (blocks_of bytes.now) }
    requires from { document_count (take first (blocks_of bytes.now)) ≤ doc }
    ensures number { result < length (blocks_of bytes.now) }
    ensures from { document_count (take result (blocks_of bytes.now)) ≤ doc }
    ensures to { doc < document_count (take (result + 1) (blocks_of bytes.now)) }
{
    let table = checkpoint_table(bytes);
    let mut block = first;
    while checkpoint_at(table, block).doc_end <= doc {
        block += 1;
    }
    block
}

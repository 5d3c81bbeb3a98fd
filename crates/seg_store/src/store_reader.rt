//! The reader of stores.
ghost use Rattle.std.specs.Prelude.{◌≡◌, ◌<◌, ◌≤◌, ◌+◌, ◌*◌, List, true, false, length, take, Some, None, option_map, IfOk, IfErr, MatchResult};
ghost use Rattle.std.specs.List.{slice_get};
ghost use Rattle.seg_store.specs.AliveDocuments.{alive_from};
ghost use Rattle.seg_store.specs.Block.{Block, is_block, documents_in};
ghost use Rattle.seg_store.specs.Cache.{block_of};
ghost use Rattle.seg_store.specs.CheckedFields.{is_store_of, may_have};
ghost use Rattle.seg_store.specs.Checkpoints.{checkpoints, stored_size};
ghost use Rattle.seg_doc_bytes.specs.StoredDocument.{is_stored_document, stored_document_of};
ghost use Rattle.seg_store.specs.StackedBlocks.{HaveBlocks};
ghost use Rattle.seg_store.specs.Store.{store_of, document_count, raw_documents, documents_of};
ghost use Rattle.seg_store.specs.StoredFields.{have_fields, have_stored_fields};
ghost use Rattle.seg_store.specs.WriterBlocks.{block_bytes};

use crate::checkpoint::{CHECKPOINT_BYTES, Checkpoint, checkpoint_at};
use crate::checkpoints::Checkpoints;
use crate::document_places::{
    self, block_place, blocks_and_table, checkpoint_table, document_place, first_document,
};
use crate::error::StoreError;
use crate::raw_docs::RawDocs;
use crate::store_check::is_store;
use seg_bits::ReadOnlyBitSet;
use seg_common::{ByteCount, OwnedBytes, u32_at};
use seg_doc_bytes::document_of;
use seg_values::{Schema, TantivyDocument};
use std::alloc::Global;
use std::marker::Model;

/// How many bytes it takes to say where a document ends in its block.
const END_BYTES: usize = 8;

/// How many bytes a block's number of documents takes.
const COUNT_BYTES: usize = 4;

/// Reads the documents of a store from its bytes, of which nothing is copied. It is seen as the store's blocks.
#[derive(Drop)]
pub struct StoreReader {
    bytes: OwnedBytes,
}

impl Model for StoreReader {
    ghost use Rattle.std.specs.Prelude.{◌≡◌, List, true};
    ghost use Rattle.seg_store.specs.Block.{Block};
    ghost use Rattle.seg_store.specs.Store.{is_store, blocks_of};

    ghost Value = { List Block };

    ghost view = { λ r. blocks_of r.bytes };

    ghost invariant = { λ r. is_store r.bytes ≡ true };
}

impl StoreReader {
    /// The reader of a file, whose bytes are scanned once. It asks for no memory.
    pub fn open(bytes: OwnedBytes) -> Result<StoreReader, StoreError>
        ensures { MatchResult result (λ r. store_of bytes ≡ Some r)
            (λ e. (e ≡ StoreError.Malformed) × (store_of bytes ≡ None)) }
    {
        StoreReader::open_checked(bytes, None)
    }

    /// As `open`; `Malformed` also where a pair of a document has a field that the schema lacks, or doesn't store.
    pub fn open_with_schema(bytes: OwnedBytes, schema: &Schema) -> Result<StoreReader, StoreError>
        ensures ok { IfOk result (λ r. (store_of bytes ≡ Some r)
            × (have_stored_fields schema.now (documents_of r) ≡ true)) }
        ensures err { IfErr result (λ e. (e ≡ StoreError.Malformed) × ((blocks : List Block)
            → store_of bytes ≡ Some blocks → have_stored_fields schema.now (documents_of blocks) ≡ false)) }
    {
        StoreReader::open_checked(bytes, Some(schema))
    }

    fn open_checked(bytes: OwnedBytes, schema: Option<&Schema>) -> Result<StoreReader, StoreError>
        ensures ok { IfOk result (λ r. (store_of bytes ≡ Some r)
            × (have_fields (may_have (option_map (λ s. s.now) schema.entry)) (documents_of r) ≡ true)) }
        ensures err { IfErr result (λ e. (e ≡ StoreError.Malformed)
            × (is_store_of (may_have (option_map (λ s. s.now) schema.entry)) bytes ≡ false)) }
    {
        if !is_store(bytes.as_slice(), schema) {
            return Err(StoreError::Malformed);
        }
        Ok(StoreReader { bytes })
    }

    /// The same reader again, over the same bytes; this takes no memory.
    pub fn share(&self) -> StoreReader
        ensures { result ≡ self.now }
    {
        StoreReader {
            bytes: self.bytes.share(),
        }
    }

    /// How many documents there are.
    pub fn num_docs(&self) -> u32
        ensures counted { result ≡ document_count self.now }
        ensures documents { result ≡ length (documents_of self.now) }
    {
        let bytes = self.bytes.as_slice();
        u32_at(bytes, bytes.len() - 5)
    }

    /// How many blocks there are.
    pub fn block_count(&self) -> usize
        ensures { result ≡ length self.now }
    {
        checkpoint_table(self.bytes.as_slice()).len() / CHECKPOINT_BYTES
    }

    /// Where a block ends.
    pub fn checkpoint(&self, index: usize) -> Checkpoint
        requires { index < length self.now }
        ensures doc_end { result.doc_end ≡ document_count (take (index + 1) self.now) }
        ensures byte_end { result.byte_end ≡ stored_size (take (index + 1) self.now) }
    {
        checkpoint_at(checkpoint_table(self.bytes.as_slice()), index)
    }

    /// Where each block ends, in order.
    pub fn block_checkpoints(&self) -> Checkpoints<'_>
        ensures { result ≡ checkpoints self.now }
    {
        Checkpoints::new(self)
    }

    /// The bytes that a document is stored as.
    pub fn raw(&self, doc: u32) -> OwnedBytes
        requires { doc < document_count self.now }
        ensures is { slice_get (raw_documents self.now) doc ≡ Some result }
        ensures stored { is_stored_document result ≡ true }
        ensures reads { slice_get (documents_of self.now) doc ≡ stored_document_of result }
    {
        let (start, end) = document_place(self.bytes.as_slice(), doc);
        self.bytes.slice(start, end)
    }

    /// A document, from its stored bytes.
    pub fn get(&self, alloc: Global, doc: u32) -> Result<TantivyDocument, StoreError>
        requires { doc < document_count self.now }
        ensures ok { IfOk result (λ d. slice_get (documents_of self.now) doc ≡ Some d) }
        ensures err { IfErr result (λ e. e ≡ StoreError.OutOfMemory) }
    {
        let bytes = self.bytes.as_slice();
        let (start, end) = document_place(bytes, doc);
        let Some(document) = document_of(alloc, &bytes[start..end])? else {
            return Err(StoreError::Malformed);
        };
        Ok(document)
    }

    /// The number of the block that has a document.
    pub(crate) fn block_number(&self, doc: u32) -> usize
        requires { doc < document_count self.now }
        ensures is { result ≡ block_of self.now doc }
        ensures number { result < length self.now }
        ensures from { document_count (take result self.now) ≤ doc }
        ensures to { doc < document_count (take (result + 1) self.now) }
    {
        document_places::block_number(self.bytes.as_slice(), doc)
    }

    /// The number of the first document of a block.
    pub(crate) fn first_document(&self, number: usize) -> u32
        requires { number < length self.now }
        ensures { result ≡ document_count (take number self.now) }
    {
        first_document(checkpoint_table(self.bytes.as_slice()), number)
    }

    /// The bytes of a block.
    pub(crate) fn block(&self, number: usize) -> OwnedBytes
        requires { number < length self.now }
        ensures block { is_block result ≡ true }
        ensures is { slice_get self.now number ≡ Some (documents_in result) }
    {
        let (start, end) = block_place(self.bytes.as_slice(), number);
        self.bytes.slice(start, end)
    }

    /// The bytes of all blocks.
    pub(crate) fn blocks(&self) -> &[u8]
        ensures { HaveBlocks self.now result.now }
    {
        blocks_and_table(self.bytes.as_slice()).0
    }

    /// How many bytes the documents have.
    pub(crate) fn document_bytes(&self) -> usize
        ensures { result ≡ block_bytes self.now }
    {
        let all = self.blocks().len();
        let ends = END_BYTES * self.num_docs() as usize;
        let counts = COUNT_BYTES * self.block_count();
        all - ends - counts
    }

    /// The bytes of the documents that are alive in a set, of all without one, in order. One past the set's size is
    /// dead.
    pub fn iter_raw<'a>(&'a self, alive: Option<&'a ReadOnlyBitSet>) -> RawDocs<'a>
        ensures { result ≡ alive_from 0 (option_map (λ set. set.now) alive.entry) (raw_documents self.now) }
    {
        RawDocs::new(&self.bytes, alive, self.num_docs())
    }

    /// How many bytes the file has.
    pub fn space_usage(&self) -> ByteCount
        ensures { result.0 ≡ stored_size self.now + 12 * length self.now + 9 }
    {
        ByteCount(self.bytes.len() as u64)
    }
}

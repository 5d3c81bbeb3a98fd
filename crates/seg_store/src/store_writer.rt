//! The writer of stores.
ghost use Rattle.std.specs.Prelude.{◌≡◌, ◌≢◌, ◌<◌, ◌+◌, ◌-◌, ◌^◌, ◌⊎◌, ◌↔◌, [], true, Option, Some, None, Err, option_map, IfOk, IfErr, IfSome, OnOk};
ghost use Rattle.seg_common.specs.WriterGrowth.{HasGrown};
ghost use Rattle.seg_model.specs.DocumentTerms.{stored_document};
ghost use Rattle.seg_values.specs.StoredBytes.{stored_form};
ghost use Rattle.seg_doc_bytes.specs.StoredDocument.{stored_document_of, is_stored_document};
ghost use Rattle.seg_doc_bytes.specs.StoredDocumentLaw.{AreShallow};
ghost use Rattle.seg_store.specs.Store.{store_of, document_count};
ghost use Rattle.seg_store.specs.WriterBlocks.{Taken, with_document, with_stacked, all_blocks, taken_count, taken_bytes};

use crate::error::StoreError;
use crate::store_reader::StoreReader;
use crate::written_blocks::WrittenBlocks;
use seg_values::{Compressor, Document, Pairs, Schema};
use std::alloc::Global;
use std::marker::Model;

/// Writes a store document by document. Once out of memory it answers so for good, and it is seen as nothing.
#[derive(Drop)]
pub struct StoreWriter {
    blocks: Option<WrittenBlocks>,
}

impl Model for StoreWriter {
    ghost use Rattle.std.specs.Prelude.{Option, option_map, IfSome};
    ghost use Rattle.seg_store.specs.WriterBlocks.{Taken};
    ghost use Rattle.seg_store.specs.WriterBuffers.{taken_of, IsKept};

    ghost Value = { Option Taken };

    ghost view = { λ w. option_map taken_of w.blocks };

    ghost invariant = { λ w. IfSome w.blocks IsKept };
}

impl StoreWriter {
    /// A writer whose blocks are closed once their documents have this many bytes; of size 0, each document is a block.
    pub fn new(
        alloc: Global,
        compressor: Compressor,
        block_size: u32,
        dedicated_thread: bool,
    ) -> Result<StoreWriter, StoreError>
        ensures ok { IfOk result (λ w. w ≡ Some (record { block_size = block_size; closed = []; open_block = [] })) }
        ensures compressed { result ≡ Err StoreError.Compressed
            ↔ ((compressor ≢ Compressor.None) ⊎ (dedicated_thread ≡ true)) }
        ensures causes { IfErr result (λ e. e ≡ StoreError.Compressed) }
    {
        match compressor {
            Compressor::None if !dedicated_thread => Ok(StoreWriter {
                blocks: Some(WrittenBlocks::new(alloc, block_size)),
            }),
            _ => Err(StoreError::Compressed),
        }
    }

    /// Adds a document: the pairs of its stored fields. No tree has more than 200 levels.
    pub fn store<D: Document>(&mut self, document: &D, schema: &Schema) -> Result<(), StoreError>
        requires shallow { AreShallow (D.pairs_of document.now) }
        requires limit { IfSome self.old (λ w. taken_count w < 2 ^ 31 - 1) }
        ensures ok { OnOk result
            (HasGrown self.old self.new (with_document (stored_form schema.now (D.pairs_of document.now)))) }
        ensures reads { OnOk result (stored_document_of (stored_form schema.now (D.pairs_of document.now))
            ≡ Some (stored_document schema.now (D.pairs_of document.now))) }
        ensures err { IfErr result (λ e. (e ≡ StoreError.OutOfMemory) × (self.new ≡ None)) }
    {
        let Some(blocks) = &self.blocks else {
            return Err(StoreError::OutOfMemory);
        };
        let Ok(pairs) = document.pairs(blocks.allocator()) else {
            self.blocks = None;
            return Err(StoreError::OutOfMemory);
        };
        self.store_pairs(&pairs, schema)
    }

    /// Adds a document by its pairs, as `store` does.
    pub fn store_pairs(&mut self, document: &Pairs<'_>, schema: &Schema) -> Result<(), StoreError>
        requires shallow { AreShallow document.now }
        requires limit { IfSome self.old (λ w. taken_count w < 2 ^ 31 - 1) }
        ensures ok { OnOk result (HasGrown self.old self.new (with_document (stored_form schema.now document.now))) }
        ensures reads { OnOk result (stored_document_of (stored_form schema.now document.now)
            ≡ Some (stored_document schema.now document.now)) }
        ensures err { IfErr result (λ e. (e ≡ StoreError.OutOfMemory) × (self.new ≡ None)) }
    {
        let Some(blocks) = self.blocks.take() else {
            return Err(StoreError::OutOfMemory);
        };
        match blocks.with_document(document, schema) {
            Ok(blocks) => {
                self.blocks = Some(blocks);
                Ok(())
            }
            Err(_) => Err(StoreError::OutOfMemory),
        }
    }

    /// Adds the bytes of a stored document.
    pub fn store_bytes(&mut self, bytes: &[u8]) -> Result<(), StoreError>
        requires stored { is_stored_document bytes.now ≡ true }
        requires limit { IfSome self.old (λ w. taken_count w < 2 ^ 31 - 1) }
        ensures ok { OnOk result (HasGrown self.old self.new (with_document bytes.now)) }
        ensures err { IfErr result (λ e. (e ≡ StoreError.OutOfMemory) × (self.new ≡ None)) }
    {
        let Some(blocks) = self.blocks.take() else {
            return Err(StoreError::OutOfMemory);
        };
        match blocks.with_bytes(bytes) {
            Ok(blocks) => {
                self.blocks = Some(blocks);
                Ok(())
            }
            Err(_) => Err(StoreError::OutOfMemory),
        }
    }

    /// Adds the documents of a store, whose blocks stay as they are; before them the open block is closed, if it has
    /// documents. The blocks' bytes are copied, and nothing is decoded.
    pub fn stack(&mut self, reader: &StoreReader) -> Result<(), StoreError>
        requires limit { IfSome self.old (λ w. taken_count w + document_count reader.now < 2 ^ 31) }
        ensures ok { OnOk result (HasGrown self.old self.new (with_stacked reader.now)) }
        ensures err { IfErr result (λ e. (e ≡ StoreError.OutOfMemory) × (self.new ≡ None)) }
    {
        let Some(blocks) = self.blocks.take() else {
            return Err(StoreError::OutOfMemory);
        };
        match blocks.with_stacked(reader) {
            Ok(blocks) => {
                self.blocks = Some(blocks);
                Ok(())
            }
            Err(_) => Err(StoreError::OutOfMemory),
        }
    }

    /// How many bytes the documents have that were taken.
    pub fn mem_usage(&self) -> usize
        ensures { result ≡ taken_bytes self.now }
    {
        match &self.blocks {
            Some(blocks) => blocks.stored(),
            None => 0,
        }
    }

    /// The bytes of the file.
    pub fn close(self) -> Result<Vec<u8>, StoreError>
        ensures ok { IfOk result (λ file. (store_of file.items ≡ option_map all_blocks self) × (self ≢ None)) }
        ensures err { IfErr result (λ e. e ≡ StoreError.OutOfMemory) }
    {
        match self.blocks {
            Some(blocks) => Ok(blocks.close()?),
            None => Err(StoreError::OutOfMemory),
        }
    }
}

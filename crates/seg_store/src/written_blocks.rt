//! The blocks of a store that is being written.
ghost use Rattle.std.specs.Prelude.{◌≡◌, ◌≢◌, ◌≤◌, ◌<◌, ◌+◌, ◌-◌, ◌^◌, ◌++◌, [], true, length, take, drop, map, Some, IfOk, OnOk};
ghost use Rattle.std.specs.List.{flat_map};
ghost use Rattle.std.specs.Int.{w64, to_le_bytes};
ghost use Rattle.seg_model.specs.DocumentTerms.{stored_document};
ghost use Rattle.seg_values.specs.StoredBytes.{stored_form};
ghost use Rattle.seg_doc_bytes.specs.StoredDocument.{stored_document_of, is_stored_document};
ghost use Rattle.seg_doc_bytes.specs.StoredDocumentLaw.{AreShallow};
ghost use Rattle.seg_store.specs.Checkpoints.{checkpoints, stored_size};
ghost use Rattle.seg_store.specs.StackedBlocks.{shifted};
ghost use Rattle.seg_store.specs.Store.{store_of, document_count};
ghost use Rattle.seg_store.specs.WriterBlocks.{with_document, closed_if_full, with_closed, all_blocks, with_all_closed, with_stacked};
ghost use Rattle.seg_store.specs.WriterBuffers.{taken_of, IsKept, checkpoint_form};

use crate::checkpoint::Checkpoint;
use crate::store_reader::StoreReader;
use seg_common::{put_u32, put_u64};
use seg_doc_bytes::put_document;
use seg_values::{Pairs, Schema};
use std::alloc::{AllocError, Global};
use std::marker::Model;

/// Closed blocks, and the documents of an open one after them.
#[derive(Drop)]
pub(crate) struct WrittenBlocks {
    bytes: Vec<u8>,
    checkpoints: Vec<Checkpoint>,
    start: usize,
    ends: Vec<u64>,
    documents: u32,
    stored: usize,
    block_size: u32,
}

impl Model for WrittenBlocks {
    ghost use Rattle.seg_store.specs.WriterBuffers.{Buffers};

    ghost Value = { Buffers };

    ghost view = { λ w. record {
      bytes = w.bytes.items;
      checkpoints = w.checkpoints.items;
      start = w.start;
      ends = w.ends.items;
      documents = w.documents;
      stored = w.stored;
      block_size = w.block_size;
    } };
}

impl WrittenBlocks {
    pub(crate) fn new(alloc: Global, block_size: u32) -> WrittenBlocks
        ensures kept { IsKept result }
        ensures none { taken_of result ≡ record { block_size = block_size; closed = []; open_block = [] } }
    {
        WrittenBlocks {
            bytes: Vec::new(alloc),
            checkpoints: Vec::new(alloc),
            start: 0,
            ends: Vec::new(alloc),
            documents: 0,
            stored: 0,
            block_size,
        }
    }

    /// Where it has its memory.
    pub(crate) fn allocator(&self) -> Global {
        *self.bytes.allocator()
    }

    /// How many bytes the documents have.
    pub(crate) fn stored(&self) -> usize
        ensures { result ≡ self.now.stored }
    {
        self.stored
    }

    /// Adds the stored form of a document.
    pub(crate) fn with_document(
        self,
        document: &Pairs<'_>,
        schema: &Schema,
    ) -> Result<WrittenBlocks, AllocError>
        requires kept { IsKept self }
        requires shallow { AreShallow document.now }
        requires few { self.documents < 2 ^ 31 - 1 }
        ensures kept { IfOk result IsKept }
        ensures more { IfOk result (λ w. taken_of w
            ≡ with_document (stored_form schema.now document.now) (taken_of self)) }
        ensures reads { OnOk result (stored_document_of (stored_form schema.now document.now)
            ≡ Some (stored_document schema.now document.now)) }
    {
        let mut blocks = self;
        let before = blocks.bytes.len();
        put_document(&mut blocks.bytes, document, schema)?;
        blocks.with_end(before)
    }

    /// Adds a stored document.
    pub(crate) fn with_bytes(self, document: &[u8]) -> Result<WrittenBlocks, AllocError>
        requires kept { IsKept self }
        requires stored { is_stored_document document.now ≡ true }
        requires few { self.documents < 2 ^ 31 - 1 }
        ensures kept { IfOk result IsKept }
        ensures more { IfOk result (λ w. taken_of w ≡ with_document document.now (taken_of self)) }
    {
        let mut blocks = self;
        let before = blocks.bytes.len();
        blocks.bytes.extend_from_slice(document)?;
        blocks.with_end(before)
    }

    /// Ends the document whose bytes were added.
    fn with_end(self, before: usize) -> Result<WrittenBlocks, AllocError>
        requires within { before ≤ length self.bytes }
        requires kept { IsKept (record self { bytes = take before self.bytes }) }
        requires stored { is_stored_document (drop before self.bytes) ≡ true }
        requires few { self.documents < 2 ^ 31 - 1 }
        ensures kept { IfOk result IsKept }
        ensures more { IfOk result (λ w. taken_of w
            ≡ with_document (drop before self.bytes) (taken_of (record self { bytes = take before self.bytes }))) }
    {
        let mut blocks = self;
        let end = blocks.bytes.len();
        blocks.ends.push((end - blocks.start) as u64)?;
        blocks.stored += end - before;
        blocks.documents += 1;
        blocks.with_full_block_closed()
    }

    /// Closes the open block, which has documents, if it is full.
    fn with_full_block_closed(self) -> Result<WrittenBlocks, AllocError>
        requires kept { IsKept self }
        requires some { self.ends ≢ [] }
        ensures kept { IfOk result IsKept }
        ensures closed { IfOk result (λ w. taken_of w ≡ closed_if_full (taken_of self)) }
    {
        if self.bytes.len() - self.start < self.block_size as usize {
            return Ok(self);
        }
        self.with_block_closed()
    }

    /// Closes the open block, which has documents.
    fn with_block_closed(self) -> Result<WrittenBlocks, AllocError>
        requires kept { IsKept self }
        requires some { self.ends ≢ [] }
        ensures kept { IfOk result IsKept }
        ensures closed { IfOk result (λ w. taken_of w ≡ with_closed (taken_of self)) }
        ensures none { IfOk result (λ w. w.ends ≡ []) }
    {
        let mut blocks = self;
        let count = blocks.ends.len() as u32;
        put_ends(&mut blocks.bytes, &blocks.ends)?;
        put_u32(&mut blocks.bytes, count)?;
        blocks.start = blocks.bytes.len();
        blocks.ends.clear();
        blocks.checkpoints.push(Checkpoint {
            doc_end: blocks.documents,
            byte_end: blocks.start as u64,
        })?;
        Ok(blocks)
    }

    /// Closes the open block, if it has documents.
    fn with_all_closed(self) -> Result<WrittenBlocks, AllocError>
        requires kept { IsKept self }
        ensures kept { IfOk result IsKept }
        ensures closed { IfOk result (λ w. taken_of w ≡ with_all_closed (taken_of self)) }
        ensures none { IfOk result (λ w. w.ends ≡ []) }
    {
        if self.ends.is_empty() {
            return Ok(self);
        }
        self.with_block_closed()
    }

    /// Adds the blocks of a store as they are, once the open block is closed, if it has documents.
    pub(crate) fn with_stacked(self, reader: &StoreReader) -> Result<WrittenBlocks, AllocError>
        requires kept { IsKept self }
        requires few { self.documents + document_count reader.now < 2 ^ 31 }
        ensures kept { IfOk result IsKept }
        ensures more { IfOk result (λ w. taken_of w ≡ with_stacked reader.now (taken_of self)) }
    {
        let closed = self.with_all_closed()?;
        closed.with_blocks(reader)
    }

    /// Adds the blocks of a store where no block is open.
    fn with_blocks(self, reader: &StoreReader) -> Result<WrittenBlocks, AllocError>
        requires kept { IsKept self }
        requires none { self.ends ≡ [] }
        requires few { self.documents + document_count reader.now < 2 ^ 31 }
        ensures kept { IfOk result IsKept }
        ensures more { IfOk result (λ w. taken_of w ≡ with_stacked reader.now (taken_of self)) }
    {
        let mut blocks = self;
        let before = blocks.start as u64;
        blocks.bytes.extend_from_slice(reader.blocks())?;
        push_checkpoints(&mut blocks.checkpoints, reader, blocks.documents, before)?;
        blocks.start = blocks.bytes.len();
        blocks.documents += reader.num_docs();
        blocks.stored += reader.document_bytes();
        Ok(blocks)
    }

    /// The bytes of the file.
    pub(crate) fn close(self) -> Result<Vec<u8>, AllocError>
        requires kept { IsKept self }
        ensures { IfOk result (λ file. store_of file.items ≡ Some (all_blocks (taken_of self))) }
    {
        let blocks = self.with_all_closed()?;
        let WrittenBlocks {
            mut bytes,
            checkpoints,
            documents,
            ..
        } = blocks;
        put_checkpoints(&mut bytes, &checkpoints)?;
        put_u32(&mut bytes, checkpoints.len() as u32)?;
        put_u32(&mut bytes, documents)?;
        bytes.push(0)?;
        Ok(bytes)
    }
}

/// Adds the checkpoints of a store whose blocks come after this many documents and bytes.
fn push_checkpoints(
    out: &mut Vec<Checkpoint>,
    reader: &StoreReader,
    documents: u32,
    bytes: u64,
) -> Result<(), AllocError>
    requires few { documents + document_count reader.now < 2 ^ 32 }
    requires small { bytes + stored_size reader.now < 2 ^ 64 }
    ensures { OnOk result (out.new.items ≡ out.old.items ++ map (shifted documents bytes) (checkpoints reader.now)) }
{
    for checkpoint in reader.block_checkpoints() {
        out.push(Checkpoint {
            doc_end: documents + checkpoint.doc_end,
            byte_end: bytes + checkpoint.byte_end,
        })?;
    }
    Ok(())
}

/// Adds the ends of a block's documents.
fn put_ends(out: &mut Vec<u8>, ends: &[u64]) -> Result<(), AllocError>
    ensures { OnOk result (out.new.items ≡ out.old.items ++ flat_map (to_le_bytes w64) ends.now) }
{
    for end in ends {
        put_u64(out, *end)?;
    }
    Ok(())
}

fn put_checkpoints(out: &mut Vec<u8>, checkpoints: &[Checkpoint]) -> Result<(), AllocError>
    ensures { OnOk result (out.new.items ≡ out.old.items ++ flat_map checkpoint_form checkpoints.now) }
{
    for checkpoint in checkpoints {
        put_checkpoint(out, checkpoint)?;
    }
    Ok(())
}

fn put_checkpoint(out: &mut Vec<u8>, checkpoint: &Checkpoint) -> Result<(), AllocError>
    ensures { OnOk result (out.new.items ≡ out.old.items ++ checkpoint_form checkpoint.now) }
{
    put_u32(out, checkpoint.doc_end)?;
    put_u64(out, checkpoint.byte_end)?;
    Ok(())
}

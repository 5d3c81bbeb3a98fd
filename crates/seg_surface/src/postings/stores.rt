//! Stored documents, and how they are read through a cache.
ghost use Rattle.std.specs.Prelude.{◌≡◌, ◌≤◌, IfOk, IfSome};
ghost use Rattle.seg_store.specs.Store.{document_count};
ghost use Rattle.seg_store.specs.WriterBlocks.{taken_count};
ghost use Rattle.seg_doc_bytes.specs.StoredDocumentLaw.{AreShallow};

use crate::lines::Lines;
use crate::samples::{file, schema};
use seg_store::{
    CachedStoreReader, StoreError, StoreReader, StoreWriter, stacked_blocks_stay_in_order,
};
use seg_values::{Compressor, Field, FieldKind, IndexOption, TantivyDocument};
use std::alloc::{AllocError, Global};

fn title(alloc: Global) -> Result<TantivyDocument, AllocError>
    ensures { IfOk result AreShallow }
{
    let mut document = TantivyDocument::new(alloc);
    let Ok(()) = document.add_text(Field::from_field_id(0), "a") else {
        return Err(AllocError);
    };
    Ok(document)
}

/// The store of such a document.
fn store_of_one(alloc: Global) -> Result<Vec<u8>, StoreError> {
    let schema = schema(alloc, &[("title", FieldKind::Text, IndexOption::No)])?;
    let mut writer = StoreWriter::new(alloc, Compressor::None, 0, false)?;
    writer.store(&title(alloc)?, &schema)?;
    writer.close()
}

pub(super) fn open(alloc: Global, bytes: &[u8]) -> Result<StoreReader, StoreError> {
    StoreReader::open(file(alloc, bytes)?)
}

/// A reader of a store of at most one document.
fn one(alloc: Global, bytes: &[u8]) -> Result<StoreReader, StoreError>
    ensures { IfOk result (λ r. document_count r ≤ 1) }
{
    let reader = open(alloc, bytes)?;
    if reader.num_docs() > 1 {
        return Err(StoreError::Malformed);
    }
    Ok(reader)
}

/// Stacks the store of at most one document a few times.
fn stack(writer: &mut StoreWriter, reader: &StoreReader, times: u32) -> Result<(), StoreError>
    requires few { IfSome writer.old (λ w. taken_count w ≤ 1) }
    requires small { document_count reader.now ≤ 1 }
    requires times { times ≤ 6 }
{
    stacked_blocks_stay_in_order();
    for _ in 0..times {
        writer.stack(reader)?;
    }
    Ok(())
}

/// A writer that has the store of at most one document six times.
fn stacked(alloc: Global, reader: &StoreReader) -> Result<StoreWriter, StoreError>
    requires { document_count reader.now ≤ 1 }
{
    let mut writer = StoreWriter::new(alloc, Compressor::None, 16384, false)?;
    stack(&mut writer, reader, 6)?;
    Ok(writer)
}

/// The store of one document, six times.
fn six(alloc: Global, bytes: &[u8]) -> Result<Vec<u8>, StoreError> {
    let reader = one(alloc, bytes)?;
    stacked(alloc, &reader)?.close()
}

/// How many blocks it has.
fn blocks_of_six(alloc: Global, bytes: &[u8]) -> Result<usize, StoreError> {
    let file = six(alloc, bytes)?;
    Ok(open(alloc, &file)?.block_count())
}

/// Adds the first document.
fn add_document(lines: &mut Lines, reader: &mut CachedStoreReader) {
    if reader.num_docs() == 0 {
        return lines.miss();
    }
    lines.add_result(
        "document 0 of the store, read through a cache of one block",
        reader.get(0),
    );
}

/// Adds a document twice, and then how the cache was used.
fn add_cached(lines: &mut Lines, reader: &mut CachedStoreReader) {
    add_document(lines, reader);
    add_document(lines, reader);
    lines.add_answer("cache_stats after this", &reader.cache_stats());
}

fn cached(alloc: Global, bytes: &[u8]) -> Result<CachedStoreReader, StoreError> {
    CachedStoreReader::open(alloc, file(alloc, bytes)?, 1)
}

fn add_store(lines: &mut Lines, bytes: &[u8]) {
    let alloc = lines.alloc();
    lines.add_bytes("store of the document of the text a in field 0", bytes);
    match cached(alloc, bytes) {
        Ok(mut reader) => add_cached(lines, &mut reader),
        Err(_) => lines.miss(),
    }
    lines.add_result(
        "blocks of a store that this one is stacked in six times",
        blocks_of_six(alloc, bytes),
    );
}

pub(crate) fn add_stores(lines: &mut Lines) {
    match store_of_one(lines.alloc()) {
        Ok(file) => add_store(lines, &file),
        Err(_) => lines.miss(),
    }
}

//! Indices in memory, of one segment that was written in one go.

use crate::samples::{Words, document, memory, schema, segment_id, settings};
use seg_build::SingleSegmentIndexWriter;
use seg_directory::MemoryDirectory;
use seg_meta::Index;
use seg_open::SegmentReader;
use seg_values::{FieldKind, IndexOption, Schema, TResult, TantivyDocument, TantivyError};
use std::alloc::{AllocError, Global};

/// An index, and the directory that it is in.
pub(super) type StoredIndex = (Index, MemoryDirectory);

/// An index of these documents, which are stored in blocks of this many bytes.
pub(super) fn index_of(
    alloc: Global,
    schema: Schema,
    block_size: u32,
    documents: Vec<TantivyDocument>,
) -> TResult<StoredIndex> {
    let mut directory = memory(alloc)?;
    let empty = Index::create(alloc, schema, settings(block_size), &mut directory)?;
    let index = write(alloc, empty, documents, &mut directory)?;
    Ok((index, directory))
}

/// Writes the segment of some documents, and the meta that lists it.
fn write(
    alloc: Global,
    empty: Index,
    documents: Vec<TantivyDocument>,
    directory: &mut MemoryDirectory,
) -> TResult<Index> {
    let mut writer = SingleSegmentIndexWriter::new(alloc, empty, 15_000, segment_id(), &Words)?;
    add(&mut writer, documents)?;
    writer.finalize(directory)
}

fn add(
    writer: &mut SingleSegmentIndexWriter<'_, Words, TantivyDocument>,
    documents: Vec<TantivyDocument>,
) -> TResult<()> {
    for document in documents {
        match writer.add_document(document) {
            Ok(()) => {}
            Err(e) => return Err(e),
        }
    }
    Ok(())
}

/// The document that has this text in its first field, so many times.
pub(super) fn copies(
    alloc: Global,
    text: &str,
    count: u32,
) -> Result<Vec<TantivyDocument>, AllocError> {
    let mut documents = Vec::new(alloc);
    for _ in 0..count {
        documents.push(document(alloc, &[(0, text)])?)?;
    }
    Ok(documents)
}

/// An index of the document that has this text in its one field.
pub(super) fn index_of_text(alloc: Global, field: &str, text: &str) -> TResult<StoredIndex> {
    let rows = [(field, FieldKind::Text, IndexOption::Positions)];
    index_of(alloc, schema(alloc, &rows)?, 16384, copies(alloc, text, 1)?)
}

/// The one segment of an index, open.
pub(super) fn opened(alloc: Global, stored: StoredIndex) -> TResult<SegmentReader> {
    let (index, mut directory) = stored;
    open_first(alloc, &index, &mut directory)
}

fn open_first(
    alloc: Global,
    index: &Index,
    directory: &mut MemoryDirectory,
) -> TResult<SegmentReader> {
    let segments = index.searchable_segments(alloc)?;
    match segments.first() {
        Some(segment) => SegmentReader::open(alloc, segment, directory),
        None => Err(TantivyError::SystemError),
    }
}

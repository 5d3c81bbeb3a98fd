//! Indices that are merged, and read back.
ghost use Rattle.std.specs.Prelude.{◌<◌};
ghost use Rattle.seg_store.specs.Store.{document_count};

use super::indices::{StoredIndex, index_of_text, opened};
use super::work_index::work_index;
use crate::lines::Lines;
use crate::samples::memory;
use seg_common::SegmentId;
use seg_directory::MemoryDirectory;
use seg_index_build::merge_indices;
use seg_meta::Index;
use seg_open::SegmentReader;
use seg_store::StoreReader;
use seg_values::{Field, Schema, TResult};
use std::alloc::{AllocError, Global};

/// Merges two indices into a directory.
fn merge_into(
    alloc: Global,
    first: StoredIndex,
    second: StoredIndex,
    output: &mut MemoryDirectory,
) -> TResult<Index> {
    let indices = [first.0, second.0];
    let mut sources = [first.1, second.1];
    merge_indices(
        alloc,
        &indices,
        &mut sources,
        SegmentId::from_u128(3),
        output,
    )
}

/// Two indices, merged into one.
pub(super) fn merged(
    alloc: Global,
    first: StoredIndex,
    second: StoredIndex,
) -> TResult<StoredIndex> {
    let mut directory = memory(alloc)?;
    let index = merge_into(alloc, first, second, &mut directory)?;
    Ok((index, directory))
}

/// A stored document, as JSON.
fn line(alloc: Global, schema: &Schema, store: &StoreReader, id: u32) -> Result<String, AllocError>
    requires { id < document_count store.now }
{
    let Ok(document) = store.get(alloc, id) else {
        return Err(AllocError);
    };
    match document.to_json(alloc, schema) {
        Ok(line) => Ok(line),
        Err(_) => Err(AllocError),
    }
}

/// In how many documents a text of the first field occurs.
fn documents_with(reader: &SegmentReader, text: &str) -> Option<u32> {
    let field = reader.opened_field(Field::from_field_id(0))?;
    let info = field.terms().get(text.as_bytes())?;
    Some(info.doc_freq)
}

/// Three indices of a title each, of which two are merged first.
fn merged_twice(alloc: Global) -> TResult<SegmentReader> {
    let both = two_titles(alloc)?;
    let third = index_of_text(alloc, "title", "b c")?;
    opened(alloc, merged(alloc, both, third)?)
}

fn two_titles(alloc: Global) -> TResult<StoredIndex> {
    let first = index_of_text(alloc, "title", "a b")?;
    let second = index_of_text(alloc, "title", "b")?;
    merged(alloc, first, second)
}

/// A work index, merged with the same again.
fn merged_with_itself(alloc: Global) -> TResult<SegmentReader> {
    let first = work_index(alloc)?;
    let second = work_index(alloc)?;
    opened(alloc, merged(alloc, first, second)?)
}

fn add_documents(lines: &mut Lines, reader: &SegmentReader) {
    let store = reader.store_reader();
    for id in 0..store.num_docs() {
        lines.add_text_result(
            "  a document",
            line(lines.alloc(), reader.schema(), store, id),
        );
    }
}

fn add_twice(lines: &mut Lines, reader: &SegmentReader) {
    add_documents(lines, reader);
    lines.add_answer(
        "  terms().get of \"b\", doc_freq",
        &documents_with(reader, "b"),
    );
    lines.add_answer(
        "  terms().get of \"c\", doc_freq",
        &documents_with(reader, "c"),
    );
}

pub(super) fn add_merged_indices(lines: &mut Lines) {
    let alloc = lines.alloc();
    lines.add("merge_indices of the titles \"a b\" and \"b\", and of that and \"b c\":");
    match merged_twice(alloc) {
        Ok(reader) => add_twice(lines, &reader),
        Err(_) => lines.miss(),
    }
    lines.add(
        "build_index of the titles \"some text 1\" to \"some text 4\" in two batches, with a delete of \"4\",",
    );
    lines.add("and merge_indices of its work index with another of the same:");
    match merged_with_itself(alloc) {
        Ok(reader) => add_documents(lines, &reader),
        Err(_) => lines.miss(),
    }
}

//! The work index of a small build: two segments, of which the second has a deleted document.

use super::indices::StoredIndex;
use crate::samples::{Words, document, memory, schema, settings};
use seg_check::UserOperation;
use seg_common::SegmentId;
use seg_directory::MemoryDirectory;
use seg_index_build::build_index;
use seg_meta::Index;
use seg_values::{Field, FieldKind, IndexOption, TResult, TantivyDocument, Term};
use std::alloc::{AllocError, Global};

/// The deletion of the documents with a term.
fn deletion(alloc: Global, text: &str) -> Result<UserOperation<TantivyDocument>, AllocError> {
    match Term::from_field_text(alloc, Field::from_field_id(0), text) {
        Ok(term) => Ok(UserOperation::Delete(term)),
        Err(_) => Err(AllocError),
    }
}

/// Four additions, and a deletion of the last one.
fn operations(alloc: Global) -> Result<Vec<UserOperation<TantivyDocument>>, AllocError> {
    let mut operations = Vec::new(alloc);
    for text in ["some text 1", "some text 2", "some text 3", "some text 4"] {
        operations.push(UserOperation::Add(document(alloc, &[(0, text)])?))?;
    }
    operations.push(deletion(alloc, "4")?)?;
    Ok(operations)
}

fn build(
    alloc: Global,
    work: &mut MemoryDirectory,
    output: &mut MemoryDirectory,
) -> TResult<Index> {
    build_index(
        alloc,
        &schema(alloc, &[("title", FieldKind::Text, IndexOption::Positions)])?,
        &settings(16384),
        &Words,
        &operations(alloc)?,
        &[2],
        &[None, None],
        &[
            SegmentId::from_u128(1),
            SegmentId::from_u128(2),
            SegmentId::from_u128(3),
        ],
        work,
        output,
    )
}

pub(super) fn work_index(alloc: Global) -> TResult<StoredIndex> {
    let mut directory = memory(alloc)?;
    let mut output = memory(alloc)?;
    build(alloc, &mut directory, &mut output)?;
    let index = Index::open(alloc, &mut directory)?;
    Ok((index, directory))
}

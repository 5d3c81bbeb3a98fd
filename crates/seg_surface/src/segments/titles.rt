//! A small segment of titles, as it is written and opened.

use crate::samples::{Words, document, memory, schema, segment, settings};
use seg_build::{AddOperation, Opstamp, SegmentWriter};
use seg_directory::MemoryDirectory;
use seg_meta::Segment;
use seg_open::SegmentReader;
use seg_values::{Field, FieldKind, IndexOption, OwnedValue, TResult};
use std::alloc::{AllocError, Global};
use std::collections::BTreeMap;

/// The segment, of two documents.
pub(super) fn titles(alloc: Global) -> Result<Segment, AllocError> {
    let rows = [("title", FieldKind::Text, IndexOption::Positions)];
    Ok(segment(schema(alloc, &rows)?, 2))
}

/// The addition of the document `a b a`.
pub(super) fn addition(alloc: Global, opstamp: Opstamp) -> Result<AddOperation, AllocError> {
    Ok(AddOperation {
        opstamp,
        document: document(alloc, &[(0, "a b a")])?,
    })
}

/// The document `b`, as a map.
fn mapped(alloc: Global) -> Result<BTreeMap<Field, OwnedValue>, AllocError> {
    let mut document = BTreeMap::new(alloc);
    let Ok(value) = OwnedValue::from_text(alloc, "b") else {
        return Err(AllocError);
    };
    match document.insert(Field::from_field_id(0), value) {
        Ok(_) => Ok(document),
        Err(_) => Err(AllocError),
    }
}

/// A directory with the files of both documents.
fn written(alloc: Global) -> TResult<MemoryDirectory> {
    let segment = titles(alloc)?;
    let mut writer = SegmentWriter::for_segment(alloc, 15_000, segment, &settings(16384), &Words)?;
    writer.add_document(addition(alloc, 0)?)?;
    writer.add_ref(1, &mapped(alloc)?)?;
    let mut directory = memory(alloc)?;
    writer.finalize(&mut directory)?;
    Ok(directory)
}

/// The segment, open.
pub(super) fn opened(alloc: Global) -> TResult<SegmentReader> {
    let mut directory = written(alloc)?;
    SegmentReader::open(alloc, &titles(alloc)?, &mut directory)
}

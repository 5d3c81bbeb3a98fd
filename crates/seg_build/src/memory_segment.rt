//! A segment in memory.

use crate::add_operation::Opstamp;
use crate::fields::IndexedFields;
use seg_segment::SegmentFiles;

/// A segment whose files aren't made in a directory yet: the files, the terms of its fields, and the stamps of its
/// documents.
#[derive(Drop)]
pub struct MemorySegment {
    pub files: SegmentFiles,
    pub fields: IndexedFields,
    pub stamps: Vec<Opstamp>,
}

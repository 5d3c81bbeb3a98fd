//! How much space a segment takes.

use seg_common::ByteCount;

/// How many documents of a segment are alive, and how many bytes each of its files has; `deletes` are those of the set
/// of documents that are alive, in memory, and 0 where all are.
#[derive(Clone, Copy, Debug, PartialEq, Eq)]
pub struct SegmentSpaceUsage {
    pub num_docs: u32,
    pub termdict: ByteCount,
    pub postings: ByteCount,
    pub positions: ByteCount,
    pub fast_fields: ByteCount,
    pub fieldnorms: ByteCount,
    pub store: ByteCount,
    pub deletes: ByteCount,
}

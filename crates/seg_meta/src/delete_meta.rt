//! The deletes of a segment.

/// The deletes of a segment.
#[derive(Clone, Copy, Debug, PartialEq, Eq)]
pub struct DeleteMeta {
    /// How many documents are deleted.
    pub num_deleted_docs: u32,
    /// The stamp up to which deletes count.
    pub opstamp: u64,
}

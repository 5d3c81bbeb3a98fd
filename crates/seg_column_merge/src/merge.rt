//! What all columns of a merge have in common.

use seg_column_file::{ColumnarReader, KeptRows, MergeRowOrder};
use seg_common::ColumnType;
use std::alloc::Global;

/// The files, the columns that are required, and the rows that are kept, by their order and by marks of the rows of
/// each file.
#[derive(Drop)]
pub(crate) struct Merge<'a> {
    pub(crate) alloc: Global,
    pub(crate) columnars: &'a [ColumnarReader],
    pub(crate) required: &'a [(String, ColumnType)],
    pub(crate) counts: &'a [u32],
    pub(crate) kept: &'a KeptRows,
    pub(crate) order: &'a MergeRowOrder,
}

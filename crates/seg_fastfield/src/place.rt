//! Where a value of a field is recorded.
use seg_column_writer::ColumnId;

/// By what the column of a value is known before its path is looked up.
#[derive(Clone, Copy, Debug)]
pub(crate) struct Place {
    /// That of a field which has one.
    pub column: Option<ColumnId>,
    /// The number of its path.
    pub number: Option<u32>,
}

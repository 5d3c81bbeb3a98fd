//! The name of a column, as the table of columns keeps it.
use seg_column_format::CompositeKey;

/// The place of the kind of a column's values, and its path.
pub(crate) type ColumnName = CompositeKey<u8>;

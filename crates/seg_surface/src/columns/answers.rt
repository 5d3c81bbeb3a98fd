//! Columns and their values, as they are told.

use crate::lines::Lines;
use seg_columns::{Column, ColumnValue, DynamicColumnHandle};

/// Adds how many columns a call answered, and of each its type and how many bytes it has.
pub(crate) fn add_handles(lines: &mut Lines, what: &str, handles: &[DynamicColumnHandle]) {
    lines.add_answer(what, &handles.len());
    for handle in handles {
        lines.add_answer(
            "  type and bytes",
            &(handle.column_type(), handle.space_usage().0),
        );
    }
}

/// The first value of the first document, if there is one.
pub(crate) fn first_value<T: ColumnValue>(column: &Column<T>) -> Option<T> {
    if column.num_docs() == 0 {
        return None;
    }
    column.first(0)
}

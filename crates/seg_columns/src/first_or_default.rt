//! Columns of which only the first value of each document counts.
ghost use Rattle.std.specs.Prelude.{◌≡◌, ◌<◌, Some, length, map, slice_get};
ghost use Rattle.seg_columns.specs.Columns.{first_or};

use crate::column::Column;
use crate::column_value::ColumnValue;
use std::marker::Model;

/// One value for each document: the first in its column, or the default where it has none. It is seen as their list.
#[derive(Drop)]
pub struct ColumnFirstOrDefault<T: ColumnValue> {
    column: Column<T>,
    default: T,
}

impl<T: ColumnValue> Model for ColumnFirstOrDefault<T> {
    ghost use Rattle.std.specs.Prelude.{List, map};
    ghost use Rattle.seg_columns.specs.Columns.{first_or};

    ghost Value = { List T };

    ghost view = { λ c. map (first_or c.default) c.column };
}

impl<T: ColumnValue> ColumnFirstOrDefault<T> {
    pub(crate) fn new(column: Column<T>, default: T) -> ColumnFirstOrDefault<T>
        ensures { result ≡ map (first_or default) column }
    {
        ColumnFirstOrDefault { column, default }
    }

    pub fn get_val(&self, doc: u32) -> T
        requires { doc < length self.now }
        ensures { slice_get self.now doc ≡ Some result }
    {
        match self.column.first(doc) {
            Some(value) => value,
            None => self.default,
        }
    }
}

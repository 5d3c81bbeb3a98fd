//! Columns of values that take a fixed number of bytes.
ghost use Rattle.std.specs.Prelude.{◌≡◌, ◌<◌, [], length, map, get_or, slice_get, MatchOption};
ghost use Rattle.seg_columns.specs.Columns.{IsColumn, first_or, row_of, rows_of};

use crate::column_check::{is_column, values_of};
use crate::column_value::ColumnValue;
use crate::column_values::ColumnValues;
use crate::ends::start_at;
use crate::first_or_default::ColumnFirstOrDefault;
use seg_common::OwnedBytes;
use std::marker::{Model, PhantomData};

/// The values of each document in one column. It is seen as the list of these lists.
#[derive(Drop)]
pub struct Column<T: ColumnValue> {
    bytes: OwnedBytes,
    num_docs: u32,
    of: PhantomData<T>,
}

impl<T: ColumnValue> Model for Column<T> {
    ghost use Rattle.std.specs.Prelude.{List};
    ghost use Rattle.seg_columns.specs.Columns.{IsColumn, rows_of};

    ghost Value = { List (List T) };

    ghost view = { λ c. rows_of T.WIDTH T.decoded c.num_docs c.bytes };

    ghost invariant = { λ c. IsColumn T.WIDTH T.decoded c.num_docs c.bytes };
}

impl<T: ColumnValue> Column<T> {
    /// The column that has these bytes, if one has: they are scanned once, and it takes no memory.
    pub fn open(bytes: OwnedBytes, num_docs: u32) -> Option<Column<T>>
        ensures { MatchOption result (IsColumn T.WIDTH T.decoded num_docs bytes → ⊥)
            (λ c. IsColumn T.WIDTH T.decoded num_docs bytes × (c ≡ rows_of T.WIDTH T.decoded num_docs bytes)) }
    {
        if !is_column::<T>(bytes.as_slice(), num_docs) {
            return None;
        }
        Some(Column::of_checked(bytes, num_docs))
    }

    /// The column that has these bytes, which were checked before.
    pub fn of_checked(bytes: OwnedBytes, num_docs: u32) -> Column<T>
        requires { IsColumn T.WIDTH T.decoded num_docs bytes }
        ensures { result ≡ rows_of T.WIDTH T.decoded num_docs bytes }
    {
        Column {
            bytes,
            num_docs,
            of: PhantomData,
        }
    }

    pub fn num_docs(&self) -> u32
        ensures { result ≡ length self.now }
    {
        self.num_docs
    }

    /// The bytes that were opened.
    pub fn as_bytes(&self) -> &[u8]
        ensures column { IsColumn T.WIDTH T.decoded (length self.now) result.now }
        ensures rows { rows_of T.WIDTH T.decoded (length self.now) result.now ≡ self.now }
    {
        self.bytes.as_slice()
    }

    /// The values of a document: two ends are read, and no memory is taken.
    pub fn values_for_doc(&self, doc: u32) -> ColumnValues<'_, T>
        requires { doc < length self.now }
        ensures { result ≡ get_or self.now doc [] }
    {
        row_values(self.bytes.as_slice(), self.num_docs as usize, doc as usize)
    }

    /// The first value of a document.
    pub fn first(&self, doc: u32) -> Option<T>
        requires { doc < length self.now }
        ensures { result ≡ slice_get (get_or self.now doc []) 0 }
    {
        self.values_for_doc(doc).next()
    }

    /// The first values alone, with a default for documents that have none.
    pub fn first_or_default_col(self, default: T) -> ColumnFirstOrDefault<T>
        ensures { result ≡ map (first_or default) self }
    {
        ColumnFirstOrDefault::new(self, default)
    }
}

fn row_values<T: ColumnValue>(bytes: &[u8], rows: usize, row: usize) -> ColumnValues<'_, T>
    requires place { row < rows }
    requires column { IsColumn T.WIDTH T.decoded rows bytes.now }
    ensures { result ≡ row_of T.WIDTH T.decoded rows bytes.now row }
{
    let start = start_at(bytes, row);
    let end = start_at(bytes, row + 1);
    ColumnValues::new(values_of(bytes, rows), start as usize, end as usize)
}

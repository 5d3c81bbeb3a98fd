//! Columns of one type.
ghost use Rattle.std.specs.Prelude.{◌≡◌, map, option_map};
ghost use Rattle.seg_model.specs.DocumentCheck.{first_of};
ghost use Rattle.seg_columns.specs.Columns.{first_or};
ghost use Rattle.seg_columns.specs.DynamicColumns.{u64_column, i64_column, bool_column, date_column, ip_column};
ghost use Rattle.seg_fastfield.specs.Answers.{AnswersBy, Needs};
ghost use Rattle.seg_fastfield.specs.OpenFastFields.{bytes_column, str_column};

use crate::readers::FastFieldReaders;
use seg_column_file::HasAssociatedColumnType;
use seg_columns::{
    BytesColumn, Column, ColumnFirstOrDefault, DynamicColumn, DynamicColumnHandle, StrColumn,
};
use seg_common::DateTime;
use seg_values::{SchemaCause, TResult, TantivyError};
use std::alloc::Global;
use std::net::Ipv6Addr;

impl FastFieldReaders {
    /// The column of a name with the type's own column type, if there is one.
    pub fn column_opt<T: HasAssociatedColumnType>(
        &self,
        alloc: Global,
        field_name: &str,
    ) -> TResult<Option<Column<T>>>
        ensures { AnswersBy self.now field_name.now (first_of (λ c. T.column_of c.column)) result }
    {
        let handles = self.dynamic_column_handles(alloc, field_name)?;
        Ok(first_column(&handles))
    }

    pub fn u64(&self, alloc: Global, field_name: &str) -> TResult<Column<u64>>
        ensures { Needs self.now field_name.now (first_of (λ c. u64_column c.column)) result }
    {
        self.column(alloc, field_name)
    }

    pub fn i64(&self, alloc: Global, field_name: &str) -> TResult<Column<i64>>
        ensures { Needs self.now field_name.now (first_of (λ c. i64_column c.column)) result }
    {
        self.column(alloc, field_name)
    }

    pub fn bool(&self, alloc: Global, field_name: &str) -> TResult<Column<bool>>
        ensures { Needs self.now field_name.now (first_of (λ c. bool_column c.column)) result }
    {
        self.column(alloc, field_name)
    }

    pub fn date(&self, alloc: Global, field_name: &str) -> TResult<Column<DateTime>>
        ensures { Needs self.now field_name.now (first_of (λ c. date_column c.column)) result }
    {
        self.column(alloc, field_name)
    }

    pub fn ip_addr(&self, alloc: Global, field_name: &str) -> TResult<Column<Ipv6Addr>>
        ensures { Needs self.now field_name.now (first_of (λ c. ip_column c.column)) result }
    {
        self.column(alloc, field_name)
    }

    /// One value for each document: its first, and zero, `false`, the epoch or `::` where it has none.
    pub fn column_first_or_default<T: HasAssociatedColumnType>(
        &self,
        alloc: Global,
        field_name: &str,
    ) -> TResult<ColumnFirstOrDefault<T>>
        ensures { Needs self.now field_name.now
            (λ columns. option_map (map (first_or T.default_value)) (first_of (λ c. T.column_of c.column) columns))
            result }
    {
        let column = self.column::<T>(alloc, field_name)?;
        Ok(column.first_or_default_col(T::default_value()))
    }

    /// The column of texts of a name, if there is one.
    pub fn str(&self, alloc: Global, field_name: &str) -> TResult<Option<StrColumn>>
        ensures { AnswersBy self.now field_name.now (first_of (λ c. str_column c.column)) result }
    {
        let handles = self.dynamic_column_handles(alloc, field_name)?;
        Ok(first_texts(&handles))
    }

    /// The column of byte strings of a name, if there is one.
    pub fn bytes(&self, alloc: Global, field_name: &str) -> TResult<Option<BytesColumn>>
        ensures { AnswersBy self.now field_name.now (first_of (λ c. bytes_column c.column)) result }
    {
        let handles = self.dynamic_column_handles(alloc, field_name)?;
        Ok(first_byte_strings(&handles))
    }

    /// The column of a name, which has to be there.
    fn column<T: HasAssociatedColumnType>(
        &self,
        alloc: Global,
        field_name: &str,
    ) -> TResult<Column<T>>
        ensures { Needs self.now field_name.now (first_of (λ c. T.column_of c.column)) result }
    {
        match self.column_opt::<T>(alloc, field_name)? {
            Some(column) => Ok(column),
            None => Err(TantivyError::SchemaError(SchemaCause::NoColumn)),
        }
    }
}

fn first_column<T: HasAssociatedColumnType>(handles: &[DynamicColumnHandle]) -> Option<Column<T>>
    ensures { result ≡ first_of (λ c. T.column_of c.column) handles.now }
{
    for handle in handles {
        if let Some(column) = T::column_of(handle.open()) {
            return Some(column);
        }
    }
    None
}

fn first_texts(handles: &[DynamicColumnHandle]) -> Option<StrColumn>
    ensures { result ≡ first_of (λ c. str_column c.column) handles.now }
{
    for handle in handles {
        if let DynamicColumn::Str(column) = handle.open() {
            return Some(column);
        }
    }
    None
}

fn first_byte_strings(handles: &[DynamicColumnHandle]) -> Option<BytesColumn>
    ensures { result ≡ first_of (λ c. bytes_column c.column) handles.now }
{
    for handle in handles {
        if let DynamicColumn::Bytes(column) = handle.open() {
            return Some(column);
        }
    }
    None
}

//! The columns of a name, not opened yet.
ghost use Rattle.std.specs.Prelude.{◌≡◌, option_map, string_bytes};
ghost use Rattle.seg_model.specs.DocumentCheck.{first_of};
ghost use Rattle.seg_columns.specs.DynamicColumns.{type_of};
ghost use Rattle.seg_fastfield.specs.Answers.{Answers, AnswersBy};
ghost use Rattle.seg_fastfield.specs.OpenFastFields.{bytes_in, columns_at, columns_below, of_type};

use crate::readers::FastFieldReaders;
use seg_columns::DynamicColumnHandle;
use seg_common::{ByteCount, ColumnType};
use seg_values::{TResult, TantivyError};
use std::alloc::Global;

impl FastFieldReaders {
    /// The columns of a name, in order of type.
    pub fn dynamic_column_handles(
        &self,
        alloc: Global,
        field_name: &str,
    ) -> TResult<Vec<DynamicColumnHandle>>
        ensures { Answers self.now field_name.now
            (λ path handles. handles.items ≡ columns_at self.now.file path) result }
    {
        let Some(name) = self.column_name(alloc, field_name)? else {
            return Ok(Vec::new(alloc));
        };
        match self.columnar().read_columns(alloc, name.as_str()) {
            Ok(handles) => Ok(handles),
            Err(_) => Err(TantivyError::OutOfMemory),
        }
    }

    /// The columns of all paths below that of a name, in order of path and type.
    pub fn dynamic_subpath_column_handles(
        &self,
        alloc: Global,
        field_name: &str,
    ) -> TResult<Vec<DynamicColumnHandle>>
        ensures { Answers self.now field_name.now
            (λ path handles. handles.items ≡ columns_below self.now.file path) result }
    {
        let Some(name) = self.column_name(alloc, field_name)? else {
            return Ok(Vec::new(alloc));
        };
        match self.columnar().read_subpath_columns(alloc, name.as_str()) {
            Ok(handles) => Ok(handles),
            Err(_) => Err(TantivyError::OutOfMemory),
        }
    }

    /// The column of a name with a type.
    pub fn dynamic_column_handle(
        &self,
        alloc: Global,
        field_name: &str,
        column_type: ColumnType,
    ) -> TResult<Option<DynamicColumnHandle>>
        ensures { AnswersBy self.now field_name.now (first_of (of_type column_type)) result }
    {
        let handles = self.dynamic_column_handles(alloc, field_name)?;
        Ok(handle_of(handles, column_type))
    }

    /// How many bytes the columns of a name have.
    pub fn column_num_bytes(&self, alloc: Global, field_name: &str) -> TResult<ByteCount>
        ensures { Answers self.now field_name.now
            (λ path size. size.0 ≡ bytes_in (columns_at self.now.file path)) result }
    {
        let handles = self.dynamic_column_handles(alloc, field_name)?;
        Ok(ByteCount(num_bytes(&handles)))
    }

    /// The path that a name stands for.
    fn column_name(&self, alloc: Global, field_name: &str) -> TResult<Option<String>>
        ensures { Answers self.now field_name.now (λ path name. option_map string_bytes name ≡ path) result }
    {
        self.resolve_column_name_given_default_field(alloc, field_name, None)
    }
}

fn handle_of(
    handles: Vec<DynamicColumnHandle>,
    column_type: ColumnType,
) -> Option<DynamicColumnHandle>
    ensures { result ≡ first_of (of_type column_type) handles.items }
{
    for handle in handles {
        if handle.column_type() == column_type {
            return Some(handle);
        }
    }
    None
}

fn num_bytes(handles: &[DynamicColumnHandle]) -> u64
    ensures { result ≡ bytes_in handles.now }
{
    let mut total = 0u64;
    for handle in handles {
        total = total.saturating_add(handle.num_bytes().0);
    }
    total
}

//! Columns as numbers, whatever their types are.
ghost use Rattle.std.specs.Prelude.{◌≡◌, None, filter_map, IfOk};
ghost use Rattle.seg_model.specs.DocumentCheck.{first_of};
ghost use Rattle.seg_fastfield.specs.Answers.{Answers, AnswersBy};
ghost use Rattle.seg_fastfield.specs.OpenFastFields as spec;
ghost use Rattle.seg_fastfield.specs.OpenFastFields.{columns_at};

use crate::readers::FastFieldReaders;
use seg_columns::{Column, DynamicColumnHandle};
use seg_common::ColumnType;
use seg_values::TResult;
use std::alloc::{AllocError, Global};

impl FastFieldReaders {
    /// The first column of a name that has numbers, with its type. Texts and byte strings have their ordinals,
    /// addresses none, and other values the numbers whose order is theirs.
    pub fn u64_lenient(
        &self,
        alloc: Global,
        field_name: &str,
    ) -> TResult<Option<(Column<u64>, ColumnType)>>
        ensures { AnswersBy self.now field_name.now (first_of (spec.lenient None)) result }
    {
        self.u64_lenient_for_type(alloc, None, field_name)
    }

    /// As `u64_lenient`, of the columns with these types; `None` stands for all.
    pub fn u64_lenient_for_type(
        &self,
        alloc: Global,
        types: Option<&[ColumnType]>,
        field_name: &str,
    ) -> TResult<Option<(Column<u64>, ColumnType)>>
        ensures { AnswersBy self.now field_name.now (first_of (spec.lenient types.entry)) result }
    {
        let handles = self.dynamic_column_handles(alloc, field_name)?;
        Ok(first_numbers(&handles, types))
    }

    /// All of them, in order of type.
    pub fn u64_lenient_for_type_all(
        &self,
        alloc: Global,
        types: Option<&[ColumnType]>,
        field_name: &str,
    ) -> TResult<Vec<(Column<u64>, ColumnType)>>
        ensures { Answers self.now field_name.now
            (λ path columns. columns.items ≡ filter_map (spec.lenient types.entry) (columns_at self.now.file path))
            result }
    {
        let handles = self.dynamic_column_handles(alloc, field_name)?;
        Ok(all_numbers(alloc, &handles, types)?)
    }
}

fn first_numbers(
    handles: &[DynamicColumnHandle],
    types: Option<&[ColumnType]>,
) -> Option<(Column<u64>, ColumnType)>
    ensures { result ≡ first_of (spec.lenient types.entry) handles.now }
{
    for handle in handles {
        if let Some(numbers) = numbers(handle, types) {
            return Some(numbers);
        }
    }
    None
}

fn all_numbers(
    alloc: Global,
    handles: &[DynamicColumnHandle],
    types: Option<&[ColumnType]>,
) -> Result<Vec<(Column<u64>, ColumnType)>, AllocError>
    ensures { IfOk result (λ columns. columns.items ≡ filter_map (spec.lenient types.entry) handles.now) }
{
    let mut all = Vec::new(alloc);
    for handle in handles {
        if let Some(numbers) = numbers(handle, types) {
            all.push(numbers)?;
        }
    }
    Ok(all)
}

/// The numbers of a column with one of these types, if it has any, and its type.
fn numbers(
    handle: &DynamicColumnHandle,
    types: Option<&[ColumnType]>,
) -> Option<(Column<u64>, ColumnType)>
    ensures { result ≡ spec.lenient types.entry handle.now }
{
    let column_type = handle.column_type();
    if !is_asked(types, column_type) {
        return None;
    }
    let column = handle.open_u64_lenient()?;
    Some((column, column_type))
}

fn is_asked(types: Option<&[ColumnType]>, column_type: ColumnType) -> bool
    ensures { result ≡ spec.is_asked types.entry column_type }
{
    match types {
        Some(types) => types.contains(&column_type),
        None => true,
    }
}

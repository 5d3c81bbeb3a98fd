//! Which columns are written, and with which types.
ghost use Rattle.std.specs.Prelude.{◌≡◌, ◌++◌, ◌||◌, IfOk, OnOk};
ghost use Rattle.std.specs.List.{AllByRecursion, list_any};
ghost use Rattle.std.specs.List.Sorted.{IsPermutation, IsSortedBy};
ghost use Rattle.std.specs.Ordering.{is_lt};
ghost use Rattle.seg_model.specs.Columns.{column_cmp};
ghost use Rattle.seg_column_writer.specs.RecordedColumns.{IsRecorded, lacks_type};
ghost use Rattle.seg_column_writer.specs.TypedColumns.{key_at, path_in, typed_at, typed_from};

use crate::column_name::ColumnName;
use crate::recorded_column::RecordedColumn;
use seg_column_format::type_code;
use seg_common::ColumnType;
use std::alloc::{AllocError, Global};
use std::cmp::Ordering;

/// A column by its place among all, with its type.
#[derive(Clone, Copy)]
pub(crate) struct TypedColumn {
    pub place: usize,
    pub column_type: ColumnType,
}

/// Whether the numbers of some column have no type. All columns are looked at, so that what holds of each is known.
pub(crate) fn lack_types(columns: &[RecordedColumn]) -> bool
    ensures any { result ≡ list_any lacks_type columns.now }
    ensures each { AllByRecursion IsRecorded columns.now }
{
    let mut lacking = false;
    for column in columns {
        lacking = either(lacking, column.column_type().is_none());
    }
    lacking
}

fn either(first: bool, second: bool) -> bool
    ensures { result ≡ (first || second) }
{
    first || second
}

/// The columns that are written, in the order in which they came.
pub(crate) fn typed_columns(
    alloc: Global,
    columns: &[RecordedColumn],
) -> Result<Vec<TypedColumn>, AllocError>
    ensures { IfOk result (λ typed. typed.items ≡ typed_from 0 columns.now) }
{
    let mut typed = Vec::with_capacity(alloc, columns.len())?;
    for place in 0..columns.len() {
        let column = &columns[place];
        push_typed(&mut typed, place, column.written_type())?;
    }
    Ok(typed)
}

fn push_typed(
    typed: &mut Vec<TypedColumn>,
    place: usize,
    column_type: Option<ColumnType>,
) -> Result<(), AllocError>
    ensures { OnOk result (typed.new.items ≡ typed.old.items ++ typed_at place column_type) }
{
    let Some(column_type) = column_type else {
        return Ok(());
    };
    typed.push(TypedColumn { place, column_type })?;
    Ok(())
}

/// Puts columns in the order of their paths and types.
pub(crate) fn sort_columns(typed: &mut Vec<TypedColumn>, names: &[ColumnName])
    ensures moved { IsPermutation typed.old.items typed.new.items }
    ensures sorted { IsSortedBy (λ t u. is_lt (column_cmp (key_at names.now t) (key_at names.now u))) typed.new.items }
{
    typed.sort_unstable_by(|a, b| compare(names, *a, *b));
}

fn compare(names: &[ColumnName], first: TypedColumn, second: TypedColumn) -> Ordering
    ensures { result ≡ column_cmp (key_at names.now first) (key_at names.now second) }
{
    match path_at(names, first.place).cmp(&path_at(names, second.place)) {
        Ordering::Equal => type_code(first.column_type).cmp(&type_code(second.column_type)),
        unequal => unequal,
    }
}

/// The path of the column at a place; past all of them it is empty.
pub(crate) fn path_at(names: &[ColumnName], place: usize) -> &[u8]
    ensures { result.now ≡ path_in names.now place }
{
    match names.get(place) {
        Some(name) => name.bytes(),
        None => &[],
    }
}

//! The columns that a schema declares.
ghost use Rattle.std.specs.Prelude.{◌≡◌, ◌++◌, map, IfOk, OnOk};
ghost use Rattle.seg_column_merge.specs.MergedColumns.{required_key};
ghost use Rattle.seg_column_merge.specs.LiveColumns.{entry_keys};
ghost use Rattle.seg_model.specs.Columns as columns;

use seg_column_format::declared_type;
use seg_common::ColumnType;
use seg_values::{FieldEntry, Schema};
use std::alloc::{AllocError, Global};

/// The paths and types of the columns that the fast fields of a schema have in any case, in the order of the fields.
pub fn declared_columns(
    alloc: Global,
    schema: &Schema,
) -> Result<Vec<(String, ColumnType)>, AllocError>
    ensures { IfOk result (λ declared. map required_key declared.items ≡ columns.declared_columns schema.now) }
{
    let mut declared = Vec::new(alloc);
    for entry in schema.fields() {
        push_declared(&mut declared, alloc, entry)?;
    }
    Ok(declared)
}

fn push_declared(
    declared: &mut Vec<(String, ColumnType)>,
    alloc: Global,
    entry: &FieldEntry,
) -> Result<(), AllocError>
    ensures { OnOk result (map required_key declared.new.items
        ≡ map required_key declared.old.items ++ entry_keys entry.now) }
{
    if !entry.fast {
        return Ok(());
    }
    let Some(column_type) = declared_type(entry.kind) else {
        return Ok(());
    };
    declared.push((String::from_str(alloc, entry.name.as_str())?, column_type))?;
    Ok(())
}

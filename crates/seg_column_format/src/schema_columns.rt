//! All columns of a file, by a schema.
ghost use Rattle.std.specs.Prelude.{◌≡◌, ◌||◌, false, length, not, replicate, IfOk};
ghost use Rattle.seg_columns.specs.DynamicColumns.{type_of};
ghost use Rattle.seg_column_format.specs.PathStarts.{AreStarts};
ghost use Rattle.seg_column_format.specs.SchemaColumns as spec;

use crate::declared_columns::{declaring_field, has_declared};
use crate::json_paths::is_json_path;
use crate::path_start::PathStart;
use crate::path_starts::path_starts;
use crate::values::{has_value, is_json_type};
use seg_column_file::ColumnarReader;
use seg_columns::DynamicColumnHandle;
use seg_values::{FieldEntry, Schema};
use std::alloc::{AllocError, Global};

/// Whether a file has each column that is declared, and no others but those of JSON fields that have a value. It takes
/// a byte for each field and the names of fast JSON fields, and gives them back; its time is the bytes of the paths
/// times the logarithm of the number of these fields, besides what the values cost.
pub(crate) fn suits(
    alloc: Global,
    columnar: &ColumnarReader,
    schema: &Schema,
) -> Result<bool, AllocError>
    ensures { IfOk result (λ b. b ≡ spec.suits schema.now columnar.now.columns) }
{
    let starts = path_starts(alloc, schema.fields())?;
    all_suit(alloc, columnar, schema, &starts)
}

/// The same, where it is known what the paths below fast JSON fields begin with.
fn all_suit(
    alloc: Global,
    columnar: &ColumnarReader,
    schema: &Schema,
    starts: &[PathStart],
) -> Result<bool, AllocError>
    requires { AreStarts schema.now starts.now }
    ensures { IfOk result (λ b. b ≡ spec.suits schema.now columnar.now.columns) }
{
    let mut found = unmarked(alloc, schema.num_fields())?;
    for (path, handle) in columnar.iter_columns() {
        if !suits_one(schema, starts, path, &handle, &mut found) {
            return Ok(false);
        }
    }
    Ok(all_there(schema.fields(), found.as_slice()))
}

/// Whether a column may be there. The field that declares it is marked, if there is one.
fn suits_one(
    schema: &Schema,
    starts: &[PathStart],
    path: &str,
    handle: &DynamicColumnHandle,
    found: &mut Vec<bool>,
) -> bool
    requires starts { AreStarts schema.now starts.now }
    requires as_many { length found.old.items ≡ length schema.now }
    ensures suited { result ≡ spec.is_suited schema.now (record { path = path.now; stored = handle.now }) }
    ensures marks { spec.AreMarkedToo schema.now path.now (type_of (handle.now).column)
        found.old.items found.new.items }
{
    match declaring_field(schema, path, handle.column_type()) {
        Some(field) => {
            found[field] = true;
            true
        }
        None => is_free(schema, starts, path, handle),
    }
}

fn unmarked(alloc: Global, count: usize) -> Result<Vec<bool>, AllocError>
    ensures { IfOk result (λ marks. marks.items ≡ replicate count false) }
{
    let mut marks = Vec::new(alloc);
    marks.resize(count, false)?;
    Ok(marks)
}

/// Whether a column may be there that isn't declared.
fn is_free(schema: &Schema, starts: &[PathStart], path: &str, handle: &DynamicColumnHandle) -> bool
    requires { AreStarts schema.now starts.now }
    ensures { result ≡ spec.is_free schema.now (record { path = path.now; stored = handle.now }) }
{
    is_json_type(handle.column_type())
        && is_json_path(schema, starts, path)
        && has_value(&handle.open())
}

/// Whether each field that declares a column is marked.
fn all_there(schema: &[FieldEntry], marks: &[bool]) -> bool
    requires { length marks.now ≡ length schema.now }
    ensures { result ≡ spec.all_marked schema.now marks.now }
{
    for place in 0..schema.len() {
        if !is_there(&schema[place], marks[place]) {
            return false;
        }
    }
    true
}

fn is_there(entry: &FieldEntry, mark: bool) -> bool
    ensures { result ≡ (not (spec.has_declared entry.now) || mark) }
{
    !has_declared(entry) || mark
}

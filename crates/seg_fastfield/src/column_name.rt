//! The columns that a name stands for.
ghost use Rattle.std.specs.Prelude.{◌≡◌, option_map, string_bytes, IfOk};
ghost use Rattle.seg_fastfield.specs.ColumnNames as spec;
ghost use Rattle.seg_model.specs.Fields as fields;

use seg_common::PATH_SEPARATOR;
use seg_values::{FieldEntry, FieldKind, json_path_text};
use std::alloc::{AllocError, Global};

/// The path of the columns that a path in a field names, if there can be any.
pub(crate) fn column_path(
    alloc: Global,
    entry: &FieldEntry,
    path: &str,
) -> Result<Option<String>, AllocError>
    ensures { IfOk result (λ column. option_map string_bytes column ≡ spec.column_path entry.now path.now) }
{
    let mut column = String::from_str(alloc, entry.name.as_str())?;
    if path.is_empty() {
        return Ok(Some(column));
    }
    if !is_json(entry.kind) {
        return Ok(None);
    }
    let keys = json_path_text(alloc, path, entry.expand_dots)?;
    column.push(PATH_SEPARATOR)?;
    column.push_str(keys.as_str())?;
    Ok(Some(column))
}

fn is_json(kind: FieldKind) -> bool
    ensures { result ≡ fields.is_json kind }
{
    match kind {
        FieldKind::Json => true,
        _ => false,
    }
}

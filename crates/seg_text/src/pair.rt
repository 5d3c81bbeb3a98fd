//! A pair of a document.
ghost use Rattle.std.specs.Prelude.{◌≡◌, ◌++◌, OnOk};
ghost use Rattle.json.specs.Print.{quoted};
ghost use Rattle.serde_json.specs.Written.{compact_text};
ghost use Rattle.seg_values.specs.ValueTrees.{tree_of};
ghost use Rattle.seg_text.specs.DocumentText.{name_at, pair_json};

use crate::quoted_text::push_quoted;
use crate::value::push_value;
use seg_values::{Field, OwnedValue, Schema};
use std::alloc::{AllocError, Global};

/// The name of a field, and a value.
pub(crate) fn push_pair(
    out: &mut Vec<u8>,
    alloc: Global,
    schema: &Schema,
    field: Field,
    value: &OwnedValue,
) -> Result<(), AllocError>
    ensures { OnOk result (out.new.items
        ≡ out.old.items ++ compact_text (pair_json schema.now (field, tree_of value.now))) }
{
    out.push(b'[')?;
    push_name(out, alloc, schema, field)?;
    out.push(b',')?;
    push_value(out, alloc, value)?;
    out.push(b']')?;
    Ok(())
}

/// The name of a field, which is empty where the schema has no such field.
pub(crate) fn push_name(
    out: &mut Vec<u8>,
    alloc: Global,
    schema: &Schema,
    field: Field,
) -> Result<(), AllocError>
    ensures { OnOk result (out.new.items ≡ out.old.items ++ quoted (name_at schema.now field)) }
{
    match schema.fields().get(field.field_id() as usize) {
        Some(entry) => push_quoted(out, alloc, entry.name.as_str()),
        None => push_quoted(out, alloc, ""),
    }
}

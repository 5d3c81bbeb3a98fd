//! The fast JSON fields of a schema.
ghost use Rattle.std.specs.Prelude.{◌≡◌, ◌&&◌};
ghost use Rattle.std.specs.List.{list_any};
ghost use Rattle.std.specs.Str.{bytes_eq};
ghost use Rattle.seg_model.specs.Fields as fields;
ghost use Rattle.seg_column_format.specs.SchemaColumns as spec;

use seg_values::{FieldEntry, FieldKind, Schema};

/// Whether a fast JSON field has this name.
pub(crate) fn is_named(schema: &Schema, name: &str) -> bool
    ensures { result ≡ list_any (λ e. bytes_eq e.name name.now && spec.is_fast_json e) schema.now }
{
    schema.fields_are_valid();
    let Ok(field) = schema.get_field(name) else {
        return false;
    };
    is_fast_json(schema.get_field_entry(field))
}

pub(crate) fn is_fast_json(entry: &FieldEntry) -> bool
    ensures { result ≡ spec.is_fast_json entry.now }
{
    entry.fast && is_json(entry.kind)
}

fn is_json(kind: FieldKind) -> bool
    ensures { result ≡ fields.is_json kind }
{
    match kind {
        FieldKind::Json => true,
        _ => false,
    }
}

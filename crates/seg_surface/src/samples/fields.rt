//! Fields and schemas.
ghost use Rattle.std.specs.Prelude.{◌≡◌, ◌≤◌, ◌<◌, ◌+◌, length, IfOk};
ghost use Rattle.seg_values.specs.FieldNames.{is_allowed};

use seg_common::DateTimePrecision;
use seg_tokens::Text;
use seg_values::{FieldEntry, FieldKind, IndexOption, Schema, SchemaBuilder};
use std::alloc::{AllocError, Global};

/// A field's name, kind and index option.
pub(crate) type FieldRow<'a> = (&'a str, FieldKind, IndexOption);

/// A stored field with lengths, without a column and without a tokenizer of its own.
pub(crate) fn entry(
    alloc: Global,
    name: &str,
    kind: FieldKind,
    index: IndexOption,
) -> Result<FieldEntry, AllocError>
    ensures { IfOk result (λ e. (e.kind ≡ kind) × (e.index ≡ index)) }
{
    Ok(FieldEntry {
        name: Text::copy_of(alloc, name)?,
        kind,
        stored: true,
        index,
        tokenizer: None,
        norms: true,
        fast: false,
        fast_tokenizer: None,
        precision: DateTimePrecision::Seconds,
        expand_dots: false,
    })
}

/// Whether an option goes with a kind.
fn goes_with(kind: FieldKind, index: IndexOption) -> bool
    ensures { result ≡ is_allowed kind index }
{
    match kind {
        FieldKind::Text | FieldKind::Json => true,
        _ => matches!(index, IndexOption::No | IndexOption::Basic),
    }
}

/// Adds a field, where its option goes with its kind.
fn add(builder: &mut SchemaBuilder, entry: FieldEntry)
    requires { length builder.old < 100 }
    ensures { length builder.new ≤ length builder.old + 1 }
{
    if goes_with(entry.kind, entry.index) {
        let _ = builder.add_field(entry).is_ok();
    }
}

/// A schema of the first hundred of such fields.
pub(crate) fn schema(alloc: Global, fields: &[FieldRow<'_>]) -> Result<Schema, AllocError> {
    let mut builder = SchemaBuilder::new(alloc);
    for (place, field) in fields.iter().enumerate() {
        let (name, kind, index) = *field;
        if place < 100 {
            add(&mut builder, entry(alloc, name, kind, index)?);
        }
    }
    Ok(builder.build())
}

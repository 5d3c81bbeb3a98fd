//! Copies of a schema.

use crate::lines::Lines;
use crate::samples::{FieldRow, schema};
use seg_values::{FieldKind, IndexOption, Schema, TResult};
use std::alloc::Global;

const FIELDS: [FieldRow<'static>; 2] = [
    ("title", FieldKind::Text, IndexOption::Positions),
    ("price", FieldKind::U64, IndexOption::No),
];

fn copy(alloc: Global) -> TResult<Schema> {
    let schema = schema(alloc, FIELDS.as_slice())?;
    schema.try_clone(alloc)
}

fn add_fields(lines: &mut Lines, schema: &Schema) {
    for entry in schema.fields() {
        lines.add_answer(
            "field of Schema::try_clone of title (Text) and price (U64)",
            &(entry.name.as_str(), entry.kind),
        );
    }
}

pub(crate) fn add_schemas(lines: &mut Lines) {
    match copy(lines.alloc()) {
        Ok(schema) => add_fields(lines, &schema),
        Err(_) => lines.miss(),
    }
}

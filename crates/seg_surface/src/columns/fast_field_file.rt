//! A file that the writer of fast fields made.
ghost use Rattle.std.specs.Prelude.{◌≡◌, IfOk};

use crate::lines::Lines;
use crate::samples::{Words, entry, settings};
use seg_check::{LEAST_BUDGET, check_document, start_refusal};
use seg_fastfield::FastFieldsWriter;
use seg_values::{
    Field, FieldEntry, FieldKind, IndexOption, OwnedValue, Schema, SchemaBuilder, TResult,
    TantivyDocument, TantivyError, ValueError,
};
use std::alloc::{AllocError, Global};

/// A fast field of numbers.
fn number(alloc: Global) -> Result<FieldEntry, AllocError>
    ensures { IfOk result (λ e. (e.kind ≡ FieldKind.U64) × (e.index ≡ IndexOption.No)) }
{
    let mut number = entry(alloc, "n", FieldKind::U64, IndexOption::No)?;
    number.fast = true;
    Ok(number)
}

fn numbers(alloc: Global) -> TResult<Schema> {
    let mut builder = SchemaBuilder::new(alloc);
    builder.add_field(number(alloc)?)?;
    Ok(builder.build())
}

/// The document of the number 42.
fn document(alloc: Global) -> Result<TantivyDocument, ValueError> {
    let mut document = TantivyDocument::new(alloc);
    document.add_field_value(Field::from_field_id(0), OwnedValue::U64(42))?;
    Ok(document)
}

/// The file of a document that is checked.
fn file_of(alloc: Global, schema: &Schema, document: &TantivyDocument) -> TResult<Vec<u8>> {
    if let Some(e) = start_refusal(&Words, LEAST_BUDGET, schema, &settings(0)) {
        return Err(e);
    }
    check_document(alloc, schema, &Words, document, 0)?;
    let mut writer = FastFieldsWriter::from_schema_and_tokenizer_manager(alloc, schema, &Words)?;
    writer.add_document(document, &Words)?;
    writer.serialize()
}

/// The file of the number 42.
fn file(alloc: Global) -> TResult<Vec<u8>> {
    let schema = numbers(alloc)?;
    match document(alloc) {
        Ok(document) => file_of(alloc, &schema, &document),
        Err(_) => Err(TantivyError::OutOfMemory),
    }
}

pub(crate) fn add_fast_field_file(lines: &mut Lines) {
    lines.add_file(
        "FastFieldsWriter::add_document of the number 42 in the fast field n, file of `serialize`",
        file(lines.alloc()),
    );
}

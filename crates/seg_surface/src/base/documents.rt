//! The check of a document.

use crate::lines::Lines;
use crate::samples::{Words, schema};
use seg_check::check_document;
use seg_values::{
    Field, FieldKind, IndexOption, OwnedValue, Schema, TResult, TantivyDocument, ValueError,
};
use std::alloc::{AllocError, Global};

fn titles(alloc: Global) -> Result<Schema, AllocError> {
    schema(alloc, &[("title", FieldKind::Text, IndexOption::Positions)])
}

/// The document of a value in field 0.
fn document(alloc: Global, value: OwnedValue) -> Result<TantivyDocument, ValueError> {
    let mut document = TantivyDocument::new(alloc);
    document.add_field_value(Field::from_field_id(0), value)?;
    Ok(document)
}

fn text(alloc: Global) -> Result<TantivyDocument, ValueError> {
    let text = OwnedValue::from_text(alloc, "a b")?;
    document(alloc, text)
}

fn number(alloc: Global) -> Result<TantivyDocument, ValueError> {
    document(alloc, OwnedValue::U64(7))
}

fn checked(alloc: Global, document: &TantivyDocument) -> TResult<()> {
    let schema = titles(alloc)?;
    check_document(alloc, &schema, &Words, document, 5)
}

fn add_check(lines: &mut Lines, what: &str, document: Result<TantivyDocument, ValueError>) {
    match document {
        Ok(document) => lines.add_answer(what, &checked(lines.alloc(), &document)),
        Err(_) => lines.miss(),
    }
}

pub(crate) fn add_documents(lines: &mut Lines) {
    let alloc = lines.alloc();
    add_check(
        lines,
        "check_document at 5 of the text `a b` in a text field",
        text(alloc),
    );
    add_check(
        lines,
        "check_document at 5 of the number 7 in a text field",
        number(alloc),
    );
}

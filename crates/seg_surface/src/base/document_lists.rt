//! The first value of a field, and documents in a list.

use crate::lines::Lines;
use crate::samples::document;
use seg_values::{Documents, Field, TantivyDocument};
use std::alloc::{AllocError, Global};

/// Two documents.
fn both(alloc: Global) -> Result<Documents, AllocError> {
    let mut documents = Documents::new(alloc);
    documents.push(document(alloc, &[(0, "a")])?)?;
    documents.push(document(alloc, &[(0, "b")])?)?;
    Ok(documents)
}

fn add_first(lines: &mut Lines, document: &TantivyDocument) {
    lines.add_answer(
        "get_first of field 1 of a in field 0, b and c in field 1",
        &document.get_first(Field::from_field_id(1)),
    );
    lines.add_answer(
        "get_first of field 2 of a in field 0, b and c in field 1",
        &document.get_first(Field::from_field_id(2)),
    );
}

pub(crate) fn add_document_lists(lines: &mut Lines) {
    let alloc = lines.alloc();
    match document(alloc, &[(0, "a"), (1, "b"), (1, "c")]) {
        Ok(document) => add_first(lines, &document),
        Err(_) => lines.miss(),
    }
    match both(alloc) {
        Ok(documents) => lines.add_each(
            "one of Documents::as_slice after push of the texts a and b",
            documents.as_slice(),
        ),
        Err(_) => lines.miss(),
    }
}

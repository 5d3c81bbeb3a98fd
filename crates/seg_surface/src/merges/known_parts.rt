//! Whether a field has columns and terms, by what is known of it.

use crate::lines::Lines;
use seg_common::ByteCount;
use seg_field_metadata::FieldMetadata;
use seg_values::FieldType;
use std::alloc::{AllocError, Global};

/// What is known of a field with columns alone, or with neither columns nor terms.
fn known(alloc: Global, fast_size: Option<ByteCount>) -> Result<FieldMetadata, AllocError> {
    Ok(FieldMetadata {
        field_name: String::from_str(alloc, "a")?,
        typ: FieldType::U64,
        stored: false,
        fast_size,
        term_dictionary_size: None,
        postings_size: None,
        positions_size: None,
    })
}

fn add_known(lines: &mut Lines, what: &str, known: Result<FieldMetadata, AllocError>) {
    match known {
        Ok(known) => lines.add_answer(what, &(known.is_fast(), known.is_indexed())),
        Err(_) => lines.miss(),
    }
}

pub(super) fn add_known_parts(lines: &mut Lines) {
    let alloc = lines.alloc();
    add_known(
        lines,
        "FieldMetadata with a fast_size of 16 and no other size, is_fast and is_indexed",
        known(alloc, Some(ByteCount(16))),
    );
    add_known(
        lines,
        "FieldMetadata with no size, is_fast and is_indexed",
        known(alloc, None),
    );
}

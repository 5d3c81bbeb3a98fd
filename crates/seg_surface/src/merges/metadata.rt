//! Metadata of fields, printed, and of several segments together.

use crate::lines::Lines;
use seg_field_metadata::{FieldMetadata, merge_field_meta_data};
use seg_values::TResult;
use std::alloc::{AllocError, Global};

/// Adds an entry: name and type, whether it is stored, and the sizes of its columns, terms, postings and positions.
pub(super) fn add_entry(lines: &mut Lines, entry: &FieldMetadata) {
    lines.add_answer(
        "  name, type, stored, and sizes of columns, terms, postings and positions",
        &(
            entry.field_name.as_str(),
            entry.typ,
            entry.stored,
            entry.fast_size,
            entry.term_dictionary_size,
            entry.postings_size,
            entry.positions_size,
        ),
    );
}

pub(super) fn add_entries(lines: &mut Lines, entries: &[FieldMetadata]) {
    for entry in entries {
        add_entry(lines, entry);
    }
}

fn push(lists: &mut Vec<Vec<FieldMetadata>>, list: Vec<FieldMetadata>) -> Result<(), AllocError> {
    match lists.push(list) {
        Ok(()) => Ok(()),
        Err(_) => Err(AllocError),
    }
}

fn pair(
    alloc: Global,
    first: Vec<FieldMetadata>,
    second: Vec<FieldMetadata>,
) -> Result<Vec<Vec<FieldMetadata>>, AllocError> {
    let mut lists = Vec::new(alloc);
    push(&mut lists, first)?;
    push(&mut lists, second)?;
    Ok(lists)
}

/// What two lists say together.
pub(super) fn together(
    alloc: Global,
    first: Vec<FieldMetadata>,
    second: Vec<FieldMetadata>,
) -> TResult<Vec<FieldMetadata>> {
    let lists = pair(alloc, first, second)?;
    merge_field_meta_data(alloc, lists)
}

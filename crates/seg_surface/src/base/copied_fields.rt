//! The pairs of a map, whose fields are copied.

use crate::lines::Lines;
use seg_access::FieldCopyingIterator;
use seg_values::{Field, OwnedValue};
use std::alloc::{AllocError, Global};
use std::collections::BTreeMap;

/// The number 7 in field 2 and 8 in field 1, which came in this order.
fn document(alloc: Global) -> Result<BTreeMap<Field, OwnedValue>, AllocError> {
    let mut document = BTreeMap::new(alloc);
    document.insert(Field::from_field_id(2), OwnedValue::U64(7))?;
    document.insert(Field::from_field_id(1), OwnedValue::U64(8))?;
    Ok(document)
}

fn add_pairs(lines: &mut Lines, document: &BTreeMap<Field, OwnedValue>) {
    for pair in FieldCopyingIterator::new(document.iter()) {
        lines.add_answer(
            "one of FieldCopyingIterator over the map of 7 in field 2 and 8 in field 1",
            &pair,
        );
    }
}

pub(crate) fn add_copied_fields(lines: &mut Lines) {
    match document(lines.alloc()) {
        Ok(document) => add_pairs(lines, &document),
        Err(_) => lines.miss(),
    }
}

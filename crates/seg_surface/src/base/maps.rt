//! Objects and documents that are made of maps.

use super::json_values::told;
use crate::lines::Lines;
use seg_values::{Document, Field, OwnedValue, ValueError};
use std::alloc::{AllocError, Global};
use std::collections::{BTreeMap, HashMap};

/// The members `b` and `a`, which came in this order.
fn members(alloc: Global) -> Result<BTreeMap<String, OwnedValue>, AllocError> {
    let mut members = BTreeMap::new(alloc);
    members.insert(String::from_str(alloc, "b")?, OwnedValue::Null)?;
    members.insert(String::from_str(alloc, "a")?, OwnedValue::U64(7))?;
    Ok(members)
}

fn object(alloc: Global) -> Result<OwnedValue, ValueError> {
    OwnedValue::from_map(alloc, members(alloc)?)
}

fn told_object(alloc: Global) -> Result<String, ValueError> {
    told(alloc, &object(alloc)?)
}

/// The document of the number 7 in field 2 and 8 in field 1, which came in this order.
fn document(alloc: Global) -> Result<HashMap<Field, OwnedValue>, AllocError> {
    let mut document = HashMap::new(alloc);
    document.insert(Field::from_field_id(2), OwnedValue::U64(7))?;
    document.insert(Field::from_field_id(1), OwnedValue::U64(8))?;
    Ok(document)
}

fn add_pairs(lines: &mut Lines, document: &HashMap<Field, OwnedValue>) {
    let Ok(pairs) = document.pairs(lines.alloc()) else {
        return lines.miss();
    };
    for place in 0..pairs.len() {
        lines.add_answer(
            "one of the pairs of the map of 7 in field 2 and 8 in field 1",
            &pairs.pair(place),
        );
    }
}

pub(crate) fn add_maps(lines: &mut Lines) {
    let alloc = lines.alloc();
    lines.add_text_result(
        "to_json of from_map of b (null) and a (7)",
        told_object(alloc),
    );
    match document(alloc) {
        Ok(document) => add_pairs(lines, &document),
        Err(_) => lines.miss(),
    }
}

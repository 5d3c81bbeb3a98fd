//! Values and documents that are read from pieces, and copied.

use super::json_values::{json, told};
use crate::lines::Lines;
use seg_access::{DocumentDeserialize, JsonValue, Piece, Pieces, ValueDeserialize, to_owned_value};
use seg_values::{Field, OwnedValue, TantivyDocument, ValueError};
use std::alloc::{AllocError, Global};
use std::collections::{BTreeMap, HashMap};

/// The array of one null.
fn one_null(alloc: Global) -> Result<Pieces, AllocError> {
    let mut pieces = Vec::new(alloc);
    pieces.push(Piece::Array(1))?;
    pieces.push(Piece::Null)?;
    Ok(Pieces::new(pieces))
}

/// Copies of a value and of a JSON value that are read from the array.
fn copies(alloc: Global) -> Result<(OwnedValue, OwnedValue), ValueError> {
    let value = OwnedValue::from_pieces(alloc, &mut one_null(alloc)?)?;
    let json = JsonValue::from_pieces(alloc, &mut one_null(alloc)?)?;
    let copy = to_owned_value(alloc, &value)?;
    Ok((copy, to_owned_value(alloc, &json)?))
}

fn add_copies(lines: &mut Lines, of_value: &OwnedValue, of_json: &OwnedValue) {
    let alloc = lines.alloc();
    lines.add_text_result(
        "pieces Array(1) Null, read as a value and copied",
        told(alloc, of_value),
    );
    lines.add_text_result(
        "pieces Array(1) Null, read as a JSON value and copied",
        told(alloc, of_json),
    );
    let are_equal = of_value == of_json;
    lines.add_answer("whether the copies are equal", &are_equal);
}

/// The kind of the value that a JSON text is copied as.
fn kind_of(alloc: Global, text: &str) -> Result<u8, ValueError> {
    let json = JsonValue::new(alloc, &json(alloc, text)?)?;
    Ok(to_owned_value(alloc, &json)?.discriminant_value())
}

fn add_kinds(lines: &mut Lines) {
    let alloc = lines.alloc();
    lines.add_answer(
        "kind of the copy of a JSON value [null]",
        &kind_of(alloc, "[null]"),
    );
    lines.add_answer(
        "kind of the copy of a JSON value [1.5]",
        &kind_of(alloc, "[1.5]"),
    );
}

/// The number 7 in field 1.
fn document(alloc: Global) -> Result<Pieces, AllocError> {
    let mut pieces = Vec::new(alloc);
    pieces.push(Piece::FieldOf(Field::from_field_id(1)))?;
    pieces.push(Piece::U64(7))?;
    Ok(Pieces::new(pieces))
}

fn pairs_listed(alloc: Global) -> Result<usize, ValueError> {
    Ok(TantivyDocument::from_pieces(alloc, &mut document(alloc)?)?.len())
}

fn pairs_sorted(alloc: Global) -> Result<usize, ValueError> {
    Ok(BTreeMap::<Field, OwnedValue>::from_pieces(alloc, &mut document(alloc)?)?.len())
}

fn pairs_hashed(alloc: Global) -> Result<usize, ValueError> {
    Ok(HashMap::<Field, OwnedValue>::from_pieces(alloc, &mut document(alloc)?)?.len())
}

fn add_documents(lines: &mut Lines) {
    let alloc = lines.alloc();
    lines.add_result(
        "pairs of the document of 7 in field 1, read from pieces",
        pairs_listed(alloc),
    );
    lines.add_result("pairs of the same as a BTreeMap", pairs_sorted(alloc));
    lines.add_result("pairs of the same as a HashMap", pairs_hashed(alloc));
}

/// Why an array that counts more values than there are pieces isn't read.
fn refusal_of_array(alloc: Global) -> Result<Option<ValueError>, AllocError> {
    let mut pieces = Vec::new(alloc);
    pieces.push(Piece::Array(u64::MAX))?;
    Ok(OwnedValue::from_pieces(alloc, &mut Pieces::new(pieces)).err())
}

pub(crate) fn add_pieces(lines: &mut Lines) {
    match copies(lines.alloc()) {
        Ok((of_value, of_json)) => add_copies(lines, &of_value, &of_json),
        Err(_) => lines.miss(),
    }
    add_kinds(lines);
    add_documents(lines);
    lines.add_result(
        "error of the piece Array(18446744073709551615) alone",
        refusal_of_array(lines.alloc()),
    );
}

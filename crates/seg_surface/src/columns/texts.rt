//! Columns of texts that are opened from bytes which were written by hand.

use crate::lines::Lines;
use crate::samples::file;
use seg_columns::{BytesColumn, Column, ColumnError, Dictionary, DynamicColumnHandle, StrColumn};
use seg_common::ColumnType;
use seg_fastfield::FacetReader;
use std::alloc::Global;

/// Of two documents the first has `b` and `a`, the second `b`.
const TEXTS: &[u8] = &[
    2, 0, 0, 0, 0, 0, 0, 0, // two values up to the first document
    3, 0, 0, 0, 0, 0, 0, 0, // three up to the second
    1, 0, 0, 0, 0, 0, 0, 0, // b
    0, 0, 0, 0, 0, 0, 0, 0, // a
    1, 0, 0, 0, 0, 0, 0, 0, // b
    2, 0, 0, 0, 0, 0, 0, 0, // two distinct texts
    1, 0, 0, 0, 0, 0, 0, 0, // the end of the first
    2, 0, 0, 0, 0, 0, 0, 0, // the end of the second
    b'a', b'b', // their bytes
];

fn str_column(alloc: Global) -> Result<StrColumn, ColumnError> {
    StrColumn::open(alloc, &file(alloc, TEXTS)?, 2)
}

fn bytes_column(alloc: Global) -> Result<BytesColumn, ColumnError> {
    BytesColumn::open(alloc, &file(alloc, TEXTS)?, 2)
}

/// Whether an ordinal has a text, and the text.
fn text_at(alloc: Global, column: &StrColumn, ord: u64) -> Result<(bool, String), ColumnError> {
    let mut text = String::new(alloc);
    let found = column.ord_to_str(ord, &mut text)?;
    Ok((found, text))
}

fn add_str_column(lines: &mut Lines, column: &StrColumn) {
    let alloc = lines.alloc();
    lines.add_result("StrColumn::ord_to_str(0)", text_at(alloc, column, 0));
    lines.add_result("StrColumn::ord_to_str(1)", text_at(alloc, column, 1));
    lines.add_result("StrColumn::ord_to_str(2)", text_at(alloc, column, 2));
}

/// Whether an ordinal has a byte string, and it.
fn bytes_at(alloc: Global, column: &BytesColumn, ord: u64) -> Result<(bool, Vec<u8>), ColumnError> {
    let mut bytes = Vec::new(alloc);
    let found = column.ord_to_bytes(ord, &mut bytes)?;
    Ok((found, bytes))
}

fn add_bytes_column(lines: &mut Lines, column: &BytesColumn) {
    let alloc = lines.alloc();
    lines.add_result("BytesColumn::ord_to_bytes(0)", bytes_at(alloc, column, 0));
    lines.add_result("BytesColumn::ord_to_bytes(1)", bytes_at(alloc, column, 1));
    lines.add_result("BytesColumn::ord_to_bytes(2)", bytes_at(alloc, column, 2));
}

fn numbers(alloc: Global) -> Result<Option<Column<u64>>, ColumnError> {
    let handle = DynamicColumnHandle::new(alloc, ColumnType::Str, file(alloc, TEXTS)?, 2)?;
    Ok(handle.open_u64_lenient())
}

/// Adds the numbers of each document.
fn add_numbers(lines: &mut Lines, column: &Column<u64>) {
    lines.add_answer(
        "DynamicColumnHandle::open_u64_lenient, number of documents",
        &column.num_docs(),
    );
    for document in 0..column.num_docs() {
        for number in column.values_for_doc(document) {
            lines.add_answer("  document and number", &(document, number));
        }
    }
}

/// Adds what a reader of facets says of the same texts.
fn add_facets(lines: &mut Lines, column: StrColumn) {
    let documents = column.ords().num_docs();
    let facets = FacetReader::new(column);
    lines.add_answer("FacetReader::num_facets", &facets.num_facets());
    for document in 0..documents {
        for ord in facets.facet_ords(document) {
            lines.add_answer(
                "FacetReader::facet_ords, document and ordinal",
                &(document, ord),
            );
        }
    }
    add_dictionary(lines, facets.facet_dict());
}

fn add_dictionary(lines: &mut Lines, dictionary: &Dictionary) {
    lines.add_answer(
        "FacetReader::facet_dict, number of terms",
        &dictionary.num_terms(),
    );
    lines.add_answer("Dictionary::term_ord(\"a\")", &dictionary.term_ord(b"a"));
    lines.add_answer("Dictionary::term_ord(\"b\")", &dictionary.term_ord(b"b"));
    lines.add_answer("Dictionary::term_ord(\"c\")", &dictionary.term_ord(b"c"));
    lines.add_answer("Dictionary::ord_to_term(1)", &dictionary.ord_to_term(1));
}

fn add_columns(lines: &mut Lines) {
    let alloc = lines.alloc();
    match str_column(alloc) {
        Ok(column) => add_str_column(lines, &column),
        Err(_) => lines.miss(),
    }
    match bytes_column(alloc) {
        Ok(column) => add_bytes_column(lines, &column),
        Err(_) => lines.miss(),
    }
}

pub(crate) fn add_texts(lines: &mut Lines) {
    let alloc = lines.alloc();
    lines.add("a column of two documents, of which one has the texts b and a, the other b:");
    add_columns(lines);
    match numbers(alloc) {
        Ok(Some(numbers)) => add_numbers(lines, &numbers),
        _ => lines.miss(),
    }
    match str_column(alloc) {
        Ok(column) => add_facets(lines, column),
        Err(_) => lines.miss(),
    }
}

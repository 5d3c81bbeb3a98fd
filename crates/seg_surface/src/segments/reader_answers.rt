//! What the reader of the segment of titles answers.

use super::titles::opened;
use crate::lines::Lines;
use seg_open::SegmentReader;
use seg_values::{Field, TResult};
use std::alloc::Global;

/// How many terms a field has.
fn terms_in(reader: &mut SegmentReader, field: u32) -> TResult<usize> {
    match reader.inverted_index(Field::from_field_id(field)) {
        Ok(terms) => Ok(terms.get().terms().num_terms()),
        Err(e) => Err(e),
    }
}

/// How many documents have lengths in a field.
fn lengths(reader: &SegmentReader, field: u32) -> TResult<usize> {
    match reader.get_fieldnorms_reader(Field::from_field_id(field)) {
        Ok(ids) => Ok(ids.num_docs()),
        Err(e) => Err(e),
    }
}

/// How many documents are stored.
fn stored(alloc: Global, reader: &SegmentReader) -> TResult<u32> {
    match reader.get_store_reader(alloc, 2) {
        Ok(store) => Ok(store.num_docs()),
        Err(e) => Err(e),
    }
}

fn add_fields(lines: &mut Lines, reader: &mut SegmentReader) {
    lines.add_answer(
        "  inverted_index of field 0, terms().num_terms",
        &terms_in(reader, 0),
    );
    lines.add_answer(
        "  inverted_index of field 1, terms().num_terms",
        &terms_in(reader, 1),
    );
    lines.add_answer(
        "  get_fieldnorms_reader of field 0, num_docs",
        &lengths(reader, 0),
    );
    lines.add_answer(
        "  get_fieldnorms_reader of field 1, num_docs",
        &lengths(reader, 1),
    );
}

fn add_reader(lines: &mut Lines, reader: &mut SegmentReader) {
    lines.add_answer(
        "SegmentReader::open of the titles \"a b a\" and \"b\"",
        &*reader,
    );
    lines.add_answer(
        "  get_store_reader, num_docs",
        &stored(lines.alloc(), reader),
    );
    add_fields(lines, reader);
}

pub(super) fn add_reader_answers(lines: &mut Lines) {
    match opened(lines.alloc()) {
        Ok(mut reader) => add_reader(lines, &mut reader),
        Err(_) => lines.miss(),
    }
}

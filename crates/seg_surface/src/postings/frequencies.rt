//! In how many documents a term occurs, by its postings.

use super::fields::{WITH_POSITIONS, open};
use crate::lines::Lines;
use seg_postings::InvertedIndexReader;
use seg_values::FieldKind;

/// In how many documents a term occurs; `None` where the field lacks it.
fn documents_with(field: &InvertedIndexReader, term: &[u8]) -> Option<u32> {
    let info = field.terms().get(term)?;
    let postings = field.read_postings_from_terminfo(&info);
    Some(postings.doc_freq())
}

fn add_both(lines: &mut Lines, field: &InvertedIndexReader) {
    lines.add_answer(
        "SegmentPostings::doc_freq of a in documents 0 and 2",
        &documents_with(field, b"a"),
    );
    lines.add_answer(
        "SegmentPostings::doc_freq of b in document 1",
        &documents_with(field, b"b"),
    );
}

pub(crate) fn add_frequencies(lines: &mut Lines) {
    match open(lines.alloc(), FieldKind::Text, WITH_POSITIONS) {
        Ok(field) => add_both(lines, &field),
        Err(_) => lines.miss(),
    }
}

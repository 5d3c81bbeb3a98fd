//! Documents of a term that are alive.

use super::fields::{WITH_POSITIONS, open};
use crate::lines::Lines;
use crate::samples::file;
use seg_bits::ReadOnlyBitSet;
use seg_common::CommonError;
use seg_postings::InvertedIndexReader;
use seg_values::{FieldKind, PostingsError};
use std::alloc::Global;

/// A set of numbers below a size, by its bits.
pub(super) fn set(alloc: Global, size: u8, bits: u8) -> Result<ReadOnlyBitSet, CommonError> {
    let bytes = [size, 0, 0, 0, bits, 0, 0, 0, 0, 0, 0, 0];
    ReadOnlyBitSet::open(file(alloc, &bytes)?)
}

/// In how many documents that are alive a term occurs; `None` where the field lacks it.
fn alive_documents(
    field: &InvertedIndexReader,
    term: &[u8],
    alive: &ReadOnlyBitSet,
) -> Option<u32> {
    let info = field.terms().get(term)?;
    let postings = field.read_postings_from_terminfo(&info);
    Some(postings.doc_freq_given_deletes(alive))
}

/// In how many documents of a set `a` occurs.
fn alive_documents_with_a(
    alloc: Global,
    alive: &ReadOnlyBitSet,
) -> Result<Option<u32>, PostingsError> {
    let field = open(alloc, FieldKind::Text, WITH_POSITIONS)?;
    Ok(alive_documents(&field, b"a", alive))
}

pub(crate) fn add_alive(lines: &mut Lines) {
    let alloc = lines.alloc();
    match set(alloc, 3, 0b110) {
        Ok(alive) => lines.add_result(
            "doc_freq_given_deletes of a in documents 0 and 2, where 1 and 2 are alive",
            alive_documents_with_a(alloc, &alive),
        ),
        Err(_) => lines.miss(),
    }
}

//! The terms, postings and positions of a text field of three documents.

use seg_common::{DateTimePrecision, OwnedBytes};
use seg_postings::{FieldTerms, InvertedIndexReader};
use seg_tokens::Text;
use seg_values::{FieldEntry, FieldKind, IndexOption, PostingsError};
use std::alloc::{AllocError, Global};

/// The three parts of a field.
#[derive(Drop)]
pub(crate) struct Parts {
    pub terms: OwnedBytes,
    pub postings: OwnedBytes,
    pub positions: OwnedBytes,
}

/// Whether parts are those of a field that records what the option says.
pub(crate) fn is_read(alloc: Global, index: IndexOption, parts: Parts) -> Result<bool, AllocError> {
    let entry = FieldEntry {
        name: Text::copy_of(alloc, "title")?,
        kind: FieldKind::Text,
        stored: true,
        index,
        tokenizer: None,
        norms: true,
        fast: false,
        fast_tokenizer: None,
        precision: DateTimePrecision::Seconds,
        expand_dots: false,
    };
    Ok(open(alloc, &entry, parts).is_ok())
}

fn open(
    alloc: Global,
    entry: &FieldEntry,
    parts: Parts,
) -> Result<InvertedIndexReader, PostingsError> {
    let field = FieldTerms::open(alloc, parts.terms, entry, 3)?;
    field
        .with_postings(parts.postings)?
        .with_positions(parts.positions)
}

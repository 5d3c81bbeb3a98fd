//! A small field, by bytes that were worked out by hand.
ghost use Rattle.std.specs.Prelude.{◌≡◌, true, IfOk};
ghost use Rattle.std.specs.List.{list_all};
ghost use Rattle.seg_postings.specs.OpenedFields.{dictionary_terms};
ghost use Rattle.seg_postings.specs.TermForms.{is_formed};

use crate::samples::{entry, file};
use seg_postings::{FieldTerms, InvertedIndexReader};
use seg_values::{FieldKind, IndexOption, PostingsError};
use std::alloc::Global;

/// The three parts of a field.
#[derive(Clone, Copy)]
pub(crate) struct Parts<'a> {
    pub terms: &'a [u8],
    pub postings: &'a [u8],
    pub positions: &'a [u8],
}

/// How many documents a segment of each field has.
pub(crate) const MAX_DOC: u32 = 3;

/// The terms `a` and `b`, with five and three bytes of postings, and three and one of positions.
pub(crate) const WITH_POSITIONS: Parts<'static> = Parts {
    terms: &[
        2, 0, 0, 0, 0, 0, 0, 0, // terms
        1, 0, 0, 0, 0, 0, 0, 0, // end of the first key
        2, 0, 0, 0, 0, 0, 0, 0, // end of the second
        97, 98, // keys
        2, 0, 0, 0, 0, 0, 0, 0, // infos
        0, 0, 0, 0, 0, 0, 0, 0, // start of the postings
        0, 0, 0, 0, 0, 0, 0, 0, // start of the positions
        2, 0, 0, 0, 5, 0, 0, 0, 0, 0, 0, 0, 3, 0, 0, 0, 0, 0, 0, 0, // a
        1, 0, 0, 0, 8, 0, 0, 0, 0, 0, 0, 0, 4, 0, 0, 0, 0, 0, 0, 0, // b
        64, 0, 0, 0, 0, 0, 0, 0, // length of the infos
        1, 0, 0, 0, // version
        3, 0, 0, 0, // type
    ],
    postings: &[
        4, 0, 0, 0, 0, 0, 0, 0, // tokens
        2, 0, 2, 2, 1, // a: document 0 twice, document 2 once
        2, 1, 1, // b: document 1 once
    ],
    positions: &[
        0, 3, // a in document 0
        1, // a in document 2
        2, // b in document 1
    ],
};

/// Opens the parts of a field of three documents.
pub(crate) fn open(
    alloc: Global,
    kind: FieldKind,
    parts: Parts<'_>,
) -> Result<InvertedIndexReader, PostingsError>
    ensures { IfOk result (λ reader. list_all (is_formed kind) (dictionary_terms reader) ≡ true) }
{
    let entry = entry(alloc, "body", kind, IndexOption::Positions)?;
    let bytes = file(alloc, parts.terms)?;
    let terms = FieldTerms::open(alloc, bytes, &entry, MAX_DOC)?;
    let field = terms.with_postings(file(alloc, parts.postings)?)?;
    let reader = field.with_positions(file(alloc, parts.positions)?)?;
    Ok(reader)
}

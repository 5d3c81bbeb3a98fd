//! Whether bytes are the postings and the positions of a term, and whether they are its postings, whatever its
//! positions are. Nothing is made of them, so no memory is asked for.
ghost use Rattle.std.specs.Prelude.{◌≡◌};
ghost use Rattle.seg_postings.specs.Postings.{counts_at, term_postings};
ghost use Rattle.seg_postings.specs.PostingsWithoutPositions.{are_counted, is_counted_term};
ghost use Rattle.seg_postings.specs.RemainingPostings.{postings_at, are_low, is_term_of};

use crate::documents::{pass_recorded, take_document};
use crate::record_kind::RecordKind;

/// Whether all of the bytes are this many postings of the kind, by documents below `max_doc`.
fn are_postings(
    kind: RecordKind,
    count: u32,
    postings: &[u8],
    positions: &[u8],
    max_doc: u32,
) -> bool
    ensures { result ≡ are_low max_doc (postings_at kind count 0 0 postings.now positions.now) }
{
    let mut left = postings;
    let mut positions_left = positions;
    let mut before = 0;
    let mut least = 0;
    for _ in 0..count {
        let Some(next) = take_document(&mut left, kind, before, least) else {
            return false;
        };
        if next.document >= max_doc {
            return false;
        }
        let Some(()) = pass_recorded(&mut positions_left, kind, next.count) else {
            return false;
        };
        before = next.document;
        least = 1;
    }
    left.is_empty() && positions_left.is_empty()
}

/// Whether all of the bytes are a term of this many documents and of the kind, each document below `max_doc`.
pub(crate) fn is_term(
    kind: RecordKind,
    count: u32,
    postings: &[u8],
    positions: &[u8],
    max_doc: u32,
) -> bool
    ensures { result ≡ is_term_of kind max_doc (term_postings count postings.now positions.now) }
{
    let Some((first, documents)) = postings.split_first() else {
        return false;
    };
    if *first != kind.byte() {
        return false;
    }
    are_postings(kind, count, documents, positions, max_doc)
}

/// Whether all of the bytes are this many documents of the kind with their counts, each document below `max_doc`.
fn are_documents(kind: RecordKind, count: u32, postings: &[u8], max_doc: u32) -> bool
    ensures { result ≡ are_counted max_doc (counts_at kind count 0 0 postings.now) }
{
    let mut left = postings;
    let mut before = 0;
    let mut least = 0;
    for _ in 0..count {
        let Some(next) = take_document(&mut left, kind, before, least) else {
            return false;
        };
        if next.document >= max_doc {
            return false;
        }
        before = next.document;
        least = 1;
    }
    left.is_empty()
}

/// Whether all of the bytes are postings of a term of this many documents and of the kind, each document below
/// `max_doc`. Its positions are not looked at.
pub(crate) fn has_documents(kind: RecordKind, count: u32, postings: &[u8], max_doc: u32) -> bool
    ensures { result ≡ is_counted_term kind max_doc count postings.now }
{
    let Some((first, documents)) = postings.split_first() else {
        return false;
    };
    if *first != kind.byte() {
        return false;
    }
    are_documents(kind, count, documents, max_doc)
}

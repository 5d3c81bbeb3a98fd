//! The documents that have a term.
ghost use Rattle.std.specs.Prelude.{◌≡◌, [], map, IfOk, MatchOption};
ghost use Rattle.seg_model.specs.DeletesByPostings.{has_posting};
ghost use Rattle.seg_model.specs.Postings.{terms_of_field, documents_with};
ghost use Rattle.seg_open.specs.OpenSegment.{terms_in};
ghost use Rattle.seg_batches.specs.AppliedDeletes.{named_below};

use seg_open::SegmentReader;
use seg_postings::SegmentPostings;
use seg_values::Term;
use std::alloc::{AllocError, Global};

/// The ids of the documents of a segment that have a term, ascending. It reads the postings of the term.
pub(crate) fn term_documents(
    alloc: Global,
    reader: &SegmentReader,
    term: &Term,
) -> Result<Vec<u32>, AllocError>
    ensures { IfOk result (λ docs. docs.items ≡ named_below reader.now.documents
        (λ document. has_posting (map terms_in reader.now.fields) document term.now)) }
{
    reader.contents_have_full_shape();
    match postings_of(reader, term) {
        Some(postings) => documents_of(alloc, postings),
        None => Ok(Vec::new(alloc)),
    }
}

/// The postings of a term, from the first on; none where no document has it.
fn postings_of<'r>(reader: &'r SegmentReader, term: &Term) -> Option<SegmentPostings<'r>>
    ensures { MatchOption result
        (documents_with (terms_of_field (map terms_in reader.now.fields) term.now.field) term.now.bytes ≡ [])
        (λ postings. documents_with (terms_of_field (map terms_in reader.now.fields) term.now.field) term.now.bytes
        ≡ map (λ p. p.document) postings.left) }
{
    let index = reader.opened_field(term.field())?;
    index.terms_ascend();
    let info = index.terms().get(term.serialized_value_bytes())?;
    Some(index.read_postings_from_terminfo(&info))
}

/// The ids of the documents of postings.
fn documents_of(alloc: Global, mut postings: SegmentPostings<'_>) -> Result<Vec<u32>, AllocError>
    ensures { IfOk result (λ docs. docs.items ≡ map (λ p. p.document) postings.entry.left) }
{
    let mut docs = Vec::new(alloc);
    while let Some(_kind) = postings.record_kind() {
        docs.push(postings.doc())?;
        postings.advance();
    }
    Ok(docs)
}

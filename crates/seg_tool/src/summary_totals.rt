//! How many terms the indexed fields of a segment have, and how long they are together.
ghost use Rattle.std.specs.Prelude.{◌≡◌, ◌<◌, ◌-◌, ◌^◌, [], ◌∷◌, length, map, is_some, slice_get, IfOk};
ghost use Rattle.std.specs.FinMap.{entries};
ghost use Rattle.seg_model.specs.Fields.{is_indexed};
ghost use Rattle.seg_postings.specs.OpenedFields.{written_terms};
ghost use Rattle.seg_postings.specs.TermMaps.{terms_held};
ghost use Rattle.seg_generate.specs.SummaryText.{indexed_terms, totals_of};
ghost use Rattle.seg_open.specs.OpenSegment.{terms_in};
ghost use Rattle.seg_tool.specs.Summaries.{opened_terms, with_terms};

use seg_generate::TermTotals;
use seg_open::SegmentReader;
use seg_postings::InvertedIndexReader;
use seg_values::{Field, FieldEntry};
use std::alloc::AllocError;

/// What the indexed fields of a segment have together.
pub(crate) fn totals_of(reader: &SegmentReader) -> Result<TermTotals, AllocError>
    ensures { IfOk result (λ t. t ≡ totals_of (indexed_terms reader.now.schema (map terms_in reader.now.fields))) }
{
    reader.indexed_fields_are_open();
    reader.schema().fields_are_valid();
    of_entries(reader.schema().fields(), reader)
}

/// What those of the entries have that are indexed.
fn of_entries(entries: &[FieldEntry], reader: &SegmentReader) -> Result<TermTotals, AllocError>
    requires few { length entries.now < 2 ^ 32 - 1 }
    requires open { map is_some reader.now.fields ≡ map is_indexed entries.now }
    ensures { IfOk result (λ t. t ≡ totals_of (indexed_terms entries.now (map terms_in reader.now.fields))) }
{
    let mut totals = TermTotals { terms: 0, bytes: 0 };
    for (place, _entry) in entries.iter().enumerate() {
        totals = with_place(totals, place, reader)?;
    }
    Ok(totals)
}

/// With the terms of the field at a place, where it is open.
fn with_place(
    totals: TermTotals,
    place: usize,
    reader: &SegmentReader,
) -> Result<TermTotals, AllocError>
    requires { place < 2 ^ 32 - 1 }
    ensures { IfOk result (λ t. t ≡ with_terms totals (opened_terms (slice_get reader.now.fields place))) }
{
    match reader.opened_field(Field::from_field_id(place as u32)) {
        Some(field) => with_field(totals, field),
        None => Ok(totals),
    }
}

/// With the terms of a field, in byte order.
fn with_field(totals: TermTotals, field: &InvertedIndexReader) -> Result<TermTotals, AllocError>
    ensures { IfOk result (λ t. t
        ≡ with_terms totals (map (λ e. e.0) (entries (terms_held (written_terms field.now))))) }
{
    field.terms_ascend();
    with_dictionary(totals, field)
}

/// With the terms of its dictionary.
fn with_dictionary(
    totals: TermTotals,
    field: &InvertedIndexReader,
) -> Result<TermTotals, AllocError>
    ensures { IfOk result (λ t. t ≡ with_terms totals (map (λ t. t.bytes) field.now.terms)) }
{
    let mut so_far = totals;
    let mut terms = field.terms().stream();
    while terms.advance() {
        so_far = with_term(so_far, terms.key())?;
    }
    Ok(so_far)
}

/// With one more term. No memory holds terms whose number, or whose bytes, are past 64 bits.
fn with_term(totals: TermTotals, term: &[u8]) -> Result<TermTotals, AllocError>
    ensures { IfOk result (λ t. t ≡ with_terms totals (term.now ∷ [])) }
{
    let Some(terms) = totals.terms.checked_add(1) else {
        return Err(AllocError);
    };
    let Some(bytes) = totals.bytes.checked_add(term.len() as u64) else {
        return Err(AllocError);
    };
    Ok(TermTotals { terms, bytes })
}

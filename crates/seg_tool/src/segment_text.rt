//! The text of a segment that is open.
ghost use Rattle.std.specs.Prelude.{◌≡◌, ◌<◌, ◌-◌, ◌^◌, ◌++◌, map, length, take, is_some, slice_get, Some, OnOk};
ghost use Rattle.std.specs.FinMap.{entries};
ghost use Rattle.std.specs.List.{flat_map};
ghost use Rattle.seg_bits.specs.BitSets.{member_count};
ghost use Rattle.seg_model.specs.Fields.{is_indexed};
ghost use Rattle.seg_store.specs.Store.{documents_of};
ghost use Rattle.seg_postings.specs.OpenedFields.{written_terms};
ghost use Rattle.seg_postings.specs.TermMaps.{terms_held};
ghost use Rattle.seg_postings.specs.OpenPostings.{kept_kind_of};
ghost use Rattle.seg_open.specs.OpenSegment.{terms_in};
ghost use Rattle.seg_text.specs.DocumentText.{documents_text};
ghost use Rattle.seg_text.specs.FieldText.{field_text, fields_text, term_line};
ghost use Rattle.seg_text.specs.PostingText.{posting_text};
ghost use Rattle.seg_text.specs.HeaderText.{dead_text, header_text};
ghost use Rattle.seg_text.specs.SegmentText.{segment_text};
ghost use Rattle.seg_tool.specs.Printing.{opened_text, read_segment, read_segment_text};

use crate::norm_lines::push_all_norms;
use crate::push_segment_summary;
use crate::words::Detail;
use seg_open::SegmentReader;
use seg_postings::{InvertedIndexReader, RecordKind, SegmentPostings};
use seg_store::StoreReader;
use seg_text::{
    RecordedRef, push_columns, push_dead, push_document, push_field, push_header, push_posting,
    push_term,
};
use seg_values::{Field, FieldEntry, Schema};
use std::alloc::{AllocError, Global};

/// Appends the text of a segment that is open: in a summary one line, in full its columns and length ids too. After an
/// error it is open what `out` holds.
pub(crate) fn push_segment(
    out: &mut Vec<u8>,
    alloc: Global,
    label: &str,
    detail: Detail,
    reader: &SegmentReader,
) -> Result<(), AllocError>
    ensures { OnOk result (out.new.items ≡ out.old.items ++ read_segment_text label.now detail reader.now) }
{
    match detail {
        Detail::Summary => push_segment_summary(out, label, reader),
        Detail::Brief => push_contents(out, alloc, label, reader),
        Detail::Full => {
            push_contents(out, alloc, label, reader)?;
            push_columns(out, alloc, reader.columns())?;
            push_all_norms(out, alloc, reader)
        }
    }
}

/// Appends the text of a segment without its columns and length ids.
fn push_contents(
    out: &mut Vec<u8>,
    alloc: Global,
    label: &str,
    reader: &SegmentReader,
) -> Result<(), AllocError>
    ensures { OnOk result (out.new.items
        ≡ out.old.items ++ segment_text reader.now.schema (read_segment label.now reader.now)) }
{
    push_head(out, label, reader)?;
    push_fields(out, alloc, reader)?;
    push_documents(out, alloc, reader.schema(), reader.store_reader())
}

/// Appends the first line, and the line of the deleted documents.
fn push_head(out: &mut Vec<u8>, label: &str, reader: &SegmentReader) -> Result<(), AllocError>
    ensures { OnOk result (out.new.items ≡ out.old.items
        ++ (header_text label.now reader.now.id reader.now.documents (member_count reader.now.alive)
        ++ dead_text reader.now.alive)) }
{
    let documents = reader.max_doc() as usize;
    let alive = reader.num_docs() as usize;
    push_header(out, label, reader.segment_id(), documents, alive)?;
    push_deleted(out, reader)
}

/// Appends the line of the deleted documents; none where all are alive.
fn push_deleted(out: &mut Vec<u8>, reader: &SegmentReader) -> Result<(), AllocError>
    ensures { OnOk result (out.new.items ≡ out.old.items ++ dead_text reader.now.alive) }
{
    match reader.alive_bitset() {
        Some(alive) => push_dead(out, alive),
        None => Ok(()),
    }
}

/// Appends a line for each document of the store.
fn push_documents(
    out: &mut Vec<u8>,
    alloc: Global,
    schema: &Schema,
    store: &StoreReader,
) -> Result<(), AllocError>
    ensures { OnOk result (out.new.items ≡ out.old.items ++ documents_text schema.now (documents_of store.now)) }
{
    for id in 0..store.num_docs() {
        let stored = store.raw(id);
        push_document(out, alloc, schema, id as usize, stored.as_slice())?;
    }
    Ok(())
}

/// Appends the text of each indexed field.
fn push_fields(out: &mut Vec<u8>, alloc: Global, reader: &SegmentReader) -> Result<(), AllocError>
    ensures { OnOk result (out.new.items
        ≡ out.old.items ++ fields_text reader.now.schema (map terms_in reader.now.fields)) }
{
    reader.indexed_fields_are_open();
    reader.schema().fields_are_valid();
    push_entries(out, alloc, reader.schema().fields(), reader)
}

/// Appends the text of each entry that is indexed.
fn push_entries(
    out: &mut Vec<u8>,
    alloc: Global,
    entries: &[FieldEntry],
    reader: &SegmentReader,
) -> Result<(), AllocError>
    requires few { length entries.now < 2 ^ 32 - 1 }
    requires open { map is_some reader.now.fields ≡ map is_indexed entries.now }
    ensures { OnOk result (out.new.items ≡ out.old.items ++ fields_text entries.now (map terms_in reader.now.fields)) }
{
    for (place, entry) in entries.iter().enumerate() {
        push_place(out, alloc, entry.name.as_str(), place, reader)?;
    }
    Ok(())
}

/// Appends the text of the field at a place, where it is open.
fn push_place(
    out: &mut Vec<u8>,
    alloc: Global,
    name: &str,
    place: usize,
    reader: &SegmentReader,
) -> Result<(), AllocError>
    requires { place < 2 ^ 32 - 1 }
    ensures { OnOk result (out.new.items ≡ out.old.items ++ opened_text name.now (slice_get reader.now.fields place)) }
{
    match reader.opened_field(Field::from_field_id(place as u32)) {
        Some(field) => push_terms(out, alloc, name, field),
        None => Ok(()),
    }
}

/// Appends the line of a field, and a line for each of its terms.
fn push_terms(
    out: &mut Vec<u8>,
    alloc: Global,
    name: &str,
    field: &InvertedIndexReader,
) -> Result<(), AllocError>
    ensures { OnOk result (out.new.items
        ≡ out.old.items ++ field_text name.now (entries (terms_held (written_terms field.now)))) }
{
    field.terms_ascend();
    push_field(out, alloc, name, field.terms().num_terms())?;
    let mut positions = Vec::new(alloc);
    push_term_lines(out, &mut positions, field)
}

/// Appends a line for each term, in byte order. `positions` is room for the positions of a posting.
fn push_term_lines(
    out: &mut Vec<u8>,
    positions: &mut Vec<u32>,
    field: &InvertedIndexReader,
) -> Result<(), AllocError>
    ensures { OnOk result (out.new.items ≡ out.old.items
        ++ flat_map term_line (map (λ t. (t.bytes, t.postings)) field.now.terms)) }
{
    let mut terms = field.terms().stream();
    while terms.advance() {
        let postings = field.read_postings_from_terminfo(terms.value());
        push_term_line(out, positions, terms.key(), postings)?;
    }
    Ok(())
}

/// Appends the line of a term with the postings that are left.
fn push_term_line(
    out: &mut Vec<u8>,
    positions: &mut Vec<u32>,
    bytes: &[u8],
    mut postings: SegmentPostings<'_>,
) -> Result<(), AllocError>
    ensures { OnOk result (out.new.items ≡ out.old.items ++ term_line (bytes.now, postings.entry.left)) }
{
    push_term(out, bytes)?;
    push_postings(out, positions, &mut postings)?;
    out.push(b'\n')?;
    Ok(())
}

/// Appends the postings that are left, and goes to their end.
fn push_postings(
    out: &mut Vec<u8>,
    positions: &mut Vec<u32>,
    postings: &mut SegmentPostings<'_>,
) -> Result<(), AllocError>
    ensures { OnOk result (out.new.items ≡ out.old.items ++ flat_map posting_text postings.old.left) }
{
    while let Some(kind) = postings.record_kind() {
        push_current(out, positions, kind, postings)?;
        let _ = postings.advance();
    }
    Ok(())
}

/// Appends the current posting, with what is kept of it.
fn push_current(
    out: &mut Vec<u8>,
    positions: &mut Vec<u32>,
    kind: RecordKind,
    postings: &SegmentPostings<'_>,
) -> Result<(), AllocError>
    requires { kept_kind_of postings.now.left ≡ Some kind }
    ensures { OnOk result (out.new.items ≡ out.old.items ++ flat_map posting_text (take 1 postings.now.left)) }
{
    let document = postings.doc();
    match kind {
        RecordKind::Documents => push_posting(out, document, RecordedRef::Presence),
        RecordKind::Counts => {
            let count = u64::from(postings.term_freq());
            push_posting(out, document, RecordedRef::Frequency(count))
        }
        RecordKind::Positions => {
            let Ok(()) = postings.positions(positions) else {
                return Err(AllocError);
            };
            push_posting(out, document, RecordedRef::Positions(positions))
        }
    }
}

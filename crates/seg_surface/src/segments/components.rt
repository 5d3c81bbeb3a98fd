//! What the components of a segment are written to, one at a time, and the file that comes of it.
ghost use Rattle.std.specs.Prelude.{◌≡◌, ◌<◌, ◌-◌, ◌^◌, [], Some, IfOk, IfSome};
ghost use Rattle.seg_postings.specs.FieldFiles.{no_fields};
ghost use Rattle.seg_store.specs.WriterBlocks.{taken_count};

use crate::lines::Lines;
use crate::samples::{schema, segment, settings};
use seg_postings::{InvertedIndexSerializer, RecordKind};
use seg_segment::{SegmentFiles, SegmentSerializer};
use seg_store::{StoreError, StoreWriter};
use seg_values::{Field, FieldKind, IndexOption, PostingsError, Schema, TantivyDocument};
use std::alloc::{AllocError, Global};

fn titles(alloc: Global) -> Result<Schema, AllocError> {
    schema(alloc, &[("title", FieldKind::Text, IndexOption::Basic)])
}

/// A serializer that has nothing yet, of a segment of one document.
fn empty(alloc: Global) -> Result<SegmentSerializer, AllocError>
    ensures postings { IfOk result (λ s. s.postings ≡ Some no_fields) }
    ensures store { IfOk result (λ s. IfSome s.store (λ w. taken_count w ≡ 0)) }
    ensures lengths { IfOk result (λ s. s.lengths ≡ Some (Some [])) }
{
    let segment = segment(titles(alloc)?, 1);
    match SegmentSerializer::for_segment(alloc, segment, &settings(16384)) {
        Ok(serializer) => Ok(serializer),
        Err(_) => Err(AllocError),
    }
}

/// Writes the term `a` of document 0 in field 0.
fn write_term(files: &mut InvertedIndexSerializer) -> Result<(), PostingsError>
    requires { files.old ≡ Some no_fields }
{
    let mut field = files.new_field(Field::from_field_id(0), 1)?;
    field.new_term(b"a", RecordKind::Documents)?;
    field.write_doc(0, 1, &[])?;
    field.close_term()?;
    field.close(files)
}

fn with_term(alloc: Global) -> Result<SegmentFiles, AllocError> {
    let mut serializer = empty(alloc)?;
    let Ok(()) = write_term(serializer.get_postings_serializer()) else {
        return Err(AllocError);
    };
    serializer.into_files()
}

/// Stores a document without a value.
fn store_empty(alloc: Global, store: &mut StoreWriter) -> Result<(), StoreError>
    requires { IfSome store.old (λ w. taken_count w < 2 ^ 31 - 1) }
{
    let schema = titles(alloc)?;
    store.store(&TantivyDocument::new(alloc), &schema)
}

fn with_document(alloc: Global) -> Result<SegmentSerializer, AllocError> {
    let mut serializer = empty(alloc)?;
    match store_empty(alloc, serializer.get_store_writer()) {
        Ok(()) => Ok(serializer),
        Err(_) => Err(AllocError),
    }
}

fn with_columns(alloc: Global) -> Result<SegmentFiles, AllocError> {
    let mut serializer = empty(alloc)?;
    serializer.get_fast_field_write().extend_from_slice(b"ab")?;
    serializer.into_files()
}

/// Writes the length id 5 of the one document in field 0, and puts the file.
fn write_length(serializer: &mut SegmentSerializer) -> Result<(), PostingsError>
    requires { serializer.old.lengths ≡ Some (Some []) }
{
    if let Some(mut lengths) = serializer.extract_fieldnorms_serializer() {
        lengths.serialize_field(Field::from_field_id(0), &[5])?;
        serializer.put_fieldnorms(lengths.close()?);
    }
    Ok(())
}

/// A serializer with the file of lengths.
fn with_length(alloc: Global) -> Result<SegmentSerializer, AllocError> {
    let mut serializer = empty(alloc)?;
    match write_length(&mut serializer) {
        Ok(()) => Ok(serializer),
        Err(_) => Err(AllocError),
    }
}

fn add_terms(lines: &mut Lines, files: &SegmentFiles) {
    lines.add_bytes(
        "  get_postings_serializer, the term a of document 0 in field 0, terms",
        files.terms.as_slice(),
    );
    lines.add_bytes("  and postings", files.postings.as_slice());
}

fn add_store(lines: &mut Lines, serializer: SegmentSerializer) {
    let (id, bytes) = (serializer.segment().id(), serializer.mem_usage());
    lines.add_answer("  segment().id()", &id);
    lines.add_answer("  mem_usage after a document without a value", &bytes);
    match serializer.into_files() {
        Ok(files) => lines.add_bytes(
            "  get_store_writer, a document without a value, store",
            files.store.as_slice(),
        ),
        Err(_) => lines.miss(),
    }
}

fn add_columns(lines: &mut Lines, files: &SegmentFiles) {
    lines.add_bytes(
        "  get_fast_field_write, the bytes 61 and 62, fast fields",
        files.fast_fields.as_slice(),
    );
}

fn add_lengths(lines: &mut Lines, mut serializer: SegmentSerializer) {
    let again = serializer.extract_fieldnorms_serializer().is_some();
    lines.add_answer(
        "  extract_fieldnorms_serializer a second time is there",
        &again,
    );
    match serializer.into_files() {
        Ok(files) => lines.add_bytes(
            "  put_fieldnorms of the length id 5 in field 0, field norms",
            files.field_norms.as_slice(),
        ),
        Err(_) => lines.miss(),
    }
}

fn add_written(lines: &mut Lines) {
    let alloc = lines.alloc();
    match with_term(alloc) {
        Ok(files) => add_terms(lines, &files),
        Err(_) => lines.miss(),
    }
    match with_document(alloc) {
        Ok(serializer) => add_store(lines, serializer),
        Err(_) => lines.miss(),
    }
    match with_columns(alloc) {
        Ok(files) => add_columns(lines, &files),
        Err(_) => lines.miss(),
    }
}

pub(super) fn add_components(lines: &mut Lines) {
    lines.add("SegmentSerializer, what was written to a component, and its file of `into_files`:");
    add_written(lines);
    match with_length(lines.alloc()) {
        Ok(serializer) => add_lengths(lines, serializer),
        Err(_) => lines.miss(),
    }
}

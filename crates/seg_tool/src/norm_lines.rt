//! The length ids of a segment that is open.
ghost use Rattle.std.specs.Prelude.{◌≡◌, ◌<◌, ◌-◌, ◌^◌, ◌++◌, [], length, map, if◌then◌else◌, unwrap_or, IfOk, OnOk};
ghost use Rattle.seg_directory.specs.CompositeFiles.{field_of};
ghost use Rattle.seg_model.specs.Fields.{has_lengths};
ghost use Rattle.seg_open.specs.OpenSegment.{contents_of};
ghost use Rattle.seg_norms.specs.StoredNorms.{norms_of};
ghost use Rattle.seg_text.specs.NormsText.{norms_line, norms_text};

use seg_norms::{FieldNormReader, FieldNormReaders};
use seg_open::SegmentReader;
use seg_text::push_norms;
use seg_values::{Field, FieldEntry};
use std::alloc::{AllocError, Global};

/// Appends the length ids of each field that has lengths.
pub(crate) fn push_all_norms(
    out: &mut Vec<u8>,
    alloc: Global,
    reader: &SegmentReader,
) -> Result<(), AllocError>
    ensures { OnOk result (out.new.items
        ≡ out.old.items ++ norms_text reader.now.schema (contents_of reader.now).norms) }
{
    reader.schema().fields_are_valid();
    push_entries(
        out,
        alloc,
        reader.schema().fields(),
        reader.fieldnorms_readers(),
    )
}

/// Appends those of each entry that has lengths.
fn push_entries(
    out: &mut Vec<u8>,
    alloc: Global,
    entries: &[FieldEntry],
    norms: &FieldNormReaders,
) -> Result<(), AllocError>
    requires { length entries.now < 2 ^ 32 - 1 }
    ensures { OnOk result (out.new.items ≡ out.old.items ++ norms_text entries.now (norms_of entries.now norms.now)) }
{
    for (place, entry) in entries.iter().enumerate() {
        push_entry(out, alloc, entry, place, norms)?;
    }
    Ok(())
}

/// Appends those of the entry at a place, where it has lengths.
fn push_entry(
    out: &mut Vec<u8>,
    alloc: Global,
    entry: &FieldEntry,
    place: usize,
    norms: &FieldNormReaders,
) -> Result<(), AllocError>
    requires { place < 2 ^ 32 - 1 }
    ensures { OnOk result (out.new.items
        ≡ out.old.items
        ++ (if has_lengths entry.now
        then norms_line entry.now.name (unwrap_or (field_of norms.now place) []) else [])) }
{
    if !entry.has_field_norms() {
        return Ok(());
    }
    let ids = ids_at(alloc, norms, place)?;
    push_norms(out, alloc, entry.name.as_str(), &ids)
}

/// The length ids of the field at a place; none where the file has no part for it.
fn ids_at(alloc: Global, norms: &FieldNormReaders, place: usize) -> Result<Vec<u8>, AllocError>
    requires { place < 2 ^ 32 - 1 }
    ensures { IfOk result (λ ids. ids.items ≡ unwrap_or (field_of norms.now place) []) }
{
    match norms.get_field(Field::from_field_id(place as u32)) {
        Some(reader) => all_ids(alloc, &reader),
        None => Ok(Vec::new(alloc)),
    }
}

/// The ids of a field, fewer than 2^31 in each segment that is open.
fn all_ids(alloc: Global, reader: &FieldNormReader) -> Result<Vec<u8>, AllocError>
    ensures { IfOk result (λ ids. ids.items ≡ reader.now) }
{
    let mut ids = Vec::new(alloc);
    let Ok(count) = u32::try_from(reader.num_docs()) else {
        return Err(AllocError);
    };
    for document in 0..count {
        ids.push(reader.fieldnorm_id(document))?;
    }
    Ok(ids)
}

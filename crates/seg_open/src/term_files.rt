//! A file that has a part for each field that is indexed.
ghost use Rattle.std.specs.Prelude.{◌≡◌, ◌≢◌, slice_get, Some, MatchBool, MatchOption};
ghost use Rattle.seg_segment.specs.TermFiles.{indexed_fields};
ghost use Rattle.seg_open.specs.IndexedParts.{part_fields, HaveIndexedParts, LackIndexedParts};

use seg_common::OwnedBytes;
use seg_directory::CompositeFile;
use seg_values::{FieldEntry, Schema};

/// A file that has a part for each field that is indexed, and no other.
pub(crate) fn open_parts(bytes: OwnedBytes, schema: &Schema) -> Option<CompositeFile>
    ensures { MatchOption result (LackIndexedParts schema.now bytes)
        (λ parts. HaveIndexedParts schema.now bytes parts) }
{
    let Ok(file) = CompositeFile::open(bytes) else {
        return None;
    };
    if !has_fields(&file, schema) {
        return None;
    }
    Some(file)
}

/// Whether the parts of a file are those of the indexed fields.
fn has_fields(file: &CompositeFile, schema: &Schema) -> bool
    ensures { MatchBool result
        (part_fields file.now ≡ indexed_fields schema.now)
        (part_fields file.now ≢ indexed_fields schema.now) }
{
    are_parts_of(file, schema.fields())
}

fn are_parts_of(file: &CompositeFile, entries: &[FieldEntry]) -> bool
    ensures { MatchBool result
        (part_fields file.now ≡ indexed_fields entries.now)
        (part_fields file.now ≢ indexed_fields entries.now) }
{
    let count = file.num_fields();
    let mut place = 0;
    for (field, entry) in entries.iter().enumerate() {
        if entry.is_indexed() {
            if !is_part_of(file, place, field) {
                return false;
            }
            place += 1;
        }
    }
    place == count
}

/// Whether the part at a place is that of a field.
fn is_part_of(file: &CompositeFile, place: u32, field: usize) -> bool
    ensures { MatchBool result
        (slice_get (part_fields file.now) place ≡ Some field)
        (slice_get (part_fields file.now) place ≢ Some field) }
{
    if place >= file.num_fields() {
        return false;
    }
    let (part_field, _bytes) = file.part(place);
    part_field.field_id() as usize == field
}

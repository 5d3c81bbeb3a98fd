//! The lengths of the fields of one document.
ghost use Rattle.std.specs.Prelude.{◌≡◌, map, option_map, option_and_then, OnOk};
ghost use Rattle.std.specs.List.{slice_get};
ghost use Rattle.seg_build.specs.DocumentLengths.{lacks_length, with_length_of, with_lengths};

use crate::field::FieldPostings;
use seg_check::IndexedValue;
use seg_norms::FieldNormsWriter;
use seg_values::Field;
use std::alloc::AllocError;

/// Records the length of each field of a document's values that has lengths, once these were added to the fields.
pub(crate) fn record_lengths(
    document: u32,
    values: &[IndexedValue],
    fields: &[FieldPostings],
    norms: &mut FieldNormsWriter,
) -> Result<(), AllocError>
    ensures { OnOk result
        (norms.new ≡ option_map (with_lengths document fields.now (map (λ v. v.field) values.now)) norms.old) }
{
    for value in values {
        record_length(document, value.field, fields, norms)?;
    }
    Ok(())
}

/// Records the length of a field in a document, if it has lengths, and this one isn't recorded yet. Where the field is
/// not there, that is answered as out of memory.
fn record_length(
    document: u32,
    field: u32,
    fields: &[FieldPostings],
    norms: &mut FieldNormsWriter,
) -> Result<(), AllocError>
    ensures { OnOk result (norms.new ≡ option_map (with_length_of document fields.now field) norms.old) }
{
    let place = field as usize;
    if place >= fields.len() {
        return Err(AllocError);
    }
    let len = fields[place].length_of(document);
    let field = Field::from_field_id(field);
    if !lacks_length(document, field, norms) {
        return Ok(());
    }
    match norms.record(document, field, len) {
        Ok(()) => Ok(()),
        Err(_) => Err(AllocError),
    }
}

/// Whether a field has lengths, and none of a document yet.
fn lacks_length(document: u32, field: Field, norms: &FieldNormsWriter) -> bool
    ensures { result
        ≡ lacks_length document
        (option_and_then (λ kept. option_and_then (λ ids. ids) (slice_get kept field)) norms.now) }
{
    match norms.ids(field) {
        Some(ids) => ids.len() <= document as usize,
        None => false,
    }
}

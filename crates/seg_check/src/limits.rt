//! The fourth pass: limits.
ghost use Rattle.std.specs.Prelude.{◌≡◌};
ghost use Rattle.std.specs.List.{slice_get, list_all};
ghost use Rattle.seg_values.specs.Tree.{Document};
ghost use Rattle.seg_model.specs.DocumentCheck as checked;
ghost use Rattle.seg_model.specs.Fields as fields;
ghost use Rattle.seg_check.specs.DocumentFields.{AllStand, fits_at};

use crate::field_totals::FieldTotals;
use crate::levels::are_shallow;
use crate::stored_len::stored_len;
use crate::totals::is_u32;
use seg_values::{FieldEntry, Pairs, Schema};
use std::collections::HashMap;

/// Whether a document is within the limits, by what it has in each field.
pub(crate) fn is_within_limits(
    schema: &Schema,
    totals: &HashMap<u32, FieldTotals>,
    document: &Pairs<'_>,
) -> bool
    ensures { (analyzer : fields.Analyzer) → AllStand schema.now analyzer totals.now document.now
        → result ≡ checked.is_within_limits schema.now analyzer document.now }
{
    fields_fit(schema.fields(), totals, document)
        && is_u32(stored_len(schema, document))
        && are_shallow(document)
}

/// Whether the values of each field that the document has are within the limits.
fn fields_fit(
    schema: &[FieldEntry],
    totals: &HashMap<u32, FieldTotals>,
    document: &Pairs<'_>,
) -> bool
    ensures { (analyzer : fields.Analyzer) → AllStand schema.now analyzer totals.now document.now
        → result ≡ list_all (checked.field_fits analyzer document.now) (fields.fields schema.now) }
{
    for at in 0..document.len() {
        let (field, _) = document.pair(at);
        if !field_fits(schema, totals, field.field_id()) {
            return false;
        }
    }
    true
}

/// Whether the values of a field are within the limits.
fn field_fits(schema: &[FieldEntry], totals: &HashMap<u32, FieldTotals>, field: u32) -> bool
    ensures { (analyzer : fields.Analyzer) → (document : Document) → AllStand schema.now analyzer totals.now document
        → result ≡ fits_at analyzer document field (slice_get schema.now field) }
{
    let Some(entry) = schema.get(field as usize) else {
        return true;
    };
    if !entry.is_indexed() {
        return true;
    }
    let Some(found) = totals.get(&field) else {
        return true;
    };
    found.fits(entry)
}

//! The length ids of the fields of a segment, written field by field.
ghost use Rattle.std.specs.Prelude.{◌≡◌, ◌≤◌, ◌<◌, ◌-◌, ◌^◌, ◌++◌, ◌∷◌, ℕ, List, [], Some, IfOk, IfSome, OnOk};
ghost use Rattle.seg_common.specs.WriterGrowth.{HasGrown};
ghost use Rattle.seg_directory.specs.CompositeFiles.{composite, low_after};
ghost use Rattle.seg_norms.specs.FieldNorms.{fields_with_lengths};
ghost use Rattle.seg_segment.specs.WrittenLengths.{AscendFrom, parts_with};

use seg_norms::{FieldNormsSerializer, FieldNormsWriter};
use seg_values::{Field, Schema};
use std::alloc::{AllocError, Global};

/// The length ids of each field of a segment that is made: of documents that were indexed, or of segments that are
/// joined.
pub trait LengthsByField {
    /// The ids of a field, one for each document.
    ghost ids: { Self → ℕ → List ℕ };

    /// Adds the ids of a field to a file. It is above those added before.
    fn write_ids(&self, field: Field, file: &mut FieldNormsSerializer) -> Result<(), AllocError>
        requires ascends { IfSome file.old (λ ps. low_after 0 ps ≤ field) }
        requires limit { field < 2 ^ 32 - 1 }
        ensures { OnOk result (HasGrown file.old file.new (λ ps. ps ++ (field, ids self.now field) ∷ [])) };
}

/// The file of length ids: one part for each field that has lengths.
pub fn write_lengths<L: LengthsByField>(
    alloc: Global,
    schema: &Schema,
    lengths: &L,
) -> Result<Vec<u8>, AllocError>
    ensures { IfOk result (λ file. composite file.items
        ≡ Some (parts_with (L.ids lengths.now) (fields_with_lengths schema.now))) }
{
    schema.fields_are_valid();
    let Ok(fields) = FieldNormsWriter::fields_with_fieldnorm(alloc, schema) else {
        return Err(AllocError);
    };
    let mut file = FieldNormsSerializer::new(alloc);
    add_fields(&fields, lengths, &mut file)?;
    match file.close() {
        Ok(file) => Ok(file),
        Err(_) => Err(AllocError),
    }
}

/// Adds the ids of fields that ascend, to a file that has no part yet.
fn add_fields<L: LengthsByField>(
    fields: &[Field],
    lengths: &L,
    file: &mut FieldNormsSerializer,
) -> Result<(), AllocError>
    requires ascend { AscendFrom 0 fields.now }
    requires fresh { file.old ≡ Some [] }
    ensures { OnOk result (file.new ≡ Some (parts_with (L.ids lengths.now) fields.now)) }
{
    for field in fields {
        lengths.write_ids(*field, file)?;
    }
    Ok(())
}

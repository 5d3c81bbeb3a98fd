//! The file of field norms.
ghost use Rattle.std.specs.Prelude.{IfOk};
ghost use Rattle.seg_build.specs.SerializerContents.{HoldsNorms};

use crate::fields::IndexedBatch;
use seg_norms::FieldNormsSerializer;
use seg_segment::{LengthsByField, write_lengths};
use seg_values::{Field, Schema};
use std::alloc::{AllocError, Global};

impl LengthsByField for IndexedBatch {
    ghost use Rattle.seg_build.specs.NormsFile.{kept_ids};

    ghost ids = { λ batch field. kept_ids batch.norms field };

    fn write_ids(&self, field: Field, file: &mut FieldNormsSerializer) -> Result<(), AllocError> {
        let Some(ids) = self.norms.ids(field) else {
            return Err(AllocError);
        };
        match file.serialize_field(field, ids) {
            Ok(()) => Ok(()),
            Err(_) => Err(AllocError),
        }
    }
}

/// The file of field norms of a batch: one part for each field that has lengths.
pub(crate) fn norms_file(
    alloc: Global,
    schema: &Schema,
    batch: &IndexedBatch,
) -> Result<Vec<u8>, AllocError>
    ensures { IfOk result (λ file. HoldsNorms schema.now batch.now file.items) }
{
    write_lengths(alloc, schema, batch)
}

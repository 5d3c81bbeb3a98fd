//! The terms of all indexed fields, in the files.
ghost use Rattle.std.specs.Prelude.{◌≡◌, length, IfOk, IsSomeAnd};
ghost use Rattle.seg_build.specs.SerializerContents.{HoldFields};

use crate::fields::IndexedFields;
use crate::written_terms::write_terms;
use seg_postings::InvertedIndexSerializer;
use seg_segment::{TermWriter, TermsByField, write_fields};
use seg_values::{Field, Schema};
use std::alloc::{AllocError, Global};

impl TermsByField for IndexedFields {
    ghost use Rattle.std.specs.Prelude.{◌≡◌, ◌<◌, length};
    ghost use Rattle.std.specs.List.{slice_get};
    ghost use Rattle.seg_build.specs.WrittenTerms.{all_written, written_total};

    ghost total = { λ fields field. written_total (slice_get fields field) };

    ghost has = { λ fields field terms. terms ≡ all_written (slice_get fields field) };

    ghost can_write = { λ fields field. field < length fields };

    fn total_num_tokens(&self, alloc: Global, field: Field) -> Result<u64, AllocError> {
        let terms = self.writable_terms(field.field_id() as usize);
        terms.total_num_tokens(alloc)
    }

    fn write_terms(
        &self,
        alloc: Global,
        field: Field,
        writer: TermWriter,
    ) -> Result<TermWriter, AllocError> {
        let mut writer = writer;
        let terms = self.writable_terms(field.field_id() as usize);
        write_terms(alloc, terms, &mut writer)?;
        Ok(writer)
    }
}

/// The files with the terms of all indexed fields.
pub(crate) fn field_files(
    alloc: Global,
    schema: &Schema,
    fields: &IndexedFields,
) -> Result<InvertedIndexSerializer, AllocError>
    requires { length fields.now ≡ length schema.now }
    ensures { IfOk result (λ files. IsSomeAnd files (HoldFields schema.now fields.now)) }
{
    write_fields(alloc, schema, fields)
}

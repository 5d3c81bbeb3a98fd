//! The terms of the indexed fields of a segment, written field by field.
ghost use Rattle.std.specs.Prelude.{◌≡◌, ◌<◌, ◌≤◌, ◌-◌, ◌^◌, true, ℕ, List, Some, IfOk, IfSome, IsSomeAnd, OnOk};
ghost use Rattle.std.specs.List.{slice_get};
ghost use Rattle.seg_directory.specs.CompositeFiles.{low_after};
ghost use Rattle.seg_model.specs.Fields.{is_indexed};
ghost use Rattle.seg_postings.specs.FieldSerializers.{TermWritten, fresh};
ghost use Rattle.seg_segment.specs.WrittenFields.{AddsIfIndexed, HaveFields, IsWhole};
ghost use Rattle.seg_values.specs.declared.schema.FieldEntry.{FieldEntry};

use crate::term_writer::TermWriter;
use seg_postings::InvertedIndexSerializer;
use seg_values::{Field, FieldEntry, Schema};
use std::alloc::{AllocError, Global};

/// The terms of each field of a segment that is made: of documents that were indexed, or of segments that are joined.
pub trait TermsByField {
    /// The total of the tokens of a field.
    ghost total: { Self → ℕ → ℕ };

    /// Whether these are the terms of a field.
    ghost has: { Self → ℕ → List TermWritten → Type 0 };

    /// Whether the terms of a field can be written.
    ghost can_write: { Self → ℕ → Type 0 };

    /// The total of the tokens of a field.
    fn total_num_tokens(&self, alloc: Global, field: Field) -> Result<u64, AllocError>
        requires { can_write self.now field }
        ensures { IfOk result (λ n. n ≡ total self.now field) };

    /// Writes all terms of a field, of which nothing was written.
    fn write_terms(
        &self,
        alloc: Global,
        field: Field,
        writer: TermWriter,
    ) -> Result<TermWriter, AllocError>
        requires can { can_write self.now field }
        requires begins { writer ≡ Some (fresh field (total self.now field)) }
        ensures { IfOk result (IsWhole (total self.now) (has self.now) field) };
}

/// The files of terms, postings and positions, with the terms of each indexed field.
pub fn write_fields<T: TermsByField>(
    alloc: Global,
    schema: &Schema,
    terms: &T,
) -> Result<InvertedIndexSerializer, AllocError>
    requires { (field : ℕ) (entry : FieldEntry) → slice_get schema.now field ≡ Some entry → is_indexed entry ≡ true
        → T.can_write terms.now field }
    ensures { IfOk result (λ files. IsSomeAnd files (HaveFields (T.total terms.now) (T.has terms.now) schema.now)) }
{
    schema.fields_are_valid();
    let mut files = InvertedIndexSerializer::new(alloc);
    let entries = schema.fields();
    for at in 0..entries.len() {
        let field = Field::from_field_id(at as u32);
        write_field(alloc, &entries[at], field, terms, &mut files)?;
    }
    Ok(files)
}

/// Adds the terms of a field, where it is indexed. It is above those added before.
fn write_field<T: TermsByField>(
    alloc: Global,
    entry: &FieldEntry,
    field: Field,
    terms: &T,
    files: &mut InvertedIndexSerializer,
) -> Result<(), AllocError>
    requires can { is_indexed entry.now ≡ true → T.can_write terms.now field }
    requires ascends { IfSome files.old (λ f. (low_after 0 f.terms ≤ field) × (low_after 0 f.postings ≤ field)
        × (low_after 0 f.positions ≤ field)) }
    requires limit { field < 2 ^ 32 - 1 }
    ensures { OnOk result
        (AddsIfIndexed (T.total terms.now) (T.has terms.now) (is_indexed entry.now) field files.old files.new) }
{
    if !entry.is_indexed() {
        return Ok(());
    }
    let total = terms.total_num_tokens(alloc, field)?;
    let Ok(begun) = files.new_field(field, total) else {
        return Err(AllocError);
    };
    let whole = terms.write_terms(alloc, field, TermWriter::new(begun))?;
    let Ok(()) = whole.into_field().close(files) else {
        return Err(AllocError);
    };
    Ok(())
}

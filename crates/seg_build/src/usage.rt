//! How much memory the documents of a writer take, by its formula.
ghost use Rattle.std.specs.Prelude.{◌≡◌};
ghost use Rattle.seg_build.specs.MemoryUsage.{length_fields};

use seg_values::Schema;

/// How many fields have lengths.
pub(crate) fn length_fields(schema: &Schema) -> usize
    ensures { result ≡ length_fields schema.now }
{
    schema
        .fields()
        .iter()
        .filter(|entry| entry.has_field_norms())
        .count()
}

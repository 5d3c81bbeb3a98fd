//! The facets of a field.
ghost use Rattle.std.specs.Prelude.{◌≡◌, ◌⊎◌, true, Some, None, false, IfOk, IfErr};
ghost use Rattle.seg_model.specs.Fields as fields;
ghost use Rattle.seg_open.specs.FacetColumns.{IsFacetColumn, LacksFacets, has_facets, text_column};

use crate::segment_reader::SegmentReader;
use seg_columns::StrColumn;
use seg_fastfield::FacetReader;
use seg_values::{FieldKind, Schema, SchemaCause, TResult, TantivyError};
use std::alloc::Global;

impl SegmentReader {
    /// The facets of a field by their ordinals. `FieldNotFound` where no field has the name, `NotFacet` where it is one
    /// of another kind.
    pub fn facet_reader(&self, alloc: Global, field_name: &str) -> TResult<FacetReader>
        ensures ok { IfOk result (IsFacetColumn self.now field_name.now) }
        ensures err { IfErr result (LacksFacets self.now.schema field_name.now) }
    {
        match check_facets(&self.schema, field_name) {
            Ok(()) => {}
            Err(e) => return Err(e),
        }
        match self.facet_column(alloc, field_name) {
            Ok(column) => Ok(FacetReader::new(column)),
            Err(e) => Err(e),
        }
    }

    /// The column of a facet field, which each segment has.
    fn facet_column(&self, alloc: Global, field_name: &str) -> TResult<StrColumn>
        requires { has_facets self.now.schema field_name.now ≡ Some true }
        ensures ok { IfOk result (λ column. text_column self.now field_name.now ≡ Some column) }
        ensures err { IfErr result (λ e. e ≡ TantivyError.OutOfMemory) }
    {
        self.schema.fields_are_valid();
        match self.fast_fields.str(alloc, field_name) {
            Ok(Some(column)) => Ok(column),
            Ok(None) => unreachable!(),
            Err(e) => Err(e),
        }
    }
}

/// Refuses a name that isn't one of a facet field.
fn check_facets(schema: &Schema, field_name: &str) -> TResult<()>
    ensures ok { IfOk result (λ _. has_facets schema.now field_name.now ≡ Some true) }
    ensures err { IfErr result (λ e.
        ((e ≡ TantivyError.FieldNotFound) × (has_facets schema.now field_name.now ≡ None))
        ⊎ ((e ≡ TantivyError.SchemaError SchemaCause.NotFacet) × (has_facets schema.now field_name.now ≡ Some false))) }
{
    let field = match schema.get_field(field_name) {
        Ok(field) => field,
        Err(e) => return Err(e),
    };
    if !is_facet(schema.get_field_entry(field).kind) {
        return Err(TantivyError::SchemaError(SchemaCause::NotFacet));
    }
    Ok(())
}

fn is_facet(kind: FieldKind) -> bool
    ensures { result ≡ fields.is_facet kind }
{
    match kind {
        FieldKind::Facet => true,
        _ => false,
    }
}

//! The first pass: the fields of a document, and the values that they take.
ghost use Rattle.std.specs.Prelude.{◌≡◌};
ghost use Rattle.std.specs.List.{slice_get};
ghost use Rattle.seg_model.specs.DocumentCheck as checked;
ghost use Rattle.seg_values.specs.ValueTrees.{tree_of};

use crate::kinds::takes;
use seg_values::{Field, OwnedValue, Pairs, Schema, SchemaCause, TantivyError};

/// The first pair whose field is not in the schema, or does not take the value, of a document that is added at `place`.
#[tactic(auto, using(crate::proofs::ListTails::drop_at))]
pub(crate) fn fields_refusal(
    schema: &Schema,
    document: &Pairs<'_>,
    place: usize,
) -> Option<TantivyError>
    ensures { result ≡ checked.at_place place (checked.fields_refusal schema.now document.now) }
{
    for at in 0..document.len() {
        let (field, value) = document.pair(at);
        let refusal = value_refusal(schema, field, value, place);
        if refusal.is_some() {
            return refusal;
        }
    }
    None
}

fn value_refusal(
    schema: &Schema,
    field: Field,
    value: &OwnedValue,
    at: usize,
) -> Option<TantivyError>
    ensures { result
        ≡ checked.at_place at (checked.value_refusal field (tree_of value.now) (slice_get schema.now field)) }
{
    match schema.fields().get(field.field_id() as usize) {
        Some(entry) if takes(entry, value) => None,
        Some(_) => Some(TantivyError::SchemaError(SchemaCause::WrongValue { at, field })),
        None => Some(TantivyError::SchemaError(SchemaCause::UnknownField { at })),
    }
}

//! The fields of deletes.
ghost use Rattle.std.specs.Prelude.{◌≡◌, map};
ghost use Rattle.seg_model.specs.ValidInputs.{is_unindexed_delete, names_indexed, unindexed_delete_of};
ghost use Rattle.seg_check.specs.UserOperations.{operation_of};

use crate::UserOperation;
use seg_values::{Schema, TantivyDocument, Term};

/// The place of the first delete by a term of no indexed field.
pub(crate) fn unindexed_delete(
    schema: &Schema,
    operations: &[UserOperation<TantivyDocument>],
) -> Option<usize>
    ensures { result ≡ unindexed_delete_of schema.now (map operation_of operations.now) }
{
    operations
        .iter()
        .position(|operation| is_unindexed_delete(schema, operation))
}

fn is_unindexed_delete(schema: &Schema, operation: &UserOperation<TantivyDocument>) -> bool
    ensures { result ≡ is_unindexed_delete schema.now (operation_of operation.now) }
{
    match operation {
        UserOperation::Add(_) => false,
        UserOperation::Delete(term) => !names_indexed(schema, term),
    }
}

/// Whether a term is of an indexed field of the schema.
fn names_indexed(schema: &Schema, term: &Term) -> bool
    ensures { result ≡ names_indexed schema.now term.now }
{
    match schema.fields().get(term.field().field_id() as usize) {
        Some(entry) => entry.is_indexed(),
        None => false,
    }
}

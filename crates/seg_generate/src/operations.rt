//! The operations of the generated input.
ghost use Rattle.std.specs.Prelude.{◌≡◌, ◌<◌, ◌+◌, ◌*◌, [], ◌∷◌, ◌++◌, map, IfOk, OnOk};
ghost use Rattle.std.specs.List.{range_with_len};
ghost use Rattle.seg_values.specs.Tree.{unsigned};
ghost use Rattle.seg_values.specs.ValueBytes.{value_bytes};
ghost use Rattle.seg_model.specs.Operations.{add, delete};
ghost use Rattle.seg_check.specs.UserOperations.{operation_of};
ghost use Rattle.seg_generate.specs.Documents.{document};
ghost use Rattle.seg_generate.specs.GeneratedInput.{deleted_number, group_operations, operations};

use crate::documents::document;
use seg_check::UserOperation;
use seg_values::{Field, TantivyDocument, Term};
use std::alloc::{AllocError, Global};

/// The groups of operations.
const GROUPS: u32 = 250;

/// How many documents a group adds.
const DOCUMENTS: u32 = 8;

/// A group deletes from the one that is this many groups before it.
const DISTANCE: u32 = 25;

/// All operations, in order.
pub(crate) fn operations(
    alloc: Global,
    seed: u32,
) -> Result<Vec<UserOperation<TantivyDocument>>, AllocError>
    ensures { IfOk result (λ o. map operation_of o.items ≡ operations seed) }
{
    let mut operations = Vec::new(alloc);
    for group in 0..GROUPS {
        push_group(&mut operations, alloc, seed, group)?;
    }
    Ok(operations)
}

/// Adds the operations of a group.
fn push_group(
    operations: &mut Vec<UserOperation<TantivyDocument>>,
    alloc: Global,
    seed: u32,
    group: u32,
) -> Result<(), AllocError>
    requires { group < 250 }
    ensures { OnOk result (map operation_of operations.new.items
        ≡ map operation_of operations.old.items ++ group_operations seed group) }
{
    push_additions(operations, alloc, group)?;
    push_delete(operations, alloc, deleted_number(seed, group))
}

/// Adds the additions of a group.
fn push_additions(
    operations: &mut Vec<UserOperation<TantivyDocument>>,
    alloc: Global,
    group: u32,
) -> Result<(), AllocError>
    requires { group < 250 }
    ensures { OnOk result (map operation_of operations.new.items ≡ map operation_of operations.old.items
        ++ map (λ place. add (document (8 * group + place))) (range_with_len 0 8)) }
{
    for place in 0..DOCUMENTS {
        push_addition(operations, alloc, DOCUMENTS * group + place)?;
    }
    Ok(())
}

/// Adds the addition of the document of a number.
fn push_addition(
    operations: &mut Vec<UserOperation<TantivyDocument>>,
    alloc: Global,
    number: u32,
) -> Result<(), AllocError>
    ensures { OnOk result (map operation_of operations.new.items
        ≡ map operation_of operations.old.items ++ add (document number) ∷ []) }
{
    operations.push(UserOperation::Add(document(alloc, number)?))?;
    Ok(())
}

/// Adds the delete of the document of a number, by its `id`.
fn push_delete(
    operations: &mut Vec<UserOperation<TantivyDocument>>,
    alloc: Global,
    number: u32,
) -> Result<(), AllocError>
    ensures { OnOk result (map operation_of operations.new.items ≡ map operation_of operations.old.items
        ++ delete (record { field = 0; bytes = value_bytes (unsigned number) }) ∷ []) }
{
    let Ok(term) = Term::from_field_u64(alloc, Field::from_field_id(0), u64::from(number)) else {
        return Err(AllocError);
    };
    operations.push(UserOperation::Delete(term))?;
    Ok(())
}

/// The number of the document that a group deletes.
fn deleted_number(seed: u32, group: u32) -> u32
    requires { group < 250 }
    ensures { result ≡ deleted_number seed group }
{
    let from = (group + (GROUPS - DISTANCE)) % GROUPS;
    DOCUMENTS * from + seed % DOCUMENTS
}

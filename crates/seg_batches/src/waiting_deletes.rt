//! The deletes of an input, as they wait.
ghost use Rattle.std.specs.Prelude.{◌≡◌, map, IfOk, OnOk};
ghost use Rattle.seg_check.specs.UserOperations.{operation_of};
ghost use Rattle.seg_batches.specs.DeleteCursors.{AllWait, IsQueued};

use crate::term_target::TermTarget;
use crate::{DeleteOperation, DeleteQueue, Opstamp};
use seg_check::UserOperation;
use seg_values::{TantivyDocument, Term};
use std::alloc::{AllocError, Global};

/// The deletes among operations, each with its place as its stamp. Their terms are copied.
pub(crate) fn delete_queue(
    alloc: Global,
    operations: &[UserOperation<TantivyDocument>],
) -> Result<DeleteQueue<TermTarget>, AllocError>
    ensures { IfOk result (AllWait (map operation_of operations.now)) }
{
    let mut queue = DeleteQueue::new(alloc);
    for (at, operation) in operations.iter().enumerate() {
        push_delete(alloc, at as u64, operation, &mut queue)?;
    }
    Ok(queue)
}

/// Puts an operation at the end of the queue, where it is a delete.
fn push_delete(
    alloc: Global,
    opstamp: Opstamp,
    operation: &UserOperation<TantivyDocument>,
    queue: &mut DeleteQueue<TermTarget>,
) -> Result<(), AllocError>
    ensures { OnOk result (IsQueued opstamp (operation_of operation.now) queue.old queue.new) }
{
    match operation {
        UserOperation::Add(_) => Ok(()),
        UserOperation::Delete(term) => {
            let target = TermTarget(copied_term(alloc, term)?);
            let Ok(()) = queue.push(DeleteOperation { opstamp, target }) else {
                return Err(AllocError);
            };
            Ok(())
        }
    }
}

fn copied_term(alloc: Global, term: &Term) -> Result<Term, AllocError>
    ensures { IfOk result (λ copy. copy ≡ term.now) }
{
    match Term::from_field_bytes(alloc, term.field(), term.serialized_value_bytes()) {
        Ok(copy) => Ok(copy),
        Err(_) => Err(AllocError),
    }
}

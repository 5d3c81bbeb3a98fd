//! The queue of the deletes that wait.
ghost use Rattle.std.specs.Prelude.{◌≡◌, ◌≤◌, ◌++◌, ◌∷◌, [], length, slice_get, option_copied, OnOk, OnErr, IfErr};
ghost use Rattle.std.specs.Borrow.{sem};
ghost use Rattle.seg_values.specs.declared.error.TantivyError.TheVariants.{OutOfMemory};
ghost use Rattle.seg_batches.specs.Queues.{Queue, flushed_at};

use crate::delete_cursor::DeleteCursor;
use crate::operation::DeleteOperation;
use seg_values::TResult;
use std::alloc::{AllocError, Global};
use std::marker::Model;

/// Operations, in the order that they came in. The first of them are flushed; the others are so, all at once, when a
/// cursor comes to them.
#[derive(Drop)]
pub struct DeleteQueue<T> {
    operations: Vec<DeleteOperation<T>>,
    flushed: usize,
}

impl<T> Model for DeleteQueue<T> {
    ghost use Rattle.std.specs.Prelude.{◌≤◌, length};
    ghost use Rattle.seg_batches.specs.Queues.{Queue};

    ghost Value = { Queue T };

    ghost view = { λ q. record { operations = q.operations.items; flushed = q.flushed } };

    ghost invariant = { λ q. q.flushed ≤ length q.operations.items };
}

impl<T> DeleteQueue<T> {
    ghost use Rattle.seg_batches.specs.QueueEnds.{EndsFlushedAt};

    pub fn new(alloc: Global) -> DeleteQueue<T>
        ensures { result ≡ record { operations = []; flushed = 0 } }
    {
        DeleteQueue {
            operations: Vec::new(alloc),
            flushed: 0,
        }
    }

    /// A cursor before the operations that aren't flushed yet, and all that come.
    pub fn cursor(&self) -> DeleteCursor
        ensures position { result ≡ self.now.flushed }
        ensures within { self.now.flushed ≤ length self.now.operations }
    {
        DeleteCursor::at(self.flushed)
    }

    /// The operation where a cursor is; none at the end.
    pub fn get(&mut self, cursor: &DeleteCursor) -> Option<&DeleteOperation<T>>
        requires { cursor.now ≤ self.old.flushed }
        ensures operation { option_copied result ≡ slice_get self.old.operations cursor.now }
        ensures* queue { sem 𝓛 (EndsFlushedAt T.row cursor.now self.entry) }
    {
        let position = cursor.position();
        self.flush_at(position);
        self.operations.get(position)
    }

    /// Flushes all operations where the position is that of the first that isn't flushed, and counts the flushed ones.
    pub(crate) fn flush_at(&mut self, position: usize) -> usize
        requires { position ≤ self.old.flushed }
        ensures flushed { result ≡ self.new.flushed }
        ensures queue { self.new ≡ flushed_at position self.old }
        ensures within { position ≤ result }
        ensures rises { self.old.flushed ≤ result }
        ensures listed { result ≤ length self.new.operations }
    {
        if position == self.flushed {
            self.flushed = self.operations.len();
        }
        self.flushed
    }
}

impl<T: Drop> DeleteQueue<T> {
    /// Puts an operation at the end. One that there is no memory for is dropped.
    pub fn push(&mut self, operation: DeleteOperation<T>) -> TResult<()>
        ensures ok { OnOk result (self.new ≡ record self.old { operations = self.old.operations ++ operation ∷ [] }) }
        ensures error { IfErr result (λ e. e ≡ OutOfMemory) }
        ensures unchanged { OnErr result (self.new ≡ self.old) }
    {
        self.append(operation)?;
        Ok(())
    }

    fn append(&mut self, operation: DeleteOperation<T>) -> Result<(), AllocError>
        ensures ok { OnOk result (self.new ≡ record self.old { operations = self.old.operations ++ operation ∷ [] }) }
        ensures unchanged { OnErr result (self.new ≡ self.old) }
    {
        self.operations.push(operation)?;
        Ok(())
    }
}

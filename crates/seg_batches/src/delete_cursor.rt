//! A place in the queue of the deletes that wait.
ghost use Rattle.std.specs.Prelude.{◌≡◌, ◌≤◌, ◌<◌, ◌↔◌, IsTrue, length, min, ◌+◌, slice_get, option_copied};
ghost use Rattle.std.specs.Borrow.{sem};
ghost use Rattle.seg_batches.specs.QueueEnds.{EndsFlushedAt};
ghost use Rattle.seg_batches.specs.Queues.{IsFlushedAt, flushed_at, skipped, is_behind};

use crate::delete_queue::DeleteQueue;
use crate::operation::{DeleteOperation, Opstamp};
use std::marker::Model;

/// Iterates over the operations of a queue, by itself: a copy is at the same operation, and goes on alone.
///
/// Its calls take the queue that it is of.
#[derive(Clone, Copy)]
pub struct DeleteCursor {
    position: usize,
}

impl Model for DeleteCursor {
    ghost use Rattle.std.specs.Prelude.{ℕ};

    ghost Value = { ℕ };

    ghost view = { λ c. c.position };

    ghost inverse = { λ position. record { position = position } };
}

impl DeleteCursor {
    pub(crate) fn at(position: usize) -> DeleteCursor
        ensures { result ≡ position }
    {
        DeleteCursor { position }
    }

    pub(crate) fn position(&self) -> usize
        ensures { result ≡ self.now }
    {
        self.position
    }

    /// The operation where the cursor is; none at the end.
    ///
    /// `DeleteQueue::get` does the same. A caller whose proof goes on with the queue takes that: what becomes of a
    /// queue of which something is lent, a proof learns only where the queue is the first parameter.
    pub fn get<'q, T>(&self, queue: &'q mut DeleteQueue<T>) -> Option<&'q DeleteOperation<T>>
        requires { self.now ≤ queue.old.flushed }
        ensures operation { option_copied result ≡ slice_get queue.old.operations self.now }
        ensures* queue { sem 𝓛 (EndsFlushedAt T.row self.now queue.entry) }
    {
        queue.get(self)
    }

    /// Passes one operation; at the end it stays.
    pub fn advance<T>(&mut self, queue: &mut DeleteQueue<T>) -> bool
        requires { self.old ≤ queue.old.flushed }
        ensures passes { IsTrue result ↔ (self.old < length queue.old.operations) }
        ensures position { self.new ≡ min (self.old + 1) (length queue.old.operations) }
        ensures queue { queue.new ≡ flushed_at self.old queue.old }
        ensures within { self.new ≤ queue.new.flushed }
        ensures rises { queue.old.flushed ≤ queue.new.flushed }
    {
        let flushed = queue.flush_at(self.position);
        if self.position == flushed {
            return false;
        }
        self.position += 1;
        true
    }

    /// Passes the operations whose stamps are below the target, up to the first other one or the end.
    pub fn skip_to<T>(&mut self, queue: &mut DeleteQueue<T>, target: Opstamp)
        requires { self.old ≤ queue.old.flushed }
        ensures position { self.new ≡ skipped target queue.old.operations self.old }
        ensures queue { queue.new ≡ flushed_at self.new queue.old }
        ensures within { self.new ≤ queue.new.flushed }
        ensures rises { queue.old.flushed ≤ queue.new.flushed }
    {
        while self.is_behind(queue, target) {
            self.advance(queue);
        }
    }

    fn is_behind<T>(&self, queue: &mut DeleteQueue<T>, target: Opstamp) -> bool
        requires { self.now ≤ queue.old.flushed }
        ensures below { result ≡ is_behind target (slice_get queue.old.operations self.now) }
        ensures queue { IsFlushedAt self.now queue.old queue.new }
    {
        match queue.get(self) {
            Some(operation) => operation.opstamp < target,
            None => false,
        }
    }
}

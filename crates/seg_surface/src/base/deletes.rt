//! Cursors over the deletes that wait.

use crate::lines::Lines;
use seg_batches::{DeleteOperation, DeleteQueue, Opstamp};
use std::alloc::{AllocError, Global};

/// The first stamp, from a new cursor on, that is at least the target.
fn first_from(queue: &mut DeleteQueue<u32>, target: Opstamp) -> Option<Opstamp> {
    let mut cursor = queue.cursor();
    cursor.skip_to(queue, target);
    cursor.get(queue).map(|operation| operation.opstamp)
}

fn push(queue: &mut DeleteQueue<u32>, opstamp: Opstamp) -> Result<(), AllocError> {
    match queue.push(DeleteOperation { opstamp, target: 7 }) {
        Ok(_) => Ok(()),
        Err(_) => Err(AllocError),
    }
}

/// The deletes of some stamps.
fn queue(alloc: Global, opstamps: &[Opstamp]) -> Result<DeleteQueue<u32>, AllocError> {
    let mut queue = DeleteQueue::new(alloc);
    for opstamp in opstamps {
        push(&mut queue, *opstamp)?;
    }
    Ok(queue)
}

/// A new cursor comes after what is flushed.
fn add_cursors(lines: &mut Lines, queue: &mut DeleteQueue<u32>) {
    lines.add_answer(
        "of deletes 1, 2, 2, 5 the first from 2, by a new cursor",
        &first_from(queue, 2),
    );
    lines.add_answer(
        "the first from 0, by a cursor made then",
        &first_from(queue, 0),
    );
    if push(queue, 7).is_err() {
        return lines.miss();
    }
    lines.add_answer(
        "the first from 0, by a cursor made after the delete 7",
        &first_from(queue, 0),
    );
}

pub(crate) fn add_deletes(lines: &mut Lines) {
    match queue(lines.alloc(), &[1, 2, 2, 5]) {
        Ok(mut queue) => add_cursors(lines, &mut queue),
        Err(_) => lines.miss(),
    }
}

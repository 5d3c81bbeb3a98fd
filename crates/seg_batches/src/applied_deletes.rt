//! The deletes of a queue.
ghost use Rattle.std.specs.Prelude.{◌≡◌, ◌≤◌, length, drop, take, IfOk, IfErr, OnOk, OnErr};
ghost use Rattle.seg_open.specs.OpenSegment.{contents_of};
ghost use Rattle.seg_batches.specs.AppliedDeletes.{Advances, Applies, AreMapped, IsTold, left_by};

use crate::delete_target::DeleteTarget;
use crate::deleted_documents::apply_delete;
use crate::{DeleteCursor, DeleteQueue, DocToOpstampMapping};
use seg_bits::BitSet;
use seg_open::SegmentReader;
use seg_values::{TResult, TantivyError};
use std::alloc::{AllocError, Global};

/// Applies the deletes of a queue, from a cursor on, to a segment: which of its documents they leave, and `None` where
/// they leave all.
///
/// It takes memory for the set, before the first delete is applied, and for what each delete names. Where there is none
/// the cursor stays where it was, and the queue keeps its deletes.
pub fn apply_deletes<T: DeleteTarget>(
    alloc: Global,
    reader: &mut SegmentReader,
    queue: &mut DeleteQueue<T>,
    cursor: &mut DeleteCursor,
    mapping: &DocToOpstampMapping<'_>,
) -> TResult<Option<BitSet>>
    requires stamps { AreMapped mapping.now reader.old.documents }
    requires cursor { cursor.old ≤ queue.old.flushed }
    ensures left { IfOk result (IsTold reader.old.documents
        (left_by (λ target. T.names target reader.old.schema (contents_of reader.old)) mapping.now
        reader.old.documents (drop cursor.old queue.old.operations))) }
    ensures end { OnOk result (cursor.new ≡ length queue.old.operations) }
    ensures unchanged { OnErr result (cursor.new ≡ cursor.old) }
    ensures err { IfErr result (λ e. e ≡ TantivyError.OutOfMemory) }
    ensures same { reader.new ≡ reader.old }
    ensures operations { queue.new.operations ≡ queue.old.operations }
    ensures within { cursor.new ≤ queue.new.flushed }
    ensures rises { queue.old.flushed ≤ queue.new.flushed }
{
    let Ok(mut alive) = BitSet::with_max_value_and_full(alloc, reader.max_doc()) else {
        return Err(TantivyError::OutOfMemory);
    };
    let mut here = *cursor;
    let Ok(()) = apply_rest(alloc, reader, queue, &mut here, mapping, &mut alive) else {
        return Err(TantivyError::OutOfMemory);
    };
    *cursor = here;
    Ok(unless_full(alive))
}

/// The set, where a number is missing from it.
fn unless_full(set: BitSet) -> Option<BitSet>
    ensures { IsTold (length set) set result }
{
    if set.len() == set.max_value() as usize {
        return None;
    }
    Some(set)
}

/// Applies the operations from the cursor on, and takes it to the end.
fn apply_rest<T: DeleteTarget>(
    alloc: Global,
    reader: &mut SegmentReader,
    queue: &mut DeleteQueue<T>,
    cursor: &mut DeleteCursor,
    mapping: &DocToOpstampMapping<'_>,
    alive: &mut BitSet,
) -> Result<(), AllocError>
    requires stamps { AreMapped mapping.now (length alive.old) }
    requires size { length alive.old ≡ reader.old.documents }
    requires cursor { cursor.old ≤ queue.old.flushed }
    ensures end { OnOk result (cursor.new ≡ length queue.old.operations) }
    ensures applies { Applies (λ target. T.names target reader.old.schema (contents_of reader.old)) mapping.now
        (drop cursor.old queue.old.operations) result alive.old alive.new cursor.new queue.old queue.new }
    ensures same { reader.new ≡ reader.old }
{
    while apply_next(alloc, reader, queue, cursor, mapping, alive)? {}
    Ok(())
}

/// Applies the operation where the cursor is, and passes it; at the end it stays.
fn apply_next<T: DeleteTarget>(
    alloc: Global,
    reader: &mut SegmentReader,
    queue: &mut DeleteQueue<T>,
    cursor: &mut DeleteCursor,
    mapping: &DocToOpstampMapping<'_>,
    alive: &mut BitSet,
) -> Result<bool, AllocError>
    requires stamps { AreMapped mapping.now (length alive.old) }
    requires size { length alive.old ≡ reader.old.documents }
    requires cursor { cursor.old ≤ queue.old.flushed }
    ensures advances { IfOk result (Advances (length queue.old.operations) cursor.old cursor.new) }
    ensures applies { Applies (λ target. T.names target reader.old.schema (contents_of reader.old)) mapping.now
        (take 1 (drop cursor.old queue.old.operations)) result alive.old alive.new cursor.new queue.old queue.new }
    ensures same { reader.new ≡ reader.old }
{
    apply_current(alloc, reader, queue, cursor, mapping, alive)?;
    Ok(cursor.advance(queue))
}

/// Applies the operation where the cursor is; at the end nothing.
fn apply_current<T: DeleteTarget>(
    alloc: Global,
    reader: &mut SegmentReader,
    queue: &mut DeleteQueue<T>,
    cursor: &DeleteCursor,
    mapping: &DocToOpstampMapping<'_>,
    alive: &mut BitSet,
) -> Result<(), AllocError>
    requires stamps { AreMapped mapping.now (length alive.old) }
    requires size { length alive.old ≡ reader.old.documents }
    requires cursor { cursor.now ≤ queue.old.flushed }
    ensures applies { Applies (λ target. T.names target reader.old.schema (contents_of reader.old)) mapping.now
        (take 1 (drop cursor.now queue.old.operations)) result alive.old alive.new cursor.now queue.old queue.new }
    ensures same { reader.new ≡ reader.old }
{
    match queue.get(cursor) {
        Some(operation) => apply_delete(alloc, reader, operation, mapping, alive),
        None => Ok(()),
    }
}

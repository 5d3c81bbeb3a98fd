//! The segments of all batches, in a directory.
ghost use Rattle.std.specs.Prelude.{◌≡◌, ◌+◌, ◌^◌, ◌<◌, ◌≤◌, ◌∷◌, ◌++◌, [], true, length, map, take, slice_range, slice_get, unwrap_or, IfOk, OnOk};
ghost use Rattle.std.specs.List.{enumerate_from};
ghost use Rattle.seg_batches.specs.Laws.{as_operations};
ghost use Rattle.seg_directory.specs.DirectorySteps.{Works};
ghost use Rattle.seg_segment.specs.SegmentFiles.{write_steps};
ghost use Rattle.seg_check.specs.UserOperations.{operation_of};
ghost use Rattle.seg_check.specs.WriterStart.{start_refusal};
ghost use Rattle.seg_model.specs.Operations.{batches};
ghost use Rattle.seg_model.specs.ValidInputs.{cuts_fit};
ghost use Rattle.seg_model.specs.Stamps.{stamped_deletes};
ghost use Rattle.seg_batches.specs.WrittenSegments.{LacksSome, alive_of, segments_of};
ghost use Rattle.seg_batches.specs.DeleteCursors.{passed_below};
ghost use Rattle.seg_batches.specs.BatchWriteSteps.{MakesBatches, WritesBatch, batch_between, batch_cause, batch_causes};

use crate::indexed_batch::{index_batch, new_writer};
use crate::made_batch::MadeBatch;
use crate::term_target::TermTarget;
use crate::waiting_deletes::delete_queue;
use crate::written_segment::WrittenSegment;
use crate::{DeleteCursor, DeleteQueue, Opstamp};
use seg_check::UserOperation;
use seg_common::SegmentId;
use seg_directory::Directory;
use seg_meta::IndexSettings;
use seg_tokens::Analyzers;
use seg_values::{Schema, TResult, TantivyDocument, TantivyError};
use std::alloc::{AllocError, Global};

/// Writes the segment of each batch, one after another: the operations up to each cut, and those after the last. Each
/// has all documents that its batch adds; which of them the deletes of all operations leave is told beside its files.
///
/// It ends at an error, with the segments of the batches before it written. `SchemaError` and `InvalidArgument` tell a
/// refusal, and no file of its batch is made; `IndexAlreadyExists`: a file of that name is there.
pub fn write_batches<Z: Analyzers, W: Directory>(
    alloc: Global,
    schema: &Schema,
    settings: &IndexSettings,
    analyzers: &Z,
    operations: &[UserOperation<TantivyDocument>],
    cuts: &[usize],
    ids: &[SegmentId],
    directory: &mut W,
) -> TResult<Vec<WrittenSegment>>
    requires cuts { cuts_fit (map operation_of operations.now) cuts.now ≡ true }
    requires ids { length ids.now ≡ length cuts.now + 1 }
    ensures does { MakesBatches
        (batch_causes (start_refusal (Z.knows analyzers.now) 15000 schema.now settings.now) schema.now
        (Z.tokens_of analyzers.now) cuts.now (map operation_of operations.now))
        schema.now settings.now.docstore_blocksize (Z.tokens_of analyzers.now) ids.now
        (batches schema.now (Z.tokens_of analyzers.now) cuts.now (map operation_of operations.now)) result
        (W.state directory.old)
        (W.state directory.new) }
    ensures segments { IfOk result (λ ws. ws.items
        ≡ segments_of ids.now
        (batches schema.now (Z.tokens_of analyzers.now) cuts.now (map operation_of operations.now))) }
{
    let Ok(mut queue) = delete_queue(alloc, operations) else {
        return Err(TantivyError::OutOfMemory);
    };
    let mut cursor = queue.cursor();
    let mut written = Vec::new(alloc);
    let mut first = 0;
    for (at, id) in ids.iter().enumerate() {
        let end = batch_end(cuts, at, operations);
        let segment = match write_batch(
            alloc,
            schema,
            settings,
            analyzers,
            *id,
            operations,
            first,
            end,
            &mut queue,
            &mut cursor,
            directory,
        ) {
            Ok(segment) => segment,
            Err(e) => return Err(e),
        };
        let Ok(()) = keep(segment, &mut written) else {
            return Err(TantivyError::OutOfMemory);
        };
        first = end;
    }
    Ok(written)
}

/// Where the batch after this many cuts ends.
fn batch_end(cuts: &[usize], at: usize, operations: &[UserOperation<TantivyDocument>]) -> usize
    ensures { result ≡ unwrap_or (slice_get cuts.now at) (length operations.now) }
{
    cuts.get(at).copied().unwrap_or(operations.len())
}

/// Puts a segment at the end.
fn keep(segment: WrittenSegment, written: &mut Vec<WrittenSegment>) -> Result<(), AllocError>
    ensures { OnOk result (written.new.items ≡ written.old.items ++ segment ∷ []) }
{
    written.push(segment)?;
    Ok(())
}

/// Writes the segment of the batch of the operations from `first` up to `end`. The cursor is after the deletes of
/// batches before it.
///
/// Refusals come in the order of a writer that is started, the number of documents, the first document that does not
/// pass its check, and `Numbers` of all documents, of those too that deletes remove.
fn write_batch<Z: Analyzers, W: Directory>(
    alloc: Global,
    schema: &Schema,
    settings: &IndexSettings,
    analyzers: &Z,
    id: SegmentId,
    operations: &[UserOperation<TantivyDocument>],
    first: usize,
    end: usize,
    queue: &mut DeleteQueue<TermTarget>,
    cursor: &mut DeleteCursor,
    directory: &mut W,
) -> TResult<WrittenSegment>
    requires rises { first ≤ end }
    requires within { end ≤ length operations.now }
    requires waits { as_operations queue.old.operations ≡ stamped_deletes 0 (map operation_of operations.now) }
    requires cursor { cursor.old ≤ queue.old.flushed }
    requires passed { passed_below first (take cursor.old queue.old.operations) }
    ensures { WritesBatch
        (batch_cause (start_refusal (Z.knows analyzers.now) 15000 schema.now settings.now) schema.now
        (Z.tokens_of analyzers.now) (enumerate_from first (slice_range (map operation_of operations.now) first end)))
        schema.now settings.now.docstore_blocksize (Z.tokens_of analyzers.now) id first
        (batch_between schema.now (Z.tokens_of analyzers.now) first end (map operation_of operations.now)) result
        queue.old queue.new cursor.new
        (W.state directory.old)
        (W.state directory.new) }
{
    let batch = &operations[first..end];
    let writer = match new_writer(alloc, schema, settings, analyzers, id) {
        Ok(writer) => writer,
        Err(e) => return Err(e),
    };
    let segment = match index_batch(first as Opstamp, batch, writer) {
        Ok(segment) => segment,
        Err(e) => return Err(e),
    };
    let Ok(made) = MadeBatch::of_segment(
        alloc,
        schema,
        id,
        first as Opstamp,
        segment,
        queue,
        cursor,
    ) else {
        return Err(TantivyError::OutOfMemory);
    };
    write_made(alloc, id, made, directory)
}

/// Writes the files of a segment that was made; their bytes are released.
fn write_made<W: Directory>(
    alloc: Global,
    id: SegmentId,
    made: MadeBatch,
    directory: &mut W,
) -> TResult<WrittenSegment>
    requires few { made.max_doc < 2 ^ 31 }
    requires set { LacksSome made.max_doc made.alive }
    ensures segment { IfOk result (λ s. s
        ≡ record { id = id; documents = made.max_doc; alive = alive_of made.max_doc made.alive }) }
    ensures works { Works (write_steps id made.files) result (W.state directory.old) (W.state directory.new) }
{
    let MadeBatch {
        files,
        max_doc,
        alive,
    } = made;
    match files.write(alloc, id, directory) {
        Ok(()) => Ok(WrittenSegment::new(id, max_doc, alive)),
        Err(e) => Err(e),
    }
}

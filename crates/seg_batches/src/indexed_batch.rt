//! The segment of a batch, in memory.
ghost use Rattle.std.specs.Prelude.{◌≡◌, ◌<◌, ◌+◌, ◌^◌, [], map, length, IfOk};
ghost use Rattle.seg_model.specs.Operations.{additions};
ghost use Rattle.seg_build.specs.SegmentWriters.{Writes};
ghost use Rattle.seg_check.specs.UserOperations.{operation_of};
ghost use Rattle.seg_check.specs.WriterStart.{start_refusal};
ghost use Rattle.seg_batches.specs.IndexedBatches.{AddsAll, AreOfBatch, IsUnused, is_addition};
ghost use Rattle.seg_model.specs.Refusals.{batch_error};
ghost use Rattle.seg_model.specs.CheckAnswers.{Tells};

use crate::Opstamp;
use seg_build::{MemorySegment, SegmentWriter};
use seg_check::{LEAST_BUDGET, UserOperation};
use seg_common::SegmentId;
use seg_meta::{IndexSettings, Segment, SegmentMeta};
use seg_segment::MAX_DOCUMENTS;
use seg_tokens::Analyzers;
use seg_values::{ArgumentCause, Schema, TResult, TantivyDocument, TantivyError};
use std::alloc::Global;

/// The segment of the documents that a batch adds, all of them, whichever the batch deletes again.
pub(crate) fn index_batch<Z: Analyzers>(
    first: Opstamp,
    operations: &[UserOperation<TantivyDocument>],
    writer: SegmentWriter<'_, Z>,
) -> TResult<MemorySegment>
    requires places { first + length operations.now < 2 ^ 64 }
    requires fresh { Writes (Z.tokens_of writer.0) [] [] writer.1 }
    ensures segment { IfOk result (λ s. AreOfBatch writer.entry.1.schema writer.entry.1.block_size
        (Z.tokens_of writer.entry.0) first (map operation_of operations.now) s.files s.stamps.items) }
    ensures tells { Tells (batch_error writer.entry.1.schema (Z.tokens_of writer.entry.0) first
        (map operation_of operations.now)) result }
{
    if count_additions(operations) > MAX_DOCUMENTS {
        return Err(TantivyError::InvalidArgument(ArgumentCause::Documents));
    }
    let mut writer = writer;
    match add_operations(first, operations, &mut writer) {
        Ok(()) => {}
        Err(e) => return Err(e),
    }
    match writer.into_segment() {
        Ok(segment) => Ok(segment),
        Err(e) => Err(e),
    }
}

fn count_additions(operations: &[UserOperation<TantivyDocument>]) -> usize
    ensures { result ≡ length (additions (map operation_of operations.now)) }
{
    operations
        .iter()
        .filter(|operation| is_addition(operation))
        .count()
}

fn is_addition(operation: &UserOperation<TantivyDocument>) -> bool
    ensures { result ≡ is_addition (operation_of operation.now) }
{
    match operation {
        UserOperation::Add(_) => true,
        UserOperation::Delete(_) => false,
    }
}

/// Adds the documents of operations, up to the first that is refused; an error tells the place of its operation.
fn add_operations<Z: Analyzers>(
    first: Opstamp,
    operations: &[UserOperation<TantivyDocument>],
    writer: &mut SegmentWriter<'_, Z>,
) -> TResult<()>
    requires places { first + length operations.now < 2 ^ 64 }
    requires few { length (additions (map operation_of operations.now)) < 2 ^ 31 }
    requires fresh { Writes (Z.tokens_of writer.old.0) [] [] writer.old.1 }
    ensures { AddsAll Z.tokens_of first (map operation_of operations.now) result writer.old writer.new }
{
    for (at, operation) in operations.iter().enumerate() {
        match operation {
            UserOperation::Add(document) => match writer.add_ref(first + at as u64, document) {
                Ok(()) => {}
                Err(e) => return Err(e),
            },
            UserOperation::Delete(_) => {}
        }
    }
    Ok(())
}

/// A writer of no documents.
pub(crate) fn new_writer<'a, Z: Analyzers>(
    alloc: Global,
    schema: &Schema,
    settings: &IndexSettings,
    analyzers: &'a Z,
    id: SegmentId,
) -> TResult<SegmentWriter<'a, Z>>
    ensures unused { IfOk result (λ w. (w.0 ≡ analyzers.now)
        × IsUnused schema.now settings.now.docstore_blocksize (Z.tokens_of analyzers.now) w.1) }
    ensures tells { Tells (start_refusal (Z.knows analyzers.now) 15000 schema.now settings.now) result }
{
    let segment = Segment::new(schema.share(), SegmentMeta::new(id, 0, None));
    // A batch is kept whole, whatever it takes.
    SegmentWriter::for_segment(alloc, LEAST_BUDGET, segment, settings, analyzers)
}

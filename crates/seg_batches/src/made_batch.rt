//! The segment of a batch, and which of its documents later deletes leave.
ghost use Rattle.std.specs.Prelude.{◌≤◌, ◌<◌, ◌^◌, ℕ, List, length, take, IfOk};
ghost use Rattle.seg_model.specs.Fields.{Analyzer};
ghost use Rattle.seg_model.specs.Operations.{Operation};
ghost use Rattle.seg_batches.specs.IndexedBatches.{AreOfBatch};
ghost use Rattle.seg_batches.specs.BatchSegments.{AreWhole, IsSegmentOf};
ghost use Rattle.seg_batches.specs.DeleteCursors.{PassesEarlier, passed_below};

use crate::batch_alive::alive_documents;
use crate::term_target::TermTarget;
use crate::{DeleteCursor, DeleteQueue, Opstamp};
use seg_bits::BitSet;
use seg_build::MemorySegment;
use seg_common::SegmentId;
use seg_meta::{Segment, SegmentMeta};
use seg_segment::SegmentFiles;
use seg_values::Schema;
use std::alloc::{AllocError, Global};

/// The segment of a batch, whose files aren't made yet, and which of its documents later deletes leave; `None` where
/// they leave all.
#[derive(Drop)]
pub(crate) struct MadeBatch {
    pub(crate) files: SegmentFiles,
    pub(crate) max_doc: u32,
    pub(crate) alive: Option<BitSet>,
}

impl MadeBatch {
    /// That of a segment in memory, which is of a batch whose first operation has the place `first`. The queue is of
    /// the deletes of all operations, in the batch and after it too, and the cursor may be handed on from batch to
    /// batch.
    pub(crate) fn of_segment(
        alloc: Global,
        schema: &Schema,
        id: SegmentId,
        first: Opstamp,
        segment: MemorySegment,
        queue: &mut DeleteQueue<TermTarget>,
        cursor: &mut DeleteCursor,
    ) -> Result<MadeBatch, AllocError>
        requires few { length segment.stamps.items < 2 ^ 31 }
        requires whole { AreWhole schema.now segment.files (length segment.stamps.items) }
        requires cursor { cursor.old ≤ queue.old.flushed }
        requires passed { passed_below first (take cursor.old queue.old.operations) }
        ensures segment { IfOk result (λ b. (block_size : ℕ) → (analyzer : Analyzer) → (operations : List Operation)
            → AreOfBatch schema.now block_size analyzer first operations segment.files segment.stamps.items
            → IsSegmentOf schema.now block_size analyzer first operations queue.old.operations
            b.files b.max_doc b.alive) }
        ensures earlier { PassesEarlier first queue.old queue.new cursor.new }
    {
        let MemorySegment {
            files,
            fields,
            stamps,
        } = segment;
        drop(fields);
        let max_doc = stamps.len() as u32;
        let described = Segment::new(schema.share(), SegmentMeta::new(id, max_doc, None));
        let Ok(alive) = alive_documents(alloc, &described, &files, first, &stamps, queue, cursor)
        else {
            return Err(AllocError);
        };
        Ok(MadeBatch {
            files,
            max_doc,
            alive,
        })
    }
}

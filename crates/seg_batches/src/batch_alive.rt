//! Which documents of a batch deletes leave.
ghost use Rattle.std.specs.Prelude.{◌≡◌, ◌≤◌, length, map, take, drop, IfOk};
ghost use Rattle.seg_batches.specs.declared.doc_opstamp_mapping.DocToOpstampMapping.TheVariants.{WithMap};
ghost use Rattle.seg_open.specs.OpenSegment.{terms_in};
ghost use Rattle.seg_open.specs.OpeningSteps.{HasFilesOf};
ghost use Rattle.seg_batches.specs.AppliedDeletes.{IsTold, KeepsDeletes, left_by, term_names};
ghost use Rattle.seg_batches.specs.BatchSegments.{AreWhole, FindsLeft};
ghost use Rattle.seg_batches.specs.DeleteCursors.{SkipsEarlier, passed_below};

use crate::applied_deletes::apply_deletes;
use crate::laws::applied_deletes_leave_the_alive;
use crate::term_target::TermTarget;
use crate::{DeleteCursor, DeleteQueue, DocToOpstampMapping, Opstamp};
use seg_bits::BitSet;
use seg_meta::Segment;
use seg_open::{OpenError, SegmentReader};
use seg_segment::{SegmentFiles, files_spell_one_contents};
use seg_values::{TResult, TantivyError};
use std::alloc::{AllocError, Global};

/// Which documents of a segment the deletes of a queue leave, and `None` where they leave all. The files are those of a
/// batch whose first operation has the place `first`, and `stamps` are those of its documents.
///
/// The cursor comes to the first delete with a place from `first` on: those before it reach no document of this batch,
/// nor of a later one. Where none is left the files aren't opened.
pub(crate) fn alive_documents(
    alloc: Global,
    segment: &Segment,
    files: &SegmentFiles,
    first: Opstamp,
    stamps: &[Opstamp],
    queue: &mut DeleteQueue<TermTarget>,
    cursor: &mut DeleteCursor,
) -> TResult<Option<BitSet>>
    requires number { segment.now.meta.documents ≡ length stamps.now }
    requires whole { AreWhole segment.now.schema files.now segment.now.meta.documents }
    requires cursor { cursor.old ≤ queue.old.flushed }
    requires passed { passed_below first (take cursor.old queue.old.operations) }
    ensures { FindsLeft segment.now.schema files.now first stamps.now result queue.old queue.new cursor.new }
{
    applied_deletes_leave_the_alive();
    files_spell_one_contents();
    if !skip_earlier(queue, cursor, first) {
        return Ok(None);
    }
    let Ok(reader) = open_made(alloc, segment, files) else {
        return Err(TantivyError::OutOfMemory);
    };
    apply_from(alloc, reader, queue, *cursor, stamps)
}

/// Takes the cursor past the deletes with smaller stamps; whether another one is there.
fn skip_earlier(
    queue: &mut DeleteQueue<TermTarget>,
    cursor: &mut DeleteCursor,
    first: Opstamp,
) -> bool
    requires cursor { cursor.old ≤ queue.old.flushed }
    requires passed { passed_below first (take cursor.old queue.old.operations) }
    ensures { SkipsEarlier first result queue.old queue.new cursor.new }
{
    cursor.skip_to(queue, first);
    queue.get(cursor).is_some()
}

/// A reader of files that were just made.
fn open_made(
    alloc: Global,
    segment: &Segment,
    files: &SegmentFiles,
) -> Result<SegmentReader, AllocError>
    requires whole { AreWhole segment.now.schema files.now segment.now.meta.documents }
    ensures { IfOk result (HasFilesOf segment.now files.now) }
{
    match SegmentReader::open_files(alloc, segment, files.share()) {
        Ok(reader) => Ok(reader),
        Err(OpenError::OutOfMemory) => Err(AllocError),
        Err(OpenError::Damaged(_)) => unreachable!(),
    }
}

/// Applies the deletes from the cursor on, which stays.
fn apply_from(
    alloc: Global,
    reader: SegmentReader,
    queue: &mut DeleteQueue<TermTarget>,
    mut cursor: DeleteCursor,
    stamps: &[Opstamp],
) -> TResult<Option<BitSet>>
    requires stamps { length stamps.now ≡ reader.documents }
    requires cursor { cursor ≤ queue.old.flushed }
    ensures left { IfOk result (IsTold reader.documents (left_by (term_names (map terms_in reader.fields))
        (WithMap stamps.entry) reader.documents (drop cursor queue.old.operations))) }
    ensures keeps { KeepsDeletes queue.old queue.new }
{
    let mapping = DocToOpstampMapping::WithMap(stamps);
    let mut reader = reader;
    apply_deletes(alloc, &mut reader, queue, &mut cursor, &mapping)
}

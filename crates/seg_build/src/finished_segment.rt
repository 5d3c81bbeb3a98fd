//! A segment from what its writer has.
ghost use Rattle.std.specs.Prelude.{◌≡◌, map, option_map, IfOk, IfErr};
ghost use Rattle.seg_common.specs.WriterGrowth.{HasGrown};
ghost use Rattle.seg_model.specs.Fields.{Analyzer};
ghost use Rattle.seg_norms.specs.FieldNorms as field_norms;
ghost use Rattle.seg_build.specs.FinishedFiles.{Fails, Finishes, IsMadeOfKept};
ghost use Rattle.seg_build.specs.SegmentWriters.{kept_of, IsUnderWay};

use crate::add_operation::Opstamp;
use crate::fields::{IndexedBatch, IndexedFields};
use crate::memory_segment::MemorySegment;
use crate::serializer_contents::filled;
use crate::writer_parts::WriterParts;
use seg_directory::Directory;
use seg_meta::Segment;
use seg_norms::FieldNormsWriter;
use seg_values::{TResult, TantivyError};
use std::alloc::{AllocError, Global};

/// Makes the six files of a segment, and answers the stamps of its documents.
pub(crate) fn finish<W: Directory>(
    alloc: Global,
    segment: Segment,
    parts: WriterParts,
    directory: &mut W,
) -> TResult<Vec<Opstamp>>
    requires under_way { (analyzer : Analyzer) × IsUnderWay segment.schema analyzer (kept_of parts) }
    ensures does { Finishes segment.schema segment.meta.id (kept_of parts) result
        (W.state directory.old) (W.state directory.new) }
    ensures stamps { IfOk result (λ stamps. stamps.items ≡ parts.stamps.items) }
{
    let id = segment.id();
    let made = match memory_segment(alloc, segment, parts) {
        Ok(made) => made,
        Err(e) => return Err(e),
    };
    match made.files.write(alloc, id, directory) {
        Ok(()) => Ok(made.stamps),
        Err(e) => Err(e),
    }
}

/// Makes the segment, of which no file is made. Whether its documents have columns is decided first.
pub(crate) fn memory_segment(
    alloc: Global,
    segment: Segment,
    parts: WriterParts,
) -> TResult<MemorySegment>
    requires under_way { (analyzer : Analyzer) × IsUnderWay segment.schema analyzer (kept_of parts) }
    ensures made { IfOk result (IsMadeOfKept segment.schema (kept_of parts)) }
    ensures fails { IfErr result (Fails segment.schema (kept_of parts)) }
{
    let WriterParts {
        fields,
        norms,
        fast,
        store,
        stamps,
        ..
    } = parts;
    let columns = match fast.serialize() {
        Ok(columns) => columns,
        Err(e) => return Err(e),
    };
    let Ok(fields) = IndexedFields::sorted(alloc, segment.schema().fields(), fields) else {
        return Err(TantivyError::OutOfMemory);
    };
    let Ok(norms) = with_all_lengths(norms, stamps.len() as u32) else {
        return Err(TantivyError::OutOfMemory);
    };
    let batch = IndexedBatch { fields, norms };
    let Ok(serializer) = filled(alloc, segment, store, columns, &batch) else {
        return Err(TantivyError::OutOfMemory);
    };
    let Ok(files) = serializer.into_files() else {
        return Err(TantivyError::OutOfMemory);
    };
    Ok(MemorySegment {
        files,
        fields: batch.fields,
        stamps,
    })
}

/// Lengths with an id for each of `count` documents.
fn with_all_lengths(norms: FieldNormsWriter, count: u32) -> Result<FieldNormsWriter, AllocError>
    ensures { IfOk result (λ whole. HasGrown norms whole (map (option_map (field_norms.filled count)))) }
{
    let mut norms = norms;
    match norms.fill_up_to_max_doc(count) {
        Ok(()) => Ok(norms),
        Err(_) => Err(AllocError),
    }
}

//! The merger of segments.
ghost use Rattle.std.specs.Prelude.{◌≡◌, ◌≢◌, ◌<◌, ◌^◌, ℕ, length, map, None, IfOk, IfErr, OnOk};
ghost use Rattle.std.specs.List.{AllByRecursion};
ghost use Rattle.seg_model.specs.CheckAnswers.{Tells};
ghost use Rattle.seg_segment.specs.SegmentSerializers.{unfilled};
ghost use Rattle.seg_open.specs.OpenSegment.{kept_count};
ghost use Rattle.seg_merger.specs.DocIdMapping.{mapping_of};
ghost use Rattle.seg_merger.specs.Merger.{IsMergerOf, OpensMerger, WritesJoined, refusal_of, too_many};

use crate::doc_id_mapping::SegmentDocIdMapping;
use crate::filters::{filters_fit, no_filters};
use crate::joined_count::num_joined_docs;
use crate::joined_segment::join_into;
use seg_bits::AliveBitSet;
use seg_columns::ColumnError;
use seg_directory::Directory;
use seg_meta::Segment;
use seg_model::joins_have_full_shape;
use seg_open::{SegmentReader, open_segments};
use seg_segment::SegmentSerializer;
use seg_values::{ArgumentCause, Schema, TResult, TantivyError};
use std::alloc::Global;
use std::marker::Model;

/// Merges segments of one schema: the documents of each that are alive, one segment after another. It is seen as the
/// schema and what the readers have.
#[derive(Drop)]
pub struct IndexMerger {
    alloc: Global,
    schema: Schema,
    readers: Vec<SegmentReader>,
    max_doc: u32,
}

impl Model for IndexMerger {
    ghost use Rattle.std.specs.Prelude.{◌≡◌, ◌<◌, ◌^◌};
    ghost use Rattle.std.specs.List.{AllByRecursion};
    ghost use Rattle.seg_open.specs.OpenSegment.{IsMarked, IsOfSchema, kept_count};
    ghost use Rattle.seg_merger.specs.Merger.{Merging};

    ghost Value = { Merging };

    ghost view = { λ m. record { schema = m.schema; readers = m.readers.items } };

    ghost invariant = { λ m. AllByRecursion (IsOfSchema m.schema) m.readers.items
        × AllByRecursion IsMarked m.readers.items × (m.max_doc ≡ kept_count m.readers.items) × (m.max_doc < 2 ^ 31) };
}

impl IndexMerger {
    /// Opens the segments, one after another, and counts their documents that are alive. It refuses as
    /// `open_with_custom_alive_set`, but never by `Filters`.
    pub fn open<W: Directory>(
        alloc: Global,
        schema: Schema,
        segments: &[Segment],
        directory: &mut W,
    ) -> TResult<IndexMerger>
        requires schema { AllByRecursion (λ s. s.schema ≡ schema) segments.now }
        ensures { OpensMerger schema segments.now (map (λ _. None) segments.now) result
            (W.state directory.old) (W.state directory.new) }
    {
        let Ok(filters) = no_filters(alloc, segments.len()) else {
            return Err(TantivyError::OutOfMemory);
        };
        IndexMerger::open_with_custom_alive_set(alloc, schema, segments, filters, directory)
    }

    /// Opens the segments, each under its filter: of the documents that are alive, it keeps those of its set.
    /// `Filters`: there are not as many filters as segments, or a set is not of as many documents as its segment has.
    /// Then come the errors of `SegmentReader::open`, segment by segment; and last `Documents`, where 2^31 documents or
    /// more are alive.
    pub fn open_with_custom_alive_set<W: Directory>(
        alloc: Global,
        schema: Schema,
        segments: &[Segment],
        filters: Vec<Option<AliveBitSet>>,
        directory: &mut W,
    ) -> TResult<IndexMerger>
        requires schema { AllByRecursion (λ s. s.schema ≡ schema) segments.now }
        ensures { OpensMerger schema segments.now filters.items result
            (W.state directory.old) (W.state directory.new) }
    {
        if !filters_fit(segments, &filters) {
            return Err(TantivyError::InvalidArgument(ArgumentCause::Filters));
        }
        match open_segments(alloc, segments, &filters, directory) {
            Ok(readers) => IndexMerger::from_readers(alloc, schema, readers),
            Err(e) => Err(e),
        }
    }

    /// Of segments that are open. `Documents`: 2^31 documents or more are alive.
    pub fn from_readers(
        alloc: Global,
        schema: Schema,
        readers: Vec<SegmentReader>,
    ) -> TResult<IndexMerger>
        requires schema { AllByRecursion (λ r. r.schema ≡ schema) readers.items }
        ensures told { Tells (too_many (kept_count readers.items)) result }
        ensures ok { IfOk result (IsMergerOf schema readers.items) }
        ensures err { IfErr result (λ e. e ≢ TantivyError.OutOfMemory) }
    {
        match num_joined_docs(&readers) {
            Some(max_doc) => Ok(IndexMerger {
                alloc,
                schema,
                readers,
                max_doc,
            }),
            None => Err(TantivyError::InvalidArgument(ArgumentCause::Documents)),
        }
    }

    /// The schema of the segments.
    pub fn schema(&self) -> &Schema
        ensures { result.now ≡ self.now.schema }
    {
        &self.schema
    }

    /// How many documents the merged segment has.
    pub fn max_doc(&self) -> u32
        ensures counted { result ≡ kept_count self.now.readers }
        ensures few { result < 2 ^ 31 }
    {
        self.max_doc
    }

    /// For each document of the merged segment, in order, where it comes from.
    pub fn get_doc_id_from_concatenated_data(&self, alloc: Global) -> TResult<SegmentDocIdMapping>
        requires few { length self.now.readers < 2 ^ 32 }
        ensures ok { IfOk result (λ mapping. mapping ≡ mapping_of self.now.readers) }
        ensures err { IfErr result (λ e. e ≡ TantivyError.OutOfMemory) }
    {
        match SegmentDocIdMapping::of_readers(alloc, &self.readers) {
            Ok(mapping) => Ok(mapping),
            Err(_) => Err(TantivyError::OutOfMemory),
        }
    }

    /// Makes the six files of a segment of the merger's schema, whose serializer has nothing yet, in a directory, and
    /// answers how many documents it has. `Numbers`, before any file is made: the documents have numbers under one path
    /// that no type of column holds together.
    pub fn write<O: Directory>(
        &mut self,
        serializer: SegmentSerializer,
        directory: &mut O,
    ) -> TResult<u32>
        requires fresh { (block_size : ℕ) × (serializer ≡ unfilled serializer.segment block_size) }
        requires schema { serializer.segment.schema ≡ self.old.schema }
        ensures same { self.new ≡ self.old }
        ensures does { (block_size : ℕ) → serializer ≡ unfilled serializer.segment block_size
            → WritesJoined serializer.segment block_size self.old.readers result
            (O.state directory.old) (O.state directory.new) }
        ensures number { IfOk result (λ documents. documents ≡ kept_count self.old.readers) }
        ensures few { OnOk result (kept_count self.old.readers < 2 ^ 31) }
    {
        joins_have_full_shape();
        let filled = match join_into(self.alloc, serializer, &self.readers) {
            Ok(filled) => filled,
            Err(error) => return Err(refusal(error)),
        };
        match filled.close(directory) {
            Ok(()) => Ok(self.max_doc),
            Err(e) => Err(e),
        }
    }
}

/// Why segments are not merged, by why their columns are not.
fn refusal(error: ColumnError) -> TantivyError
    ensures { result ≡ refusal_of error }
{
    match error {
        ColumnError::Mixed => TantivyError::InvalidArgument(ArgumentCause::Numbers),
        _ => TantivyError::OutOfMemory,
    }
}

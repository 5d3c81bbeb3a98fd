//! The merge of segments into an index of one segment.
ghost use Rattle.std.specs.Prelude.{◌≡◌, ℕ, List, Some, true, Option, IfOk, IfErr, MatchBool, OnOk};
ghost use Rattle.std.specs.List.{AllByRecursion, filter};
ghost use Rattle.seg_meta.specs.MetaBounds.{AreReadBack};
ghost use Rattle.seg_meta.specs.MetaMeaning.{meta_of, settings_of};
ghost use Rattle.seg_model.specs.Input.{Filter};
ghost use Rattle.seg_model.specs.ValidInputs.{settings_fit};
ghost use Rattle.seg_open.specs.Answers.{seen_as};
ghost use Rattle.seg_merger.specs.Merger.{all_fit};
ghost use Rattle.seg_index_build.specs.EntryOptions.{options_of};
ghost use Rattle.seg_index_build.specs.MergeOutcomes.{MergeComesTo};
ghost use Rattle.seg_index_build.specs.MergedSegments.{AreMerged, FillsTo, IsRefusal, MergesTo, OpensLive, first_schema, is_live, kept_filters, live_asked, merge_input};
ghost use Rattle.seg_index_build.specs.TwoDirectories.{both};

use crate::index_files::{begin_index, save_index};
use crate::metas::output_metas;
use crate::payload::ids_of;
use seg_bits::AliveBitSet;
use seg_check::settings_fit;
use seg_common::SegmentId;
use seg_directory::Directory;
use seg_merger::{IndexMerger, filters_fit};
use seg_meta::{
    Index, IndexSettings, Segment, SegmentMeta, id_fits, metas_read_back, schema_reads_back,
};
use seg_segment::SegmentSerializer;
use seg_tokens::Text;
use seg_values::{ArgumentCause, FieldEntry, Schema, TResult, TantivyError};
use std::alloc::{AllocError, Global};

/// Merges segments, each under its filter, into an index of one segment of this id in the directory `output`, which has
/// no file yet: of each segment the documents that are alive and that its filter keeps, one segment after another.
/// Segments are read from `work`; one of which the meta counts no live document is not read. (tantivy's call of this
/// name, in `indexer/merge_index.rs`.)
///
/// The output is saved so that a crash at any moment leaves it as no index, as the empty one, or whole; once the call
/// answers Ok, as the whole.
///
/// Refusals come in this order: `NoSegments`; `DifferentSchemas`; `Filters`, where there is not one for each segment,
/// of as many documents; `Settings`. Then the output index is begun, which must have no file; then come the errors of
/// `SegmentReader::open`, segment by segment; `Documents`, where 2^31 documents or more are left; `Numbers`, where
/// those of a path that are left have no type; and those of writing.
pub fn merge_filtered_segments<W: Directory, O: Directory>(
    alloc: Global,
    segments: &[Segment],
    target_settings: IndexSettings,
    filters: Vec<Option<AliveBitSet>>,
    id: SegmentId,
    work: &mut W,
    output: &mut O,
) -> TResult<Index>
    ensures { MergeComesTo (merge_input segments.now target_settings filters.items id) result
        (both (W.state work.old) (O.state output.old)) (both (W.state work.new) (O.state output.new)) }
{
    id_fits(&id);
    match check_segments(segments, &target_settings, &filters) {
        Ok(()) => merge_checked(
            alloc,
            segments,
            &target_settings,
            &filters,
            id,
            work,
            output,
        ),
        Err(e) => Err(e),
    }
}

/// Refuses segments that are not merged.
pub fn check_segments(
    segments: &[Segment],
    settings: &IndexSettings,
    filters: &[Option<AliveBitSet>],
) -> TResult<()>
    ensures ok { OnOk result ((id : ℕ) → AreMerged (merge_input segments.now settings.now filters.now id)) }
    ensures err { IfErr result (λ e. (id : ℕ)
        → IsRefusal (merge_input segments.now settings.now filters.now id) segments.now (Some e)) }
    ensures reads { OnOk result (AreReadBack (settings_of settings.now) (first_schema segments.now)) }
{
    let Some(first) = segments.first() else {
        return Err(TantivyError::InvalidArgument(ArgumentCause::NoSegments));
    };
    if !are_of_schema(segments, first.schema()) {
        return Err(TantivyError::InvalidArgument(ArgumentCause::DifferentSchemas));
    }
    if !filters_fit(segments, filters) {
        return Err(TantivyError::InvalidArgument(ArgumentCause::Filters));
    }
    if !settings_fit(settings) {
        return Err(TantivyError::InvalidArgument(ArgumentCause::Settings));
    }
    schema_reads_back(first.schema(), settings);
    Ok(())
}

/// Whether all segments are of a schema.
fn are_of_schema(segments: &[Segment], schema: &Schema) -> bool
    ensures { MatchBool result (AllByRecursion (λ s. s.schema ≡ schema.now) segments.now)
        (AllByRecursion (λ s. s.schema ≡ schema.now) segments.now → ⊥) }
{
    for segment in segments {
        if !same_schema(segment.schema(), schema) {
            return false;
        }
    }
    true
}

/// Whether two schemas are the same, entry by entry.
fn same_schema(left: &Schema, right: &Schema) -> bool
    ensures { MatchBool result (left.now ≡ right.now) (left.now ≡ right.now → ⊥) }
{
    same_entries(left.fields(), right.fields())
}

fn same_entries(left: &[FieldEntry], right: &[FieldEntry]) -> bool
    ensures { MatchBool result (left.now ≡ right.now) (left.now ≡ right.now → ⊥) }
{
    if left.len() != right.len() {
        return false;
    }
    for (at, entry) in left.iter().enumerate() {
        if !same_entry(entry, &right[at]) {
            return false;
        }
    }
    true
}

fn same_entry(left: &FieldEntry, right: &FieldEntry) -> bool
    ensures { MatchBool result (left.now ≡ right.now) (left.now ≡ right.now → ⊥) }
{
    if left.name.as_str() != right.name.as_str() {
        return false;
    }
    if !same_text(&left.tokenizer, &right.tokenizer) {
        return false;
    }
    if !same_text(&left.fast_tokenizer, &right.fast_tokenizer) {
        return false;
    }
    same_options(left, right)
}

/// Whether all but the texts are the same.
fn same_options(left: &FieldEntry, right: &FieldEntry) -> bool
    ensures { MatchBool result (options_of left.now ≡ options_of right.now)
        (options_of left.now ≡ options_of right.now → ⊥) }
{
    if left.kind != right.kind {
        return false;
    }
    if left.index != right.index {
        return false;
    }
    if left.precision != right.precision {
        return false;
    }
    if left.stored != right.stored {
        return false;
    }
    if left.norms != right.norms {
        return false;
    }
    if left.fast != right.fast {
        return false;
    }
    if left.expand_dots != right.expand_dots {
        return false;
    }
    true
}

fn same_text(left: &Option<Text>, right: &Option<Text>) -> bool
    ensures { MatchBool result (left.now ≡ right.now) (left.now ≡ right.now → ⊥) }
{
    match (left, right) {
        (None, None) => true,
        (Some(left), Some(right)) => left.as_str() == right.as_str(),
        _ => false,
    }
}

/// Merges segments that nothing refuses.
fn merge_checked<W: Directory, O: Directory>(
    alloc: Global,
    segments: &[Segment],
    settings: &IndexSettings,
    filters: &[Option<AliveBitSet>],
    id: SegmentId,
    work: &mut W,
    output: &mut O,
) -> TResult<Index>
    requires merged { AreMerged (merge_input segments.now settings.now filters.now id) }
    ensures { MergesTo (merge_input segments.now settings.now filters.now id)
        (seen_as (λ merged. meta_of merged) result)
        (both (W.state work.old) (O.state output.old)) (both (W.state work.new) (O.state output.new)) }
{
    let schema = segments[0].schema();
    match begin_index(alloc, schema, settings, output) {
        Ok(()) => {}
        Err(e) => return Err(e),
    }
    let merger = match open_live(alloc, schema, segments, filters, work) {
        Ok(merger) => merger,
        Err(e) => return Err(e),
    };
    fill_output(alloc, segments, settings, id, merger, output)
}

/// Opens the segments of which the meta counts a live document, each under its filter.
fn open_live<W: Directory>(
    alloc: Global,
    schema: &Schema,
    segments: &[Segment],
    filters: &[Option<AliveBitSet>],
    work: &mut W,
) -> TResult<IndexMerger>
    requires schema { AllByRecursion (λ s. s.schema ≡ schema.now) segments.now }
    requires fit { all_fit filters.now segments.now ≡ true }
    ensures opens { OpensLive (live_asked segments.now filters.now) result (W.state work.old) (W.state work.new) }
    ensures schema { IfOk result (λ merger. merger.schema ≡ schema.now) }
{
    let Ok(live) = live_segments(alloc, segments) else {
        return Err(TantivyError::OutOfMemory);
    };
    let Ok(kept) = live_filters(alloc, segments, filters) else {
        return Err(TantivyError::OutOfMemory);
    };
    IndexMerger::open_with_custom_alive_set(alloc, schema.share(), &live, kept, work)
}

/// The segments of which the meta counts a live document.
pub fn live_segments(alloc: Global, segments: &[Segment]) -> Result<Vec<Segment>, AllocError>
    ensures { IfOk result (λ live. live.items ≡ filter (λ s. is_live s.meta) segments.now) }
{
    let mut live = Vec::new(alloc);
    for segment in segments {
        if is_live(segment.meta()) {
            live.push(Segment::new(segment.schema().share(), *segment.meta()))?;
        }
    }
    Ok(live)
}

/// The filters of these segments.
fn live_filters(
    alloc: Global,
    segments: &[Segment],
    filters: &[Option<AliveBitSet>],
) -> Result<Vec<Option<AliveBitSet>>, AllocError>
    ensures { IfOk result (λ kept. kept.items ≡ kept_filters segments.now filters.now) }
{
    let mut kept = Vec::new(alloc);
    for (segment, filter) in segments.iter().zip(filters) {
        if is_live(segment.meta()) {
            kept.push(filter.clone()?)?;
        }
    }
    Ok(kept)
}

/// Whether the meta counts a document that isn't deleted.
fn is_live(meta: &SegmentMeta) -> bool
    ensures { result ≡ is_live meta.now }
{
    meta.num_deleted_docs() < meta.max_doc()
}

/// Fills the output index, which was begun, with the merged segment.
pub fn fill_output<O: Directory>(
    alloc: Global,
    segments: &[Segment],
    settings: &IndexSettings,
    id: SegmentId,
    merger: IndexMerger,
    output: &mut O,
) -> TResult<Index>
    requires schema { merger.schema ≡ first_schema segments.now }
    requires settings { settings_fit (settings_of settings.now) ≡ true }
    ensures { (filters : List (Option Filter))
        → FillsTo (merge_input segments.now settings.now filters id) merger.readers
        (seen_as (λ merged. meta_of merged) result) (O.state output.old) (O.state output.new) }
{
    let mut merger = merger;
    let documents = merger.max_doc();
    let Ok(ids) = ids_of(alloc, segments) else {
        return Err(TantivyError::OutOfMemory);
    };
    let Ok(metas) = output_metas(alloc, merger.schema(), settings, &ids, id, documents) else {
        return Err(TantivyError::OutOfMemory);
    };
    let segment = Segment::new(
        merger.schema().share(),
        SegmentMeta::new(id, documents, None),
    );
    let Ok(serializer) = SegmentSerializer::for_segment(alloc, segment, settings) else {
        unreachable!()
    };
    match merger.write(serializer, output) {
        Ok(_) => {}
        Err(e) => return Err(e),
    }
    metas_read_back(&metas);
    match save_index(alloc, &metas, output) {
        Ok(()) => Ok(Index::from_metas(metas)),
        Err(e) => Err(e),
    }
}

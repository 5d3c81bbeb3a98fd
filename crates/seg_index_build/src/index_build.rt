//! The building of an index.
ghost use Rattle.seg_check.specs.Inputs.{input_of};
ghost use Rattle.seg_index_build.specs.BuildOutcomes.{BuildComesTo};
ghost use Rattle.seg_index_build.specs.TwoDirectories.{both};

use crate::indexes::merge_work;
use crate::merge_plan::{copied_plan, plan_of};
use crate::work_index::write_work_index;
use seg_bits::AliveBitSet;
use seg_check::{BuildInput, BuildInputRef, UserOperation};
use seg_common::SegmentId;
use seg_directory::Directory;
use seg_meta::{Index, IndexSettings, ids_fit, schema_reads_back};
use seg_model::joining_is_invisible;
use seg_segment::files_hold_one_contents;
use seg_tokens::Analyzers;
use seg_values::{Schema, TResult, TantivyDocument, TantivyError};
use std::alloc::Global;

/// Builds the index of some operations: writes a segment a batch into the directory `work`, and one of all that is left
/// into the directory `output`. Batch b is of the operations up to cut b, its segment has id b, and the output's has
/// the last id; a filter says which documents of its batch are kept. A delete removes the documents added before it
/// that have its term, in whatever batch; an alive file says which documents of a segment are left, where deletes
/// remove some.
///
/// First both directories are listed. The work index is begun and filled, and then its segments are merged into the
/// output index by `merge_filtered_segments`, as the work directory answers them: each file of a segment with a live
/// document is read once; a file that is missing there, or doesn't agree with those read before it, is told as
/// `DataCorruption`.
///
/// The output is saved so that a crash at any moment leaves it as no index, as the empty one, or whole; once the call
/// answers Ok, as the whole.
///
/// Refusals come in this order: `Cuts`, `Batches`, `Filters`, `SegmentIds`, `FieldName`, `Settings`, `Tokenizer`,
/// `FastTokenizer`, `DeleteField`; then each directory that has files; then, batch by batch after the files of those
/// before it, `Documents`, the first document that does not pass its check, and `Numbers` of all its documents; and
/// last, when the output index is begun, `Documents`, where more are left than one segment can hold, and `Numbers` of
/// those.
pub fn build_index<Z: Analyzers, W: Directory, O: Directory>(
    alloc: Global,
    schema: &Schema,
    settings: &IndexSettings,
    analyzers: &Z,
    operations: &[UserOperation<TantivyDocument>],
    cuts: &[usize],
    filters: &[Option<AliveBitSet>],
    ids: &[SegmentId],
    work: &mut W,
    output: &mut O,
) -> TResult<Index>
    ensures { BuildComesTo (Z.knows analyzers.now) (Z.tokens_of analyzers.now)
        (input_of schema.now settings.now operations.now cuts.now filters.now ids.now) result
        (both (W.state work.old) (O.state output.old)) (both (W.state work.new) (O.state output.new)) }
{
    joining_is_invisible();
    files_hold_one_contents();
    schema_reads_back(schema, settings);
    ids_fit(ids);
    let input = BuildInputRef {
        schema,
        settings,
        operations,
        cuts,
        filters,
        ids,
    };
    let metas = match write_work_index(alloc, &input, analyzers, work, output) {
        Ok(metas) => metas,
        Err(e) => return Err(e),
    };
    let Ok(plan) = copied_plan(alloc, &input) else {
        return Err(TantivyError::OutOfMemory);
    };
    merge_work(alloc, metas, plan, work, output)
}

/// Builds the index of an input, as `build_index` does. The operations are released once the work index is filled, so
/// that they and the output segment are never in memory together.
pub fn build_index_of<Z: Analyzers, W: Directory, O: Directory>(
    alloc: Global,
    input: BuildInput,
    analyzers: &Z,
    work: &mut W,
    output: &mut O,
) -> TResult<Index>
    ensures { BuildComesTo (Z.knows analyzers.now) (Z.tokens_of analyzers.now) input result
        (both (W.state work.old) (O.state output.old)) (both (W.state work.new) (O.state output.new)) }
{
    joining_is_invisible();
    files_hold_one_contents();
    let parts = input.as_ref();
    schema_reads_back(parts.schema, parts.settings);
    ids_fit(parts.ids);
    let metas = match write_work_index(alloc, &parts, analyzers, work, output) {
        Ok(metas) => metas,
        Err(e) => return Err(e),
    };
    let plan = plan_of(input);
    merge_work(alloc, metas, plan, work, output)
}

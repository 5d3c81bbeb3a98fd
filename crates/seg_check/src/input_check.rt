//! All that is refused before a directory is called.
ghost use Rattle.std.specs.Prelude.{◌≡◌, OnOk, map};
ghost use Rattle.seg_model.specs.Fields as model;
ghost use Rattle.seg_model.specs.Operations.{batches};
ghost use Rattle.seg_model.specs.ValidInputs.{input_refusal, shape_refusal};
ghost use Rattle.seg_check.specs.UserOperations.{operation_of};
ghost use Rattle.seg_check.specs.AdmittedInputs.{Fits};
ghost use Rattle.seg_model.specs.CheckAnswers.{Tells};

use crate::batch_cuts::{batches_fit, cuts_fit};
use crate::deletes::unindexed_delete;
use crate::filters::filters_fit;
use crate::ids::ids_fit;
use crate::{BuildInputRef, LEAST_BUDGET, UserOperation, start_refusal};
use seg_bits::AliveBitSet;
use seg_common::SegmentId;
use seg_tokens::Analyzers;
use seg_values::{ArgumentCause, SchemaCause, TResult, TantivyDocument, TantivyError};
use std::alloc::Global;

/// Checks what an index is to be built from. The first test that fails tells, in this order: `Cuts`, `Batches`,
/// `Filters`, `SegmentIds`, `FieldName`, `Settings`, `Tokenizer`, `FastTokenizer`, `DeleteField`.
pub fn check_input<Z: Analyzers>(
    alloc: Global,
    analyzers: &Z,
    input: &BuildInputRef<'_>,
) -> TResult<()>
    ensures told { Tells (input_refusal (Z.knows analyzers.now) (Z.tokens_of analyzers.now) input.now) result }
    ensures fits { OnOk result (Fits (Z.tokens_of analyzers.now) input.now) }
{
    check_shape(
        alloc,
        input.operations,
        input.cuts,
        input.filters,
        input.ids,
    )?;
    if let Some(e) = start_refusal(analyzers, LEAST_BUDGET, input.schema, input.settings) {
        return Err(e);
    }
    match unindexed_delete(input.schema, input.operations) {
        Some(at) => Err(TantivyError::SchemaError(SchemaCause::DeleteField { at })),
        None => Ok(()),
    }
}

/// Checks how the operations are cut, filtered and named.
fn check_shape(
    alloc: Global,
    operations: &[UserOperation<TantivyDocument>],
    cuts: &[usize],
    filters: &[Option<AliveBitSet>],
    ids: &[SegmentId],
) -> TResult<()>
    ensures { (schema : model.Schema) (analyzer : model.Analyzer)
        → Tells
        (shape_refusal (map operation_of operations.now) cuts.now filters.now
        (batches schema analyzer cuts.now (map operation_of operations.now)) ids.now)
        result }
{
    if !cuts_fit(operations, cuts) {
        return Err(TantivyError::InvalidArgument(ArgumentCause::Cuts));
    }
    if !batches_fit(cuts) {
        return Err(TantivyError::InvalidArgument(ArgumentCause::Batches));
    }
    if !filters_fit(operations, cuts, filters) {
        return Err(TantivyError::InvalidArgument(ArgumentCause::Filters));
    }
    match ids_fit(alloc, cuts, ids) {
        Ok(true) => Ok(()),
        Ok(false) => Err(TantivyError::InvalidArgument(ArgumentCause::SegmentIds)),
        Err(_) => Err(TantivyError::OutOfMemory),
    }
}

//! The check of a document: four passes, of which the first that finds something answers.
ghost use Rattle.std.specs.Prelude.{◌≡◌, ◌⊎◌, None, Some, map, IfOk, IfErr, OnOk};
ghost use Rattle.std.specs.List.{AllByRecursion};
ghost use Rattle.seg_model.specs.DocumentCheck as checked;
ghost use Rattle.seg_check.specs.IndexedValues.{IsPlainIn, value_in, document_values};
ghost use Rattle.seg_check.specs.KnownTokenizers.{KnowsTexts};

use crate::fields::fields_refusal;
use crate::indexed_value::IndexedValue;
use crate::json::leaves_refusal;
use crate::limits::is_within_limits;
use crate::positions::{CutDocument, cut_texts};
use seg_tokens::Analyzers;
use seg_values::{ArgumentCause, Document, Pairs, Schema, TResult, TantivyError};
use std::alloc::Global;

/// Checks a document before it is indexed; `at` is the place that an error tells.
pub fn check_document<D: Document, Z: Analyzers>(
    alloc: Global,
    schema: &Schema,
    analyzers: &Z,
    document: &D,
    at: usize,
) -> TResult<()>
    requires { AllByRecursion (KnowsTexts (Z.knows analyzers.now)) schema.now }
    ensures ok { OnOk result
        (checked.document_refusal schema.now (Z.tokens_of analyzers.now) (D.pairs_of document.now) ≡ None) }
    ensures err { IfErr result (λ e. (e ≡ TantivyError.OutOfMemory)
        ⊎ (checked.at_place at
        (checked.document_refusal schema.now (Z.tokens_of analyzers.now) (D.pairs_of document.now))
        ≡ Some e)) }
{
    let Ok(pairs) = document.pairs(alloc) else {
        return Err(TantivyError::OutOfMemory);
    };
    checked_values(alloc, schema, analyzers, &pairs, at)?;
    Ok(())
}

/// Checks the pairs of a document before it is indexed, and answers its values in indexed fields, each text cut once;
/// `at` is the place that an error tells.
pub fn checked_values<Z: Analyzers>(
    alloc: Global,
    schema: &Schema,
    analyzers: &Z,
    document: &Pairs<'_>,
    at: usize,
) -> TResult<Vec<IndexedValue>>
    requires { AllByRecursion (KnowsTexts (Z.knows analyzers.now)) schema.now }
    ensures ok { OnOk result (checked.document_refusal schema.now (Z.tokens_of analyzers.now) document.now ≡ None) }
    ensures values { IfOk result (λ values. map (value_in document.now) values.items
        ≡ document_values schema.now (Z.tokens_of analyzers.now) document.now) }
    ensures keys { IfOk result (λ values. AllByRecursion (IsPlainIn document.now) values.items) }
    ensures err { IfErr result (λ e. (e ≡ TantivyError.OutOfMemory)
        ⊎ (checked.at_place at (checked.document_refusal schema.now (Z.tokens_of analyzers.now) document.now)
        ≡ Some e)) }
{
    if let Some(refusal) = fields_refusal(schema, document, at) {
        return Err(refusal);
    }
    if let Some(refusal) = leaves_refusal(schema, document, at) {
        return Err(refusal);
    }
    let Ok(found) = cut_texts(alloc, analyzers, schema, document) else {
        return Err(TantivyError::OutOfMemory);
    };
    let Some(CutDocument { values, totals }) = found else {
        return Err(TantivyError::InvalidArgument(ArgumentCause::Positions { at }));
    };
    if !is_within_limits(schema, &totals, document) {
        return Err(TantivyError::InvalidArgument(ArgumentCause::Limit { at }));
    }
    Ok(values)
}

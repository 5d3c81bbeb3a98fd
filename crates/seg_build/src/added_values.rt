//! Adds the values of a document to the fields.
ghost use Rattle.std.specs.Prelude.{◌≡◌, [], ◌∷◌, map, IfOk, IsSomeAnd, OnOk};
ghost use Rattle.std.specs.List.{slice_get, AllByRecursion};
ghost use Rattle.seg_check.specs.IndexedValues.{HasPlainKeys, IsPlainIn, content_by, value_in};
ghost use Rattle.seg_values.specs.ValueTrees.{tree_of};
ghost use Rattle.seg_build.specs.AddedValues.{Fits, added, count_in};
ghost use Rattle.seg_model.specs.SaturatedNumbers.{saturated};
ghost use Rattle.seg_build.specs.MemoryUsage.{value_count};
ghost use Rattle.seg_build.specs.FieldsByValue.{AllFit, with_values};

use crate::field::FieldPostings;
use seg_check::{IndexedValue, ValueForm, given_tokens};
use seg_values::{OwnedValue, Pairs};
use std::alloc::{AllocError, Global};

/// Adds values of a document that no other one comes after, and answers how often terms occur in them, at most
/// `usize::MAX`.
pub(crate) fn add_values(
    alloc: Global,
    id: u32,
    document: &Pairs<'_>,
    values: &[IndexedValue],
    fields: &mut [FieldPostings],
) -> Result<usize, AllocError>
    requires fit { AllFit id fields.old (map (value_in document.now) values.now) }
    requires keys { AllByRecursion (IsPlainIn document.now) values.now }
    ensures fields { OnOk result (fields.new ≡ with_values id fields.old (map (value_in document.now) values.now)) }
    ensures counted { IfOk result (λ count. count ≡ saturated (value_count (map (value_in document.now) values.now))) }
{
    let mut count = 0usize;
    for value in values {
        let more = add_value(alloc, id, document, value, fields)?;
        count = count.saturating_add(more);
    }
    Ok(count)
}

/// Adds a value, and answers how often terms occur in it. Where it is not there, that is answered as out of memory.
fn add_value(
    alloc: Global,
    id: u32,
    document: &Pairs<'_>,
    value: &IndexedValue,
    fields: &mut [FieldPostings],
) -> Result<usize, AllocError>
    requires fits { IsSomeAnd (slice_get fields.old value.now.field) (Fits id (value_in document.now value.now).1) }
    requires keys { IsPlainIn document.now value.now }
    ensures fields { OnOk result (fields.new ≡ with_values id fields.old (value_in document.now value.now ∷ [])) }
    ensures counted { IfOk result (λ more. more ≡ saturated (count_in (value_in document.now value.now).1)) }
{
    if value.at >= document.len() {
        return Err(AllocError);
    }
    let (_, tree) = document.pair(value.at);
    add_to_field(alloc, id, value, tree, &mut fields[value.field as usize])
}

/// Adds what a value gives to its field: its tokens, its leaves, or its terms.
fn add_to_field(
    alloc: Global,
    id: u32,
    value: &IndexedValue,
    tree: &OwnedValue,
    field: &mut FieldPostings,
) -> Result<usize, AllocError>
    requires fits { Fits id (content_by value.now.form (tree_of tree.now)) field.old }
    requires keys { HasPlainKeys value.now.form (tree_of tree.now) }
    ensures added { OnOk result (field.new ≡ added id field.old (content_by value.now.form (tree_of tree.now))) }
    ensures counted { IfOk result (λ more. more ≡ saturated (count_in (content_by value.now.form (tree_of tree.now)))) }
{
    match &value.form {
        ValueForm::Cut(tokens) => field.add_text(alloc, id, tokens.as_slice()),
        ValueForm::PreTokenized => field.add_text(alloc, id, given_tokens(tree)),
        ValueForm::Leaves { expand_dots, texts } => {
            field.add_leaves(alloc, id, *expand_dots, tree, texts.as_slice())
        }
        ValueForm::Whole => field.add_terms(alloc, id, tree),
    }
}

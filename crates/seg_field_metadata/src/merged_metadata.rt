//! Metadata of fields, merged.
ghost use Rattle.std.specs.Prelude.{◌≡◌, ◌++◌, [], ◌∷◌, List, true, false, None, map, IfErr, IfOk, OnErr, OnOk};
ghost use Rattle.std.specs.List.{flat_map};
ghost use Rattle.std.specs.List.Sorted.{IsPermutation, IsSortedByKey};
ghost use Rattle.seg_field_metadata.specs.GroupedEntries.{grouped, grouped_after};
ghost use Rattle.seg_field_metadata.specs.MetadataEntries.{Entry, entry_of, fits, key_cmp, key_of, known_of, together};
ghost use Rattle.seg_field_metadata.specs.MergedMetadata.{MergeFails, all_entries, merged, sizes_fit};

use crate::field_metadata::FieldMetadata;
use seg_values::{ArgumentCause, TResult, TantivyError};
use std::alloc::{AllocError, Global};

/// What the lists say together of each name and type, by name and then by type. It takes one sort and one pass.
pub fn merge_field_meta_data(
    alloc: Global,
    lists: Vec<Vec<FieldMetadata>>,
) -> TResult<Vec<FieldMetadata>>
    ensures ok { IfOk result (λ list. map entry_of list.items ≡ merged (all_entries lists.items)) }
    ensures fits { OnOk result (sizes_fit (merged (all_entries lists.items)) ≡ true) }
    ensures err { IfErr result (MergeFails (merged (all_entries lists.items))) }
{
    let Ok(mut all) = join(alloc, lists) else {
        return Err(TantivyError::OutOfMemory);
    };
    sort_by_key(&mut all);
    merge_sorted(alloc, all)
}

fn join(alloc: Global, lists: Vec<Vec<FieldMetadata>>) -> Result<Vec<FieldMetadata>, AllocError>
    ensures { IfOk result (λ all. all.items ≡ flat_map (λ list. list.items) lists.items) }
{
    let mut all = Vec::new(alloc);
    for list in lists {
        append(&mut all, list)?;
    }
    Ok(all)
}

fn append(all: &mut Vec<FieldMetadata>, mut list: Vec<FieldMetadata>) -> Result<(), AllocError>
    ensures { OnOk result (all.new.items ≡ all.old.items ++ list.items) }
{
    all.append(&mut list)
}

fn sort_by_key(all: &mut Vec<FieldMetadata>)
    ensures permutation { IsPermutation all.old.items all.new.items }
    ensures sorted { IsSortedByKey key_of key_cmp all.new.items }
{
    all.sort_unstable_by(|one, other| one.compare_keys(other));
}

/// Those of one key stand side by side.
fn merge_sorted(alloc: Global, sorted: Vec<FieldMetadata>) -> TResult<Vec<FieldMetadata>>
    ensures ok { IfOk result (λ list. map entry_of list.items ≡ grouped None (map entry_of sorted.items)) }
    ensures fits { OnOk result (sizes_fit (grouped None (map entry_of sorted.items)) ≡ true) }
    ensures err { IfErr result (MergeFails (grouped None (map entry_of sorted.items))) }
{
    let mut merged = Vec::new(alloc);
    let mut last = None;
    for next in sorted {
        match add(&mut merged, last, next) {
            Ok(new) => last = Some(new),
            Err(e) => return Err(e),
        }
    }
    finish(merged, last)
}

/// Adds what is next to the last one, if it is of its key, and else puts the last one after those before it.
fn add(
    merged: &mut Vec<FieldMetadata>,
    last: Option<FieldMetadata>,
    next: FieldMetadata,
) -> TResult<FieldMetadata>
    ensures ok { IfOk result (λ new. (rest : List Entry)
        → map entry_of merged.old.items ++ grouped last (entry_of next ∷ rest)
        ≡ map entry_of merged.new.items ++ grouped_after (entry_of new) rest) }
    ensures fits { OnOk result (sizes_fit (map entry_of merged.old.items) ≡ true
        → sizes_fit (map entry_of merged.new.items) ≡ true) }
    ensures err { IfErr result (λ e. (rest : List Entry)
        → MergeFails (map entry_of merged.old.items ++ grouped last (entry_of next ∷ rest)) e) }
{
    let Some(last) = last else {
        return Ok(next);
    };
    if last.compare_keys(&next).is_eq() {
        return merge_into(last, next);
    }
    match push(merged, last) {
        Ok(()) => Ok(next),
        Err(_) => Err(TantivyError::OutOfMemory),
    }
}

fn merge_into(mut last: FieldMetadata, next: FieldMetadata) -> TResult<FieldMetadata>
    requires { key_of next ≡ key_of last }
    ensures ok { IfOk result (λ new. entry_of new
        ≡ (key_of last, together (known_of last ∷ known_of next ∷ []))) }
    ensures overflow { IfErr result (λ e. e ≡ TantivyError.InvalidArgument ArgumentCause.SizeOverflow) }
    ensures passes { OnErr result (fits (together (known_of last ∷ known_of next ∷ [])) ≡ false) }
{
    match last.merge(next) {
        Ok(()) => Ok(last),
        Err(e) => Err(e),
    }
}

fn push(merged: &mut Vec<FieldMetadata>, last: FieldMetadata) -> Result<(), AllocError>
    ensures pushed { OnOk result (merged.new.items ≡ merged.old.items ++ last ∷ []) }
    ensures fits { OnOk result (sizes_fit (map entry_of merged.old.items) ≡ true
        → sizes_fit (map entry_of merged.new.items) ≡ true) }
{
    last.sizes_are_numbers();
    let Ok(()) = merged.push(last) else {
        return Err(AllocError);
    };
    Ok(())
}

/// Puts the last one after those before it.
fn finish(
    mut merged: Vec<FieldMetadata>,
    last: Option<FieldMetadata>,
) -> TResult<Vec<FieldMetadata>>
    ensures ok { IfOk result (λ list. map entry_of list.items ≡ map entry_of merged.items ++ grouped last []) }
    ensures fits { IfOk result (λ list. sizes_fit (map entry_of merged.items) ≡ true
        → sizes_fit (map entry_of list.items) ≡ true) }
    ensures err { IfErr result (λ e. e ≡ TantivyError.OutOfMemory) }
{
    let Some(last) = last else {
        return Ok(merged);
    };
    match push(&mut merged, last) {
        Ok(()) => Ok(merged),
        Err(_) => Err(TantivyError::OutOfMemory),
    }
}

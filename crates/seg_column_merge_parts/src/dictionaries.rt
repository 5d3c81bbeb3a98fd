//! The terms of several columns, merged.
ghost use Rattle.std.specs.Prelude.{◌≡◌, ◌<◌, ◌-◌, ◌+◌, ◌++◌, [], length, map, get_or, IfOk, OnOk, IfSome, MatchBool};
ghost use Rattle.std.specs.List.Sorted.{IsPermutation};
ghost use Rattle.seg_column_merge_parts.specs.TermHeads.{Advances, AreFirstHeads, AreLong, AreMergedTerms, EndsWith, IsLast, heads_at, with_ordinal};

use crate::head_heap::HeadHeap;
use crate::used_terms::UsedTerms;
use std::alloc::{AllocError, Global};

/// The terms that kept rows of columns have, each once in byte order, and the new ordinals of the terms of each column.
#[derive(Drop)]
pub struct MergedTerms<'a> {
    pub terms: Vec<&'a [u8]>,
    pub ordinals: Vec<Vec<u64>>,
}

impl<'a> MergedTerms<'a> {
    /// Merges by a heap with one term of each column. Each term costs the logarithm of their number.
    pub fn of(alloc: Global, columns: &'a [UsedTerms]) -> Result<MergedTerms<'a>, AllocError>
        ensures { IfOk result (λ merged. AreMergedTerms columns.now (map (λ t. t.now) merged.terms.items)
            (map (λ v. v.items) merged.ordinals.items)) }
    {
        let mut terms = Vec::new(alloc);
        let mut ordinals = no_ordinals(alloc, columns)?;
        let mut heads = first_heads(alloc, columns)?;
        while let Some((term, place, ord)) = heads.pop() {
            let column = &columns[place];
            let ordinal = put_last(&mut terms, column, term, ord)?;
            put_ordinal(&mut ordinals, place, ord, ordinal);
            advance(&mut heads, column, place, ord)?;
        }
        Ok(MergedTerms { terms, ordinals })
    }
}

/// Zeros for the terms of each column.
fn no_ordinals(alloc: Global, columns: &[UsedTerms]) -> Result<Vec<Vec<u64>>, AllocError>
    ensures { IfOk result (λ ordinals. AreLong columns.now (map (λ v. v.items) ordinals.items)) }
{
    let mut ordinals = Vec::with_capacity(alloc, columns.len())?;
    for column in columns {
        ordinals.push(zeros(alloc, column.len())?)?;
    }
    Ok(ordinals)
}

fn zeros(alloc: Global, count: usize) -> Result<Vec<u64>, AllocError>
    ensures { IfOk result (λ zeros. length zeros.items ≡ count) }
{
    let zeros = vec![in alloc; 0; count]?;
    Ok(zeros)
}

fn first_heads<'a>(alloc: Global, columns: &'a [UsedTerms]) -> Result<HeadHeap<'a>, AllocError>
    ensures { IfOk result (AreFirstHeads columns.now) }
{
    let mut heads = HeadHeap::new(alloc);
    for place in 0..columns.len() {
        begin(&mut heads, &columns[place], place)?;
    }
    Ok(heads)
}

/// Puts in the first term of a column that is used.
fn begin<'a>(
    heads: &mut HeadHeap<'a>,
    column: &'a UsedTerms,
    place: usize,
) -> Result<(), AllocError>
    ensures { OnOk result (Advances column.now place 0 heads.old heads.new) }
{
    column.are_marked();
    push_head(heads, column, place, column.next_used(0))
}

/// Puts in the first term that is used after one.
fn advance<'a>(
    heads: &mut HeadHeap<'a>,
    column: &'a UsedTerms,
    place: usize,
    ord: usize,
) -> Result<(), AllocError>
    requires { ord < length column.now.terms }
    ensures { OnOk result (Advances column.now place (ord + 1) heads.old heads.new) }
{
    column.are_marked();
    push_head(heads, column, place, column.used_after(ord))
}

fn push_head<'a>(
    heads: &mut HeadHeap<'a>,
    column: &'a UsedTerms,
    place: usize,
    next: Option<usize>,
) -> Result<(), AllocError>
    requires { IfSome next (λ ord. ord < length column.now.terms) }
    ensures { OnOk result (IsPermutation (heads_at column.now place next ++ heads.old) heads.new) }
{
    let Some(ord) = next else {
        return Ok(());
    };
    heads.push(column.term(ord), place, ord)
}

/// Puts a term of a column after others, if it isn't the last of them, and tells its place.
fn put_last<'a>(
    terms: &mut Vec<&'a [u8]>,
    column: &UsedTerms,
    term: &'a [u8],
    ord: usize,
) -> Result<u64, AllocError>
    requires place { ord < length column.now.terms }
    requires is { term.now ≡ get_or column.now.terms ord [] }
    ensures ends { OnOk result (EndsWith column.now (map (λ t. t.now) terms.old.items) term.now
        (map (λ t. t.now) terms.new.items)) }
    ensures place { IfOk result (λ place. place ≡ length terms.new.items - 1) }
{
    let count = terms.len() as u64;
    if is_last(terms.as_slice(), term) {
        return Ok(count - 1);
    }
    column.is_text(ord);
    terms.push(term)?;
    Ok(count)
}

fn is_last(terms: &[&[u8]], term: &[u8]) -> bool
    ensures { MatchBool result (IsLast (map (λ t. t.now) terms.now) term.now)
        (IsLast (map (λ t. t.now) terms.now) term.now → ⊥) }
{
    match terms.last() {
        Some(last) => *last == term,
        None => false,
    }
}

fn put_ordinal(ordinals: &mut Vec<Vec<u64>>, place: usize, ord: usize, ordinal: u64)
    requires place { place < length ordinals.old.items }
    requires ord { ord < length (get_or (map (λ v. v.items) ordinals.old.items) place []) }
    ensures { map (λ v. v.items) ordinals.new.items
        ≡ with_ordinal (map (λ v. v.items) ordinals.old.items) ([], place, ord) ordinal }
{
    let list = &mut ordinals[place];
    list[ord] = ordinal;
}

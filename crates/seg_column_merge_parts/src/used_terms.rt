//! The terms of a column, with those that kept rows have.
ghost use Rattle.std.specs.Prelude.{◌≡◌, ◌+◌, ◌<◌, [], true, All, IsUtf8, length, get_or, IfOk, MatchOption};
ghost use Rattle.std.specs.Cmp.Lexicographic.{slice_cmp};
ghost use Rattle.std.specs.List.{AllZip};
ghost use Rattle.std.specs.List.Sorted.{IsStrictlySortedBy};
ghost use Rattle.std.specs.Ordering.{nat_cmp};
ghost use Rattle.seg_column_merge_parts.specs.KeptColumns.{HasRows, row_count_of};
ghost use Rattle.seg_column_file.specs.KeptRows.{kept_values};
ghost use Rattle.seg_column_merge_parts.specs.MergedTerms.{ords_in, terms_in};
ghost use Rattle.seg_column_merge_parts.specs.UsedOrdinals.{AreUsed};
ghost use Rattle.seg_column_merge_parts.specs.UsedTerms.{AreColumnTerms, AreTermsOf, IsNextUsed, NoneUsed};

use crate::tables::TableRow;
use crate::used_ordinals::used_ordinals;
use seg_column_file::KeptRows;
use seg_columns::{Dictionary, DynamicColumn};
use std::alloc::{AllocError, Global};
use std::marker::Model;

/// The terms of a row's column, if it has one, each with a mark that tells whether a kept row has it.
#[derive(Drop)]
pub struct UsedTerms {
    column: Option<DynamicColumn>,
    used: Vec<bool>,
}

impl Model for UsedTerms {
    ghost use Rattle.std.specs.Prelude.{◌≡◌, length};
    ghost use Rattle.std.specs.Cmp.Lexicographic.{slice_cmp};
    ghost use Rattle.std.specs.List.Sorted.{IsStrictlySortedBy};
    ghost use Rattle.std.specs.Ordering.{nat_cmp};
    ghost use Rattle.seg_column_merge_parts.specs.UsedTerms.{MarkedTerms, has_texts, option_terms};

    ghost Value = { MarkedTerms };

    ghost view = { λ s. record { terms = option_terms s.column; used = s.used.items; texts = has_texts s.column } };

    ghost invariant = { λ s. (length s.used.items ≡ length (option_terms s.column))
        × IsStrictlySortedBy (slice_cmp nat_cmp) (option_terms s.column) };
}

impl UsedTerms {
    pub(crate) fn of(
        alloc: Global,
        row: &TableRow<'_>,
        kept: &KeptRows,
    ) -> Result<UsedTerms, AllocError>
        requires { HasRows kept.now row.now.column }
        ensures { IfOk result (λ terms. AreTermsOf kept.now row.now.column terms) }
    {
        match &row.column {
            Some(place) => UsedTerms::of_column(
                alloc,
                place.handle.open(),
                kept.of_file(place.file),
            ),
            None => Ok(UsedTerms {
                column: None,
                used: Vec::new(alloc),
            }),
        }
    }

    fn of_column(
        alloc: Global,
        column: DynamicColumn,
        kept: &[bool],
    ) -> Result<UsedTerms, AllocError>
        requires { length kept.now ≡ row_count_of column }
        ensures { IfOk result (λ terms. AreColumnTerms kept.now column terms) }
    {
        terms_ascend(&column);
        let used = used_terms(alloc, &column, kept)?;
        Ok(UsedTerms {
            column: Some(column),
            used,
        })
    }

    /// How many terms there are.
    pub(crate) fn len(&self) -> usize
        ensures { result ≡ length self.now.terms }
    {
        self.used.len()
    }

    /// What the column was checked for, and how many marks there are.
    pub(crate) fn are_marked(&self)
        ensures ascend { IsStrictlySortedBy (slice_cmp nat_cmp) self.now.terms }
        ensures long { length self.now.used ≡ length self.now.terms }
    {
        let _used = &self.used;
    }

    /// The ordinal of the first term that a kept row has, from one on.
    pub(crate) fn next_used(&self, from: usize) -> Option<usize>
        ensures { MatchOption result (NoneUsed self.now.used from (length self.now.used))
            (IsNextUsed self.now.used from) }
    {
        for ord in from..self.used.len() {
            if self.used[ord] {
                return Some(ord);
            }
        }
        None
    }

    /// That of the first one after an ordinal.
    pub(crate) fn used_after(&self, ord: usize) -> Option<usize>
        requires { ord < length self.now.used }
        ensures { MatchOption result (NoneUsed self.now.used (ord + 1) (length self.now.used))
            (IsNextUsed self.now.used (ord + 1)) }
    {
        let _count = self.used.len();
        self.next_used(ord + 1)
    }

    /// The term at an ordinal.
    pub(crate) fn term(&self, ord: usize) -> &[u8]
        requires { ord < length self.now.terms }
        ensures { result.now ≡ get_or self.now.terms ord [] }
    {
        match &self.column {
            Some(DynamicColumn::Str(texts)) => term_at(texts.dictionary(), ord),
            Some(DynamicColumn::Bytes(terms)) => term_at(terms.dictionary(), ord),
            _ => &[],
        }
    }

    /// In a column of texts it is one.
    pub(crate) fn is_text(&self, ord: usize)
        requires { ord < length self.now.terms }
        ensures { self.now.texts ≡ true → IsUtf8 (get_or self.now.terms ord []) }
    {
        if let Some(DynamicColumn::Str(texts)) = &self.column {
            let _text = texts.text(ord as u64);
        }
    }
}

/// Those of the columns of rows.
pub fn used_columns(
    alloc: Global,
    rows: &[TableRow<'_>],
    kept: &KeptRows,
) -> Result<Vec<UsedTerms>, AllocError>
    requires { All (λ r. HasRows kept.now r.column) rows.now }
    ensures { IfOk result (λ columns. AllZip (λ r m. AreTermsOf kept.now r.column m) rows.now columns.items) }
{
    let mut columns = Vec::with_capacity(alloc, rows.len())?;
    for row in rows {
        columns.push(UsedTerms::of(alloc, row, kept)?)?;
    }
    Ok(columns)
}

/// What a column was checked for: its terms strictly ascend.
fn terms_ascend(column: &DynamicColumn)
    ensures { IsStrictlySortedBy (slice_cmp nat_cmp) (terms_in column.now) }
{
    match column {
        DynamicColumn::Str(texts) => texts.dictionary().terms_ascend(),
        DynamicColumn::Bytes(terms) => terms.dictionary().terms_ascend(),
        _ => {}
    }
}

/// A mark for each term of a column.
fn used_terms(alloc: Global, column: &DynamicColumn, kept: &[bool]) -> Result<Vec<bool>, AllocError>
    requires { length kept.now ≡ row_count_of column.now }
    ensures { IfOk result (λ used. AreUsed (length (terms_in column.now)) (kept_values kept.now (ords_in column.now))
        used.items) }
{
    match column {
        DynamicColumn::Str(texts) => {
            texts.uses_each();
            used_ordinals(alloc, texts.ords(), texts.num_terms(), kept)
        }
        DynamicColumn::Bytes(terms) => {
            terms.uses_each();
            used_ordinals(alloc, terms.ords(), terms.num_terms(), kept)
        }
        _ => Ok(Vec::new(alloc)),
    }
}

fn term_at(terms: &Dictionary, ord: usize) -> &[u8]
    requires { ord < length terms.now }
    ensures { result.now ≡ get_or terms.now ord [] }
{
    match terms.ord_to_term(ord as u64) {
        Some(term) => term,
        None => &[],
    }
}

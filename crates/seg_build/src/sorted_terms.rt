//! Terms in byte order.
ghost use Rattle.std.specs.Prelude.{◌≡◌, ◌<◌, ◌-◌, ◌^◌, length, min, Some, IfOk, OnOk, IsSomeAnd};
ghost use Rattle.std.specs.FinMap.{entries};
ghost use Rattle.std.specs.List.{slice_get};
ghost use Rattle.std.specs.Map.{keys_of};
ghost use Rattle.seg_terms.specs.PostingGroups.{grouped};
ghost use Rattle.seg_build.specs.FieldTerms.{entries_as, kind_in, postings_as};
ghost use Rattle.seg_build.specs.TokenTotal.{count_total, token_total};

use crate::field::FieldPostings;
use crate::ordered_field::{OrderedField, order_field};
use seg_postings::{AskedKind, RecordKind};
use seg_terms::{Hit, posting_count};
use std::alloc::{AllocError, Global};
use std::marker::Model;

/// The terms of a field in byte order, each with its occurrences, and what their postings keep of these.
#[derive(Drop)]
pub struct SortedTerms {
    asked: AskedKind,
    terms: OrderedField,
}

impl Model for SortedTerms {
    ghost use Rattle.std.specs.Coded.{codes};
    ghost use Rattle.seg_terms.specs.TermEntries.{entries_code};
    ghost use Rattle.seg_build.specs.FieldTerms.{FieldTerms, entries_as};
    ghost use Rattle.seg_build.specs.OrderedFields.{ordered_terms};

    ghost Value = { FieldTerms };

    ghost coded = { Prim.hlevel (codes, entries_code) };

    ghost view = { λ a. record { asked = a.asked; terms = entries_as a.asked (ordered_terms a.terms) } };
}

impl SortedTerms {
    /// What the postings of a term with these bytes keep of each document.
    pub fn kind_of(&self, bytes: &[u8]) -> RecordKind
        ensures { result ≡ kind_in self.now.asked bytes.now }
    {
        self.asked.of_bytes(bytes)
    }

    pub fn len(&self) -> usize
        ensures { result ≡ length self.now.terms }
    {
        self.terms.len()
    }

    /// Writes the bytes of the term at a place, in place of what is in `out`.
    pub fn copy_bytes_at(
        &self,
        alloc: Global,
        index: usize,
        out: &mut Vec<u8>,
    ) -> Result<(), AllocError>
        requires { index < length self.now.terms }
        ensures { OnOk result (slice_get (keys_of self.now.terms) index ≡ Some out.new.items) }
    {
        self.terms.copy_bytes_at(alloc, index, out)
    }

    /// Where that term occurs: document by document, and in a document as its tokens come.
    #[inline]
    pub fn hits_at(&self, index: usize) -> &[Hit]
        requires { index < length self.now.terms }
        ensures { IsSomeAnd (slice_get self.now.terms index) (λ e. e.1
            ≡ postings_as (kind_in self.now.asked e.0) (grouped result.now)) }
    {
        self.terms.hits_at(index)
    }

    /// How often the terms occur in all, as far as that is recorded: where their documents alone are, once in each. A
    /// sum past the greatest u64 stays at it.
    pub fn total_num_tokens(&self, alloc: Global) -> Result<u64, AllocError>
        ensures { IfOk result (λ total. total ≡ min (2 ^ 64 - 1) (token_total self.now.terms)) }
    {
        let mut bytes = Vec::new(alloc);
        let mut total: u64 = 0;
        for at in 0..self.len() {
            self.copy_bytes_at(alloc, at, &mut bytes)?;
            let kind = self.kind_of(&bytes);
            let count = recorded_count(kind, self.hits_at(at)) as u64;
            total = total.saturating_add(count);
        }
        Ok(total)
    }
}

/// How often a term occurs, as far as its postings tell.
fn recorded_count(kind: RecordKind, hits: &[Hit]) -> usize
    ensures { result ≡ count_total (postings_as kind (grouped hits.now)) }
{
    match kind {
        RecordKind::Documents => posting_count(hits),
        RecordKind::Counts | RecordKind::Positions => hits.len(),
    }
}

/// Orders the terms of a field, whose postings keep what is asked.
pub(crate) fn sort_terms(
    alloc: Global,
    asked: AskedKind,
    field: FieldPostings,
) -> Result<SortedTerms, AllocError>
    ensures { IfOk result (λ sorted. sorted
        ≡ record { asked = asked; terms = entries_as asked (entries field.terms) }) }
{
    let FieldPostings { terms, .. } = field;
    let terms = order_field(alloc, terms)?;
    Ok(SortedTerms { asked, terms })
}

//! The terms of a field in byte order, by its kind.
ghost use Rattle.std.specs.Prelude.{◌≡◌, ◌<◌, length, Some, IfOk, OnOk};
ghost use Rattle.std.specs.FinMap.{entries};
ghost use Rattle.std.specs.List.{slice_get};
ghost use Rattle.std.specs.Map.{keys_of, values_of};
ghost use Rattle.seg_terms.specs.PostingGroups.{grouped};
ghost use Rattle.seg_build.specs.GatheredFieldTerms.{gathered};
ghost use Rattle.seg_build.specs.OrderedFields.{ordered_terms};

use crate::gathered_terms::GatheredTerms;
use crate::json_terms::JsonTerms;
use seg_terms::{Hit, OrderedPathTerms, OrderedTerms, order_path_terms, order_terms};
use std::alloc::{AllocError, Global};

/// The terms of a field in byte order, each with its occurrences.
#[derive(Drop)]
pub(crate) enum OrderedField {
    Plain(OrderedTerms),
    Json(OrderedPathTerms),
}

impl OrderedField {
    pub fn len(&self) -> usize
        ensures { result ≡ length (ordered_terms self.now) }
    {
        match self {
            OrderedField::Plain(terms) => terms.len(),
            OrderedField::Json(terms) => terms.len(),
        }
    }

    /// Writes the bytes of the term at a place, in place of what is in `out`.
    pub fn copy_bytes_at(
        &self,
        alloc: Global,
        index: usize,
        out: &mut Vec<u8>,
    ) -> Result<(), AllocError>
        requires { index < length (ordered_terms self.now) }
        ensures { OnOk result (slice_get (keys_of (ordered_terms self.now)) index ≡ Some out.new.items) }
    {
        match self {
            OrderedField::Plain(terms) => {
                out.clear();
                out.extend_from_slice(terms.bytes_at(index))
            }
            OrderedField::Json(terms) => terms.copy_bytes_at(alloc, index, out),
        }
    }

    /// Where that term occurs: document by document, and in a document as its texts come.
    #[inline]
    pub fn hits_at(&self, index: usize) -> &[Hit]
        requires { index < length (ordered_terms self.now) }
        ensures { slice_get (values_of (ordered_terms self.now)) index ≡ Some (grouped result.now) }
    {
        match self {
            OrderedField::Plain(terms) => terms.hits_at(index),
            OrderedField::Json(terms) => terms.hits_at(index),
        }
    }
}

/// Orders the terms of a field by their bytes.
pub(crate) fn order_field(alloc: Global, terms: GatheredTerms) -> Result<OrderedField, AllocError>
    ensures { IfOk result (λ ordered. ordered_terms ordered ≡ entries (gathered terms).terms) }
{
    match terms {
        GatheredTerms::Plain(index) => Ok(OrderedField::Plain(order_terms(alloc, index)?)),
        GatheredTerms::Json(json) => {
            let JsonTerms { terms, starts: _ } = json;
            Ok(OrderedField::Json(order_path_terms(alloc, terms)?))
        }
    }
}

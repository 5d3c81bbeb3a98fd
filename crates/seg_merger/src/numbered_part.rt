//! Segments that are merged, with the new ids of their documents.
ghost use Rattle.std.specs.Prelude.{◌≡◌, ◌<◌, ◌+◌, ◌-◌, ◌^◌, min, IfOk, OnOk};
ghost use Rattle.std.specs.List.{AllByRecursion};
ghost use Rattle.seg_bits.specs.BitSets.{member_count};
ghost use Rattle.seg_merger.specs.JoinedTerms.{FieldsAreOpen, IsOpenAt, source_of};
ghost use Rattle.seg_merger.specs.JoinedTotals.{tokens_at};
ghost use Rattle.seg_open.specs.OpenSegment.{IsMarked, kept_count};
ghost use Rattle.seg_merger.specs.MovedPostings.{Ascend};
ghost use Rattle.seg_merger.specs.NewIds.{new_ids, numbered_from};

use crate::live_tokens::live_tokens;
use crate::new_ids::NewIds;
use crate::term_source::TermSource;
use seg_open::SegmentReader;
use seg_values::Field;
use std::alloc::{AllocError, Global};
use std::marker::Model;

/// A segment that is merged, and the new ids of its documents.
#[derive(Drop)]
pub(crate) struct NumberedPart<'a> {
    part: &'a SegmentReader,
    ids: NewIds,
}

impl<'a> Model for NumberedPart<'a> {
    ghost use Rattle.seg_merger.specs.NewIds.{NumberedSegment};

    ghost Value = { NumberedSegment };

    ghost view = { λ n. record { part = n.part.now; ids = n.ids } };
}

impl<'a> NumberedPart<'a> {
    /// Gives the kept documents their ids, from `first` on.
    fn new(
        alloc: Global,
        part: &'a SegmentReader,
        first: u32,
    ) -> Result<NumberedPart<'a>, AllocError>
        requires { first + member_count part.now.alive < 2 ^ 31 }
        ensures is { IfOk result (λ n. n ≡ record { part = part.now; ids = new_ids first part.now.alive }) }
        ensures marked { IsMarked part.now }
        ensures fields { FieldsAreOpen part.now }
    {
        part.documents_are_marked();
        part.indexed_fields_are_open();
        let ids = NewIds::new(alloc, part, first)?;
        Ok(NumberedPart { part, ids })
    }

    /// The terms of an indexed field, with the new ids.
    pub(crate) fn source(&self, field: Field) -> TermSource<'_>
        requires { IsOpenAt field self.now.part }
        ensures is { result ≡ source_of field self.now }
        ensures ascend { Ascend result.terms }
    {
        let Some(terms) = self.part.opened_field(field) else {
            unreachable!()
        };
        TermSource::new(terms, &self.ids)
    }

    /// The tokens of an indexed field in the documents that are alive, at most `u64::MAX`.
    pub(crate) fn tokens(&self, field: Field) -> u64
        requires { IsOpenAt field self.now.part }
        ensures { result ≡ min (2 ^ 64 - 1) (tokens_at field self.now.part) }
    {
        live_tokens(self.part, field)
    }
}

/// Segments that are merged, one after another.
#[derive(Drop)]
pub(crate) struct NumberedParts<'a> {
    parts: Vec<NumberedPart<'a>>,
}

impl<'a> Model for NumberedParts<'a> {
    ghost use Rattle.std.specs.Prelude.{List};
    ghost use Rattle.seg_merger.specs.NewIds.{NumberedSegment};

    ghost Value = { List NumberedSegment };

    ghost view = { λ n. n.parts.items };
}

impl<'a> NumberedParts<'a> {
    pub(crate) fn as_slice(&self) -> &[NumberedPart<'a>]
        ensures { result.now ≡ self.now }
    {
        &self.parts
    }
}

/// Gives the kept documents of segments their ids, one segment after another, from 0 on.
pub(crate) fn number_parts<'a>(
    alloc: Global,
    parts: &'a [SegmentReader],
) -> Result<NumberedParts<'a>, AllocError>
    requires few { kept_count parts.now < 2 ^ 31 }
    ensures numbered { IfOk result (λ ns. ns ≡ numbered_from 0 parts.now) }
    ensures marked { OnOk result (AllByRecursion IsMarked parts.now) }
    ensures fields { OnOk result (AllByRecursion FieldsAreOpen parts.now) }
{
    let mut numbered = Vec::new(alloc);
    let mut first = 0;
    for part in parts {
        numbered.push(NumberedPart::new(alloc, part, first)?)?;
        first += part.num_docs();
    }
    Ok(NumberedParts { parts: numbered })
}

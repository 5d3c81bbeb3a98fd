//! The terms of segments, joined.
ghost use Rattle.std.specs.Prelude.{◌≡◌, ◌<◌, ◌^◌, map, IfOk, IsSomeAnd};
ghost use Rattle.std.specs.List.{AllByRecursion};
ghost use Rattle.seg_merger.specs.JoinedTerms.{IsOpenAt, source_of};
ghost use Rattle.seg_merger.specs.JoinedTotals.{tokens_in};
ghost use Rattle.seg_merger.specs.JoinedSegment.{HoldJoined};
ghost use Rattle.seg_open.specs.OpenSegment.{IsOfSchema, kept_count};
ghost use Rattle.seg_merger.specs.MovedPostings.{Ascend};
ghost use Rattle.seg_merger.specs.NewIds.{parts_of};

use crate::numbered_part::{NumberedPart, NumberedParts, number_parts};
use crate::term_merge::write_terms;
use crate::term_source::TermSource;
use seg_open::SegmentReader;
use seg_postings::InvertedIndexSerializer;
use seg_segment::{TermWriter, TermsByField, write_fields};
use seg_values::{Field, Schema};
use std::alloc::{AllocError, Global};

/// The terms, postings and positions of segments that are joined. A term is written where a document that is alive has
/// it, and no more than one term of each segment is in memory at a time.
pub(crate) fn join_terms(
    alloc: Global,
    schema: &Schema,
    parts: &[SegmentReader],
) -> Result<InvertedIndexSerializer, AllocError>
    requires parts { AllByRecursion (IsOfSchema schema.now) parts.now }
    requires few { kept_count parts.now < 2 ^ 31 }
    ensures { IfOk result (λ files. IsSomeAnd files (HoldJoined schema.now parts.now)) }
{
    let numbered = number_parts(alloc, parts)?;
    write_fields(alloc, schema, &numbered)
}

impl<'a> TermsByField for NumberedParts<'a> {
    ghost use Rattle.seg_merger.specs.JoinedTerms.{AreJoined, CanJoin};
    ghost use Rattle.seg_merger.specs.JoinedTotals.{tokens_in};
    ghost use Rattle.seg_merger.specs.NewIds.{parts_of};

    ghost total = { λ parts field. tokens_in field (parts_of parts) };

    ghost has = { λ parts field terms. AreJoined parts field terms };

    ghost can_write = { λ parts field. CanJoin parts field };

    fn total_num_tokens(&self, _alloc: Global, field: Field) -> Result<u64, AllocError> {
        Ok(tokens_of(field, self.as_slice()))
    }

    fn write_terms(
        &self,
        alloc: Global,
        field: Field,
        writer: TermWriter,
    ) -> Result<TermWriter, AllocError> {
        let sources = sources_of(alloc, field, self.as_slice())?;
        let mut writer = writer;
        write_terms(alloc, &sources, &mut writer)?;
        Ok(writer)
    }
}

/// The terms of an indexed field in each of the segments.
fn sources_of<'a>(
    alloc: Global,
    field: Field,
    parts: &'a [NumberedPart<'_>],
) -> Result<Vec<TermSource<'a>>, AllocError>
    requires { AllByRecursion (IsOpenAt field) (parts_of parts.now) }
    ensures are { IfOk result (λ sources. sources.items ≡ map (source_of field) parts.now) }
    ensures ascend { IfOk result (λ sources. AllByRecursion (λ s. Ascend s.terms) sources.items) }
{
    let mut sources = Vec::new(alloc);
    for part in parts {
        sources.push(part.source(field))?;
    }
    Ok(sources)
}

/// The tokens of an indexed field in all documents that are alive, at most `u64::MAX`.
fn tokens_of(field: Field, parts: &[NumberedPart<'_>]) -> u64
    requires { AllByRecursion (IsOpenAt field) (parts_of parts.now) }
    ensures { result ≡ tokens_in field (parts_of parts.now) }
{
    let mut tokens = 0u64;
    for part in parts {
        tokens = tokens.saturating_add(part.tokens(field));
    }
    tokens
}

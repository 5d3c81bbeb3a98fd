//! The terms of a field in segments, merged key by key.
ghost use Rattle.std.specs.Prelude.{◌≡◌, ◌<◌, ◌++◌, ℕ, List, map, take, length, false, nat_lt, Some, None, All, IfOk, IfSome, IsSome, IsSomeAnd, IsTrue, OnOk};
ghost use Rattle.std.specs.FinMap.{entries};
ghost use Rattle.std.specs.List.{AllByRecursion};
ghost use Rattle.seg_common.specs.WriterGrowth.{HasGrown};
ghost use Rattle.seg_termdict.specs.MergedTerms.{merged_terms, standings_from};
ghost use Rattle.seg_postings.specs.FieldSerializers.{MayOpen};
ghost use Rattle.seg_postings.specs.OpenPostings.{kept_kind_of};
ghost use Rattle.seg_termdict.specs.MergedStreams.{info_of, stepped};
ghost use Rattle.seg_termdict.specs.TermStreams.{all_terms};
ghost use Rattle.seg_segment.specs.WrittenTerms.{IsUnwritten, MayTake, with_more, with_terms, with_whole_term};
ghost use Rattle.seg_merger.specs.MovedPostings.{moved, moved_from, moved_from_all, ranked_of, term_at, terms_of, under};
ghost use Rattle.seg_merger.specs.JoinedSources.{AreJoinable, IsJoinable, terms_joined};

use crate::term_source::TermSource;
use seg_common::TermInfo;
use seg_postings::{RecordKind, SegmentPostings};
use seg_segment::TermWriter;
use seg_termdict::{TermMerger, TermStreamer};
use seg_values::PostingsError;
use std::alloc::{AllocError, Global};

/// Writes the terms of a field in all of the segments, each with the postings of its kept documents.
pub(crate) fn write_terms(
    alloc: Global,
    sources: &[TermSource<'_>],
    writer: &mut TermWriter,
) -> Result<(), AllocError>
    requires joinable { AreJoinable sources.now }
    requires unwritten { IsSomeAnd writer.old IsUnwritten }
    ensures { OnOk result (HasGrown writer.old writer.new (with_terms (terms_joined sources.now))) }
{
    let mut merger = merge_terms(alloc, sources)?;
    let mut places = Vec::new(alloc);
    while advance(&mut merger)? {
        join_term(
            merger.key(),
            merger.current_segment_ords_and_term_infos(),
            sources,
            &mut places,
            writer,
        )?;
    }
    Ok(())
}

fn merge_terms<'a>(alloc: Global, sources: &[TermSource<'a>]) -> Result<TermMerger<'a>, AllocError>
    ensures { IfOk result (λ merger. merger
        ≡ Some (record { left = entries (merged_terms (map ranked_of sources.now)); current = None })) }
{
    let streams = streams_of(alloc, sources)?;
    match TermMerger::new(alloc, streams) {
        Ok(merger) => Ok(merger),
        Err(_) => Err(AllocError),
    }
}

fn streams_of<'a>(
    alloc: Global,
    sources: &[TermSource<'a>],
) -> Result<Vec<TermStreamer<'a>>, AllocError>
    ensures are { IfOk result (λ streams. streams.items ≡ map (λ s. all_terms (terms_of s)) sources.now) }
    ensures fresh { IfOk result (λ streams. All (λ s. s.taken ≡ 0) streams.items) }
    ensures forward { IfOk result (λ streams. All (λ s. s.backward ≡ false) streams.items) }
{
    let mut streams = Vec::new(alloc);
    for source in sources {
        streams.push(source.stream())?;
    }
    Ok(streams)
}

fn advance(merger: &mut TermMerger<'_>) -> Result<bool, AllocError>
    ensures ok { OnOk result (HasGrown merger.old merger.new stepped) }
    ensures more { IfOk result (λ more. IfSome merger.old (λ m. more ≡ nat_lt 0 (length m.left))) }
    ensures stands { IfOk result (λ more. IsTrue more → IsSomeAnd merger.new (λ m. IsSome m.current)) }
{
    match merger.advance() {
        Ok(more) => Ok(more),
        Err(_) => Err(AllocError),
    }
}

/// Joins a term that is in some of the segments. `places` is room for the positions of a document.
fn join_term(
    key: &[u8],
    standings: &[(usize, TermInfo)],
    sources: &[TermSource<'_>],
    places: &mut Vec<u32>,
    writer: &mut TermWriter,
) -> Result<(), AllocError>
    requires joinable { AreJoinable sources.now }
    requires standings { standings.now ≡ map info_of (standings_from 0 key.now (map ranked_of sources.now)) }
    requires opens { IsSomeAnd writer.old (λ w. MayOpen w key.now) }
    ensures { OnOk result
        (HasGrown writer.old writer.new (with_whole_term key.now (moved_from_all key.now sources.now))) }
{
    for (segment, info) in standings {
        add_postings(key, &sources[*segment], info, places, writer)?;
    }
    writer.end_term()
}

/// Adds the postings that a term has in a segment.
fn add_postings(
    key: &[u8],
    source: &TermSource<'_>,
    info: &TermInfo,
    places: &mut Vec<u32>,
    writer: &mut TermWriter,
) -> Result<(), AllocError>
    requires joinable { IsJoinable source.now }
    requires has { IsSomeAnd (term_at key.now source.now.terms) (λ t. t.info ≡ info.now) }
    requires takes { IsSomeAnd writer.old (MayTake key.now (moved_from key.now source.now)) }
    ensures { OnOk result (HasGrown writer.old writer.new (with_more key.now (moved_from key.now source.now))) }
{
    let mut postings = source.postings(info);
    while let Some(kind) = postings.record_kind() {
        add_current(key, kind, source, &postings, places, writer)?;
        postings.advance();
    }
    Ok(())
}

/// Adds the current one of some postings, where its document is kept.
fn add_current(
    key: &[u8],
    kind: RecordKind,
    source: &TermSource<'_>,
    postings: &SegmentPostings<'_>,
    places: &mut Vec<u32>,
    writer: &mut TermWriter,
) -> Result<(), AllocError>
    requires kind { kept_kind_of postings.now.left ≡ Some kind }
    requires within { AllByRecursion (λ p. p.document < length source.now.ids) postings.now.left }
    requires takes { IsSomeAnd writer.old (MayTake key.now (moved source.now.ids (take 1 postings.now.left))) }
    ensures { OnOk result
        (HasGrown writer.old writer.new (with_more key.now (moved source.now.ids (take 1 postings.now.left)))) }
{
    match source.new_id(postings.doc()) {
        Some(id) => add_posting(key, kind, id, postings, places, writer),
        None => Ok(()),
    }
}

/// Adds the current one of some postings to a term, under a new id.
fn add_posting(
    key: &[u8],
    kind: RecordKind,
    id: u32,
    postings: &SegmentPostings<'_>,
    places: &mut Vec<u32>,
    writer: &mut TermWriter,
) -> Result<(), AllocError>
    requires kind { kept_kind_of postings.now.left ≡ Some kind }
    requires takes { IsSomeAnd writer.old (MayTake key.now (map (under id) (take 1 postings.now.left))) }
    ensures { OnOk result
        (HasGrown writer.old writer.new (with_more key.now (map (under id) (take 1 postings.now.left)))) }
{
    let Ok(()) = postings.positions(places) else {
        return Err(AllocError);
    };
    writer.add_document(key, kind, id, postings.term_freq(), places)
}

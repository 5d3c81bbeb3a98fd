//! The terms of a field, written as it records them.
ghost use Rattle.std.specs.Prelude.{◌≡◌, ◌++◌, [], ◌∷◌, Some, map, IsSomeAnd, OnOk};
ghost use Rattle.seg_common.specs.WriterGrowth.{HasGrown};
ghost use Rattle.seg_postings.specs.FieldSerializers.{MayOpen};
ghost use Rattle.seg_postings.specs.OpenPostings.{count_of, places_of};
ghost use Rattle.seg_postings.specs.WritablePostings.{AreWritable, IsOfKind};
ghost use Rattle.seg_segment.specs.WrittenTerms.{IsUnwritten, MayTake, with_more, with_terms, with_whole_term};
ghost use Rattle.seg_build.specs.FieldTerms.{postings_as};
ghost use Rattle.seg_terms.specs.PostingGroups.{grouped};
ghost use Rattle.seg_build.specs.WrittenTerms.{all_written, kept_hits};
ghost use Rattle.seg_build.specs.WritableTerms.{CanBeWritten};

use crate::sorted_terms::SortedTerms;
use seg_postings::RecordKind;
use seg_segment::TermWriter;
use seg_terms::{Hit, first_run};
use seg_values::PostingsError;
use std::alloc::{AllocError, Global};

/// Writes all terms of a field, of which nothing was written. After an error the field is given up.
pub(crate) fn write_terms(
    alloc: Global,
    terms: &SortedTerms,
    writer: &mut TermWriter,
) -> Result<(), AllocError>
    requires writable { CanBeWritten terms.now }
    requires unwritten { IsSomeAnd writer.old IsUnwritten }
    ensures { OnOk result (HasGrown writer.old writer.new (with_terms (all_written (Some terms.now)))) }
{
    let mut bytes = Vec::new(alloc);
    let mut places = Vec::new(alloc);
    for at in 0..terms.len() {
        terms.copy_bytes_at(alloc, at, &mut bytes)?;
        let kind = terms.kind_of(&bytes);
        write_term(kind, &bytes, terms.hits_at(at), &mut places, writer)?;
    }
    Ok(())
}

/// Writes a term, which is greater than those before it: a document for each run of its hits. `places` is room for the
/// positions of a document.
fn write_term(
    kind: RecordKind,
    bytes: &[u8],
    hits: &[Hit],
    places: &mut Vec<u32>,
    writer: &mut TermWriter,
) -> Result<(), AllocError>
    requires opens { IsSomeAnd writer.old (λ w. MayOpen w bytes.now) }
    requires writable { AreWritable kind 0 0 (postings_as kind (grouped hits.now)) }
    ensures { OnOk result
        (HasGrown writer.old writer.new (with_whole_term bytes.now (postings_as kind (grouped hits.now)))) }
{
    let mut rest = hits;
    while !rest.is_empty() {
        let (run, others) = rest.split_at(first_run(rest));
        write_run(kind, bytes, rest[0].document, run, places, writer)?;
        rest = others;
    }
    writer.end_term()
}

/// Gives a term a document, in which it has these hits: alone, with their count, or with their positions.
fn write_run(
    kind: RecordKind,
    bytes: &[u8],
    document: u32,
    run: &[Hit],
    places: &mut Vec<u32>,
    writer: &mut TermWriter,
) -> Result<(), AllocError>
    requires kept { IsOfKind kind (kept_hits kind run.now) }
    requires takes { IsSomeAnd writer.old
        (MayTake bytes.now (record { document = document; recorded = kept_hits kind run.now } ∷ [])) }
    ensures { OnOk result (HasGrown writer.old writer.new
        (with_more bytes.now (record { document = document; recorded = kept_hits kind run.now } ∷ []))) }
{
    set_places(kind, places, run)?;
    writer.add_document(bytes, kind, document, kept_count(kind, run), places)
}

/// How many hits there are, as far as the kind keeps that; else 1.
fn kept_count(kind: RecordKind, hits: &[Hit]) -> u32
    requires { IsOfKind kind (kept_hits kind hits.now) }
    ensures { result ≡ count_of (kept_hits kind hits.now) }
{
    match kind {
        RecordKind::Documents => 1,
        RecordKind::Counts => hits.len() as u32,
        RecordKind::Positions => hits.len() as u32,
    }
}

/// Replaces the places by the positions of the hits, where the kind keeps them, and else by none.
fn set_places(kind: RecordKind, places: &mut Vec<u32>, hits: &[Hit]) -> Result<(), AllocError>
    ensures { OnOk result (places.new.items ≡ places_of (kept_hits kind hits.now)) }
{
    places.clear();
    match kind {
        RecordKind::Positions => push_places(places, hits),
        _ => Ok(()),
    }
}

/// Adds the positions of the hits.
fn push_places(places: &mut Vec<u32>, hits: &[Hit]) -> Result<(), AllocError>
    ensures { OnOk result (places.new.items ≡ places.old.items ++ map (λ h. h.position) hits.now) }
{
    for hit in hits {
        places.push(hit.position)?;
    }
    Ok(())
}

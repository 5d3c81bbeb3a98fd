//! The segments of indices, and their settings.
ghost use Rattle.std.specs.Prelude.{◌≡◌, ◌++◌, IfOk, MatchBool, OnOk};
ghost use Rattle.std.specs.List.{AllByRecursion};
ghost use Rattle.seg_index_build.specs.MergedIndices.{all_segments, listed_segments, unfiltered};

use seg_bits::AliveBitSet;
use seg_meta::{Index, IndexSettings, Segment};
use std::alloc::{AllocError, Global};

/// Whether all indices have these settings.
pub(crate) fn have_settings(indices: &[Index], settings: &IndexSettings) -> bool
    ensures { MatchBool result (AllByRecursion (λ i. i.index_settings ≡ settings.now) indices.now)
        (AllByRecursion (λ i. i.index_settings ≡ settings.now) indices.now → ⊥) }
{
    for index in indices {
        if *index.settings() != *settings {
            return false;
        }
    }
    true
}

/// The segments of all indices, one index after another.
pub(crate) fn all_segments(alloc: Global, indices: &[Index]) -> Result<Vec<Segment>, AllocError>
    ensures { IfOk result (λ segments. segments.items ≡ all_segments indices.now) }
{
    let mut segments = Vec::new(alloc);
    for index in indices {
        push_segments(index, &mut segments)?;
    }
    Ok(segments)
}

fn push_segments(index: &Index, segments: &mut Vec<Segment>) -> Result<(), AllocError>
    ensures { OnOk result (segments.new.items ≡ segments.old.items ++ listed_segments index.now) }
{
    for meta in index.metas().segments.as_slice() {
        segments.push(Segment::new(index.schema().share(), *meta))?;
    }
    Ok(())
}

/// No filter for any of these segments.
pub(crate) fn no_filters(
    alloc: Global,
    segments: &[Segment],
) -> Result<Vec<Option<AliveBitSet>>, AllocError>
    ensures { IfOk result (λ filters. filters.items ≡ unfiltered segments.now) }
{
    let mut filters = Vec::new(alloc);
    for _segment in segments {
        filters.push(None)?;
    }
    Ok(filters)
}

//! The readers of the segments of indices, each index read from its own directory.
ghost use Rattle.std.specs.Prelude.{◌≡◌, ◌++◌, map, length, OnOk};
ghost use Rattle.seg_open.specs.Answers.{seen_as};
ghost use Rattle.seg_open.specs.OpeningSteps.{OpensSegments};
ghost use Rattle.seg_index_build.specs.MergedIndices.{asked_of_index};
ghost use Rattle.seg_index_build.specs.Sources.{OpensMore, OpensSources};

use crate::live_segments;
use crate::source_segments::no_filters;
use seg_directory::Directory;
use seg_meta::Index;
use seg_open::{SegmentReader, open_segments};
use seg_values::{TResult, TantivyError};
use std::alloc::{AllocError, Global};

/// Opens the segments of all indices that have a live document, one index after another. The first that is not opened
/// ends it.
pub(crate) fn open_indices<W: Directory>(
    alloc: Global,
    indices: &[Index],
    sources: &mut [W],
) -> TResult<Vec<SegmentReader>>
    requires many { length sources.old ≡ length indices.now }
    ensures { OpensSources (map asked_of_index indices.now) (seen_as (λ readers. readers.items) result)
        (map W.state sources.old) (map W.state sources.new) }
{
    let mut readers = Vec::new(alloc);
    for (at, index) in indices.iter().enumerate() {
        match open_more(alloc, index, &mut sources[at], &mut readers) {
            Ok(()) => {}
            Err(e) => return Err(e),
        }
    }
    Ok(readers)
}

/// Opens those of one more index.
fn open_more<W: Directory>(
    alloc: Global,
    index: &Index,
    source: &mut W,
    readers: &mut Vec<SegmentReader>,
) -> TResult<()>
    ensures { OpensMore (asked_of_index index.now) result readers.old.items readers.new.items
        (W.state source.old) (W.state source.new) }
{
    let opened = match open_index(alloc, index, source) {
        Ok(opened) => opened,
        Err(e) => return Err(e),
    };
    match append(readers, opened) {
        Ok(()) => Ok(()),
        Err(_) => Err(TantivyError::OutOfMemory),
    }
}

fn open_index<W: Directory>(
    alloc: Global,
    index: &Index,
    source: &mut W,
) -> TResult<Vec<SegmentReader>>
    ensures { OpensSegments (asked_of_index index.now) (seen_as (λ opened. opened.items) result)
        (W.state source.old) (W.state source.new) }
{
    let Ok(segments) = index.searchable_segments(alloc) else {
        return Err(TantivyError::OutOfMemory);
    };
    let Ok(live) = live_segments(alloc, &segments) else {
        return Err(TantivyError::OutOfMemory);
    };
    let Ok(filters) = no_filters(alloc, &live) else {
        return Err(TantivyError::OutOfMemory);
    };
    open_segments(alloc, &live, &filters, source)
}

/// Puts readers after others.
fn append(readers: &mut Vec<SegmentReader>, more: Vec<SegmentReader>) -> Result<(), AllocError>
    ensures { OnOk result (readers.new.items ≡ readers.old.items ++ more.items) }
{
    for reader in more {
        readers.push(reader)?;
    }
    Ok(())
}

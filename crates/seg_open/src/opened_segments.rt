//! Segments that are opened one after another.
ghost use Rattle.std.specs.Prelude.{◌≡◌, ◌++◌, ◌∷◌, [], ◌<◌, length, Some, IfOk, IfSome, vec_len, vec_capacity};
ghost use Rattle.seg_open.specs.Answers.{seen_as};
ghost use Rattle.seg_open.specs.OpeningSteps.{FiltersFit, OpensNext, OpensSegments, asked_of};

use crate::segment_reader::SegmentReader;
use seg_bits::AliveBitSet;
use seg_directory::Directory;
use seg_meta::Segment;
use seg_values::{TResult, TantivyError};
use std::alloc::{AllocError, Global};

/// Opens segments one after another, each with its custom set where one is given: as
/// `SegmentReader::open_with_custom_alive_set`. The first that is not opened ends it.
pub fn open_segments<W: Directory>(
    alloc: Global,
    segments: &[Segment],
    filters: &[Option<AliveBitSet>],
    directory: &mut W,
) -> TResult<Vec<SegmentReader>>
    requires fit { FiltersFit filters.now segments.now }
    ensures { OpensSegments (asked_of segments.now filters.now) (seen_as (λ opened. opened.items) result)
        (W.state directory.old) (W.state directory.new) }
{
    let mut opened = Vec::new(alloc);
    for (at, segment) in segments.iter().enumerate() {
        match open_next(alloc, segment, &filters[at], directory, &mut opened) {
            Ok(()) => {}
            Err(e) => return Err(e),
        }
    }
    Ok(opened)
}

/// Opens one more segment. Room for it is taken first, so that memory does not run out once it is open.
fn open_next<W: Directory>(
    alloc: Global,
    segment: &Segment,
    filter: &Option<AliveBitSet>,
    directory: &mut W,
    opened: &mut Vec<SegmentReader>,
) -> TResult<()>
    requires fits { IfSome filter.now (λ f. length f ≡ segment.now.meta.documents) }
    ensures { OpensNext (record { segment = segment.now; custom = filter.now }) result opened.old.items opened.new.items
        (W.state directory.old) (W.state directory.new) }
{
    let Ok(()) = opened.reserve(1) else {
        return Err(TantivyError::OutOfMemory);
    };
    let Ok(custom) = copy_of(filter) else {
        return Err(TantivyError::OutOfMemory);
    };
    match SegmentReader::open_with_custom_alive_set(alloc, segment, custom, directory) {
        Ok(next) => {
            keep(next, opened);
            Ok(())
        }
        Err(e) => Err(e),
    }
}

/// The same set again, where there is one.
fn copy_of(filter: &Option<AliveBitSet>) -> Result<Option<AliveBitSet>, AllocError>
    ensures { IfOk result (λ copy. copy ≡ filter.now) }
{
    let Some(set) = filter else {
        return Ok(None);
    };
    let copy = set.clone()?;
    Ok(Some(copy))
}

/// Puts a segment at the end, where there is room.
fn keep(segment: SegmentReader, opened: &mut Vec<SegmentReader>)
    requires { vec_len opened.old < vec_capacity opened.old }
    ensures { opened.new.items ≡ opened.old.items ++ segment ∷ [] }
{
    if opened.push(segment).is_err() {
        unreachable!()
    }
}

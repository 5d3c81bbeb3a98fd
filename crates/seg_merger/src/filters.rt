//! Filters of segments: which documents of each are kept.
ghost use Rattle.std.specs.Prelude.{◌≡◌, replicate, None, IfOk};
ghost use Rattle.seg_merger.specs.Merger.{all_fit, fits};

use seg_bits::AliveBitSet;
use seg_meta::Segment;
use std::alloc::{AllocError, Global};

/// No filter, this many times.
pub(crate) fn no_filters(
    alloc: Global,
    count: usize,
) -> Result<Vec<Option<AliveBitSet>>, AllocError>
    ensures { IfOk result (λ filters. filters.items ≡ replicate count None) }
{
    let mut filters = Vec::new(alloc);
    for _at in 0..count {
        filters.push(None)?;
    }
    Ok(filters)
}

/// Whether there is one filter, or none, for each segment, and each is of as many documents as its segment has.
pub fn filters_fit(segments: &[Segment], filters: &[Option<AliveBitSet>]) -> bool
    ensures { result ≡ all_fit filters.now segments.now }
{
    if filters.len() != segments.len() {
        return false;
    }
    for (at, segment) in segments.iter().enumerate() {
        if !filter_fits(segment, &filters[at]) {
            return false;
        }
    }
    true
}

/// Whether a filter, where there is one, is of as many documents as its segment has.
fn filter_fits(segment: &Segment, filter: &Option<AliveBitSet>) -> bool
    ensures { result ≡ fits filter.now segment.now }
{
    match filter {
        Some(filter) => filter.bitset().max_value() == segment.meta().max_doc(),
        None => true,
    }
}

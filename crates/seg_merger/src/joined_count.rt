//! How many documents segments have, joined.
ghost use Rattle.std.specs.Prelude.{◌≡◌, ◌≤◌, ◌<◌, ◌^◌, length, OnSome, MatchOption};
ghost use Rattle.std.specs.List.{AllByRecursion};
ghost use Rattle.seg_merger.specs.JoinedStore.{joined_documents};
ghost use Rattle.seg_open.specs.OpenSegment.{IsMarked, IsOfSchema, kept_count};

use seg_open::SegmentReader;
use seg_segment::MAX_DOCUMENTS;

/// How many documents of segments are alive in all; `None` where one segment can't have as many, 2^31 or more.
pub(crate) fn num_joined_docs(parts: &[SegmentReader]) -> Option<u32>
    ensures counted { MatchOption result (2 ^ 31 ≤ kept_count parts.now)
        (λ n. (n ≡ kept_count parts.now) × (n < 2 ^ 31)) }
    ensures stored { length (joined_documents parts.now) ≤ kept_count parts.now }
    ensures marked { OnSome result (AllByRecursion IsMarked parts.now) }
    ensures shape { OnSome result (AllByRecursion (λ s. IsOfSchema s.schema s) parts.now) }
{
    let mut count = 0;
    for part in parts {
        part.documents_are_marked();
        part.contents_have_full_shape();
        part.stored_pairs_are_of_schema();
        let live = part.num_docs() as usize;
        if live > MAX_DOCUMENTS - count {
            return None;
        }
        count += live;
    }
    Some(count as u32)
}

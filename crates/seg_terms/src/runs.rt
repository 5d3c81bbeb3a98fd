//! The postings of a term, one after another.
ghost use Rattle.std.specs.Prelude.{◌≡◌, ◌<◌, length};
ghost use Rattle.seg_terms.specs.PostingGroups.{grouped};
ghost use Rattle.seg_terms.specs.OccurrenceRuns.{IsFirstRun};

use crate::hit::Hit;

/// How many occurrences are in the first one's document: those make the first posting.
pub fn first_run(hits: &[Hit]) -> usize
    requires { 0 < length hits.now }
    ensures { IsFirstRun hits.now result }
{
    let document = hits[0].document;
    for (i, hit) in hits.iter().enumerate() {
        if hit.document != document {
            return i;
        }
    }
    hits.len()
}

/// How many postings the occurrences make: in how many documents the term occurs.
pub fn posting_count(hits: &[Hit]) -> usize
    ensures { result ≡ length (grouped hits.now) }
{
    let mut count = 0;
    let mut rest = hits;
    while !rest.is_empty() {
        let (_, others) = rest.split_at(first_run(rest));
        rest = others;
        count += 1;
    }
    count
}

//! How many tokens a field has in the documents that are alive.
ghost use Rattle.std.specs.Prelude.{◌≡◌, ◌≤◌, ◌<◌, ◌*◌, ◌/◌, ◌-◌, ◌^◌, true, map, min, sum, length, take, drop};
ghost use Rattle.std.specs.List.{slice_get};
ghost use Rattle.seg_model.specs.Contents.{norms_at};
ghost use Rattle.seg_model.specs.Norms.{length_of_id};
ghost use Rattle.seg_model.specs.Operations.{kept};
ghost use Rattle.seg_open.specs.OpenSegment.{contents_of};
ghost use Rattle.seg_merger.specs.JoinedTerms.{IsOpenAt};
ghost use Rattle.seg_merger.specs.JoinedTotals.{have_lengths, tokens_at, total_read};

use seg_norms::FieldNormReader;
use seg_open::SegmentReader;
use seg_values::{Field, Schema};

/// The tokens of an indexed field in the documents of a segment that are alive: the total that the segment tells, where
/// all are. Else, where the field has lengths, the sum of those that the ids of these documents stand for; and where it
/// has none, as large a part of the total as is alive of the documents, rounded down. At most `u64::MAX`. (As tantivy
/// does it, in `indexer/merger.rs`.)
pub(crate) fn live_tokens(part: &SegmentReader, field: Field) -> u64
    requires { IsOpenAt field part.now }
    ensures { result ≡ min (2 ^ 64 - 1) (tokens_at field part.now) }
{
    part.documents_are_marked();
    let total = stored_total(part, field);
    if !part.has_deletes() {
        return total;
    }
    if has_lengths(part.schema(), field) {
        return live_lengths(part, field);
    }
    live_share(total, part.num_docs(), part.max_doc())
}

/// The total that a segment tells of an indexed field.
fn stored_total(part: &SegmentReader, field: Field) -> u64
    requires { IsOpenAt field part.now }
    ensures { result ≡ total_read (slice_get part.now.fields field) }
{
    let Some(terms) = part.opened_field(field) else {
        unreachable!()
    };
    terms.total_num_tokens()
}

/// Whether a field of a schema has lengths.
fn has_lengths(schema: &Schema, field: Field) -> bool
    ensures { result ≡ have_lengths (slice_get schema.now field) }
{
    match schema.fields().get(field.field_id() as usize) {
        Some(entry) => entry.has_field_norms(),
        None => false,
    }
}

/// The sum of the lengths of a field in the documents that are alive.
fn live_lengths(part: &SegmentReader, field: Field) -> u64
    requires { have_lengths (slice_get part.now.schema field) ≡ true }
    ensures { result ≡ min (2 ^ 64 - 1)
        (sum (map length_of_id (kept part.now.alive (norms_at (contents_of part.now) field)))) }
{
    part.contents_have_full_shape();
    match part.fieldnorms_readers().get_field(field) {
        Some(norms) => sum_of_lengths(part, &norms),
        None => 0,
    }
}

/// The sum of the lengths of the documents that are alive.
fn sum_of_lengths(part: &SegmentReader, norms: &FieldNormReader) -> u64
    requires { length norms.now ≡ part.now.documents }
    ensures { result ≡ min (2 ^ 64 - 1) (sum (map length_of_id (kept part.now.alive norms.now))) }
{
    let mut tokens = 0u64;
    for doc in 0..part.max_doc() {
        tokens = tokens.saturating_add(u64::from(live_length(part, norms, doc)));
    }
    tokens
}

/// The length of a document, where it is alive, and else 0.
fn live_length(part: &SegmentReader, norms: &FieldNormReader, doc: u32) -> u32
    requires { doc < length norms.now }
    ensures { result ≡ sum (map length_of_id (kept (take 1 (drop doc part.now.alive)) (take 1 (drop doc norms.now)))) }
{
    if !part.is_alive(doc) {
        return 0;
    }
    norms.fieldnorm(doc)
}

/// As large a part of a total as is alive of this many documents, rounded down.
fn live_share(total: u64, live: u32, max_doc: u32) -> u64
    requires some { 1 ≤ max_doc }
    requires within { live ≤ max_doc }
    ensures { result ≡ min (2 ^ 64 - 1) (total * live / max_doc) }
{
    (u128::from(total) * u128::from(live) / u128::from(max_doc)) as u64
}

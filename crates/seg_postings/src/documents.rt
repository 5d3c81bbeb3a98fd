//! Documents at the front of the postings of a term, and positions at the front of its positions: each call takes or
//! passes them, or answers that they aren't there.
//!
//! Where they aren't, some of the bytes may be gone.
ghost use Rattle.std.specs.Prelude.{◌≡◌, ◌-◌, ◌^◌, ◌<◌, ◌≤◌, None, Some, IfSome, MatchOption};
ghost use Rattle.seg_common.specs.Varint.{varint_at};
ghost use Rattle.seg_postings.specs.PassedBytes.{Passes};
ghost use Rattle.seg_postings.specs.Postings.{number_at, count_at, positions_at};
ghost use Rattle.seg_postings.specs.RemainingPostings.{counted_at, recorded_at};

use crate::record_kind::RecordKind;
use seg_common::VInt;

/// No document has this id or a greater one.
pub const TERMINATED: u32 = u32::MAX;

/// A document, and how often a term occurs in it: 1 where that isn't kept.
#[derive(Clone, Copy)]
pub(crate) struct CountedDocument {
    pub document: u32,
    pub count: u32,
}

/// Takes a varint from `least` on and below `limit`.
pub(crate) fn take_number(bytes: &mut &[u8], least: u64, limit: u64) -> Option<u64>
    ensures read { MatchOption result (number_at least limit bytes.old.now ≡ None)
        (λ n. number_at least limit bytes.old.now ≡ Some (n, bytes.new.now)) }
    ensures bounds { IfSome result (λ n. (least ≤ n) × (n < limit)) }
{
    let Ok(number) = VInt::deserialize_u64(bytes) else {
        return None;
    };
    if number < least {
        return None;
    }
    if number >= limit {
        return None;
    }
    Some(number)
}

/// Takes the count of a document, where the kind keeps it.
fn take_count(bytes: &mut &[u8], kind: RecordKind) -> Option<u32>
    ensures { MatchOption result (count_at kind bytes.old.now ≡ None)
        (λ n. count_at kind bytes.old.now ≡ Some (n, bytes.new.now)) }
{
    match kind {
        RecordKind::Documents => Some(1),
        RecordKind::Counts => take_positive(bytes),
        RecordKind::Positions => take_positive(bytes),
    }
}

/// Takes a varint that is a u32, and not 0.
fn take_positive(bytes: &mut &[u8]) -> Option<u32>
    ensures { MatchOption result (number_at 1 (2 ^ 32) bytes.old.now ≡ None)
        (λ n. number_at 1 (2 ^ 32) bytes.old.now ≡ Some (n, bytes.new.now)) }
{
    let number = take_number(bytes, 1, 0x1_0000_0000)?;
    Some(number as u32)
}

/// Takes a document, which is written as its difference from the one before, with its count.
#[tactic(auto, unfolding(crate::specs::RemainingPostings::counted_at))]
pub(crate) fn take_document(
    bytes: &mut &[u8],
    kind: RecordKind,
    before: u32,
    least: u32,
) -> Option<CountedDocument>
    ensures read { MatchOption result (counted_at kind before least bytes.old.now ≡ None)
        (λ d. counted_at kind before least bytes.old.now ≡ Some (d.document, d.count, bytes.new.now)) }
    ensures limit { IfSome result (λ d. d.document < 2 ^ 32 - 1) }
{
    let limit = u64::from(TERMINATED) - u64::from(before);
    let difference = take_number(bytes, u64::from(least), limit)?;
    let count = take_count(bytes, kind)?;
    Some(CountedDocument {
        document: before + difference as u32,
        count,
    })
}

/// Passes this many positions.
fn pass_positions(bytes: &mut &[u8], count: u32) -> Option<()>
    ensures { Passes (positions_at count 0) bytes.old.now bytes.new.now result }
{
    let mut before = 0u64;
    for _ in 0..count {
        let difference = take_number(bytes, 0, 0x1_0000_0000 - before)?;
        before += difference;
    }
    Some(())
}

/// Passes the positions of a document, where the kind keeps them.
pub(crate) fn pass_recorded(bytes: &mut &[u8], kind: RecordKind, count: u32) -> Option<()>
    ensures { Passes (recorded_at kind count) bytes.old.now bytes.new.now result }
{
    match kind {
        RecordKind::Documents => Some(()),
        RecordKind::Counts => Some(()),
        RecordKind::Positions => pass_positions(bytes, count),
    }
}

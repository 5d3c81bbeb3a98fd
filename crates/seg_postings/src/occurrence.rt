//! The bytes of one document of a term.
ghost use Rattle.std.specs.Prelude.{◌≡◌, ◌++◌, length, take, OnOk, OnErr};
ghost use Rattle.std.specs.List.{flat_map};
ghost use Rattle.seg_common.specs.Varint.{varint};
ghost use Rattle.seg_postings.specs.FieldParts.{kept_count, occurrence_form};
ghost use Rattle.seg_postings.specs.PostingsBytes.{differences};
ghost use Rattle.seg_postings.specs.WritablePostings.{Rise};

use crate::record_kind::RecordKind;
use seg_common::VInt;
use std::alloc::AllocError;

/// Adds a document, as its difference from the one before, with its count, to the postings, and its positions, each as
/// its difference from the one before, to the positions.
pub(crate) fn put_occurrence(
    postings: &mut Vec<u8>,
    positions: &mut Vec<u8>,
    kind: RecordKind,
    gap: u32,
    count: u32,
    places: &[u32],
) -> Result<(), AllocError>
    requires { Rise 0 places.now }
    ensures postings { OnOk result (postings.new.items ≡ postings.old.items ++ occurrence_form kind gap count) }
    ensures positions { OnOk result (positions.new.items
        ≡ positions.old.items ++ flat_map varint (differences 0 places.now)) }
    ensures err { OnErr result ((postings.new.items ≡ postings.old.items)
        × (positions.new.items ≡ positions.old.items)) }
{
    let before = positions.len();
    if put_gaps(positions, places).is_ok() && put_document(postings, kind, gap, count).is_ok() {
        return Ok(());
    }
    positions.truncate(before);
    Err(AllocError)
}

fn put_document(
    postings: &mut Vec<u8>,
    kind: RecordKind,
    gap: u32,
    count: u32,
) -> Result<(), AllocError>
    ensures ok { OnOk result (postings.new.items ≡ postings.old.items ++ occurrence_form kind gap count) }
    ensures err { OnErr result (postings.new.items ≡ postings.old.items) }
{
    let before = postings.len();
    if put_number(postings, gap).is_ok() && put_count(postings, kind, count).is_ok() {
        return Ok(());
    }
    postings.truncate(before);
    Err(AllocError)
}

fn put_count(postings: &mut Vec<u8>, kind: RecordKind, count: u32) -> Result<(), AllocError>
    ensures ok { OnOk result (postings.new.items ≡ postings.old.items ++ kept_count kind count) }
    ensures begins { take (length postings.old.items) postings.new.items ≡ postings.old.items }
{
    match kind {
        RecordKind::Documents => Ok(()),
        RecordKind::Counts => put_number(postings, count),
        RecordKind::Positions => put_number(postings, count),
    }
}

/// Adds positions, each as its difference from the one before, the first from 0.
fn put_gaps(positions: &mut Vec<u8>, places: &[u32]) -> Result<(), AllocError>
    requires { Rise 0 places.now }
    ensures ok { OnOk result (positions.new.items ≡ positions.old.items ++ flat_map varint (differences 0 places.now)) }
    ensures begins { take (length positions.old.items) positions.new.items ≡ positions.old.items }
{
    let mut before = 0;
    for place in places {
        put_number(positions, *place - before)?;
        before = *place;
    }
    Ok(())
}

fn put_number(out: &mut Vec<u8>, number: u32) -> Result<(), AllocError>
    ensures ok { OnOk result (out.new.items ≡ out.old.items ++ varint number) }
    ensures err { OnErr result (out.new.items ≡ out.old.items) }
{
    match VInt(u64::from(number)).serialize_into_vec(out) {
        Ok(()) => Ok(()),
        Err(_) => Err(AllocError),
    }
}

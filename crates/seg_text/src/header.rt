//! The first lines of a segment.
ghost use Rattle.std.specs.Prelude.{◌≡◌, ◌<◌, ◌++◌, ◌∷◌, [], drop, take, length, OnOk};
ghost use Rattle.std.specs.List.{flat_map};
ghost use Rattle.seg_common.specs.SegmentIds.{id_text};
ghost use Rattle.seg_text.specs.HeaderText.{dead_from, dead_text, header_text, id_word};

use crate::decimal::push_decimal;
use seg_bits::AliveBitSet;
use seg_common::SegmentId;
use std::alloc::AllocError;

/// The first line of a segment of this many documents, of which this many are alive.
/// After an error it is open what `out` holds.
pub fn push_header(
    out: &mut Vec<u8>,
    label: &str,
    id: SegmentId,
    documents: usize,
    alive: usize,
) -> Result<(), AllocError>
    ensures { OnOk result (out.new.items ≡ out.old.items ++ header_text label.now id documents alive) }
{
    out.extend_from_slice(label.as_bytes())?;
    out.push(b' ')?;
    push_id(out, id)?;
    out.extend_from_slice(b" docs ")?;
    push_decimal(out, documents as u64)?;
    out.extend_from_slice(b" alive ")?;
    push_decimal(out, alive as u64)?;
    out.push(b'\n')?;
    Ok(())
}

/// The digits of an id.
fn push_id(out: &mut Vec<u8>, id: SegmentId) -> Result<(), AllocError>
    ensures { OnOk result (out.new.items ≡ out.old.items ++ id_text id) }
{
    let mut digits = [0u8; 32];
    out.extend_from_slice(id.encode_uuid(&mut digits).as_bytes())?;
    Ok(())
}

/// The line of the deleted documents; none where all are alive.
/// After an error it is open what `out` holds.
pub fn push_dead(out: &mut Vec<u8>, alive: &AliveBitSet) -> Result<(), AllocError>
    ensures { OnOk result (out.new.items ≡ out.old.items ++ dead_text alive.now) }
{
    let documents = alive.bitset().max_value();
    if alive.num_alive_docs() == documents as usize {
        return Ok(());
    }
    out.extend_from_slice(b"dead")?;
    push_dead_ids(out, alive, documents)?;
    out.push(b'\n')?;
    Ok(())
}

/// The id of each deleted document, after a space.
fn push_dead_ids(out: &mut Vec<u8>, alive: &AliveBitSet, documents: u32) -> Result<(), AllocError>
    requires { length alive.now ≡ documents }
    ensures { OnOk result (out.new.items ≡ out.old.items ++ flat_map id_word (dead_from 0 alive.now)) }
{
    for doc in 0..documents {
        push_if_dead(out, alive, doc)?;
    }
    Ok(())
}

/// The id of a document after a space, where it is deleted.
fn push_if_dead(out: &mut Vec<u8>, alive: &AliveBitSet, doc: u32) -> Result<(), AllocError>
    requires { doc < length alive.now }
    ensures { OnOk result (out.new.items
        ≡ out.old.items ++ flat_map id_word (dead_from doc (take 1 (drop doc alive.now)))) }
{
    if alive.is_deleted(doc) {
        out.push(b' ')?;
        push_decimal(out, u64::from(doc))?;
    }
    Ok(())
}

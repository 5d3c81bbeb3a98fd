//! The lines of a summary. After an error it is open what `out` holds.
ghost use Rattle.std.specs.Prelude.{◌≡◌, ◌++◌, decimal, OnOk};
ghost use Rattle.seg_common.specs.SegmentIds.{id_text};
ghost use Rattle.seg_generate.specs.SummaryText.{generated_line, summary_line};

use itoa::Buffer;
use seg_common::SegmentId;
use std::alloc::AllocError;

/// How many terms there are, and how many bytes they are together.
#[derive(Clone, Copy, Debug, PartialEq, Eq)]
pub struct TermTotals {
    pub terms: u64,
    pub bytes: u64,
}

/// The first line.
pub fn push_generated(out: &mut Vec<u8>) -> Result<(), AllocError>
    ensures { OnOk result (out.new.items ≡ out.old.items ++ generated_line) }
{
    out.extend_from_slice(b"generated 2250 operations 2000 documents\n")?;
    Ok(())
}

/// The line of a segment of this many documents, of which this many are alive, with the terms of its indexed fields.
pub fn push_summary(
    out: &mut Vec<u8>,
    label: &str,
    id: SegmentId,
    documents: u64,
    alive: u64,
    totals: TermTotals,
) -> Result<(), AllocError>
    ensures { OnOk result (out.new.items ≡ out.old.items ++ summary_line label.now id documents alive totals) }
{
    out.extend_from_slice(label.as_bytes())?;
    out.push(b' ')?;
    push_id(out, id)?;
    push_count(out, b" docs ", documents)?;
    push_count(out, b" alive ", alive)?;
    push_count(out, b" terms ", totals.terms)?;
    push_count(out, b" bytes ", totals.bytes)?;
    out.push(b'\n')?;
    Ok(())
}

/// The digits of an id.
fn push_id(out: &mut Vec<u8>, id: SegmentId) -> Result<(), AllocError>
    ensures { OnOk result (out.new.items ≡ out.old.items ++ id_text id) }
{
    let mut digits = [0u8; 32];
    out.extend_from_slice(id.encode_uuid(&mut digits).as_bytes())?;
    Ok(())
}

/// A number after words.
fn push_count(out: &mut Vec<u8>, words: &[u8], count: u64) -> Result<(), AllocError>
    ensures { OnOk result (out.new.items ≡ out.old.items ++ (words.now ++ decimal count)) }
{
    out.extend_from_slice(words)?;
    let mut buffer = Buffer::new();
    out.extend_from_slice(buffer.format(count).as_bytes())?;
    Ok(())
}

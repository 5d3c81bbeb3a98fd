//! Postings.
ghost use Rattle.std.specs.Prelude.{◌≡◌, ◌∷◌, ◌++◌, false, OnOk, decimal};
ghost use Rattle.seg_text.specs.PostingText.{numbers_text, recorded_text, posting_text, recorded_of};

use crate::decimal::push_decimal;
use std::alloc::AllocError;

/// What is recorded of a term in a document: nothing, how often it occurs, or where.
#[derive(Clone, Copy, Debug)]
pub enum RecordedRef<'a> {
    Presence,
    Frequency(u64),
    Positions(&'a [u32]),
}

/// A document in which a term occurs, after a space.
/// After an error it is open what `out` holds.
pub fn push_posting(
    out: &mut Vec<u8>,
    document: u32,
    recorded: RecordedRef<'_>,
) -> Result<(), AllocError>
    ensures { OnOk result (out.new.items
        ≡ out.old.items ++ posting_text (record { document = document; recorded = recorded_of recorded.entry })) }
{
    out.push(b' ')?;
    push_decimal(out, u64::from(document))?;
    push_recorded(out, recorded)
}

fn push_recorded(out: &mut Vec<u8>, recorded: RecordedRef<'_>) -> Result<(), AllocError>
    ensures { OnOk result (out.new.items ≡ out.old.items ++ recorded_text (recorded_of recorded.entry)) }
{
    match recorded {
        RecordedRef::Presence => {}
        RecordedRef::Frequency(count) => push_count(out, count)?,
        RecordedRef::Positions(positions) => {
            push_count(out, positions.len() as u64)?;
            out.push(b'@')?;
            push_numbers(out, positions)?;
        }
    }
    Ok(())
}

fn push_count(out: &mut Vec<u8>, count: u64) -> Result<(), AllocError>
    ensures { OnOk result (out.new.items ≡ out.old.items ++ 120 ∷ decimal count) }
{
    out.push(b'x')?;
    push_decimal(out, count)
}

/// Numbers with commas between them.
fn push_numbers(out: &mut Vec<u8>, numbers: &[u32]) -> Result<(), AllocError>
    ensures { OnOk result (out.new.items ≡ out.old.items ++ numbers_text false numbers.now) }
{
    let mut later = false;
    for number in numbers {
        if later {
            out.push(b',')?;
        }
        push_decimal(out, u64::from(*number))?;
        later = true;
    }
    Ok(())
}

//! Numbers as decimal digits.
ghost use Rattle.std.specs.Prelude.{◌≡◌, ◌++◌, OnOk};
ghost use Rattle.seg_common.specs.DateDigits.{digits_text, without_last_zeros};

use std::alloc::AllocError;

/// This many digits, without the zeros at their end.
#[tactic(auto, using(crate::proofs::LastDateZeros::other_digit, crate::proofs::LastDateZeros::zero_digit))]
pub(crate) fn push_without_last_zeros(
    out: &mut Vec<u8>,
    count: u32,
    number: u64,
) -> Result<(), AllocError>
    ensures { OnOk result (out.new.items ≡ out.old.items ++ without_last_zeros (digits_text count number)) }
{
    if count == 0 {
        return Ok(());
    }
    if number % 10 == 0 {
        return push_without_last_zeros(out, count - 1, number / 10);
    }
    push_digits(out, count, number)
}

/// This many digits.
pub(crate) fn push_digits(out: &mut Vec<u8>, count: u32, number: u64) -> Result<(), AllocError>
    ensures { OnOk result (out.new.items ≡ out.old.items ++ digits_text count number) }
{
    if count == 0 {
        return Ok(());
    }
    push_digits(out, count - 1, number / 10)?;
    out.push(b'0' + (number % 10) as u8)?;
    Ok(())
}

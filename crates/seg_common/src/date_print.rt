//! Moments printed as RFC 3339, in UTC.
ghost use Rattle.std.specs.Prelude.{◌≡◌, ◌++◌, ◌<◌, ◌*◌, ◌^◌, ◌≤ℤ◌, pos, neg_ℤ, IfOk, IfErr, OnOk, string_bytes};
ghost use Rattle.seg_common.specs.DateText.{clock_text, date_text, day_text, fraction_text, time_text};

use crate::date_digits::{push_digits, push_without_last_zeros};
use crate::{CommonError, DateTime};
use jiff_core::civil::Date;
use std::alloc::{AllocError, Global};

const NANOS_IN_SECOND: u64 = 1_000_000_000;

const NANOS_IN_DAY: i64 = 86_400_000_000_000;

impl DateTime {
    /// The moment as RFC 3339 in UTC, with `T` and `Z`: `1969-12-31T23:59:59.5Z`. The fraction has no zeros at its end,
    /// and there is none for a whole second.
    pub fn to_rfc3339(self, alloc: Global) -> Result<String, CommonError>
        ensures ok { IfOk result (λ text. string_bytes text ≡ date_text self) }
        ensures err { IfErr result (λ e. e ≡ CommonError.OutOfMemory) }
    {
        let mut out = Vec::new(alloc);
        push_rfc3339(&mut out, self)?;
        Ok(String::from_utf8(out).unwrap())
    }
}

/// Appends the text of `to_rfc3339`.
pub fn push_rfc3339(out: &mut Vec<u8>, date: DateTime) -> Result<(), AllocError>
    ensures { OnOk result (out.new.items ≡ out.old.items ++ date_text date) }
{
    let nanos = date.into_timestamp_nanos();
    push_day(out, nanos.div_euclid(NANOS_IN_DAY))?;
    out.push(b'T')?;
    push_time(out, nanos.rem_euclid(NANOS_IN_DAY) as u64)?;
    out.push(b'Z')?;
    Ok(())
}

/// The date of a day of the years 0 to 9999, counted from 1970-01-01.
fn push_day(out: &mut Vec<u8>, day: i64) -> Result<(), AllocError>
    requires low { neg_ℤ (pos 719528) ≤ℤ day }
    requires high { day ≤ℤ pos 2932896 }
    ensures { OnOk result (out.new.items ≡ out.old.items ++ day_text day) }
{
    let date = Date::from_unix_epoch_day(day).unwrap();
    push_digits(out, 4, u64::from(date.year.unsigned_abs()))?;
    out.push(b'-')?;
    push_digits(out, 2, u64::from(date.month))?;
    out.push(b'-')?;
    push_digits(out, 2, u64::from(date.day))
}

/// The time of the nanoseconds since midnight.
fn push_time(out: &mut Vec<u8>, nanos: u64) -> Result<(), AllocError>
    ensures { OnOk result (out.new.items ≡ out.old.items ++ time_text nanos) }
{
    push_clock(out, nanos / NANOS_IN_SECOND)?;
    push_fraction(out, nanos % NANOS_IN_SECOND)
}

/// The hour, minute and second of the seconds since midnight.
fn push_clock(out: &mut Vec<u8>, seconds: u64) -> Result<(), AllocError>
    ensures { OnOk result (out.new.items ≡ out.old.items ++ clock_text seconds) }
{
    push_digits(out, 2, seconds / 3600)?;
    out.push(b':')?;
    push_digits(out, 2, seconds / 60 % 60)?;
    out.push(b':')?;
    push_digits(out, 2, seconds % 60)
}

fn push_fraction(out: &mut Vec<u8>, nanos: u64) -> Result<(), AllocError>
    ensures { OnOk result (out.new.items ≡ out.old.items ++ fraction_text nanos) }
{
    if nanos == 0 {
        return Ok(());
    }
    out.push(b'.')?;
    push_without_last_zeros(out, 9, nanos)
}

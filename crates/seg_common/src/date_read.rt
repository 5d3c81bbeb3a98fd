//! Moments read from texts of RFC 3339.
ghost use Rattle.std.specs.Prelude.{◌≡◌, ◌<◌, ◌^◌, length, drop, slice_index, Some, IfSome, IsTrue};
ghost use Rattle.std.specs.Char.{is_ascii_digit};
ghost use Rattle.std.specs.List.{list_all};
ghost use Rattle.jiff_core.specs.Calendar.{IsEpochDay, IsWithin};
ghost use Rattle.seg_common.specs.ParsedDates.{clock_read, date_of, day_read, fraction_len, fraction_read, moment_of, offset_read};

use crate::DateTime;
use crate::date_numeral::{leading_digits, nanos_of, read_number};
use jiff_core::civil::Date;

/// Whether a text begins with an ASCII digit, as every text does that `DateTime::parse_rfc3339` reads.
pub fn can_be_rfc3339_date_time(text: &str) -> bool
    ensures { result ≡ is_ascii_digit (slice_index text.now 0) }
{
    match text.as_bytes().first() {
        Some(byte) => byte.is_ascii_digit(),
        None => false,
    }
}

impl DateTime {
    /// The moment of a text of RFC 3339, `yyyy-mm-ddThh:mm:ss`, with a fraction or without one, and then `Z` or an
    /// offset from UTC. Of a fraction nine digits count. None where the calendar or the clock doesn't have it (a minute
    /// has no second 60), and where an `i64` of nanoseconds doesn't reach it.
    pub fn parse_rfc3339(text: &str) -> Option<DateTime>
        ensures { result ≡ date_of text.now }
    {
        let bytes = text.as_bytes();
        if bytes.len() < 19 || !bytes[10].eq_ignore_ascii_case(&b'T') {
            return None;
        }
        let rest = &bytes[19..];
        let (fraction, zone) = rest.split_at(fraction_len(rest));
        let day = read_day(&bytes[..10])?;
        let seconds = read_clock(&bytes[11..19])?;
        let nanos = read_fraction(fraction)?;
        let offset = read_offset(zone)?;
        moment(day, seconds, nanos, offset)
    }
}

/// The day number of `yyyy-mm-dd`.
fn read_day(text: &[u8]) -> Option<i64>
    requires { length text.now ≡ 10 }
    ensures value { result ≡ day_read text.now }
    ensures bound { IfSome result IsEpochDay }
{
    if text[4] != b'-' || text[7] != b'-' {
        return None;
    }
    let year = read_number(&text[..4])?;
    let month = read_number(&text[5..7])?;
    let day = read_number(&text[8..10])?;
    let Ok(date) = Date::new(year as i16, month as i8, day as i8) else {
        return None;
    };
    Some(i64::from(date.to_unix_epoch_day()))
}

/// The seconds since midnight of `hh:mm:ss`.
fn read_clock(text: &[u8]) -> Option<u32>
    requires { length text.now ≡ 8 }
    ensures value { result ≡ clock_read text.now }
    ensures bound { IfSome result (λ seconds. seconds < 86400) }
{
    if text[2] != b':' || text[5] != b':' {
        return None;
    }
    let hour = read_number(&text[..2])?;
    let minute = read_number(&text[3..5])?;
    let second = read_number(&text[6..8])?;
    if hour > 23 || minute > 59 || second > 59 {
        return None;
    }
    Some(hour * 3600 + minute * 60 + second)
}

/// How many bytes a fraction takes that stands first.
fn fraction_len(text: &[u8]) -> usize
    ensures { result ≡ fraction_len text.now }
{
    match text {
        [b'.', rest @ ..] => 1 + leading_digits(rest),
        _ => 0,
    }
}

/// The nanoseconds of a fraction, which is a point and digits, or of none.
fn read_fraction(text: &[u8]) -> Option<u32>
    requires { IsTrue (list_all is_ascii_digit (drop 1 text.now)) }
    ensures value { result ≡ fraction_read text.now }
    ensures bound { IfSome result (λ nanos. nanos < 10 ^ 9) }
{
    match text {
        [] => Some(0),
        [_] => None,
        [_, digits @ ..] => Some(nanos_of(digits)),
    }
}

/// The minutes by which a clock is ahead of UTC.
fn read_offset(text: &[u8]) -> Option<i64>
    ensures value { result ≡ offset_read text.now }
    ensures bound { IfSome result (IsWithin 1439) }
{
    if text.len() == 1 {
        return if text[0].eq_ignore_ascii_case(&b'Z') {
            Some(0)
        } else {
            None
        };
    }
    if text.len() != 6 || text[3] != b':' {
        return None;
    }
    let hours = read_number(&text[1..3])?;
    let minutes = read_number(&text[4..6])?;
    if hours > 23 || minutes > 59 {
        return None;
    }
    let minutes = i64::from(hours * 60 + minutes);
    match text[0] {
        b'+' => Some(minutes),
        b'-' => Some(-minutes),
        _ => None,
    }
}

/// The moment at which a clock that is this many minutes ahead of UTC shows this.
fn moment(day: i64, seconds: u32, nanos: u32, offset: i64) -> Option<DateTime>
    requires day { IsEpochDay day }
    requires seconds { seconds < 86400 }
    requires nanos { nanos < 10 ^ 9 }
    requires offset { IsWithin 1439 offset }
    ensures { result ≡ moment_of (Some day) (Some seconds) (Some nanos) (Some offset) }
{
    let seconds = day * 86_400 + i64::from(seconds) - offset * 60;
    let nanos = i128::from(seconds) * 1_000_000_000 + i128::from(nanos);
    match i64::try_from(nanos) {
        Ok(nanos) => Some(DateTime::from_timestamp_nanos(nanos)),
        Err(_) => None,
    }
}

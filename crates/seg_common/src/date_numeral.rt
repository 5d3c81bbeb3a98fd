//! Decimal digits read.
ghost use Rattle.std.specs.Prelude.{◌≡◌, ◌<◌, ◌≤◌, ◌^◌, length, IfSome, IsTrue};
ghost use Rattle.std.specs.Char.{is_ascii_digit};
ghost use Rattle.std.specs.List.{list_all, prefix_len};
ghost use Rattle.seg_common.specs.DateDigits.{number_of, parts_of};

/// The number that up to nine digits spell.
pub(crate) fn read_number(text: &[u8]) -> Option<u32>
    requires { length text.now ≤ 9 }
    ensures value { result ≡ number_of text.now }
    ensures bound { IfSome result (λ number. number < 10 ^ length text.now) }
{
    let mut number = 0;
    for byte in text {
        if !byte.is_ascii_digit() {
            return None;
        }
        number = number * 10 + u32::from(*byte - b'0');
    }
    Some(number)
}

/// How many digits stand first.
pub(crate) fn leading_digits(text: &[u8]) -> usize
    ensures { result ≡ prefix_len is_ascii_digit text.now }
{
    for (at, byte) in text.iter().enumerate() {
        if !byte.is_ascii_digit() {
            return at;
        }
    }
    text.len()
}

/// The nanoseconds of the digits after the point of a second.
pub(crate) fn nanos_of(digits: &[u8]) -> u32
    requires { IsTrue (list_all is_ascii_digit digits.now) }
    ensures value { result ≡ parts_of (10 ^ 9) digits.now }
    ensures bound { result < 10 ^ 9 }
{
    let mut unit = 1_000_000_000;
    let mut nanos = 0;
    for digit in digits {
        unit /= 10;
        nanos += u32::from(*digit - b'0') * unit;
    }
    nanos
}

//! Numbers of JSON, from their tokens.
ghost use Rattle.std.specs.Prelude.{◌≡◌, true, false, option_map};
ghost use Rattle.serde_json.specs.Read.{number_of, number_from};
ghost use Rattle.serde_json.specs.View.{number_view};

use fast_float::Numeral;
use serde_json::Number;

/// The number that a token writes, as `serde_json` reads it: an integer where it has 64 bits, else the nearest float,
/// where that is finite.
pub(crate) fn number_from(text: &str) -> Option<Number>
    ensures { option_map number_view result ≡ number_of text.now }
{
    let bytes = text.as_bytes();
    match bytes.strip_prefix(b"-") {
        Some(size) => below_zero(&Numeral::scan(size)),
        None => from_zero_on(&Numeral::scan(bytes)),
    }
}

fn from_zero_on(numeral: &Numeral<'_>) -> Option<Number>
    ensures { option_map number_view result ≡ number_from false numeral.now }
{
    match numeral.to_u64() {
        Some(number) => Some(Number::from(number)),
        None => Number::from_f64(numeral.to_float::<f64>(false)),
    }
}

fn below_zero(numeral: &Numeral<'_>) -> Option<Number>
    ensures { option_map number_view result ≡ number_from true numeral.now }
{
    match numeral.to_i64(true) {
        Some(number) if number < 0 => Some(Number::from(number)),
        _ => Number::from_f64(numeral.to_float::<f64>(true)),
    }
}

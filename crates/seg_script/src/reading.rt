//! How a value of a document is read.
ghost use Rattle.std.specs.Prelude.{◌≡◌, Some, option_map};
ghost use Rattle.serde_json.specs.View.{view};
ghost use Rattle.seg_script.specs.Pairs.{reading_in, reading_named, reading_of};

use seg_meta::kind_from;
use seg_values::FieldKind;
use serde_json::Value;

/// How a value is read.
#[derive(Clone, Copy)]
pub(crate) enum Reading {
    ByKind(FieldKind),
    WithTokens,
}

/// How a value is read in a field of this kind, or of none, with this word or without one.
pub(crate) fn reading_of(kind: Option<FieldKind>, word: Option<Value>) -> Option<Reading>
    ensures { result ≡ reading_of kind (option_map view word) }
{
    match word {
        Some(word) => reading_by_word(kind, &word),
        None => Some(Reading::ByKind(kind.unwrap_or(FieldKind::Json))),
    }
}

fn reading_by_word(kind: Option<FieldKind>, word: &Value) -> Option<Reading>
    ensures { result ≡ reading_of kind (Some (view word.now)) }
{
    let named = reading_named(word.as_str()?)?;
    Some(reading_in(kind, named))
}

/// In a field that the schema lacks a value is read as JSON, whatever the word.
fn reading_in(kind: Option<FieldKind>, named: Reading) -> Reading
    ensures { result ≡ reading_in kind named }
{
    match kind {
        Some(_) => named,
        None => Reading::ByKind(FieldKind::Json),
    }
}

fn reading_named(word: &str) -> Option<Reading>
    ensures { result ≡ reading_named word.now }
{
    if word == "tokens" {
        Some(Reading::WithTokens)
    } else {
        Some(Reading::ByKind(kind_from(word)?))
    }
}

//! The form of the terms of a field, which its kind asks for.
ghost use Rattle.std.specs.Prelude.{◌≡◌};
ghost use Rattle.std.specs.List.{list_all};
ghost use Rattle.std.specs.Str as texts;
ghost use Rattle.seg_model.specs.Shape as shape;
ghost use Rattle.seg_postings.specs.TermForms as forms;

use crate::asked_kind::type_code;
use seg_termdict::TermDictionary;
use seg_values::{BOOL_CODE, DATE_CODE, FieldKind, I64_CODE, TEXT_CODE, U64_CODE};
use std::str;

/// Whether each term has the form that a kind of field asks for. Most kinds ask for none, and then no term is looked
/// at.
pub(crate) fn are_formed(terms: &TermDictionary, kind: FieldKind) -> bool
    ensures { result ≡ list_all (forms.is_formed kind) terms.now }
{
    match kind {
        FieldKind::Json => each_is_formed(terms, kind),
        FieldKind::Facet => each_is_formed(terms, kind),
        _ => true,
    }
}

fn each_is_formed(terms: &TermDictionary, kind: FieldKind) -> bool
    ensures { result ≡ list_all (forms.is_formed kind) terms.now }
{
    let mut stream = terms.stream();
    while stream.advance() {
        if !has_form(kind, stream.key()) {
            return false;
        }
    }
    true
}

fn has_form(kind: FieldKind, term: &[u8]) -> bool
    ensures { result ≡ forms.has_form kind term.now }
{
    match kind {
        FieldKind::Json => is_utf8(path_part(term)) && is_type_code(type_code(term)),
        FieldKind::Facet => is_utf8(term),
        _ => true,
    }
}

fn is_utf8(bytes: &[u8]) -> bool
    ensures { result ≡ texts.is_utf8 bytes.now }
{
    match str::from_utf8(bytes) {
        Ok(_) => true,
        Err(_) => false,
    }
}

/// The bytes before the first byte 0; all of them if there is none.
pub(crate) fn path_part(bytes: &[u8]) -> &[u8]
    ensures { result.now ≡ shape.path_part bytes.now }
{
    for at in 0..bytes.len() {
        if bytes[at] == 0 {
            return &bytes[..at];
        }
    }
    bytes
}

fn is_type_code(code: u8) -> bool
    ensures { result ≡ shape.is_type_code code }
{
    code == TEXT_CODE
        || code == I64_CODE
        || code == U64_CODE
        || code == BOOL_CODE
        || code == DATE_CODE
}

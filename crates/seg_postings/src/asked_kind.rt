//! Which kind the entry of a field asks its terms for.
ghost use Rattle.std.specs.Prelude.{◌≡◌, ◌<◌, length, IfOk, IfErr, IsSomeAnd, slice_get};
ghost use Rattle.seg_model.specs.DocumentTerms as reading;
ghost use Rattle.seg_postings.specs.OpenedFields.{asked_kind};

use crate::record_kind::RecordKind;
use seg_termdict::{TermDictionary, TermOrdinal};
use seg_values::{FieldEntry, FieldKind, IndexOption, PostingsError, TEXT_CODE};

/// What a field is, and what its texts record: these say what the postings of each of its terms keep.
#[derive(Clone, Copy)]
pub struct AskedKind {
    pub kind: FieldKind,
    pub index: IndexOption,
}

impl AskedKind {
    /// What the entry of a field asks for.
    pub fn of_entry(entry: &FieldEntry) -> AskedKind
        ensures { result ≡ record { kind = entry.now.kind; index = entry.now.index } }
    {
        AskedKind {
            kind: entry.kind,
            index: entry.index,
        }
    }

    /// The kind that a term with these bytes is asked for.
    pub fn of_bytes(self, bytes: &[u8]) -> RecordKind
        ensures { result ≡ asked_kind self.kind self.index bytes.now }
    {
        match self.kind {
            FieldKind::Text => RecordKind::of_option(self.index),
            FieldKind::Json => json_kind(self.index, bytes),
            _ => RecordKind::Documents,
        }
    }

    /// The kind that the term at a place is asked for. A JSON field is asked by the bytes of the term, which `key`
    /// takes.
    pub(crate) fn of_term(
        self,
        terms: &TermDictionary,
        ord: TermOrdinal,
        key: &mut Vec<u8>,
    ) -> Result<RecordKind, PostingsError>
        requires { ord < length terms.now }
        ensures ok { IfOk result (λ kind. IsSomeAnd (slice_get terms.now ord) (λ t. kind
            ≡ asked_kind self.kind self.index t.0)) }
        ensures err { IfErr result (λ e. e ≡ PostingsError.OutOfMemory) }
    {
        match self.kind {
            FieldKind::Text => Ok(RecordKind::of_option(self.index)),
            FieldKind::Json => {
                let Ok(_) = terms.ord_to_term(ord, key) else {
                    return Err(PostingsError::OutOfMemory);
                };
                Ok(json_kind(self.index, key))
            }
            _ => Ok(RecordKind::Documents),
        }
    }
}

/// The kind of a term of a JSON field: a text's is what the option says, and all others keep their documents alone.
fn json_kind(index: IndexOption, key: &[u8]) -> RecordKind
    ensures { result ≡ asked_kind FieldKind.Json index key.now }
{
    if type_code(key) == TEXT_CODE {
        RecordKind::of_option(index)
    } else {
        RecordKind::Documents
    }
}

/// The byte after the first byte 0; 0 if there is none.
pub(crate) fn type_code(bytes: &[u8]) -> u8
    ensures { result ≡ reading.type_code bytes.now }
{
    for at in 0..bytes.len() {
        if bytes[at] == 0 {
            return if at + 1 < bytes.len() {
                bytes[at + 1]
            } else {
                0
            };
        }
    }
    0
}
